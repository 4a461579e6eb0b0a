//! The order in which chunks were written.

ghost use Rattle.std.specs.Prelude.{◌≡◌, ◌<◌, ◌≤◌, length, IfOk, IfSome, Some, slice_get};
ghost use Rattle.std.specs.List.{range_with_len};
ghost use Rattle.zd_alloc.specs.Order.{PutsLast, IsAfter};

use crate::links::Links;
use std::alloc::{AllocError, Global};
use std::marker::Model;

/// All chunks in the order of their use. Contracts see the list.
#[derive(Drop)]
pub(crate) struct UseOrder {
    // The places are the chunks; the end stands before the first and after the last.
    links: Links,
}

impl Model for UseOrder {
    ghost use Rattle.std.specs.Prelude.{ℕ, List};
    ghost use Rattle.zd_alloc.specs.Links.{order_of, IsFullRing};

    ghost Value = { List ℕ };

    ghost view = { λ u. order_of u.links };

    ghost invariant = { λ u. IsFullRing u.links (order_of u.links) };
}

impl UseOrder {
    /// The chunks 0, 1, 2, .. in this order.
    pub(crate) fn new(alloc: Global, chunks: u32) -> Result<UseOrder, AllocError>
        requires some { 0 < chunks }
        requires few { chunks ≤ 65536 }
        ensures { IfOk result (λ order. order ≡ range_with_len 0 chunks) }
    {
        let mut links = Links::new(alloc, chunks)?;
        for chunk in 0..chunks {
            links.append(chunk);
        }
        Ok(UseOrder { links })
    }

    /// Puts a chunk last.
    pub(crate) fn touch(&mut self, chunk: u32)
        requires { chunk < length self.old }
        ensures { PutsLast chunk self.old self.new }
    {
        self.links.remove(chunk);
        self.links.append(chunk);
    }

    /// The first chunk.
    pub(crate) fn oldest(&self) -> u32
        ensures value { slice_get self.now 0 ≡ Some result }
        ensures inside { result < length self.now }
    {
        self.links.next(self.links.end())
    }

    /// The chunk after this one.
    pub(crate) fn after(&self, chunk: u32) -> Option<u32>
        requires { chunk < length self.now }
        ensures value { IsAfter self.now chunk result }
        ensures inside { IfSome result (λ next. next < length self.now) }
    {
        let next = self.links.next(chunk);
        if next == self.links.end() {
            None
        } else {
            Some(next)
        }
    }
}
