//! Places in a ring, which costs the same to change wherever it is changed.

ghost use Rattle.std.specs.Prelude.{◌≡◌, ◌<◌, ◌≤◌, ◌+◌, [], length, IfOk, replicate};
ghost use Rattle.zd_alloc.specs.Links.{end_of, next_of, prev_of, joined, IsRing, Removes, Appends};

use std::alloc::{AllocError, Global};
use std::marker::Model;

/// A ring of places. It goes through the end, which is the greatest place, and through some of
/// those below it, each at most once. Contracts see both tables.
#[derive(Drop)]
pub(crate) struct Links {
    next: Vec<u32>,
    prev: Vec<u32>,
}

impl Model for Links {
    ghost use Rattle.zd_alloc.specs.Links.{LinkTables, AreLinks};

    ghost Value = { LinkTables };

    ghost view = { λ l. record { next = l.next.items; prev = l.prev.items } };

    ghost invariant = { λ l. AreLinks (record { next = l.next.items; prev = l.prev.items }) };
}

fn all_at(alloc: Global, end: u32) -> Result<Vec<u32>, AllocError>
    requires { end ≤ 65536 }
    ensures { IfOk result (λ v. v.items ≡ replicate (end + 1) end) }
{
    vec![in alloc; end; end as usize + 1]
}

impl Links {
    /// A ring of the end alone.
    pub(crate) fn new(alloc: Global, end: u32) -> Result<Links, AllocError>
        requires { end ≤ 65536 }
        ensures end { IfOk result (λ t. end_of t ≡ end) }
        ensures ring { IfOk result (λ t. IsRing t []) }
    {
        let next = all_at(alloc, end)?;
        let prev = all_at(alloc, end)?;
        Ok(Links { next, prev })
    }

    /// The greatest place.
    pub(crate) fn end(&self) -> u32
        ensures value { result ≡ end_of self.now }
        ensures few { end_of self.now ≤ 65536 }
    {
        self.next.len() as u32 - 1
    }

    /// The place after this one.
    pub(crate) fn next(&self, place: u32) -> u32
        requires { place ≤ end_of self.now }
        ensures value { result ≡ next_of self.now place }
        ensures inside { result ≤ end_of self.now }
    {
        self.next[place as usize]
    }

    /// The place before this one.
    pub(crate) fn prev(&self, place: u32) -> u32
        requires { place ≤ end_of self.now }
        ensures value { result ≡ prev_of self.now place }
        ensures inside { result ≤ end_of self.now }
    {
        self.prev[place as usize]
    }

    /// Lets the first place lead to the second.
    fn join(&mut self, first: u32, second: u32)
        requires first { first ≤ end_of self.old }
        requires second { second ≤ end_of self.old }
        ensures { self.new ≡ joined first second self.old }
    {
        self.next[first as usize] = second;
        self.prev[second as usize] = first;
    }

    /// Takes a place out of the ring.
    pub(crate) fn remove(&mut self, place: u32)
        requires { place < end_of self.old }
        ensures ring { Removes place self.old self.new }
        ensures end { end_of self.new ≡ end_of self.old }
    {
        let before = self.prev(place);
        let after = self.next(place);
        self.join(before, after);
    }

    /// Puts a place into the ring, right before the end.
    pub(crate) fn append(&mut self, place: u32)
        requires { place < end_of self.old }
        ensures ring { Appends place self.old self.new }
        ensures end { end_of self.new ≡ end_of self.old }
    {
        let end = self.end();
        let last = self.prev(end);
        self.join(last, place);
        self.join(place, end);
    }
}
