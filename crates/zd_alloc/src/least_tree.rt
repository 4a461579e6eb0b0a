//! Numbers of which the least is found at once.

ghost use Rattle.std.specs.Prelude.{◌≡◌, ◌*◌, ◌+◌, ◌<◌, length, replicate, set, IfOk, IfSome, IfNone};
ghost use Rattle.zd_alloc.specs.LeastTree.{least_under, IsLeastPlace, HasNoPlace};

use std::alloc::{AllocError, Global};
use std::marker::Model;

/// The number at a place that has none.
pub(crate) const NEVER: u64 = u64::MAX;

/// So many places, each with a number or with none. Contracts see the list of numbers.
#[derive(Drop)]
pub(crate) struct LeastTree {
    // Node i, from the root 1 on, is the least of nodes 2i and 2i + 1; the places come last.
    nodes: Vec<u64>,
    count: u32,
}

impl Model for LeastTree {
    ghost use Rattle.std.specs.Prelude.{ℕ, List, drop};
    ghost use Rattle.zd_alloc.specs.LeastTree.{IsLeastTree};

    ghost Value = { List ℕ };

    ghost view = { λ t. drop t.count t.nodes.items };

    ghost invariant = { λ t. IsLeastTree t.count t.nodes.items };
}

fn no_numbers(alloc: Global, nodes: usize) -> Result<Vec<u64>, AllocError>
    ensures { IfOk result (λ v. v.items ≡ replicate nodes NEVER) }
{
    vec![in alloc; NEVER; nodes]
}

/// Makes a node the least of the two under it.
fn mend(nodes: &mut Vec<u64>, i: usize)
    requires some { 0 < i }
    requires inside { 2 * i + 1 < length nodes.old.items }
    ensures { nodes.new.items ≡ set nodes.old.items i (least_under nodes.old.items i) }
{
    nodes[i] = nodes[2 * i].min(nodes[2 * i + 1]);
}

impl LeastTree {
    /// So many places, none of which has a number.
    pub(crate) fn new(alloc: Global, count: u32) -> Result<LeastTree, AllocError>
        requires { 0 < count }
        ensures { IfOk result (λ t. t ≡ replicate count NEVER) }
    {
        let nodes = no_numbers(alloc, 2 * count as usize)?;
        Ok(LeastTree { nodes, count })
    }

    /// Gives a place this number.
    pub(crate) fn set(&mut self, place: u32, number: u64)
        requires { place < length self.old }
        ensures { self.new ≡ set self.old place number }
    {
        let mut i = self.count as usize + place as usize;
        self.nodes[i] = number;
        while i > 1 {
            i /= 2;
            mend(&mut self.nodes, i);
        }
    }

    /// A place with the least number. None exactly where no place has one.
    pub(crate) fn least(&self) -> Option<u32>
        ensures some { IfSome result (λ place. IsLeastPlace self.now place) }
        ensures none { IfNone result (HasNoPlace self.now) }
    {
        let least = self.nodes[1];
        if least == NEVER {
            return None;
        }
        let count = self.count as usize;
        let mut i = 1;
        while i < count {
            i = if self.nodes[2 * i] == least {
                2 * i
            } else {
                2 * i + 1
            };
        }
        Some((i - count) as u32)
    }
}
