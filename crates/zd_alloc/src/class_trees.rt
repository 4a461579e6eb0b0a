//! For each class of jobs the least number.

ghost use Rattle.std.specs.Prelude.{◌≡◌, ◌≢◌, ◌<◌, length, replicate, set, IfOk, IfSome, IfNone};
ghost use Rattle.zd_alloc.specs.LeastTree.{IsLeastPlace, HasNoPlace};
ghost use Rattle.zd_alloc.specs.Candidates.{list_of};
ghost use Rattle.zd_alloc.specs.declared.job_class.JobClass.{JobClass};

use crate::job_class::JobClass;
use crate::least_tree::{LeastTree, NEVER};
use std::alloc::{AllocError, Global};
use std::marker::Model;

/// A tree of numbers for each class, all with the same places. Contracts see the lists of numbers.
#[derive(Drop)]
pub(crate) struct ClassTrees {
    appends: LeastTree,
    moves: LeastTree,
    merges: LeastTree,
    empties: LeastTree,
}

impl Model for ClassTrees {
    ghost use Rattle.zd_alloc.specs.Candidates.{ClassLists};

    ghost Value = { ClassLists };

    ghost view = { λ t. record {
      appends = t.appends;
      moves = t.moves;
      merges = t.merges;
      empties = t.empties;
    } };
}

impl ClassTrees {
    /// So many places, none of which has a number.
    pub(crate) fn new(alloc: Global, count: u32) -> Result<ClassTrees, AllocError>
        requires { 0 < count }
        ensures { IfOk result (λ t. (class : JobClass) → list_of t class ≡ replicate count NEVER) }
    {
        Ok(ClassTrees {
            appends: LeastTree::new(alloc, count)?,
            moves: LeastTree::new(alloc, count)?,
            merges: LeastTree::new(alloc, count)?,
            empties: LeastTree::new(alloc, count)?,
        })
    }

    /// Gives a place this number in the tree of one class.
    pub(crate) fn set(&mut self, class: JobClass, place: u32, number: u64)
        requires { place < length (list_of self.old class) }
        ensures there { list_of self.new class ≡ set (list_of self.old class) place number }
        ensures others { (other : JobClass) → other ≢ class
            → list_of self.new other ≡ list_of self.old other }
    {
        match class {
            JobClass::Append => self.appends.set(place, number),
            JobClass::Move => self.moves.set(place, number),
            JobClass::Merge => self.merges.set(place, number),
            JobClass::Empty => self.empties.set(place, number),
        }
    }

    /// A place with the least number of a class. None exactly where no place has one.
    pub(crate) fn least(&self, class: JobClass) -> Option<u32>
        ensures some { IfSome result (λ place. IsLeastPlace (list_of self.now class) place) }
        ensures none { IfNone result (HasNoPlace (list_of self.now class)) }
    {
        match class {
            JobClass::Append => self.appends.least(),
            JobClass::Move => self.moves.least(),
            JobClass::Merge => self.merges.least(),
            JobClass::Empty => self.empties.least(),
        }
    }
}
