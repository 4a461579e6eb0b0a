//! Chunks that jobs are possible on, and which of them was written least recently.

ghost use Rattle.std.specs.Prelude.{◌≡◌, ◌↔◌, ℕ, ◌+◌, ◌-◌, ◌<◌, ◌≤◌, ◌^◌, length, replicate, set, slice_index, nat_lt, if◌then◌else◌, IsTrue, IfOk, IfSome, IfNone};
ghost use Rattle.std.specs.List.{range_with_len};
ghost use Rattle.std.specs.Option.{ForSome};
ghost use Rattle.zd_alloc.specs.Candidates.{class_of, has_class, has_either, GivesClass, IsInOrder, Follows, IsOldestSuch};
ghost use Rattle.zd_alloc.specs.Candidates.{KeepsRising, IsFirstSuch, HasNoSuch, is_from, count_from};

use crate::class_trees::ClassTrees;
use crate::job_class::JobClass;
use crate::least_tree::NEVER;
use std::alloc::{AllocError, Global};
use std::marker::Model;
use zd_base::{ChunkNo, Memory};

/// What each chunk can be picked for, and which chunk of a class was written least recently.
///
/// Contracts see for each chunk its class and the number of its last write: along the use order of
/// `Alloc` the numbers rise (`IsInOrder`). A call goes up or down a tree, once or twice; but one
/// `touch` in 2^64 gives all chunks new numbers first. No call but `new` takes memory.
#[derive(Drop)]
pub struct Candidates {
    classes: Vec<Option<JobClass>>,
    numbers: Vec<u64>,
    // Greater than all numbers.
    next: u64,
    // For each class the numbers of its chunks.
    trees: ClassTrees,
}

impl Model for Candidates {
    ghost use Rattle.zd_alloc.specs.Candidates.{Standings, standings, AreListed};

    ghost Value = { Standings };

    ghost view = { λ c. standings c.classes.items c.numbers.items c.next };

    ghost invariant = { λ c. AreListed (standings c.classes.items c.numbers.items c.next) c.trees };
}

fn no_classes(alloc: Global, chunks: u32) -> Result<Vec<Option<JobClass>>, AllocError>
    ensures { IfOk result (λ v. v.items ≡ replicate chunks None) }
{
    vec![in alloc; None; chunks as usize]
}

/// The numbers 0, 1, 2, ..
fn rising(alloc: Global, chunks: u32) -> Result<Vec<u64>, AllocError>
    ensures { IfOk result (λ v. v.items ≡ range_with_len 0 chunks) }
{
    let mut numbers = Vec::with_capacity(alloc, chunks as usize)?;
    for number in 0..u64::from(chunks) {
        numbers.push(number)?;
    }
    Ok(numbers)
}

/// Whether the number at this place is less than at the one found before, if there is one.
fn is_less(numbers: &[u64], place: usize, found: Option<usize>) -> bool
    requires place { place < length numbers.now }
    requires found { ForSome found (λ other. other < length numbers.now) }
    ensures less { IfSome found (λ other.
        IsTrue result ↔ (slice_index numbers.now place < slice_index numbers.now other)) }
    ensures first { IfNone found (IsTrue result) }
{
    match found {
        Some(other) => numbers[place] < numbers[other],
        None => true,
    }
}

/// A place with the least number from `bound` on. None exactly where all numbers are below it.
fn least_from(numbers: &[u64], bound: u64) -> Option<usize>
    ensures some { IfSome result (λ place. IsFirstSuch (is_from bound numbers.now) numbers.now place) }
    ensures none { IfNone result (HasNoSuch (is_from bound numbers.now) numbers.now) }
{
    let mut found = None;
    for place in 0..numbers.len() {
        if bound <= numbers[place] && is_less(numbers, place, found) {
            found = Some(place);
        }
    }
    found
}

impl Candidates {
    /// So many chunks, none of which has a class, in the order of their numbers.
    pub fn new(alloc: Global, chunks: u32) -> Result<Candidates, Memory>
        requires { 0 < chunks }
        ensures classes { IfOk result (λ c. c.classes ≡ replicate chunks None) }
        ensures order { IfOk result (λ c. IsInOrder (range_with_len 0 chunks) c.numbers) }
    {
        let Ok(classes) = no_classes(alloc, chunks) else {
            return Err(Memory);
        };
        let Ok(numbers) = rising(alloc, chunks) else {
            return Err(Memory);
        };
        let Ok(trees) = ClassTrees::new(alloc, chunks) else {
            return Err(Memory);
        };
        Ok(Candidates {
            classes,
            numbers,
            next: u64::from(chunks),
            trees,
        })
    }

    /// The class of a chunk.
    pub fn class(&self, chunk: ChunkNo) -> Option<JobClass>
        requires { chunk < length self.now.classes }
        ensures { result ≡ class_of self.now.classes chunk }
    {
        self.classes[chunk.0 as usize]
    }

    /// Gives a chunk this class, or none.
    pub fn set(&mut self, chunk: ChunkNo, class: Option<JobClass>)
        requires { chunk < length self.old.classes }
        ensures classes { GivesClass chunk class self.old.classes self.new.classes }
        ensures numbers { self.new.numbers ≡ self.old.numbers }
        ensures next { self.new.next ≡ self.old.next }
    {
        self.clear(chunk.0);
        if let Some(class) = class {
            self.enter(chunk.0, class);
        }
    }

    /// Takes a chunk's class away.
    fn clear(&mut self, chunk: u32)
        requires { chunk < length self.old.classes }
        ensures { self.new ≡ record self.old { classes = set self.old.classes chunk None } }
    {
        if let Some(class) = self.classes[chunk as usize] {
            self.trees.set(class, chunk, NEVER);
            self.classes[chunk as usize] = None;
        }
    }

    /// Gives a chunk without a class this one.
    fn enter(&mut self, chunk: u32, class: JobClass)
        requires inside { chunk < length self.old.classes }
        requires none { class_of self.old.classes chunk ≡ None }
        ensures { self.new ≡ record self.old { classes = set self.old.classes chunk (Some class) } }
    {
        self.trees.set(class, chunk, self.numbers[chunk as usize]);
        self.classes[chunk as usize] = Some(class);
    }

    /// Puts a chunk last in the use order: it was written now.
    pub fn touch(&mut self, chunk: ChunkNo)
        requires { chunk < length self.old.classes }
        ensures order { Follows chunk self.old.numbers self.new.numbers }
        ensures classes { self.new.classes ≡ self.old.classes }
    {
        self.make_room();
        let number = self.next;
        self.next += 1;
        self.give_number(chunk.0, number);
    }

    /// Gives all chunks new numbers in their order, where the next number is the last there is.
    fn make_room(&mut self)
        ensures order { KeepsRising self.old.numbers self.new.numbers }
        ensures room { self.new.next < NEVER }
        ensures classes { self.new.classes ≡ self.old.classes }
    {
        if self.next == NEVER {
            self.renumber();
        }
    }

    /// Gives all chunks the numbers 0, 1, 2, .. in their order. The time is the square of their
    /// number, since no memory can be had for another list.
    pub(crate) fn renumber(&mut self)
        ensures order { KeepsRising self.old.numbers self.new.numbers }
        ensures next { self.new.next < 2 ^ 32 }
        ensures classes { self.new.classes ≡ self.old.classes }
    {
        let chunks = self.classes.len() as u64;
        for rank in 0..chunks {
            self.lower(rank);
        }
        self.next = chunks;
    }

    /// Puts this number in place of the least one that isn't below it.
    fn lower(&mut self, rank: u64)
        ensures order { KeepsRising self.old.numbers self.new.numbers }
        ensures fewer { count_from (rank + 1) self.new.numbers ≤ count_from rank self.old.numbers - 1 }
        ensures rest { self.new ≡ record self.old { numbers = self.new.numbers } }
    {
        if let Some(chunk) = least_from(&self.numbers, rank) {
            self.give_number(chunk as u32, rank);
        }
    }

    /// Gives a chunk this number.
    fn give_number(&mut self, chunk: u32, number: u64)
        requires inside { chunk < length self.old.classes }
        requires below { number < self.old.next }
        ensures { self.new ≡ record self.old { numbers = set self.old.numbers chunk number } }
    {
        if let Some(class) = self.classes[chunk as usize] {
            self.trees.set(class, chunk, number);
        }
        self.numbers[chunk as usize] = number;
    }

    /// The first chunk of this class in use order. None exactly where no chunk has it.
    pub fn oldest(&self, class: JobClass) -> Option<ChunkNo>
        ensures value { IsOldestSuch (has_class self.now.classes class) self.now.numbers result }
        ensures inside { IfSome result (λ chunk. chunk < length self.now.classes) }
    {
        let chunk = self.first_of(class)?;
        Some(ChunkNo(chunk))
    }

    /// The first chunk in use order that has one of these two classes. None exactly where no chunk
    /// has one of them.
    pub fn oldest_of_either(&self, first: JobClass, second: JobClass) -> Option<ChunkNo>
        ensures value { IsOldestSuch (has_either self.now.classes first second) self.now.numbers result }
        ensures inside { IfSome result (λ chunk. chunk < length self.now.classes) }
    {
        match (self.first_of(first), self.first_of(second)) {
            (Some(chunk), Some(other)) => Some(ChunkNo(self.older(chunk, other))),
            (Some(chunk), None) => Some(ChunkNo(chunk)),
            (None, Some(other)) => Some(ChunkNo(other)),
            (None, None) => None,
        }
    }

    /// A chunk of this class with the least number. None exactly where no chunk has the class.
    fn first_of(&self, class: JobClass) -> Option<u32>
        ensures some { IfSome result (λ chunk.
            IsFirstSuch (has_class self.now.classes class) self.now.numbers chunk) }
        ensures none { IfNone result (HasNoSuch (has_class self.now.classes class) self.now.numbers) }
    {
        self.trees.least(class)
    }

    /// The one of two chunks that was written before the other.
    fn older(&self, chunk: u32, other: u32) -> u32
        requires chunk { chunk < length self.now.numbers }
        requires other { other < length self.now.numbers }
        ensures { result ≡ (if nat_lt (slice_index self.now.numbers other) (slice_index self.now.numbers chunk)
            then other else chunk) }
    {
        if self.numbers[other as usize] < self.numbers[chunk as usize] {
            other
        } else {
            chunk
        }
    }
}
