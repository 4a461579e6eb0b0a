//! Candidates for jobs, with the answers by hand, and beside a walk along the use order.

ghost use Rattle.std.specs.Prelude.{◌≡◌, ◌<◌, IfOk, length};
ghost use Rattle.zd_alloc.specs.Candidates.{IsInOrder};

use super::order::four;
use crate::{Alloc, Candidates, JobClass};
use std::alloc::Global;
use std::test::Fail;
use zd_base::ChunkNo;

/// The zones of a disk with four chunks, and candidates that were written in the same order.
#[derive(Drop)]
struct Paired {
    zones: Alloc,
    candidates: Candidates,
    ghost four: { length zones.order ≡ 4 },
    ghost all: { length candidates.classes ≡ 4 },
    ghost in_order: { IsInOrder zones.order candidates.numbers },
}

/// Four chunks, none of which has a class.
fn fresh_pair(alloc: Global) -> Result<Paired, Fail> {
    Ok(Paired {
        zones: four(alloc)?,
        candidates: Candidates::new(alloc, 4)?,
    })
}

impl Paired {
    /// Puts a chunk last in both.
    fn touch(&mut self, chunk: u32)
        requires { chunk < 4 }
    {
        self.zones.touch(ChunkNo(chunk));
        self.candidates.touch(ChunkNo(chunk));
    }

    /// Gives a chunk a class, or none.
    fn set(&mut self, chunk: u32, class: Option<JobClass>)
        requires { chunk < 4 }
    {
        self.candidates.set(ChunkNo(chunk), class);
    }

    /// Gives all chunks new numbers.
    fn renumber(&mut self) {
        self.candidates.renumber();
    }

    /// The first chunk of one of two classes on a walk along the use order.
    fn walked(&self, first: JobClass, second: JobClass) -> Option<ChunkNo> {
        let mut next = Some(self.zones.oldest());
        for _ in 0..4 {
            let chunk = next?;
            let class = self.candidates.class(chunk);
            if class == Some(first) || class == Some(second) {
                return Some(chunk);
            }
            next = self.zones.after(chunk);
        }
        None
    }
}

/// A chunk as a digit, and 9 for none.
fn digit(chunk: Option<ChunkNo>) -> u32 {
    match chunk {
        Some(chunk) => chunk.0 % 10,
        None => 9,
    }
}

/// The oldest chunk of a class.
fn oldest(both: &Paired, class: JobClass) -> u32 {
    digit(both.candidates.oldest(class))
}

/// The oldest chunk of either of two classes.
fn either(both: &Paired, first: JobClass, second: JobClass) -> u32 {
    digit(both.candidates.oldest_of_either(first, second))
}

#[test]
fn the_oldest_chunk_of_a_class(rt: HostRuntime) -> Result<(), Fail> {
    let mut both = fresh_pair(rt.alloc())?;
    assert_eq!(rt; oldest(&both, JobClass::Merge), 9);
    both.set(2, Some(JobClass::Merge));
    both.set(1, Some(JobClass::Merge));
    assert_eq!(rt; oldest(&both, JobClass::Merge), 1);
    both.touch(1);
    assert_eq!(rt; oldest(&both, JobClass::Merge), 2);
    both.touch(2);
    assert_eq!(rt; oldest(&both, JobClass::Merge), 1);
    both.set(1, None);
    assert_eq!(rt; oldest(&both, JobClass::Merge), 2);
    both.set(2, Some(JobClass::Move));
    assert_eq!(rt; oldest(&both, JobClass::Merge), 9);
    assert_eq!(rt; oldest(&both, JobClass::Move), 2);
    Ok(())
}

#[test]
fn the_oldest_chunk_of_either_of_two_classes(rt: HostRuntime) -> Result<(), Fail> {
    let mut both = fresh_pair(rt.alloc())?;
    both.set(1, Some(JobClass::Append));
    both.set(3, Some(JobClass::Move));
    assert_eq!(rt; either(&both, JobClass::Move, JobClass::Append), 1);
    assert_eq!(rt; either(&both, JobClass::Empty, JobClass::Move), 3);
    assert_eq!(rt; either(&both, JobClass::Empty, JobClass::Merge), 9);
    both.touch(1);
    assert_eq!(rt; either(&both, JobClass::Append, JobClass::Move), 3);
    Ok(())
}

/// Two chunks of a class each, after four touches. These are the digits of `turn` in base four;
/// the chunks get new numbers after two of them.
fn turned(alloc: Global, turn: u32) -> Result<Paired, Fail> {
    let mut both = fresh_pair(alloc)?;
    both.set(turn % 4, Some(JobClass::Append));
    both.set(turn / 16 % 4, Some(JobClass::Move));
    let mut rest = turn;
    for round in 0..4 {
        both.touch(rest % 4);
        rest /= 4;
        if round == 1 {
            both.renumber();
        }
    }
    Ok(both)
}

#[test]
fn all_touches_with_new_numbers_between(rt: HostRuntime) -> Result<(), Fail> {
    for turn in 0..256 {
        let both = turned(rt.alloc(), turn)?;
        let walked = digit(both.walked(JobClass::Append, JobClass::Move));
        assert_eq!(rt; either(&both, JobClass::Append, JobClass::Move), walked);
        let walked = digit(both.walked(JobClass::Move, JobClass::Move));
        assert_eq!(rt; oldest(&both, JobClass::Move), walked);
    }
    Ok(())
}
