//! Requests of one block each, answered over a volume.

ghost use Rattle.std.specs.Prelude.{◌≡◌, [], IfSome};
ghost use Rattle.zd_plain.specs.Plan.{IsPlan, IsRequest};

use crate::places::next_of;
use std::alloc::Global;
use zd_disk::ZonedDisk;
use zd_model::{Request, What};
use zd_plain::Plan;
use zd_session::Session;
use zd_state::Volume;

/// What requests ask for: a block to be read, or to be written.
#[derive(Clone, Copy, Debug, PartialEq, Eq)]
pub enum Asked {
    Read,
    Write,
}

/// The request for one block, of the first caller.
fn request_of(asked: Asked, block: u64) -> Request
    ensures { IsRequest result }
{
    let what = match asked {
        Asked::Read => What::Read { block, count: 1 },
        Asked::Write => What::Write {
            block,
            count: 1,
            seed: 1,
        },
    };
    Request { caller: 0, what }
}

/// So many requests of the first caller, each for the block so many blocks after the one before, round and round. None
/// where no memory is found.
fn plan_of(alloc: Global, asked: Asked, count: u32, step: u64, blocks: u64) -> Option<Plan>
    ensures { IfSome result IsPlan }
{
    let mut plan = Plan::new(alloc);
    let mut at = 0;
    for i in 0..count {
        let _number = i;
        plan.push(request_of(asked, at)).ok()?;
        at = next_of(at, step, blocks);
    }
    Some(plan)
}

/// Answers so many requests over a volume that was just opened, each for the block so many blocks after the one before,
/// round and round, by one actor. The volume isn't closed. None where no memory is found.
pub fn answer_all<D: ZonedDisk>(
    alloc: Global,
    volume: Volume<D>,
    asked: Asked,
    count: u32,
    step: u64,
) -> Option<Session<D>>
    requires { volume.plain.history ≡ [] }
{
    let blocks = u64::from(volume.layout().chunks) * u64::from(volume.geometry().zone_blocks());
    let plan = plan_of(alloc, asked, count, step, blocks)?;
    let mut session = Session::begin(alloc, volume, plan, 1).ok()?;
    session.run_alone();
    Some(session)
}
