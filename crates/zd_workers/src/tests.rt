//! What no clause says: that each actor steps beside the others, that steps are neither lost nor
//! made twice, that an actor leaves at the end and not before, and where the gate is passed. Nothing
//! here depends on who steps when.

mod meeting;
mod roll;

use crate::alone::drive;
use crate::{FreeGate, Stepper, run_actors};
use meeting::Meeting;
use roll::Roll;
use std::test::Fail;
use zd_base::{Prefer, StepKind, Stepped, Why};

const DID: Stepped = Stepped::Did(StepKind::ReadRun);

#[test]
fn a_stepper_that_has_ended_makes_no_step(rt: HostRuntime) -> Result<(), Fail> {
    let gate = Meeting::new(1);
    let roll = run_actors(&rt, rt.alloc(), Roll::new(4, 0, DID), 4, &gate);
    assert!(rt; roll.ended() && roll.total() == 0 && gate.passes() == (0, 0));
    Ok(())
}

#[test]
fn an_actor_leaves_at_the_first_answer_that_ends_the_run(rt: HostRuntime) -> Result<(), Fail> {
    for last in [Stepped::Over, Stepped::Stopped(Why::Device)] {
        for actors in [1u32, 4] {
            let gate = Meeting::new(1);
            let roll = run_actors(&rt, rt.alloc(), Roll::new(actors, 1, last), actors, &gate);
            assert!(rt; roll.ended() && roll.total() == 1 && gate.passes() == (0, 0));
            assert!(rt;
                roll.late() < u64::from(actors),
                "{actors} actors: {}",
                roll.late()
            );
        }
    }
    Ok(())
}

#[test]
fn a_stepper_ends_after_10_000_steps(rt: HostRuntime) -> Result<(), Fail> {
    let one = run_actors(&rt, rt.alloc(), Roll::new(1, 10_000, DID), 1, &FreeGate);
    assert!(rt; one.ended() && one.total() == 10_000 && one.active(1) == 1);
    let all = run_actors(&rt, rt.alloc(), Roll::new(64, 10_000, DID), 64, &FreeGate);
    assert!(rt; all.ended() && all.total() == 10_000);
    Ok(())
}

#[test]
fn a_step_with_nothing_to_do_passes_no_gate(rt: HostRuntime) -> Result<(), Fail> {
    let gate = Meeting::new(1);
    let roll = run_actors(&rt, rt.alloc(), Roll::pausing(4, 100, DID), 4, &gate);
    assert!(rt; roll.ended() && roll.total() == 100 && gate.passes() == (100, 0));
    Ok(())
}

#[test]
fn an_actor_that_was_idle_or_lost_the_turn_steps_again(rt: HostRuntime) -> Result<(), Fail> {
    let gate = Meeting::new(4);
    let roll = run_actors(&rt, rt.alloc(), Roll::pausing(4, 4, DID), 4, &gate);
    assert!(rt; roll.ended() && roll.active(1) == 4 && gate.passes() == (4, 0));
    Ok(())
}

#[test]
fn four_and_sixty_four_actors_wait_for_each_other(rt: HostRuntime) -> Result<(), Fail> {
    for actors in [4u32, 64] {
        let gate = Meeting::new(actors);
        let all = u64::from(actors);
        let roll = run_actors(&rt, rt.alloc(), Roll::new(actors, all, DID), actors, &gate);
        assert!(rt; roll.ended() && roll.total() == all);
        assert!(rt;
            roll.active(1) == actors as usize && gate.met() == actors,
            "{actors} actors"
        );
        assert_eq!(rt; gate.passes(), (all, 0));
    }
    Ok(())
}

/// Whether each of 1 to 4 actors preferred at its last step what it should.
fn all_prefer(roll: &Roll, actors: u32) -> bool {
    let (p, c, j) = (Prefer::Pieces, Prefer::Commits, Prefer::Jobs);
    let wanted = match actors {
        1 => [Some(p), None, None, None],
        2 => [Some(p), Some(c), None, None],
        3 => [Some(p), Some(j), Some(c), None],
        _ => [Some(p), Some(p), Some(j), Some(c)],
    };
    (0..4u32).all(|actor| roll.preferred(actor) == wanted[(actor % 4) as usize])
}

#[test]
fn the_last_actors_prefer_commits_and_jobs(rt: HostRuntime) -> Result<(), Fail> {
    for actors in 1..=4u32 {
        let gate = Meeting::new(actors);
        let roll = Roll::new(actors, u64::from(actors), DID);
        let roll = run_actors(&rt, rt.alloc(), roll, actors, &gate);
        assert!(rt; gate.passes() == (u64::from(actors), 0), "{actors} actors");
        assert!(rt; all_prefer(&roll, actors), "{actors} actors");
    }
    Ok(())
}

#[test]
fn the_caller_alone_makes_one_step_for_each_actor_in_turn(rt: HostRuntime) -> Result<(), Fail> {
    for actors in 1..=4u32 {
        let gate = Meeting::new(1);
        let steps = 2 * u64::from(actors);
        let roll = drive(&rt, Roll::pausing(actors, steps, DID), actors, &gate);
        assert!(rt;
            roll.ended() && roll.active(2) == actors as usize,
            "{actors} actors"
        );
        assert!(rt;
            gate.met() == actors && gate.passes() == (steps, 0),
            "{actors} actors"
        );
        assert!(rt; all_prefer(&roll, actors), "{actors} actors");
    }
    Ok(())
}
