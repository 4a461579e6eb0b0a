//! The rule, and what each atomic step tells the seat that makes it.
ghost use Rattle.std.specs.Prelude.{[]};
ghost use Rattle.zd_workers.specs.Turns.{TurnKept, as_view, tried, opened, released, beside};
ghost use Rattle.zd_workers.specs.declared.view.SeatRole.TheVariants.{Opens, Spent};

use crate::view::{SeatView, TheTurn};
use atomic_table::{Join, Play, Split, TableRule};
use std::snapshot::Snapshot;
use zd_ports::Stepper;

impl<T: Stepper> TableRule<Option<T>, SeatView, Snapshot<T>> for TheTurn<T> {
    ghost holds = { λ _. TurnKept T.constant };

    ghost first = { λ key. as_view Opens (T.constant key.value) };
}

/// Tries for the turn, and gets the slot with it.
pub struct Try;

impl<T: Stepper> Play<Option<T>, SeatView> for Try {
    ghost then = { tried T.constant };
}

/// Takes the slot for the first time, by the maker, who has the turn.
pub struct Open;

impl<T> Play<Option<T>, SeatView> for Open {
    ghost then = { opened };
}

/// Gives turn and slot back.
pub struct Release;

impl<T> Play<Option<T>, SeatView> for Release {
    ghost then = { released };
}

/// Makes one more seat, which waits.
pub struct More;

impl Split<SeatView> for More {
    ghost left = { λ v. v };

    ghost right = { beside };
}

/// Ends a seat that waits.
pub struct Fewer;

impl Join<SeatView> for Fewer {
    ghost both = { λ v _. v };

    ghost spent = { as_view Spent [] };
}
