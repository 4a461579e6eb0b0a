//! The rule of the turn, for a reader to check.
ghost use Rattle.std.specs.Prelude.{Option};
ghost use Rattle.atomic_table.specs.Table.{State};
ghost use Rattle.zd_workers.specs.declared.view.SeatView.{SeatView};
ghost use Rattle.zd_workers.specs.Turns.{TurnKept};
ghost use Rattle.zd_workers.specs.Law.{IsOneTurn};

use zd_ports::Stepper;

/// A law, with nothing to run. Wherever the rule of the turn is kept, at most one seat has the
/// turn. Where none has it, the stepper is in the slot, with the constant that all live seats know.
/// The slot is out exactly where the seat with the turn has taken it.
pub fn one_turn<T: Stepper>()
    ensures { (s : State (Option T) SeatView) → TurnKept T.constant s → IsOneTurn T.constant s }
{}
