//! The turn: one stepper, and the seats that may take it one at a time.
ghost use Rattle.std.specs.Prelude.{◌≡◌, IfOk, IfErr, IfSome, IfNone};
ghost use Rattle.zd_workers.specs.Turns.{IsWaiting, IsHolding, constant_at};

use crate::plays::{Fewer, More, Open, Release, Try};
use crate::view::{SeatView, TheTurn};
use atomic_table::{Seat, Table};
use std::alloc::Global;
use std::snapshot::Snapshot;
use zd_ports::Stepper;

/// A seat at the turn.
pub type Seated<T> = Seat<Option<T>, SeatView>;

/// A stepper in the slot of a table, which one seat at a time may take out.
#[derive(Drop)]
pub struct Turn<T: Stepper> {
    pub table: Table<Option<T>, SeatView, Snapshot<T>, TheTurn<T>, Global>,
    ghost sized: { (table.shared.table_id.words ≡ 1) × (table.shared.table_id.slots ≡ 1) },
}

impl<T: Stepper> Turn<T> {
    /// The turn with the stepper in its slot, and a first seat, which waits. Out of memory, the
    /// stepper comes back.
    pub fn new(alloc: Global, stepper: T) -> Result<(Turn<T>, Seated<T>), T>
        ensures ok { IfOk result (λ made.
            IsWaiting made.0.table.shared.table_id (T.constant stepper) made.1) }
        ensures err { IfErr result (λ back. back ≡ stepper) }
    {
        let about = Snapshot::of(&stepper);
        let Ok((table, mut seat)) = Table::vacant(alloc, &[1], 1, &about) else {
            return Err(stepper);
        };
        table.shared.swap::<Open>(&mut seat, 0, 1);
        table.shared.exchange(&mut seat, 0, Some(stepper));
        table.shared.swap::<Release>(&mut seat, 0, 0);
        Ok((Turn { table }, seat))
    }

    /// Takes the stepper out, where no seat has the turn; else the seat waits as before.
    pub fn try_take(&self, seat: &mut Seated<T>) -> Option<T>
        requires { IsWaiting self.now.table.shared.table_id (constant_at seat.old) seat.old }
        ensures same { IfSome result (λ x. T.constant x ≡ constant_at seat.old) }
        ensures some { IfSome result (λ x.
            IsHolding self.now.table.shared.table_id (T.constant x) seat.new) }
        ensures none { IfNone result
            (IsWaiting self.now.table.shared.table_id (constant_at seat.old) seat.new) }
    {
        if self.table.shared.compare_exchange::<Try>(seat, 0, 0, 1) != 0 {
            return None;
        }
        self.table.shared.exchange(seat, 0, None)
    }

    /// Puts the stepper back and gives the turn back, for any seat to take.
    pub fn put_back(&self, seat: &mut Seated<T>, stepper: T)
        requires { IsHolding self.now.table.shared.table_id (T.constant stepper) seat.old }
        ensures { IsWaiting self.now.table.shared.table_id (T.constant stepper) seat.new }
    {
        self.table.shared.exchange(seat, 0, Some(stepper));
        self.table.shared.swap::<Release>(seat, 0, 0);
    }

    /// One more seat beside this one.
    pub fn seat(&self, seat: &mut Seated<T>) -> Seated<T>
        requires { IsWaiting self.now.table.shared.table_id (constant_at seat.old) seat.old }
        ensures kept { IsWaiting self.now.table.shared.table_id (constant_at seat.old) seat.new }
        ensures given { IsWaiting self.now.table.shared.table_id (constant_at seat.old) result }
    {
        self.table.shared.split_seat::<More>(seat)
    }

    /// Ends the other seat.
    pub fn join(&self, seat: &mut Seated<T>, other: Seated<T>)
        requires own { IsWaiting self.now.table.shared.table_id (constant_at seat.old) seat.old }
        requires other { IsWaiting self.now.table.shared.table_id (constant_at seat.old) other }
        ensures { IsWaiting self.now.table.shared.table_id (constant_at seat.old) seat.new }
    {
        self.table.shared.join_seat::<Fewer>(seat, other);
    }
}
