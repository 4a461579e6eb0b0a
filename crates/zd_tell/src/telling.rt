//! Telling a message, and the exit status of a run.

ghost use Rattle.std.specs.Prelude.{◌≡◌, true, false};
ghost use Rattle.zd_tell.specs.Telling.{HandsOut, HasStatus, TellsMessage};

use crate::Message;
use std::alloc::Global;
use zd_base::{Memory, Status};
use zd_ports::{Sink, write_all};

/// The output where no memory is found for another.
const NO_MEMORY: &str = "end 7 memory\n";

/// The status of a run whose output was handed out or not: 6 where it was not, and all else was done.
fn status_after(status: Status, told: bool) -> Status
    requires { status.0 ≡ 6 → ⊥ }
    ensures answers { HasStatus status.0 result.0 }
    ensures done { result.0 ≡ 0 → told ≡ true }
    ensures sink { result.0 ≡ 6 → told ≡ false }
{
    if status.0 == 0 && !told {
        return Status(6);
    }
    status
}

/// Hands out an output, and answers the status of the run.
fn hand_out<K: Sink>(out: &mut K, text: &[u8], status: Status) -> Status
    requires { status.0 ≡ 6 → ⊥ }
    ensures { HandsOut text.now status.0 result.0
        (K.held out.old) (K.held out.new) (K.faults out.old) (K.faults out.new) }
{
    let told = write_all(out, text).is_ok();
    status_after(status, told)
}

/// Tells a message, and answers the exit status of the run. Where no memory is found for the output,
/// that alone is told, with status 7.
///
/// The status is 6 where the sink failed and the message says that all was done.
pub fn tell<M: Message, K: Sink>(alloc: Global, out: &mut K, message: &M) -> Status
    ensures { TellsMessage (M.telling message.now) (M.fixed message.now) result.0
        (K.held out.old) (K.held out.new) (K.faults out.old) (K.faults out.new) }
{
    if let Some(line) = message.line() {
        return hand_out(out, line.as_bytes(), message.status());
    }
    match message.text(alloc) {
        Ok(text) => hand_out(out, &text, message.status()),
        Err(Memory) => hand_out(out, NO_MEMORY.as_bytes(), Status(7)),
    }
}
