//! Handing out bytes to a sink.

ghost use Rattle.std.specs.Prelude.{◌≡◌, IfSome, IsOk};
ghost use Rattle.zd_base.specs.Faults.{HasCause};
ghost use Rattle.zd_ports.specs.Taking.{Takes};

use crate::Sink;
use zd_base::Failed;

/// Hands out all bytes, in whatever pieces the sink takes them.
///
/// `Failed` comes only where the sink failed. It has then taken a prefix of the bytes, maybe none of them.
pub fn write_all<K: Sink>(out: &mut K, bytes: &[u8]) -> Result<(), Failed>
    ensures taken { IfSome (K.held out.old) (λ before.
        Takes before (K.held out.new) bytes.now (IsOk result)) }
    ensures cause { HasCause (K.faults out.old) (K.faults out.new) result }
{
    let mut at = 0;
    while at < bytes.len() {
        let Ok(taken) = out.write(&bytes[at..]) else {
            return Err(Failed);
        };
        at += taken;
    }
    Ok(())
}
