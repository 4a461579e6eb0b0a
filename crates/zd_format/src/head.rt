//! The heads of a volume that nobody wrote.

ghost use Rattle.std.specs.Prelude.{◌≡◌};
ghost use Rattle.zd_format.specs.Fresh.{device_of, head_of};
ghost use Rattle.zd_model.specs.Super.{HasBlock};

use uuid::Uuid;
use zd_model::{Layout, Super};
use zd_super::NAMED_VERSION;

/// The name of the one device in its volume.
const DEVICE: &str = "device 0";

/// The identifier of a volume's one device, of version 5.
#[tactic(auto, unfolding(crate::specs::Fresh::device_of))]
pub fn device_of(volume: &Uuid) -> Uuid
    ensures { result ≡ device_of volume.now }
{
    Uuid::new_v5(volume, DEVICE.as_bytes())
}

/// The head of the first set, in version 2.
pub fn head_of(layout: Layout, label: [u8; 32], volume: Uuid) -> Super
    ensures value { result ≡ head_of layout label volume 0 }
    ensures sizes { HasBlock result }
{
    Super {
        version: NAMED_VERSION,
        generation: 1,
        own: 0,
        layout,
        label,
        volume,
        device: device_of(&volume),
    }
}
