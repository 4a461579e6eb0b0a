//! Formatting a disk.

ghost use Rattle.std.specs.Prelude.{◌≡◌, ◌⊎◌, Err, IfOk};
ghost use Rattle.zd_disk.specs.View.{HasFailed, Holds, OnlyReads, Stays};
ghost use Rattle.zd_format.specs.Fresh.{IsFormatted, IsFormattedBy, IsFresh, IsUnfit};

use crate::head::head_of;
use crate::runs::zero_run;
use crate::sets::write_sets;
use std::alloc::Global;
use uuid::Uuid;
use zd_base::Geometry;
use zd_disk::ZonedDisk;
use zd_model::Layout;

/// Why a disk wasn't formatted.
#[derive(Clone, Copy, Debug, PartialEq, Eq)]
pub enum FormatFault {
    /// The disk has no room for a volume with so many reserved zones. Nothing was written.
    Unfit,
    /// A call of the disk failed. Nothing is promised of what the disk then holds.
    Device,
    /// No memory was found. Nothing was written.
    Memory,
}

/// A disk that was formatted.
#[derive(Clone, Copy, Debug, PartialEq, Eq)]
pub struct Formatted {
    /// The geometry that the disk told.
    pub geometry: Geometry,
    /// The layout of the volume. It fits the geometry.
    pub layout: Layout,
}

/// Makes a disk a volume that nobody wrote, with so many reserved zones, and answers its geometry and
/// its layout.
///
/// Both sets are written in the order of the disk's blocks, then all is flushed. Ok leaves a
/// well-formed volume of zeros, also after a stop; a stop inside the call promises nothing.
pub fn format_disk<D: ZonedDisk>(
    alloc: Global,
    disk: &mut D,
    reserved: u32,
    label: [u8; 32],
    volume: Uuid,
) -> Result<Formatted, FormatFault>
    ensures ok { IfOk result (λ made.
        Holds (IsFresh reserved label volume made.layout) (D.view disk.new)) }
    ensures layout { IfOk result (λ made.
        IsFormatted reserved made.geometry made.layout (D.view disk.new).told) }
    ensures unfit { result ≡ Err FormatFault.Unfit → IsUnfit reserved (D.view disk.new).told }
    ensures same { (result ≡ Err FormatFault.Unfit) ⊎ (result ≡ Err FormatFault.Memory) →
        OnlyReads (D.view disk.old) (D.view disk.new) }
    ensures stays { Stays (D.view disk.old) (D.view disk.new) }
    ensures cause { result ≡ Err FormatFault.Device → HasFailed (D.view disk.old) (D.view disk.new) }
{
    let Ok(geometry) = disk.geometry() else {
        return Err(FormatFault::Device);
    };
    let Some(layout) = Layout::for_format(&geometry, reserved) else {
        return Err(FormatFault::Unfit);
    };
    let Ok(zeros) = zero_run(alloc) else {
        return Err(FormatFault::Memory);
    };
    let head = head_of(layout, label, volume);
    match write_sets(disk, &geometry, &head, &zeros) {
        Ok(()) => Ok(Formatted { geometry, layout }),
        Err(_) => Err(FormatFault::Device),
    }
}

/// Makes a disk a volume that nobody wrote, as `format_disk` does, and answers its layout.
pub fn format<D: ZonedDisk>(
    alloc: Global,
    disk: &mut D,
    reserved: u32,
    label: [u8; 32],
    volume: Uuid,
) -> Result<Layout, FormatFault>
    ensures ok { IfOk result (λ layout.
        Holds (IsFresh reserved label volume layout) (D.view disk.new)) }
    ensures layout { IfOk result (λ layout. IsFormattedBy reserved layout (D.view disk.new).told) }
    ensures unfit { result ≡ Err FormatFault.Unfit → IsUnfit reserved (D.view disk.new).told }
    ensures same { (result ≡ Err FormatFault.Unfit) ⊎ (result ≡ Err FormatFault.Memory) →
        OnlyReads (D.view disk.old) (D.view disk.new) }
    ensures stays { Stays (D.view disk.old) (D.view disk.new) }
    ensures cause { result ≡ Err FormatFault.Device → HasFailed (D.view disk.old) (D.view disk.new) }
{
    match format_disk(alloc, disk, reserved, label, volume) {
        Ok(made) => Ok(made.layout),
        Err(fault) => Err(fault),
    }
}
