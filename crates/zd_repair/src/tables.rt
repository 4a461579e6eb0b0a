//! The tables of a volume without what is wrong in them.

ghost use Rattle.std.specs.Prelude.{◌≡◌, ◌↔◌, IsTrue, IfOk, OnErr, OnOk, length, slice_index};
ghost use Rattle.zd_base.specs.Geometry.{zone_count};
ghost use Rattle.zd_tables.specs.Held.{SamePlace, tables_held};
ghost use Rattle.zd_repair.specs.Repaired.{CountsDropped, IsLeftOf, IsNothing};

use crate::bits::repair_bits;
use crate::map::repair_map;
use std::alloc::{AllocError, Global};
use zd_examine::Role;
use zd_tables::VolumeTables;

/// What was wrong in the tables of a volume, and was dropped.
#[derive(Clone, Copy, Debug, PartialEq, Eq)]
pub struct Repaired {
    /// How many entries of the map were dropped, or lost their buffer.
    pub entries: u32,
    /// How many bits of the bitmaps were cleared.
    pub bits: u64,
}

impl Repaired {
    /// Whether nothing was wrong.
    pub(crate) fn is_nothing(&self) -> bool
        ensures { IsTrue result ↔ IsNothing self.now }
    {
        self.entries == 0 && self.bits == 0
    }
}

/// Drops what is wrong in the map, and then clears what is wrong in the bitmaps by what is left of it, where the
/// pointers of the zones, in sectors, are these. After `AllocError` nothing has changed.
pub fn repair_tables(
    alloc: Global,
    tables: &mut VolumeTables,
    pointers: &[u32],
) -> Result<Repaired, AllocError>
    requires pointers { length pointers.now ≡ zone_count tables.old.geometry }
    ensures left { OnOk result (IsLeftOf tables.old.geometry tables.old.layout (slice_index pointers.now)
        (tables_held tables.old) (tables_held tables.new)) }
    ensures counts { IfOk result (CountsDropped tables.old.geometry tables.old.layout
        (tables_held tables.old) (tables_held tables.new)) }
    ensures same { SamePlace tables.old tables.new }
    ensures err { OnErr result (tables.new ≡ tables.old) }
{
    let zones = tables.geometry().zones() as usize;
    let mut roles = vec![in alloc; Role::Unnamed; zones]?;
    let entries = repair_map(tables, &mut roles);
    let bits = repair_bits(tables, &roles, pointers);
    Ok(Repaired { entries, bits })
}
