//! The zones of both kinds, and the use order of chunks.

ghost use Rattle.std.specs.Prelude.{◌≡◌, ◌≢◌, ℕ, ◌+◌, ◌<◌, ◌≤◌, Bool, true, false, length, map, set, get_or, count_by, slice_get, IfOk, IfSome, IfNone};
ghost use Rattle.zd_base.specs.Geometry.{zone_count};
ghost use Rattle.zd_base.specs.Layout.{Fits};
ghost use Rattle.zd_base.specs.declared.geometry.Kind.TheVariants.{Conventional, Sequential};
ghost use Rattle.zd_alloc.specs.Zones.{use_at, is_free, is_limbo, use_after_release, after_limbo, uses_of, use_at_start};
ghost use Rattle.zd_alloc.specs.Zones.{IsLeastOf, HasNoFree, TakesLeast, IsStart};
ghost use Rattle.zd_alloc.specs.Order.{PutsLast, IsAfter};
ghost use Rattle.zd_alloc.specs.declared.uses.ZoneUse.TheVariants.{Held};

use crate::order::UseOrder;
use crate::uses::ZoneUse;
use crate::zones::KindZones;
use std::alloc::{AllocError, Global};
use std::marker::Model;
use zd_base::{ChunkNo, Geometry, Kind, Layout, Memory, ZoneNo};

/// What each zone of a volume is used for, and in which order chunks were written.
///
/// Contracts see the number of conventional zones, the list of all uses, and the list of all
/// chunks, the one that was written least recently first. No call but `new` takes memory.
#[derive(Drop)]
pub struct Alloc {
    conventional: KindZones,
    sequential: KindZones,
    order: UseOrder,
}

impl Model for Alloc {
    ghost use Rattle.zd_alloc.specs.Zones.{Division, division};

    ghost Value = { Division };

    ghost view = { λ a. division a.conventional a.sequential a.order };
}

/// Zones `first` to `first + count - 1` of the disk, as they start.
fn started(
    alloc: Global,
    first: u32,
    count: u32,
    first_data: u32,
    named: &[bool],
) -> Result<KindZones, AllocError>
    requires few { first + count ≤ 65536 }
    requires inside { first + count ≤ length named.now }
    ensures count { IfOk result (λ z. length z ≡ count) }
    ensures uses { IfOk result (λ z. (i : ℕ) → i < count
        → use_at z i ≡ use_at_start first_data (get_or named.now (first + i) false) (first + i)) }
{
    let mut zones = KindZones::held(alloc, count)?;
    for i in 0..count {
        let zone = first + i;
        if zone < first_data {
            zones.lay_aside(i);
        } else if !named[zone as usize] {
            zones.release(i, false);
        }
    }
    Ok(zones)
}

impl Alloc {
    /// The zones at the start: those of both sets of metadata are laid aside, those of the others
    /// that are named are held, all others are free. `named` has a flag for each zone. The chunks
    /// stand in the order of their numbers.
    pub fn new(
        alloc: Global,
        g: &Geometry,
        layout: &Layout,
        named: &[bool],
    ) -> Result<Alloc, Memory>
        requires fits { Fits g.now layout.now }
        requires named { length named.now ≡ zone_count g.now }
        ensures { IfOk result (λ a. IsStart g.now layout.now named.now a) }
    {
        let conv = g.conv();
        let first_data = 2 * layout.set_zones(g);
        let Ok(conventional) = started(alloc, 0, conv, first_data, named) else {
            return Err(Memory);
        };
        let Ok(sequential) = started(alloc, conv, g.seq(), first_data, named) else {
            return Err(Memory);
        };
        let Ok(order) = UseOrder::new(alloc, layout.chunks) else {
            return Err(Memory);
        };
        Ok(Alloc {
            conventional,
            sequential,
            order,
        })
    }

    /// The use of a zone.
    pub fn state(&self, zone: ZoneNo) -> ZoneUse
        requires { zone < length self.now.zones }
        ensures { result ≡ use_at self.now.zones zone }
    {
        let conv = self.conventional.count();
        if zone.0 < conv {
            self.conventional.state(zone.0)
        } else {
            self.sequential.state(zone.0 - conv)
        }
    }

    /// How many zones of this kind are free.
    pub fn free(&self, kind: Kind) -> u32
        ensures { result ≡ count_by is_free (uses_of kind self.now) }
    {
        match kind {
            Kind::Conventional => self.conventional.free(),
            Kind::Sequential => self.sequential.free(),
        }
    }

    /// How many zones of this kind are in limbo.
    pub fn limbo(&self, kind: Kind) -> u32
        ensures { result ≡ count_by is_limbo (uses_of kind self.now) }
    {
        match kind {
            Kind::Conventional => self.conventional.limbo(),
            Kind::Sequential => self.sequential.limbo(),
        }
    }

    /// Takes the least free conventional zone. None exactly where none is free.
    pub fn take_conventional(&mut self) -> Option<ZoneNo>
        ensures some { IfSome result (λ zone. TakesLeast Conventional self.old self.new zone) }
        ensures none { IfNone result (HasNoFree Conventional self.old) }
        ensures same { IfNone result (self.new ≡ self.old) }
    {
        let zone = self.conventional.take()?;
        Some(ZoneNo(zone))
    }

    /// Takes the least free sequential zone. None exactly where none is free.
    pub fn take_sequential(&mut self) -> Option<ZoneNo>
        ensures some { IfSome result (λ zone. TakesLeast Sequential self.old self.new zone) }
        ensures none { IfNone result (HasNoFree Sequential self.old) }
        ensures same { IfNone result (self.new ≡ self.old) }
    {
        let conv = self.conventional.count();
        let zone = self.sequential.take()?;
        Some(ZoneNo(conv + zone))
    }

    /// The least free zone of this kind. None exactly where none is free.
    pub fn least_free(&self, kind: Kind) -> Option<ZoneNo>
        ensures some { IfSome result (λ zone. IsLeastOf kind self.now zone) }
        ensures none { IfNone result (HasNoFree kind self.now) }
    {
        match kind {
            Kind::Conventional => {
                let zone = self.conventional.least_free()?;
                Some(ZoneNo(zone))
            }
            Kind::Sequential => {
                let conv = self.conventional.count();
                let zone = self.sequential.least_free()?;
                Some(ZoneNo(conv + zone))
            }
        }
    }

    /// Gives a held zone back. It goes into limbo where the committed map names it, else it is
    /// free.
    pub fn release(&mut self, zone: ZoneNo, named_by_commit: bool)
        requires inside { zone < length self.old.zones }
        requires held { use_at self.old.zones zone ≡ Held }
        ensures zones { self.new.zones ≡ set self.old.zones zone (use_after_release named_by_commit) }
        ensures conv { self.new.conv ≡ self.old.conv }
        ensures order { self.new.order ≡ self.old.order }
    {
        let conv = self.conventional.count();
        if zone.0 < conv {
            self.conventional.release(zone.0, named_by_commit);
        } else {
            self.sequential.release(zone.0 - conv, named_by_commit);
        }
    }

    /// A commit has ended: all zones in limbo are free.
    pub fn end_limbo(&mut self)
        ensures zones { self.new.zones ≡ map after_limbo self.old.zones }
        ensures conv { self.new.conv ≡ self.old.conv }
        ensures order { self.new.order ≡ self.old.order }
    {
        self.conventional.end_limbo();
        self.sequential.end_limbo();
    }

    /// Puts a chunk last in the use order: it was written now.
    pub fn touch(&mut self, chunk: ChunkNo)
        requires { chunk < length self.old.order }
        ensures order { PutsLast chunk self.old.order self.new.order }
        ensures zones { self.new.zones ≡ self.old.zones }
        ensures conv { self.new.conv ≡ self.old.conv }
    {
        self.order.touch(chunk.0);
    }

    /// The first chunk in use order.
    pub fn oldest(&self) -> ChunkNo
        ensures value { slice_get self.now.order 0 ≡ Some result }
        ensures inside { result < length self.now.order }
    {
        ChunkNo(self.order.oldest())
    }

    /// The chunk after this one in use order. None exactly for the last.
    pub fn after(&self, chunk: ChunkNo) -> Option<ChunkNo>
        requires { chunk < length self.now.order }
        ensures value { IsAfter self.now.order chunk result }
        ensures inside { IfSome result (λ next. next < length self.now.order) }
    {
        let next = self.order.after(chunk.0)?;
        Some(ChunkNo(next))
    }
}
