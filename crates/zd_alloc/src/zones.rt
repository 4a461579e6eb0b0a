//! The zones of one kind.

ghost use Rattle.std.specs.Prelude.{◌≡◌, ◌≢◌, ℕ, ◌<◌, ◌≤◌, Bool, true, false, length, map, set, replicate, count_by, IfOk, IfSome, IfNone};
ghost use Rattle.zd_alloc.specs.Zones.{use_at, is_free, is_limbo, use_after_release, after_limbo, IsLeastFree};
ghost use Rattle.zd_alloc.specs.declared.uses.ZoneUse.TheVariants.{Meta, Free, Held, Limbo};

use crate::flags::FlagSet;
use crate::uses::ZoneUse;
use std::alloc::{AllocError, Global};
use std::marker::Model;

/// Zones, counted from 0. Contracts see the list of their uses.
#[derive(Drop)]
pub(crate) struct KindZones {
    uses: Vec<ZoneUse>,
    free: FlagSet,
    limbo: FlagSet,
    free_count: u32,
    limbo_count: u32,
}

impl Model for KindZones {
    ghost use Rattle.std.specs.Prelude.{List};
    ghost use Rattle.zd_alloc.specs.Zones.{HasTallies};
    ghost use Rattle.zd_alloc.specs.declared.uses.ZoneUse.{ZoneUse};

    ghost Value = { List ZoneUse };

    ghost view = { λ z. z.uses.items };

    ghost invariant = { λ z. HasTallies z.uses.items z.free z.limbo z.free_count z.limbo_count };
}

fn all_held(alloc: Global, count: u32) -> Result<Vec<ZoneUse>, AllocError>
    ensures { IfOk result (λ v. v.items ≡ replicate count Held) }
{
    vec![in alloc; ZoneUse::Held; count as usize]
}

impl KindZones {
    /// So many zones, all of them held.
    pub(crate) fn held(alloc: Global, count: u32) -> Result<KindZones, AllocError>
        requires { count ≤ 65536 }
        ensures { IfOk result (λ z. z ≡ replicate count Held) }
    {
        let free = FlagSet::new(alloc, count)?;
        let limbo = FlagSet::new(alloc, count)?;
        let uses = all_held(alloc, count)?;
        Ok(KindZones {
            uses,
            free,
            limbo,
            free_count: 0,
            limbo_count: 0,
        })
    }

    /// Lays a held zone aside for metadata.
    pub(crate) fn lay_aside(&mut self, zone: u32)
        requires inside { zone < length self.old }
        requires held { use_at self.old zone ≡ Held }
        ensures { self.new ≡ set self.old zone Meta }
    {
        self.uses[zone as usize] = ZoneUse::Meta;
    }

    /// The number of zones.
    pub(crate) fn count(&self) -> u32
        ensures value { result ≡ length self.now }
        ensures few { length self.now ≤ 65536 }
    {
        self.uses.len() as u32
    }

    /// The use of a zone.
    pub(crate) fn state(&self, zone: u32) -> ZoneUse
        requires { zone < length self.now }
        ensures { result ≡ use_at self.now zone }
    {
        self.uses[zone as usize]
    }

    /// How many zones are free.
    pub(crate) fn free(&self) -> u32
        ensures { result ≡ count_by is_free self.now }
    {
        self.free_count
    }

    /// How many zones are in limbo.
    pub(crate) fn limbo(&self) -> u32
        ensures { result ≡ count_by is_limbo self.now }
    {
        self.limbo_count
    }

    /// The least free zone.
    pub(crate) fn least_free(&self) -> Option<u32>
        ensures some { IfSome result (λ zone. IsLeastFree self.now zone) }
        ensures none { IfNone result ((zone : ℕ) → use_at self.now zone ≢ Free) }
        ensures inside { IfSome result (λ zone. zone < length self.now) }
        ensures few { IfSome result (λ zone. zone < 65536) }
    {
        self.free.least()
    }

    /// Takes the least free zone.
    pub(crate) fn take(&mut self) -> Option<u32>
        ensures some { IfSome result (λ zone.
            IsLeastFree self.old zone × (self.new ≡ set self.old zone Held)) }
        ensures none { IfNone result
            (((zone : ℕ) → use_at self.old zone ≢ Free) × (self.new ≡ self.old)) }
        ensures inside { IfSome result (λ zone. zone < length self.old) }
        ensures few { IfSome result (λ zone. zone < 65536) }
    {
        let zone = self.least_free()?;
        self.free.remove(zone);
        self.free_count -= 1;
        self.uses[zone as usize] = ZoneUse::Held;
        Some(zone)
    }

    /// Gives a held zone back, into limbo where the committed map names it.
    pub(crate) fn release(&mut self, zone: u32, named_by_commit: bool)
        requires inside { zone < length self.old }
        requires held { use_at self.old zone ≡ Held }
        ensures { self.new ≡ set self.old zone (use_after_release named_by_commit) }
    {
        if named_by_commit {
            self.limbo.insert(zone);
            self.limbo_count += 1;
            self.uses[zone as usize] = ZoneUse::Limbo;
        } else {
            self.free.insert(zone);
            self.free_count += 1;
            self.uses[zone as usize] = ZoneUse::Free;
        }
    }

    /// Frees all zones in limbo.
    pub(crate) fn end_limbo(&mut self)
        ensures { self.new ≡ map after_limbo self.old }
    {
        while self.end_one() {}
    }

    /// Frees the least zone in limbo. The answer says whether there was one.
    fn end_one(&mut self) -> bool
        ensures frees { map after_limbo self.new ≡ map after_limbo self.old }
        ensures some { result ≡ true → count_by is_limbo self.new < count_by is_limbo self.old }
        ensures none { result ≡ false → map after_limbo self.new ≡ self.new }
    {
        let Some(zone) = self.limbo.least() else {
            return false;
        };
        self.limbo.remove(zone);
        self.limbo_count -= 1;
        self.free.insert(zone);
        self.free_count += 1;
        self.uses[zone as usize] = ZoneUse::Free;
        true
    }
}
