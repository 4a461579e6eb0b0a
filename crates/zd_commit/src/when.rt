//! When a commit is due.

ghost use Rattle.std.specs.Prelude.{◌≡◌, ◌⊎◌, ◌↔◌, IsTrue};
ghost use Rattle.zd_commit.specs.Closed.{HasLimbo};
ghost use Rattle.zd_alloc.specs.Zones.{Division};
ghost use Rattle.zd_volume.specs.declared.phase.Phase.TheVariants.{Idle};

use zd_alloc::Alloc;
use zd_base::Kind;
use zd_disk::ZonedDisk;
use zd_state::{Phase, Volume};

/// Whether a zone is in limbo.
pub fn has_limbo(alloc: &Alloc) -> bool
    ensures { IsTrue result ↔ HasLimbo alloc.now }
{
    alloc.limbo(Kind::Conventional) > 0 || alloc.limbo(Kind::Sequential) > 0
}

/// Whether a commit is due: none is under way, and a flush waits, or a zone is wanted and one is in limbo.
pub fn due<D: ZonedDisk>(v: &Volume<D>, flush_waits: bool, wanted: bool) -> bool
    ensures { IsTrue result ↔ ((v.now.plain.phase ≡ Idle)
        × (IsTrue flush_waits ⊎ (IsTrue wanted × HasLimbo v.now.plain.division))) }
{
    v.phase() == Phase::Idle && (flush_waits || wanted && has_limbo(v.alloc()))
}
