//! When a job is due.

ghost use Rattle.std.specs.Prelude.{◌≡◌, ◌↔◌, IsTrue};
ghost use Rattle.zd_base.specs.Layout.{Fits};
ghost use Rattle.zd_reclaim.specs.Due.{IsJobDue, IsLow, low_mark};

use crate::choice::pick;
use zd_base::{Geometry, Kind, Layout};
use zd_commit::has_limbo;
use zd_disk::ZonedDisk;
use zd_state::{Phase, Volume};

/// So many conventional zones are to be free or in limbo, or a job is due though none is wanted: a quarter of the
/// conventional data zones, and at least one.
fn low_mark(g: &Geometry, layout: &Layout) -> u32
    requires { Fits g.now layout.now }
    ensures { result ≡ low_mark g.now layout.now }
{
    let data_zones = g.conv() - 2 * layout.set_zones(g);
    (data_zones / 4).max(1)
}

/// Whether fewer conventional zones than that are free or in limbo.
fn is_low<D: ZonedDisk>(v: &Volume<D>) -> bool
    ensures { IsTrue result ↔ IsLow v.now.plain }
{
    v.sound();
    let alloc = v.alloc();
    alloc.free(Kind::Conventional) + alloc.limbo(Kind::Conventional)
        < low_mark(v.geometry(), v.layout())
}

/// Whether a job is due: no job and no commit is under way, one is picked, and either a conventional zone is wanted
/// and no zone is in limbo, or few conventional zones are free or in limbo.
pub fn due<D: ZonedDisk>(v: &Volume<D>, wanted: bool) -> bool
    ensures { IsTrue result ↔ IsJobDue v.now.plain wanted }
{
    v.phase() == Phase::Idle
        && v.job().is_none()
        && (wanted && !has_limbo(v.alloc()) || is_low(v))
        && pick(v).is_some()
}
