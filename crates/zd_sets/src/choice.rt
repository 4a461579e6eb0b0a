//! The set of metadata that is chosen.

ghost use Rattle.std.specs.Prelude.{◌≡◌, ◌+◌, ◌<◌, ◌≤◌, ℕ, Some, None, IfOk, IfErr, IfSome, MatchBool, true};
ghost use Rattle.std.specs.Option.{is_some, option_map};
ghost use Rattle.zd_base.specs.Layout.{Fits, set_zones};
ghost use Rattle.zd_disk.specs.Told.{WhereTold};
ghost use Rattle.zd_disk.specs.View.{Fails, HasFailed, OnlyReads};
ghost use Rattle.zd_model.specs.Super.{FitsVersion};
ghost use Rattle.zd_model.specs.Volume.{good_super, greater_of, scanned};
ghost use Rattle.zd_sets.specs.Choice.{chosen_of, counting, ExplainsChoice, HasMagicAfter, IsChoice, IsFound, IsGreater, IsPlacedChoice, NoMagicAfter, StandsAt};

use crate::head::{read_good_conventional, read_good_super, read_magic, scan};
use zd_base::{Failed, Geometry, ZoneNo};
use zd_disk::ZonedDisk;
use zd_model::Super;

/// Why no set is chosen. The first that holds is told.
#[derive(Clone, Copy, Debug, PartialEq, Eq)]
pub enum SetFault {
    /// No super block is good where it counts.
    NoSuperBlock,
    /// The layout of the chosen set doesn't fit the geometry, or another zone of it begins with the magic
    /// bytes while the super block at zone 0 is bad.
    Layout,
    /// A call of the disk failed.
    Device,
}

impl From<Failed> for SetFault {
    ghost use Rattle.zd_sets.specs.declared.choice.SetFault.TheVariants.{Device};

    ghost from_gives = { λ _ fault. fault ≡ Device };

    fn from(_failed: Failed) -> SetFault {
        SetFault::Device
    }
}

/// The chosen set of metadata, and where the other one stands.
#[derive(Clone, Copy, Debug, PartialEq, Eq)]
pub struct Chosen {
    /// 0 or 1.
    pub set: u32,
    /// The first zone of the chosen set.
    pub zone: ZoneNo,
    /// The first zone of the other set.
    pub other: ZoneNo,
    /// The super block of the chosen set.
    pub head: Super,
    /// Whether the super block of the other set is good.
    pub other_good: bool,
}

/// The head of the second set, where this set begins in zone `n` and takes `n` zones.
fn counting(geometry: &Geometry, n: u32, second: Option<Super>) -> Option<Super>
    ensures { result ≡ counting geometry.now n second }
{
    match second {
        Some(head) if n < geometry.conv() && head.layout.set_zones(geometry) == n => Some(head),
        _ => None,
    }
}

/// The set of the greater generation, the first one at a tie, where the first one is good.
#[tactic(auto, using(crate::proofs::ChoiceLaws::counting_fits))]
fn greater(geometry: &Geometry, first: Super, second: Option<Super>) -> Chosen
    requires first { FitsVersion first }
    requires second { IfSome second FitsVersion }
    ensures value { IsGreater geometry.now first second result }
    ensures fits { FitsVersion result.head }
{
    let n = first.layout.set_zones(geometry);
    match counting(geometry, n, second) {
        Some(head) if first.generation < head.generation => Chosen {
            set: 1,
            zone: ZoneNo(n),
            other: ZoneNo(0),
            head,
            other_good: true,
        },
        _ => Chosen {
            set: 0,
            zone: ZoneNo(0),
            other: ZoneNo(n),
            head: first,
            other_good: second.is_some(),
        },
    }
}

/// The chosen set, where the super block at zone 0 is good.
fn choose_with<D: ZonedDisk>(
    disk: &mut D,
    geometry: &Geometry,
    first: Super,
) -> Result<Chosen, SetFault>
    requires told { (D.view disk.old).told ≡ Some geometry.now }
    requires first { WhereTold (D.view disk.old).zones (λ i. good_super i 0 ≡ Some first) }
    requires fits { FitsVersion first }
    ensures ok { IfOk result (λ c. WhereTold (D.view disk.old).zones (IsChoice c)) }
    ensures placed { IfOk result (IsPlacedChoice geometry.now) }
    ensures err { IfErr result (λ fault. WhereTold (D.view disk.old).zones (ExplainsChoice fault)) }
    ensures reads { OnlyReads (D.view disk.old) (D.view disk.new) }
    ensures cause { result ≡ Err SetFault.Device → HasFailed (D.view disk.old) (D.view disk.new) }
{
    let n = first.layout.set_zones(geometry);
    let second = read_good_conventional(disk, geometry, ZoneNo(n))?;
    let chosen = greater(geometry, first, second);
    if !chosen.head.layout.fits(geometry) {
        return Err(SetFault::Layout);
    }
    Ok(chosen)
}

/// The second set, where the scan finds it.
#[tactic(auto, using(crate::proofs::ChoiceLaws::counting_fits))]
fn scanned<D: ZonedDisk>(disk: &mut D, geometry: &Geometry) -> Result<Option<Chosen>, Failed>
    requires told { (D.view disk.old).told ≡ Some geometry.now }
    ensures value { IfOk result (λ found. WhereTold (D.view disk.old).zones (λ i.
        scanned i ≡ option_map chosen_of found)) }
    ensures found { IfOk result (λ found. IfSome found (IsFound geometry.now)) }
    ensures fits { IfOk result (λ found. IfSome found (λ c. FitsVersion c.head)) }
    ensures reads { OnlyReads (D.view disk.old) (D.view disk.new) }
    ensures cause { Fails result (D.view disk.old) (D.view disk.new) }
{
    let Some(zone) = scan(disk, geometry)? else {
        return Ok(None);
    };
    let second = read_good_super(disk, geometry, zone)?;
    Ok(counting(geometry, zone.0, second).map(|head| Chosen {
        set: 1,
        zone,
        other: ZoneNo(0),
        head,
        other_good: false,
    }))
}

/// Whether one of the `n` zones from `first` on, after the first, begins with the magic bytes.
fn has_magic_after<D: ZonedDisk>(
    disk: &mut D,
    geometry: &Geometry,
    first: ZoneNo,
    n: u32,
) -> Result<bool, Failed>
    requires told { (D.view disk.old).told ≡ Some geometry.now }
    requires inside { first + n ≤ geometry.now.conv }
    ensures value { IfOk result (λ found. WhereTold (D.view disk.old).zones (λ i.
        MatchBool found (HasMagicAfter i first n) (NoMagicAfter i first n))) }
    ensures reads { OnlyReads (D.view disk.old) (D.view disk.new) }
    ensures cause { Fails result (D.view disk.old) (D.view disk.new) }
{
    let _conv = geometry.conv();
    for k in 1..n {
        if read_magic(disk, geometry, ZoneNo(first.0 + k))? {
            return Ok(true);
        }
    }
    Ok(false)
}

/// The chosen set, where the super block at zone 0 is bad.
fn choose_without<D: ZonedDisk>(disk: &mut D, geometry: &Geometry) -> Result<Chosen, SetFault>
    requires told { (D.view disk.old).told ≡ Some geometry.now }
    requires first { WhereTold (D.view disk.old).zones (λ i. good_super i 0 ≡ None) }
    ensures ok { IfOk result (λ c. WhereTold (D.view disk.old).zones (IsChoice c)) }
    ensures placed { IfOk result (IsPlacedChoice geometry.now) }
    ensures err { IfErr result (λ fault. WhereTold (D.view disk.old).zones (ExplainsChoice fault)) }
    ensures reads { OnlyReads (D.view disk.old) (D.view disk.new) }
    ensures cause { result ≡ Err SetFault.Device → HasFailed (D.view disk.old) (D.view disk.new) }
{
    let Some(chosen) = scanned(disk, geometry)? else {
        return Err(SetFault::NoSuperBlock);
    };
    if !chosen.head.layout.fits(geometry) {
        return Err(SetFault::Layout);
    }
    let n = chosen.head.layout.set_zones(geometry);
    if has_magic_after(disk, geometry, chosen.zone, n)? {
        return Err(SetFault::Layout);
    }
    Ok(chosen)
}

/// The chosen set of the metadata on a disk whose geometry is this one.
///
/// Where the super block at zone 0 is good, its layout says where set 1 begins, and the greater
/// generation is chosen, set 0 at a tie. Where it is bad, set 1 is looked for: the first conventional zone
/// after zone 0 that begins with the magic bytes decides.
///
/// `NoSuperBlock` comes exactly where no set is chosen, `Layout` where one is whose layout doesn't fit, or
/// where the super block at zone 0 is bad and another zone of the set begins with the magic bytes.
/// Nothing is written.
pub fn choose<D: ZonedDisk>(disk: &mut D, geometry: &Geometry) -> Result<Chosen, SetFault>
    requires { (D.view disk.old).told ≡ Some geometry.now }
    ensures ok { IfOk result (λ c. WhereTold (D.view disk.old).zones (IsChoice c)) }
    ensures placed { IfOk result (IsPlacedChoice geometry.now) }
    ensures err { IfErr result (λ fault. WhereTold (D.view disk.old).zones (ExplainsChoice fault)) }
    ensures reads { OnlyReads (D.view disk.old) (D.view disk.new) }
    ensures cause { result ≡ Err SetFault.Device → HasFailed (D.view disk.old) (D.view disk.new) }
{
    let _conv = geometry.conv();
    match read_good_super(disk, geometry, ZoneNo(0))? {
        Some(first) => choose_with(disk, geometry, first),
        None => choose_without(disk, geometry),
    }
}
