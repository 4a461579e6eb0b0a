//! The zones of a disk.

ghost use Rattle.std.specs.Prelude.{◌≡◌, ◌<◌, ◌↔◌, IsTrue, IfOk, IfErr};
ghost use Rattle.zd_base.specs.Geometry.{IsShape, IsZoneSize, RefusesGeometry, zone_count, per, kind_of};

use crate::ZoneNo;
use std::marker::Model;

/// How a zone is written.
#[derive(Clone, Copy, Debug, PartialEq, Eq)]
pub enum Kind {
    /// Anywhere.
    Conventional,
    /// At its write pointer alone.
    Sequential,
}

/// Why numbers are no geometry.
#[derive(Clone, Copy, Debug, PartialEq, Eq)]
pub enum BadGeometry {
    /// The zone size isn't a power of two from 8 to 65,536 blocks.
    Size,
    /// There is no conventional zone, or there are more than 65,536 zones.
    Count,
}

/// The zones of a disk: all of one size, the conventional ones first.
///
/// Contracts see its three numbers as a `Shape`.
#[derive(Clone, Copy, Debug, PartialEq, Eq)]
pub struct Geometry {
    zone_blocks: u32,
    conv: u32,
    seq: u32,
}

impl Model for Geometry {
    ghost use Rattle.zd_base.specs.Geometry.{Shape, IsShape};

    ghost Value = { Shape };

    ghost view = { λ g. record { zone_blocks = g.zone_blocks; conv = g.conv; seq = g.seq } };

    ghost invariant = { λ g. IsShape (record { zone_blocks = g.zone_blocks; conv = g.conv; seq = g.seq }) };

    ghost inverse = { λ g. record { zone_blocks = g.zone_blocks; conv = g.conv; seq = g.seq } };
}

const ZONE_SIZES: [u32; 14] = [
    8, 16, 32, 64, 128, 256, 512, 1024, 2048, 4096, 8192, 16384, 32768, 65536,
];

fn is_zone_size(blocks: u32) -> bool
    ensures { IsTrue result ↔ IsZoneSize blocks }
{
    blocks >= 8 && blocks <= 65536 && ZONE_SIZES.contains(&blocks)
}

impl Geometry {
    /// The geometry of `conv` conventional and `seq` sequential zones of `zone_blocks` blocks each.
    ///
    /// `BadGeometry::Size` comes first where the size and the counts are both wrong.
    pub fn new(zone_blocks: u32, conv: u32, seq: u32) -> Result<Geometry, BadGeometry>
        ensures ok { IfOk result (λ g.
            (g ≡ record { zone_blocks = zone_blocks; conv = conv; seq = seq }) × IsShape g) }
        ensures err { IfErr result (λ e. RefusesGeometry e zone_blocks conv seq) }
    {
        if !is_zone_size(zone_blocks) {
            return Err(BadGeometry::Size);
        }
        if conv == 0 || conv > 65536 || seq > 65536 - conv {
            return Err(BadGeometry::Count);
        }
        Ok(Geometry {
            zone_blocks,
            conv,
            seq,
        })
    }

    /// The blocks of a zone.
    pub fn zone_blocks(&self) -> u32
        ensures value { result ≡ self.now.zone_blocks }
        ensures shape { IsShape self.now }
    {
        self.zone_blocks
    }

    /// The number of conventional zones.
    pub fn conv(&self) -> u32
        ensures value { result ≡ self.now.conv }
        ensures shape { IsShape self.now }
    {
        self.conv
    }

    /// The number of sequential zones.
    pub fn seq(&self) -> u32
        ensures value { result ≡ self.now.seq }
        ensures shape { IsShape self.now }
    {
        self.seq
    }

    /// The number of zones of both kinds.
    pub fn zones(&self) -> u32
        ensures value { result ≡ zone_count self.now }
        ensures shape { IsShape self.now }
    {
        self.conv + self.seq
    }

    /// The bitmap blocks of a zone: one where the zone has at most 32,768 blocks, else two.
    pub fn per(&self) -> u32
        ensures value { result ≡ per self.now }
        ensures shape { IsShape self.now }
    {
        (self.zone_blocks / 32768).max(1)
    }

    /// The kind of a zone. Zones below `conv` are conventional.
    pub fn kind(&self, zone: ZoneNo) -> Kind
        requires { zone < zone_count self.now }
        ensures value { result ≡ kind_of self.now zone }
        ensures shape { IsShape self.now }
    {
        if zone.0 < self.conv {
            Kind::Conventional
        } else {
            Kind::Sequential
        }
    }
}
