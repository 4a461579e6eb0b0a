//! Disks, and the layouts that fit them.

ghost use Rattle.std.specs.Prelude.{◌≡◌, ◌-◌, ◌^◌};
ghost use Rattle.zd_base.specs.Faults.{Rose};
ghost use Rattle.zd_base.specs.Geometry.{IsShape, IsZoneCount, IsZoneSize, RefusesGeometry, kind_of, per};
ghost use Rattle.zd_base.specs.Geometry.{zone_sectors};
ghost use Rattle.zd_base.specs.Layout.{Fits, device_blocks, first_data_zone, set_zones};
ghost use Rattle.zd_base.specs.Layout.{used_blocks};
ghost use Rattle.zd_examples.specs.Fresh.{fresh_layout, small};
ghost use Rattle.zd_examples.specs.Layouts.{few_bitmaps, large, large_layout, no_data_zone};
ghost use Rattle.zd_examples.specs.Layouts.{one_data_zone, wide, wide_layout, with_bitmaps};
ghost use Rattle.zd_examples.specs.Layouts.{with_chunks, with_map, with_meta, with_reserved};

use zd_base::{BadGeometry, Kind};

/// Which numbers are those of a disk.
pub fn shape_examples()
    ensures small { IsShape small }
    ensures large { IsShape large }
    ensures least { IsZoneSize 8 }
    ensures less { IsZoneSize 4 → ⊥ }
    ensures between { IsZoneSize 24 → ⊥ }
    ensures more { IsZoneSize 131072 → ⊥ }
    ensures most_zones { IsZoneCount 1 65535 }
    ensures one_zone_more { IsZoneCount 1 65536 → ⊥ }
    ensures no_conventional { IsZoneCount 0 12 → ⊥ }
{}

/// Places: zones of both kinds, the sets, the blocks in use.
pub fn place_examples()
    ensures last_conventional { kind_of small 5 ≡ Kind.Conventional }
    ensures first_sequential { kind_of small 6 ≡ Kind.Sequential }
    ensures sectors { zone_sectors small ≡ 128 }
    ensures one_bitmap { per small ≡ 1 }
    ensures two_bitmaps { per large ≡ 2 }
    ensures one_zone { set_zones small fresh_layout ≡ 1 }
    ensures whole_zone { set_zones small (with_meta 16) ≡ 1 }
    ensures two_zones { set_zones small (with_meta 17) ≡ 2 }
    ensures no_zone { set_zones small (with_meta 0) ≡ 0 }
    ensures data { first_data_zone small fresh_layout ≡ 2 }
    ensures used { used_blocks small fresh_layout ≡ 14 }
    ensures used_with_spare { used_blocks small (with_bitmaps 14) ≡ 14 }
    ensures device { device_blocks small fresh_layout ≡ 128 }
    ensures large_sets { set_zones large large_layout ≡ 2 }
    ensures large_used { used_blocks large large_layout ≡ 104415 }
{}

/// Layouts that fit.
pub fn fit_examples()
    ensures fresh { Fits small fresh_layout }
    ensures large { Fits large large_layout }
    ensures most_reserved { Fits small (with_reserved 2) }
    ensures spare { Fits small (with_meta 16) }
    ensures one_data_zone { Fits one_data_zone fresh_layout }
    ensures two_maps { Fits wide (wide_layout 2) }
{}

/// Layouts that don't, each for one number.
pub fn misfit_examples()
    ensures no_reserved { Fits small (with_reserved 0) → ⊥ }
    ensures reserved { Fits small (with_reserved 7) → ⊥ }
    ensures no_chunk { Fits small (with_chunks 0) → ⊥ }
    ensures chunks { Fits small (with_chunks 9) → ⊥ }
    ensures no_map { Fits small (with_map 0) → ⊥ }
    ensures one_map { Fits wide (wide_layout 1) → ⊥ }
    ensures bitmaps { Fits small (with_bitmaps 11) → ⊥ }
    ensures few_bitmaps { Fits large few_bitmaps → ⊥ }
    ensures meta { Fits small (with_meta 13) → ⊥ }
    ensures no_data_zone { Fits no_data_zone fresh_layout → ⊥ }
{}

/// Why numbers are no disk's: the size comes before the counts.
pub fn refusal_examples()
    ensures size { RefusesGeometry BadGeometry.Size 24 6 6 }
    ensures size_first { RefusesGeometry BadGeometry.Size 4 0 0 }
    ensures count { RefusesGeometry BadGeometry.Count 16 0 6 }
    ensures both { RefusesGeometry BadGeometry.Count 4 0 0 → ⊥ }
    ensures right { RefusesGeometry BadGeometry.Count 16 6 6 → ⊥ }
{}

/// A count of faults that rose, by one or more, or that stands at its end.
pub fn count_examples()
    ensures one { Rose 3 4 }
    ensures more { Rose 3 9 }
    ensures same { Rose 3 3 → ⊥ }
    ensures at_the_end { Rose (2 ^ 64 - 1) (2 ^ 64 - 1) }
    ensures near_the_end { Rose (2 ^ 64 - 2) (2 ^ 64 - 2) → ⊥ }
{}
