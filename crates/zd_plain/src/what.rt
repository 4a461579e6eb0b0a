//! What a request asks for, by its sectors.

ghost use Rattle.std.specs.Prelude.{◌≡◌, ◌+◌, ◌*◌, ◌<◌, ◌≤◌, ◌^◌};
ghost use Rattle.zd_model.specs.Requests.{first_sector, sector_count, at_sectors};
ghost use Rattle.zd_model.specs.Plain.{ends_past};

use zd_model::What;

/// The sectors of a block.
pub(crate) const BLOCK_SECTORS: u32 = 8;

/// The first sector, 0 for a flush. That of a block may need more than 64 bits.
pub fn first_sector(what: What) -> u128
    ensures { result ≡ first_sector what }
{
    match what {
        What::Read { block, .. } | What::Write { block, .. } | What::Discard { block, .. } => {
            u128::from(BLOCK_SECTORS) * u128::from(block)
        }
        What::Flush => 0,
        What::ReadSectors { sector, .. } | What::WriteSectors { sector, .. } => u128::from(sector),
    }
}

/// The count of sectors, 0 for a flush.
pub fn sector_count(what: What) -> u64
    ensures { result ≡ sector_count what }
{
    match what {
        What::Read { count, .. } | What::Write { count, .. } | What::Discard { count, .. } => {
            u64::from(BLOCK_SECTORS) * u64::from(count)
        }
        What::Flush => 0,
        What::ReadSectors { count, .. } | What::WriteSectors { count, .. } => u64::from(count),
    }
}

/// The same at other sectors, no more of them than before; a flush stays as it is. What asks for
/// blocks then asks for those that begin and end there.
pub fn at_sectors(what: What, first: u64, count: u64) -> What
    requires { count ≤ sector_count what }
    ensures { result ≡ at_sectors what first count }
{
    let block = first / u64::from(BLOCK_SECTORS);
    let blocks = count / u64::from(BLOCK_SECTORS);
    match what {
        What::Read { .. } => What::Read {
            block,
            count: blocks as u32,
        },
        What::Write { seed, .. } => What::Write {
            block,
            count: blocks as u32,
            seed,
        },
        What::Discard { .. } => What::Discard {
            block,
            count: blocks as u32,
        },
        What::Flush => What::Flush,
        What::ReadSectors { .. } => What::ReadSectors {
            sector: first,
            count: count as u32,
        },
        What::WriteSectors { seed, .. } => What::WriteSectors {
            sector: first,
            count: count as u32,
            seed,
        },
    }
}

/// Whether it ends past a device of so many blocks. A flush never does.
pub fn ends_past(what: What, blocks: u64) -> bool
    ensures { result ≡ ends_past (8 * blocks) what }
{
    let end = first_sector(what) + u128::from(sector_count(what));
    u128::from(BLOCK_SECTORS) * u128::from(blocks) < end
}
