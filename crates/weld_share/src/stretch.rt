//! Stretches: neighbouring tiles of a loop that one thread runs into one part.

ghost use Rattle.std.specs.Prelude.{◌≡◌, ◌≤◌, ◌<◌, ◌++◌, ℕ, List, length, IfOk};
ghost use Rattle.weld_tiles.specs.Tiling.{IsRun, IsTiling};
ghost use Rattle.weld_tiles.specs.declared.tile.Tile.{Tile};
ghost use Rattle.weld_share.specs.Stretches.{AreStretches};

use crate::way::{Sharing, Way};
use std::alloc::{AllocError, Global};
use weld_tiles::Tile;

/// About how many rows of a batch come on each worker at most. What a worker makes of them is held until the batch is joined,
/// and so is no more than so many rows make. It is joined entry by entry, on one thread, so a worker's rows are many: the entry
/// of a key that stands in all of their tiles is joined once for them.
const STRETCH_ROWS: u64 = 262_144;

/// Neighbouring tiles that one thread runs into one part. The tile `whole` has the rows of all of them, and the number of the
/// stretch among those of the loop, from 0.
#[derive(Drop)]
pub(crate) struct Stretch<'a> {
    pub(crate) whole: Tile,
    pub(crate) tiles: &'a [Tile],
}

/// How many tiles a stretch has, of so many tiles that have so many rows together: each of the workers is to have as many
/// stretches of each batch as the way says, and all of about the same length. A lone worker has all in one, so that nothing is
/// joined. It takes no memory.
fn stretch_len(tiles: usize, rows: u64, sharing: Sharing, way: Way) -> usize
    ensures { 1 ≤ result }
{
    let workers = sharing.workers;
    if workers == 1 {
        return tiles.max(1);
    }
    let batches = rows.div_ceil(STRETCH_ROWS * u64::from(workers)).max(1);
    let batch = tiles.div_ceil(batches as usize);
    batch.div_ceil((workers * way.each()) as usize).max(1)
}

/// The tiles of a loop's rows as stretches.
pub(crate) fn stretches<'a>(
    alloc: Global,
    tiles: &'a [Tile],
    rows: u64,
    sharing: Sharing,
    way: Way,
) -> Result<Vec<Stretch<'a>>, AllocError>
    requires { IsTiling tiles.now rows }
    ensures { IfOk result (λ list. AreStretches 0 0 rows list.items) }
{
    let len = stretch_len(tiles.len(), rows, sharing, way);
    let mut list = Vec::new(alloc);
    let mut left = tiles;
    let mut lo = 0;
    'cut: while !left.is_empty() {
        let (run, behind) = left.split_at(left.len().min(len));
        let hi = end_of(run);
        let number = list.len() as u64;
        let whole = Tile { number, lo, hi };
        list.push(Stretch { whole, tiles: run })?;
        left = behind;
        lo = hi;
    }
    Ok(list)
}

/// Where the last of some tiles ends. It takes no memory.
fn end_of(tiles: &[Tile]) -> u64
    requires { 0 < length tiles.now }
    ensures { (n lo rows : ℕ) → (behind : List Tile) → IsRun n lo rows (tiles.now ++ behind)
        → IsRun n lo result tiles.now × ((m : ℕ) × IsRun m result rows behind) × (lo < result) }
{
    tiles[tiles.len() - 1].hi
}
