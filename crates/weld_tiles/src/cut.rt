//! Rows cut into tiles.

ghost use Rattle.std.specs.Prelude.{◌≡◌, ◌↔◌, ◌≤◌, IsTrue, IfOk, [], length};
ghost use Rattle.weld_tiles.specs.Tiling.{AddsHalves, Follows, IsTiling};

use crate::tile::{Tile, TileList};
use std::alloc::{AllocError, Global};

#[tactic(auto, using(crate::proofs::Cuts::halves_tile))]
/// The tiles of a loop's rows: the rows are halved until no range has more than `cut` of them.
pub fn tiles(alloc: Global, rows: u64, cut: u32) -> Result<TileList, AllocError>
    requires { 1 ≤ cut }
    ensures halves { IfOk result (AddsHalves cut 0 rows []) }
    ensures tiling { IfOk result (λ list. IsTiling list rows) }
{
    let mut list = TileList::new(alloc);
    match add_halves(&mut list, 0, rows, u64::from(cut)) {
        Ok(()) => Ok(list),
        Err(e) => Err(e),
    }
}

#[tactic(auto, using(crate::proofs::Cuts::adds_none, crate::proofs::Cuts::adds_one, crate::proofs::Cuts::adds_both))]
/// Appends the tiles of a range of rows.
fn add_halves(list: &mut TileList, lo: u64, hi: u64, cut: u64) -> Result<(), AllocError>
    requires range { lo ≤ hi }
    requires cut { 1 ≤ cut }
    ensures { IfOk result (λ _. AddsHalves cut lo hi list.old list.new) }
{
    if lo == hi {
        return Ok(());
    }
    if hi - lo <= cut {
        let number = list.len() as u64;
        return list.push(Tile { number, lo, hi });
    }
    let middle = lo + (hi - lo) / 2;
    add_halves(list, lo, middle, cut)?;
    add_halves(list, middle, hi, cut)
}

/// Whether the tiles are a tiling of the rows: numbered from 0, none empty, each beginning where the one before ends, from row 0 to the last. It takes no memory.
pub fn is_tiling(list: &[Tile], rows: u64) -> bool
    ensures { IsTrue result ↔ IsTiling list.now rows }
{
    let mut next = 0u64;
    for (i, tile) in list.iter().enumerate() {
        if !follows(tile, i as u64, next) {
            return false;
        }
        next = tile.hi;
    }
    next == rows
}

/// Whether the tile has the number, begins at the row and isn't empty.
fn follows(tile: &Tile, number: u64, row: u64) -> bool
    ensures { IsTrue result ↔ Follows tile.now number row }
{
    tile.number == number && tile.lo == row && row < tile.hi
}
