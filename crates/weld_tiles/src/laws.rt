//! Laws of this crate's definitions, each the contract of a function that does nothing.

ghost use Rattle.std.specs.Prelude.{◌≡◌, ◌≤◌, ◌<◌, ℕ, [], List};
ghost use Rattle.weld_tiles.specs.declared.tile.Tile.{Tile};
ghost use Rattle.weld_tiles.specs.Tiling.{Halves, AddsHalves, IsTiling};

/// Rows are cut in one way only.
pub fn one_cut(cut: u32)
    requires { 1 ≤ cut }
    ensures { (lo hi : ℕ) (first second : List (ℕ × ℕ)) → Halves cut lo hi first
        → Halves cut lo hi second → first ≡ second }
{}
