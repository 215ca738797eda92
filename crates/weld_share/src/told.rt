//! Tiles that are run once the gate has been told of them.

ghost use Rattle.std.specs.Prelude.{ℕ};
ghost use Rattle.weld_eval.specs.ThingView.{thing_of};
ghost use Rattle.weld_acts.specs.Ranges.{HoldsRange, RangeAnswer};
ghost use Rattle.weld_exec.specs.Run.{evaluation_of, IsAtALoop};

use crate::tiled::Tiled;
use weld_data::Stop;
use weld_eval::thing::Owned;
use weld_exec::run_in;
use weld_ports::Gate;
use weld_tiles::Tile;

/// What was told of tiles: a gate, of which no more is known here. A thread that runs jobs can't hand on that it is `Sync`.
pub(crate) trait Tells {
    // Holds of the number of a tile that it was told of.
    ghost has_told: { Self → ℕ → Type 0 };
}

impl<G: Gate> Tells for G {
    ghost has_told = { λ gate n. G.told gate n };
}

impl<'a, 'b, G: Tells> Tiled<'a, 'b, G> {
    /// Hands a builder through the rows of a tile of which the gate was told, as `run_in` does.
    pub(crate) fn run_told(&self, tile: Tile, part: &mut Owned) -> Result<(), Stop>
        requires told { G.has_told self.now.gate.now tile.number }
        requires at { IsAtALoop self.now.plan.now self.now.env.now }
        requires holds { HoldsRange (evaluation_of self.now.plan.now self.now.env.now).node
            (evaluation_of self.now.plan.now self.now.env.now).names
            (evaluation_of self.now.plan.now self.now.env.now).lists tile.lo tile.hi
            (thing_of part.old) }
        ensures { RangeAnswer result (evaluation_of self.now.plan.now self.now.env.now) tile.lo
            tile.hi (thing_of part.old) (thing_of part.new) }
    {
        run_in(self.alloc, self.plan, self.env, tile, part)
    }
}
