//! What one tile makes.

ghost use Rattle.weld_acts.specs.Ranges.{IsAction};
ghost use Rattle.weld_eval.specs.ThingView.{thing_of};
ghost use Rattle.weld_tile_parts.specs.Kept.{IsTileOf, action_one};

use crate::joined::Joined;
use crate::mark::Mark;
use std::alloc::AllocError;
use weld_eval::thing::Owned;
use weld_tiles::Tile;

/// What a tile's rows make of the builder that has nothing merged: the tile's action. It may be let go.
#[derive(Drop)]
pub struct TilePart {
    pub tile: Tile,
    thing: Owned,
    of: Mark,
    pub ghost is_tile: { ∥ IsTileOf of.evaluation tile.lo tile.hi ∥₁ },
    pub ghost is_action: { IsAction of.evaluation tile.lo tile.hi (thing_of thing) } by { action_one of.evaluation tile.lo tile.hi (thing_of thing) },
}

/// The part of a tile that has to be spent: it can't be let go, and only `enter` takes it.
pub struct Piece {
    pub tile: Tile,
    thing: Owned,
    of: Mark,
    pub ghost is_tile: { ∥ IsTileOf of.evaluation tile.lo tile.hi ∥₁ },
    pub ghost is_action: { IsAction of.evaluation tile.lo tile.hi (thing_of thing) } by { action_one of.evaluation tile.lo tile.hi (thing_of thing) },
}

impl TilePart {
    ghost use Rattle.std.specs.Prelude.{◌≡◌};
    ghost use Rattle.weld_acts.specs.Ranges.{Evaluation, IsAction};
    ghost use Rattle.weld_eval.specs.ThingView.{thing_of};
    ghost use Rattle.weld_tile_parts.specs.Kept.{IsTileOf};
    ghost use Rattle.weld_tile_parts.specs.Parts.{part_thing, part_evaluation, piece_thing, piece_evaluation};

    /// The part of a tile of an evaluation, which is its action. It takes no memory.
    pub fn of(tile: Tile, thing: Owned) -> TilePart
        ghost at: { Evaluation }
        requires tile { IsTileOf at tile.lo tile.hi }
        requires action { IsAction at tile.lo tile.hi (thing_of thing) }
        ensures tile { result.tile ≡ tile }
        ensures thing { part_thing result ≡ thing_of thing }
        ensures evaluation { part_evaluation result ≡ at }
    {
        TilePart {
            tile,
            thing,
            of: Mark::new(),
        }
    }

    /// The part as a piece that has to be spent. It takes no memory.
    pub fn seal(self) -> Piece
        ensures tile { result.tile ≡ self.tile }
        ensures thing { piece_thing result ≡ part_thing self }
        ensures evaluation { piece_evaluation result ≡ part_evaluation self }
    {
        let TilePart { tile, thing, of } = self;
        Piece { tile, thing, of }
    }
}

impl Piece {
    ghost use Rattle.std.specs.Prelude.{◌≡◌, ◌+◌, OnOk, OnErr};
    ghost use Rattle.weld_meaning.specs.Thing.{after_thing};
    ghost use Rattle.weld_tiles.specs.Tiling.{Follows};
    ghost use Rattle.weld_tile_parts.specs.Parts.{piece_thing, piece_evaluation, joined_thing, joined_evaluation, IsWhole};

    /// Joins the piece to the builder of its evaluation that has come to its first row. Where memory
    /// is wanting, the builder isn't whole any more.
    pub fn enter(self, into: &mut Joined) -> Result<(), AllocError>
        requires whole { IsWhole into.old }
        requires evaluation { piece_evaluation self ≡ joined_evaluation into.old }
        requires follows { Follows self.tile into.old.next into.old.end }
        ensures whole { OnOk result (IsWhole into.new) }
        ensures joined { OnOk result (joined_thing into.new
            ≡ after_thing (joined_thing into.old) (piece_thing self)) }
        ensures next { OnOk result (into.new.next ≡ self.tile.number + 1) }
        ensures end { OnOk result (into.new.end ≡ self.tile.hi) }
        ensures evaluation { joined_evaluation into.new ≡ joined_evaluation into.old }
        ensures spoiled { OnErr result (¬ (IsWhole into.new)) }
    {
        let Piece { tile, thing, of } = self;
        into.append(tile, thing, of)
    }
}
