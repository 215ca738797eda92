//! The builder to which the pieces of a loop's tiles are joined, in order.

ghost use Rattle.std.specs.Prelude.{◌≤◌};
ghost use Rattle.weld_tile_parts.specs.Kept.{HasCome, has_come_one};

use crate::mark::Mark;
use std::alloc::AllocError;
use weld_eval::thing::{Owned, join_thing};
use weld_tiles::Tile;

/// The builder of a loop after its first tiles: what the rows before `end` make of the loop's starting
/// builder. The next tile has the number `next` and begins at `end`.
#[derive(Drop)]
pub struct Joined {
    held: Option<Owned>,
    pub next: u64,
    pub end: u64,
    of: Mark,
    pub ghost counted: { next ≤ end },
    pub ghost has_come: { HasCome held of.evaluation end } by { has_come_one held of.evaluation end },
}

impl Joined {
    ghost use Rattle.std.specs.Prelude.{◌≡◌, ◌+◌, OnOk, OnErr};
    ghost use Rattle.weld_meaning.specs.Thing.{after_thing};
    ghost use Rattle.weld_acts.specs.Ranges.{Evaluation, IsAction, IsSoFar};
    ghost use Rattle.weld_tiles.specs.Tiling.{Follows};
    ghost use Rattle.weld_eval.specs.ThingView.{thing_of};
    ghost use Rattle.weld_tile_parts.specs.Kept.{IsTileOf};
    ghost use Rattle.weld_tile_parts.specs.Parts.{joined_thing, joined_evaluation, IsWhole};

    /// The starting builder of an evaluation, before the first tile. It takes no memory.
    pub fn of(start: Owned) -> Joined
        ghost at: { Evaluation }
        requires { IsSoFar at 0 (thing_of start) }
        ensures whole { IsWhole result }
        ensures thing { joined_thing result ≡ thing_of start }
        ensures next { result.next ≡ 0 }
        ensures end { result.end ≡ 0 }
        ensures evaluation { joined_evaluation result ≡ at }
    {
        Joined {
            held: Some(start),
            next: 0,
            end: 0,
            of: Mark::new(),
        }
    }

    /// Joins what the next tile has made.
    pub(crate) fn append(&mut self, tile: Tile, thing: Owned, _of: Mark) -> Result<(), AllocError>
        requires whole { IsWhole self.old }
        requires follows { Follows tile self.old.next self.old.end }
        requires tile { ∥ IsTileOf (joined_evaluation self.old) tile.lo tile.hi ∥₁ }
        requires action { IsAction (joined_evaluation self.old) tile.lo tile.hi (thing_of thing) }
        ensures whole { OnOk result (IsWhole self.new) }
        ensures joined { OnOk result (joined_thing self.new
            ≡ after_thing (joined_thing self.old) (thing_of thing)) }
        ensures next { OnOk result (self.new.next ≡ tile.number + 1) }
        ensures end { OnOk result (self.new.end ≡ tile.hi) }
        ensures evaluation { joined_evaluation self.new ≡ joined_evaluation self.old }
        ensures spoiled { OnErr result (¬ (IsWhole self.new)) }
    {
        match self.held.take() {
            Some(mut held) => {
                match join_thing(&mut held, thing) {
                    Ok(()) => {}
                    Err(e) => return Err(e),
                }
                self.held = Some(held);
                self.next = tile.number + 1;
                self.end = tile.hi;
                Ok(())
            }
            None => unreachable!(),
        }
    }

    /// The builder as it is: what the rows before `end` make of the starting one. It takes no memory.
    pub fn into_thing(self) -> Owned
        requires { IsWhole self }
        ensures thing { thing_of result ≡ joined_thing self }
        ensures so_far { IsSoFar (joined_evaluation self) self.end (thing_of result) }
    {
        let held = self.held;
        match held {
            Some(held) => held,
            None => unreachable!(),
        }
    }
}
