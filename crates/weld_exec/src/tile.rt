//! The tiles of a loop.

ghost use Rattle.std.specs.Prelude.{◌≡◌, ◌≤◌, IfOk};
ghost use Rattle.weld_builders.specs.Outcome.{fault};
ghost use Rattle.weld_acts.specs.Ranges.{Evaluation, IsAction, HoldsRange, RangeAnswer};
ghost use Rattle.weld_eval.specs.FrameView.{env_of};
ghost use Rattle.weld_eval.specs.ThingView.{thing_of, things_of};
ghost use Rattle.weld_eval.specs.Answers.{OnFault};
ghost use Rattle.weld_plan.specs.Leads.{loop_lists};
ghost use Rattle.weld_tile_parts.specs.Kept.{IsTileOf};
ghost use Rattle.weld_tile_parts.specs.Parts.{part_thing, part_evaluation};
ghost use Rattle.weld_exec.specs.Stacked.{HasPile};
ghost use Rattle.weld_meaning.specs.Thing.{bare_thing as bare_of};
ghost use Rattle.weld_exec.specs.Run.{AtLoop, IsAtALoop, evaluation_of, rows_at, program_meaning, TileAnswer, PieceAnswer};

use crate::env::{Env, loop_at};
use crate::evaluate::{parameters, within};
use crate::gather::vectors_of;
use crate::range::run_rows;
use crate::room::make_room;
use std::alloc::{AllocError, Global};
use weld_data::Stop;
use weld_eval::frame::Frame;
use weld_eval::thing::{Fields, Owned, bare_thing};
use weld_meaning::LoopId;
use weld_plan::Plan;
use weld_tile_parts::{Piece, TilePart};
use weld_tiles::Tile;
use weld_tree::Expr;

/// What a tile's rows make of the builder that has nothing merged, at the loop at which the run stands. It faults exactly
/// where that does, and then the program's meaning is a fault.
pub fn tile_part(
    alloc: Global,
    plan: &Plan,
    env: &Env,
    at: LoopId,
    tile: Tile,
) -> Result<TilePart, Stop>
    requires at { AtLoop plan.now env.now at }
    requires ordered { tile.lo ≤ tile.hi }
    requires within { tile.hi ≤ rows_at env.now }
    ensures action { TileAnswer result (evaluation_of plan.now env.now) tile }
    ensures means { OnFault result (program_meaning plan.now env.now ≡ fault) }
{
    let mut part = match bare_part(plan, env, tile, alloc) {
        Ok(part) => part,
        Err(_) => return Err(Stop::Memory),
    };
    match run_in(alloc, plan, env, tile, &mut part) {
        Ok(()) => Ok(part_of(plan, env, tile, part)),
        Err(stop) => {
            let_go(part);
            Err(stop)
        }
    }
}

/// The part of a tile, as `tile_part` makes it, as a piece that has to be spent.
pub fn run_tile(
    alloc: Global,
    plan: &Plan,
    env: &Env,
    at: LoopId,
    tile: Tile,
) -> Result<Piece, Stop>
    requires at { AtLoop plan.now env.now at }
    requires ordered { tile.lo ≤ tile.hi }
    requires within { tile.hi ≤ rows_at env.now }
    ensures action { PieceAnswer result (evaluation_of plan.now env.now) tile }
    ensures means { OnFault result (program_meaning plan.now env.now ≡ fault) }
{
    match tile_part(alloc, plan, env, at, tile) {
        Ok(part) => Ok(part.seal()),
        Err(stop) => Err(stop),
    }
}

/// The builder that has nothing merged, of the loop at which the run stands, with room for what the rows of a tile append to it
/// where that is one item for each row.
pub fn bare_part(plan: &Plan, env: &Env, tile: Tile, alloc: Global) -> Result<Owned, AllocError>
    requires { IsAtALoop plan.now env.now }
    ensures { IfOk result (λ part. thing_of part ≡ bare_of (evaluation_of plan.now env.now).start) }
{
    match &env.stack {
        Fields::And(start, _) => bare_with_room(loop_at(plan, env.at), start, tile, alloc),
        Fields::End => unreachable!(),
    }
}

/// The same of this start.
fn bare_with_room(
    node: &Expr,
    start: &Owned,
    tile: Tile,
    alloc: Global,
) -> Result<Owned, AllocError>
    ensures { IfOk result (λ part. thing_of part ≡ bare_of (thing_of start.now)) }
{
    let mut part = bare_thing(start, alloc)?;
    match make_room(node, tile, &mut part) {
        Ok(()) => Ok(part),
        Err(e) => Err(e),
    }
}

/// Hands a builder through the rows of a tile of the loop at which the run stands. It faults exactly where one of them does.
/// After a stop the builder is only good to be dropped.
pub fn run_in(
    alloc: Global,
    plan: &Plan,
    env: &Env,
    tile: Tile,
    part: &mut Owned,
) -> Result<(), Stop>
    requires at { IsAtALoop plan.now env.now }
    requires holds { HoldsRange (evaluation_of plan.now env.now).node
        (evaluation_of plan.now env.now).names (evaluation_of plan.now env.now).lists tile.lo
        tile.hi (thing_of part.old) }
    ensures { RangeAnswer result (evaluation_of plan.now env.now) tile.lo tile.hi
        (thing_of part.old) (thing_of part.new) }
{
    let node = loop_at(plan, env.at);
    let base = parameters(plan.program, env.inputs);
    let frame = within(&env.names, &base);
    match &env.stack {
        Fields::And(_, pile) => over_pile(node, &frame, pile, tile, part, alloc),
        Fields::End => unreachable!(),
    }
}

/// The same, over the vectors of the loop's legs, which stand in the pile or are read where they stand.
fn over_pile<'a>(
    node: &Expr,
    frame: &'a Frame<'a>,
    pile: &'a Fields,
    tile: Tile,
    part: &mut Owned,
    alloc: Global,
) -> Result<(), Stop>
    requires pile { HasPile node.now (env_of frame.now) (things_of pile.now) }
    requires holds { HoldsRange node.now (env_of frame.now)
        (loop_lists node.now (env_of frame.now) (things_of pile.now)) tile.lo tile.hi
        (thing_of part.old) }
    ensures { RangeAnswer result (record {
      node = node.now;
      names = env_of frame.now;
      lists = loop_lists node.now (env_of frame.now) (things_of pile.now);
      start = thing_of part.old;
    })
        tile.lo tile.hi (thing_of part.old) (thing_of part.new) }
{
    match vectors_of(node, pile, frame, alloc) {
        Ok(vectors) => run_rows(node, &*frame, &vectors, tile, part, alloc),
        Err(stop) => Err(stop),
    }
}

/// Lets a builder go.
fn let_go(_builder: Owned) {}

/// The part of rows of the loop at which the run stands, which is what they make of the builder that has nothing merged. It
/// takes no memory.
pub fn part_of(plan: &Plan, env: &Env, tile: Tile, thing: Owned) -> TilePart
    requires at { IsAtALoop plan.now env.now }
    requires ordered { tile.lo ≤ tile.hi }
    requires within { tile.hi ≤ rows_at env.now }
    requires action { IsAction (evaluation_of plan.now env.now) tile.lo tile.hi (thing_of thing) }
    ensures tile { result.tile ≡ tile }
    ensures thing { part_thing result ≡ thing_of thing }
    ensures evaluation { part_evaluation result ≡ evaluation_of plan.now env.now }
{
    part_in(plan, env, tile, thing)
}

/// The part of a tile of an evaluation. It takes no memory.
fn part_in(_plan: &Plan, _env: &Env, tile: Tile, thing: Owned) -> TilePart
    ghost at: { Evaluation }
    requires tile { IsTileOf at tile.lo tile.hi }
    requires action { IsAction at tile.lo tile.hi (thing_of thing) }
    ensures tile { result.tile ≡ tile }
    ensures thing { part_thing result ≡ thing_of thing }
    ensures evaluation { part_evaluation result ≡ at }
{
    TilePart::of(tile, thing)
}
