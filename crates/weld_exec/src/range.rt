//! The rows of a range, over the vectors of the legs.

ghost use Rattle.std.specs.Prelude.{◌≡◌, ◌≤◌, ◌++◌, ◌∷◌, [], length, take};
ghost use Rattle.weld_data.specs.View.{view_column};
ghost use Rattle.weld_acts.specs.Ranges.{HoldsRange, RangeAnswer};
ghost use Rattle.weld_eval.specs.FrameView.{env_of};
ghost use Rattle.weld_eval.specs.LegsView.{lists_of};
ghost use Rattle.weld_eval.specs.ThingView.{thing_of, held_of};
ghost use Rattle.weld_eval_forms.specs.Legs.{elements_in, leg_lists, IsVector, AreVectors};

use crate::room::make_room;
use std::alloc::Global;
use weld_acts::is_direct;
use weld_data::{Column, Stop, Val};
use weld_eval::frame::Frame;
use weld_eval::legs::Legs;
use weld_eval::thing::{Held, Owned, value_of};
use weld_lane_rows::run_lanes;
use weld_rows::run_range;
use weld_tiles::Tile;
use weld_tree::Expr;

/// Hands a builder through the rows of a tile, over these vectors, with room made for what they append. After a stop it is
/// only good to be dropped.
pub(crate) fn run_rows(
    node: &Expr,
    frame: &Frame,
    vectors: &[Held],
    tile: Tile,
    builder: &mut Owned,
    alloc: Global,
) -> Result<(), Stop>
    requires vectors { AreVectors vectors.now }
    requires holds { HoldsRange node.now (env_of frame.now) (leg_lists vectors.now) tile.lo tile.hi
        (thing_of builder.old) }
    ensures { RangeAnswer result (record {
      node = node.now;
      names = env_of frame.now;
      lists = leg_lists vectors.now;
      start = thing_of builder.old;
    }) tile.lo tile.hi
        (thing_of builder.old) (thing_of builder.new) }
{
    match make_room(node, tile, builder) {
        Ok(()) => run_in_room(node, frame, vectors, tile, builder, alloc),
        Err(_) => Err(Stop::Memory),
    }
}

/// The same, as the builder is.
fn run_in_room(
    node: &Expr,
    frame: &Frame,
    vectors: &[Held],
    tile: Tile,
    builder: &mut Owned,
    alloc: Global,
) -> Result<(), Stop>
    requires vectors { AreVectors vectors.now }
    requires holds { HoldsRange node.now (env_of frame.now) (leg_lists vectors.now) tile.lo tile.hi
        (thing_of builder.old) }
    ensures { RangeAnswer result (record {
      node = node.now;
      names = env_of frame.now;
      lists = leg_lists vectors.now;
      start = thing_of builder.old;
    }) tile.lo tile.hi
        (thing_of builder.old) (thing_of builder.new) }
{
    let end = no_legs();
    run_tile_rows(
        node,
        frame,
        vectors,
        vectors.len(),
        &end,
        tile,
        builder,
        alloc,
    )
}

/// The same over these vectors before those of further legs.
#[tactic(auto, using(crate::proofs::Ranges::vector_at, crate::proofs::Ranges::none_taken, crate::proofs::Ranges::one_taken))]
fn run_tile_rows(
    node: &Expr,
    frame: &Frame,
    vectors: &[Held],
    left: usize,
    legs: &Legs,
    tile: Tile,
    builder: &mut Owned,
    alloc: Global,
) -> Result<(), Stop>
    requires vectors { AreVectors vectors.now }
    requires left { left ≤ length vectors.now }
    requires holds { HoldsRange node.now (env_of frame.now)
        (leg_lists (take left vectors.now) ++ lists_of legs.now) tile.lo tile.hi
        (thing_of builder.old) }
    ensures { RangeAnswer result (record {
      node = node.now;
      names = env_of frame.now;
      lists = leg_lists (take left vectors.now) ++ lists_of legs.now;
      start = thing_of builder.old;
    })
        tile.lo tile.hi (thing_of builder.old) (thing_of builder.new) }
{
    if left == 0 {
        run_legs(node, frame, legs, tile, builder, alloc)
    } else {
        let more = before(column_of(&vectors[left - 1]), &*legs);
        run_tile_rows(
            node,
            &*frame,
            &*vectors,
            left - 1,
            &more,
            tile,
            builder,
            alloc,
        )
    }
}

/// The same over these legs: by lanes where the loop's body is plain arithmetic, else in place.
fn run_legs(
    node: &Expr,
    frame: &Frame,
    legs: &Legs,
    tile: Tile,
    builder: &mut Owned,
    alloc: Global,
) -> Result<(), Stop>
    requires { HoldsRange node.now (env_of frame.now) (lists_of legs.now) tile.lo tile.hi
        (thing_of builder.old) }
    ensures { RangeAnswer result (record {
      node = node.now;
      names = env_of frame.now;
      lists = lists_of legs.now;
      start = thing_of builder.old;
    }) tile.lo tile.hi (thing_of builder.old)
        (thing_of builder.new) }
{
    let from = tile.lo as usize;
    let to = tile.hi as usize;
    match run_lanes(node, frame, legs, from, to, builder, alloc) {
        Ok(is_done) => {
            if is_done {
                Ok(())
            } else {
                let is_direct = is_direct(node);
                run_range(node, frame, legs, from, to, is_direct, builder, alloc)
            }
        }
        Err(_) => Err(Stop::Memory),
    }
}

/// No legs. It takes no memory.
fn no_legs<'a>() -> Legs<'a>
    ensures { lists_of result ≡ [] }
{
    Legs::End
}

/// A leg before others. It takes no memory.
fn before<'a>(column: &'a Column, rest: &'a Legs<'a>) -> Legs<'a>
    ensures { lists_of result ≡ view_column column.now ∷ lists_of rest.now }
{
    Legs::And(column, rest)
}

/// The column of a vector. It takes no memory.
#[tactic(auto, using(crate::proofs::Ranges::column_there))]
fn column_of<'a>(x: &'a Held<'a>) -> &'a Column
    requires { IsVector (held_of x.now) }
    ensures { view_column result.now ≡ elements_in x.now }
{
    match value_of(x) {
        Val::List(column) => column,
        _ => unreachable!(),
    }
}
