//! Pieces of the rows of a loop: the numbers of each are worked out, and merged as one list.

ghost use Rattle.std.specs.Prelude.{◌≡◌, ◌-◌, ◌<◌, ◌≤◌, length, map, OnOk};
ghost use Rattle.weld_data.specs.Value.{number as value_of};
ghost use Rattle.weld_builders.specs.Outcome.{done};
ghost use Rattle.weld_builders.specs.Range.{AllInRange};
ghost use Rattle.weld_acts.specs.Ranges.{HoldsRange, range_over};
ghost use Rattle.weld_eval.specs.FrameView.{env_of};
ghost use Rattle.weld_eval.specs.LegsView.{lists_of};
ghost use Rattle.weld_eval.specs.ThingView.{thing_of};
ghost use Rattle.weld_lanes.specs.Answers.{room_of};
ghost use Rattle.weld_lanes.specs.Blocks.{AreConstants};
ghost use Rattle.weld_lane_rows.specs.Rows.{answer_at, AreFrom, MergesRows, IsTaker, merge_them};

use crate::words::{Word, merge_numbers};
use std::alloc::{AllocError, Global};
use weld_data::Stop;
use weld_eval::frame::Frame;
use weld_eval::legs::Legs;
use weld_eval::thing::Owned;
use weld_lanes::{BLOCK, LaneProgram, answer_block, constants_for, room_for};
use weld_tree::Expr;

/// A loop's steps, the numbers that are the same on all its rows, and the columns of the rows.
#[derive(Drop)]
pub(crate) struct Lanes<'a, L> {
    pub program: &'a LaneProgram,
    pub uniforms: &'a [L],
    pub first: &'a [L],
    pub second: &'a [L],
}

/// Merges what the steps answer on the rows from a number up to, not including, another, piece by piece.
#[tactic(auto, using(weld_acts::proofs::RangeSteps::range_start))]
pub(crate) fn run_pieces<L: Word>(
    node: &Expr,
    frame: &Frame,
    legs: &Legs,
    lanes: &Lanes<L>,
    from: usize,
    to: usize,
    builder: &mut Owned,
    alloc: Global,
) -> Result<(), AllocError>
    requires holds { HoldsRange node.now (env_of frame.now) (lists_of legs.now) from to
        (thing_of builder.old) }
    requires kind { lanes.now.program.now.kind ≡ L.kind }
    requires first { to ≤ length lanes.now.first.now }
    requires second { to ≤ length lanes.now.second.now }
    requires merges { MergesRows node.now (env_of frame.now) (lists_of legs.now) L.kind
        (answer_at L.number L.kind lanes.now.program.now lanes.now.uniforms.now lanes.now.first.now
        lanes.now.second.now) to }
    ensures { OnOk result (range_over node.now (env_of frame.now) (lists_of legs.now) from to
        (thing_of builder.old) ≡ done (thing_of builder.new)) }
{
    let constants = constants_for::<L>(lanes.program, lanes.uniforms, alloc)?;
    let mut room = room_for::<L>(lanes.program, alloc)?;
    let mut words = vec![in alloc; 0i64; BLOCK]?;
    run_in_room(
        node, frame, legs, lanes, &constants, &mut room, &mut words, from, to, builder,
    )
}

/// The same with the constants of the steps, room for their answers on a piece, and for those of the last one in words. A piece is a block of the
/// steps, so that what they answer is merged from where they have put it.
#[tactic(auto, using(weld_acts::proofs::RangeSteps::range_start, weld_acts::proofs::RangeSteps::range_ends, crate::proofs::PieceLemmas::part_merges))]
fn run_in_room<L: Word>(
    node: &Expr,
    frame: &Frame,
    legs: &Legs,
    lanes: &Lanes<L>,
    constants: &[L],
    room: &mut [L],
    words: &mut [i64],
    from: usize,
    to: usize,
    builder: &mut Owned,
) -> Result<(), AllocError>
    requires holds { HoldsRange node.now (env_of frame.now) (lists_of legs.now) from to
        (thing_of builder.old) }
    requires kind { lanes.now.program.now.kind ≡ L.kind }
    requires first { to ≤ length lanes.now.first.now }
    requires second { to ≤ length lanes.now.second.now }
    requires merges { MergesRows node.now (env_of frame.now) (lists_of legs.now) L.kind
        (answer_at L.number L.kind lanes.now.program.now lanes.now.uniforms.now lanes.now.first.now
        lanes.now.second.now) to }
    requires constants { AreConstants lanes.now.program.now.steps.items
        (map L.number lanes.now.uniforms.now) (map L.number constants.now)
        (length lanes.now.program.now.steps.items) }
    requires wide { room_of (length lanes.now.program.now.steps.items) ≤ length constants.now }
    requires room { room_of (length lanes.now.program.now.steps.items) ≤ length room.old }
    requires words { 512 ≤ length words.old }
    ensures { OnOk result (range_over node.now (env_of frame.now) (lists_of legs.now) from to
        (thing_of builder.old) ≡ done (thing_of builder.new)) }
{
    let mut reached = from;
    'pieces: while reached < to {
        let end = piece_end(reached, to);
        let numbers = piece_numbers(&*lanes, constants, room, reached, end);
        let own = &mut words[..end - reached];
        merge_piece(numbers, own, builder)?;
        reached = end;
    }
    Ok(())
}

/// Where a piece ends that begins at a row before the last one.
fn piece_end(from: usize, to: usize) -> usize
    requires { from < to }
    ensures more { from < result }
    ensures within { result ≤ to }
    ensures small { result - from ≤ 512 }
{
    if to - from < BLOCK { to } else { from + BLOCK }
}

/// What the steps answer on the rows of a piece, in the width of their kind.
fn piece_numbers<'a, L: Word>(
    lanes: &'a Lanes<'a, L>,
    constants: &'a [L],
    room: &'a mut [L],
    from: usize,
    to: usize,
) -> &'a [L]
    requires ordered { from ≤ to }
    requires small { to - from ≤ 512 }
    requires kind { lanes.now.program.now.kind ≡ L.kind }
    requires first { to ≤ length lanes.now.first.now }
    requires second { to ≤ length lanes.now.second.now }
    requires constants { AreConstants lanes.now.program.now.steps.items
        (map L.number lanes.now.uniforms.now) (map L.number constants.now)
        (length lanes.now.program.now.steps.items) }
    requires wide { room_of (length lanes.now.program.now.steps.items) ≤ length constants.now }
    requires room { room_of (length lanes.now.program.now.steps.items) ≤ length room.old }
    ensures long { length result.now ≡ to - from }
    ensures are { AreFrom (answer_at L.number L.kind lanes.now.program.now lanes.now.uniforms.now
        lanes.now.first.now lanes.now.second.now) from (to - from) (map L.number result.now) }
{
    let first = &lanes.first[from..to];
    let second = &lanes.second[from..to];
    answer_block(
        lanes.program,
        room,
        first,
        second,
        lanes.uniforms,
        constants,
    )
}

/// Merges numbers into a builder that takes numbers of their kind.
fn merge_piece<L: Word>(
    numbers: &[L],
    room: &mut [i64],
    builder: &mut Owned,
) -> Result<(), AllocError>
    requires room { length numbers.now ≡ length room.old }
    requires in_range { AllInRange L.kind (map L.number numbers.now) }
    requires takes { IsTaker (thing_of builder.old) L.kind }
    ensures { OnOk result (merge_them (thing_of builder.old) (map (value_of L.kind)
        (map L.number numbers.now)) ≡ done (thing_of builder.new)) }
{
    match builder {
        Owned::Built(built) => match merge_numbers(built, numbers, room) {
            Ok(()) => Ok(()),
            Err(Stop::Memory) => Err(AllocError),
            Err(Stop::Fault) => unreachable!(),
        },
        _ => unreachable!(),
    }
}
