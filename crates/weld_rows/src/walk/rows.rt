//! The rows of a loop, block by block or one by one.

ghost use Rattle.std.specs.Prelude.{◌≡◌, ◌≤◌, ◌<◌, true, length as length_of};
ghost use Rattle.weld_acts.specs.Act.{Acts, AreDirect};
ghost use Rattle.weld_acts.specs.Ranges.{HoldsRange, range_over};
ghost use Rattle.weld_eval.specs.FrameView.{env_of};
ghost use Rattle.weld_eval.specs.LegsView.{lists_of};
ghost use Rattle.weld_eval.specs.RowLists.{rows_in, row_in};
ghost use Rattle.weld_eval.specs.ThingView.{thing_of};
ghost use Rattle.weld_eval_plain.specs.Nodes.{IsLoop};
ghost use Rattle.weld_rows.specs.RangeOn.{RangeOn};
ghost use Rattle.weld_rows.specs.RowActs.{RowActFits, row_act};

use super::acts::act;
use super::appended::append_rows;
use crate::blocks::do_block;
use crate::forms::{let_go, with_builder, with_number, with_row};
use std::alloc::Global;
use weld_blocks::scalar::whole_number;
use weld_data::Stop;
use weld_deeds::block_of;
use weld_eval::frame::Frame;
use weld_eval::legs::Legs;
use weld_eval::row::RowAt;
use weld_eval::thing::{Owned, bare_thing};
use weld_tree::{Expr, Form};

/// How many rows a block has at most: what is worked out for it stays in the nearest memory of the processor.
const BLOCK: usize = 1024;

/// A loop of fewer rows is walked row by row: a block of them isn't worth what it takes.
const FEW: usize = 8;

/// A builder handed through the rows of a loop from a number up to, not including, another: in place,
/// where each loop within acts on its own builder; else each row is evaluated and appended.
#[cycle(rows)]
pub fn hand_through(
    e: &Expr,
    frame: &Frame,
    legs: &Legs,
    from: usize,
    to: usize,
    in_place: bool,
    builder: &mut Owned,
    alloc: Global,
) -> Result<(), Stop>
    requires rows { HoldsRange e.now (env_of frame.now) (lists_of legs.now) from to
        (thing_of builder.old) }
    requires direct { in_place ≡ true → AreDirect e.now }
    requires form { IsLoop e.now }
    ensures { Acts result (range_over e.now (env_of frame.now) (lists_of legs.now) from to
        (thing_of builder.old)) (thing_of builder.new) }
{
    if in_place {
        run_rows(e, frame, legs, from, to, builder, alloc)
    } else {
        append_rows(e, frame, legs, from, to, builder, alloc)
    }
}

/// The rows of a loop from a number up to, not including, another, in place, block by block where its body allows that. The
/// builder's own name stands for one that has nothing merged, which is never looked at.
#[cycle(rows)]
#[tactic(auto, using(crate::proofs::RangeSteps::range_start))]
fn run_rows(
    e: &Expr,
    frame: &Frame,
    legs: &Legs,
    from: usize,
    to: usize,
    builder: &mut Owned,
    alloc: Global,
) -> Result<(), Stop>
    requires rows { HoldsRange e.now (env_of frame.now) (lists_of legs.now) from to
        (thing_of builder.old) }
    requires direct { AreDirect e.now }
    requires form { IsLoop e.now }
    ensures { Acts result (range_over e.now (env_of frame.now) (lists_of legs.now) from to
        (thing_of builder.old)) (thing_of builder.new) }
{
    let own = match bare_thing(builder, alloc) {
        Ok(own) => own,
        Err(_) => return Err(Stop::Memory),
    };
    let answer = run_blocks(e, frame, &own, legs, from, to, builder, alloc);
    let_go(own);
    answer
}

/// The same, where what the builder's own name stands for is at hand.
#[cycle(rows)]
#[tactic(auto, using(crate::proofs::RangeSteps::range_part, crate::proofs::RangeSteps::range_part_next, crate::proofs::RangeSteps::range_part_stops, crate::proofs::RangeSteps::range_end))]
fn run_blocks(
    e: &Expr,
    frame: &Frame,
    own: &Owned,
    legs: &Legs,
    from: usize,
    to: usize,
    builder: &mut Owned,
    alloc: Global,
) -> Result<(), Stop>
    requires on { RangeOn e.now (env_of frame.now) (lists_of legs.now) from to
        (thing_of builder.old) (thing_of own.now) from (thing_of builder.old) }
    requires direct { AreDirect e.now }
    requires form { IsLoop e.now }
    ensures { Acts result (range_over e.now (env_of frame.now) (lists_of legs.now) from to
        (thing_of builder.old)) (thing_of builder.new) }
{
    let mut reached = from;
    let mut tries = to - from >= FEW;
    'pieces: while reached < to {
        let end = block_end(reached, to);
        match run_block(e, &*frame, own, &*legs, reached, end, tries, builder, alloc) {
            Ok(was_block) => tries = was_block,
            Err(stop) => return Err(stop),
        }
        reached = end;
    }
    Ok(())
}

/// Where a block ends that begins at a row before the last one.
fn block_end(from: usize, to: usize) -> usize
    requires { from < to }
    ensures more { from < result }
    ensures within { result ≤ to }
{
    if to - from < BLOCK { to } else { from + BLOCK }
}

/// The rows of a block: answers whether they were worked out at once, so that it is worth to try the next.
#[cycle(rows)]
fn run_block(
    e: &Expr,
    frame: &Frame,
    own: &Owned,
    legs: &Legs,
    from: usize,
    to: usize,
    tries: bool,
    builder: &mut Owned,
    alloc: Global,
) -> Result<bool, Stop>
    requires on { RangeOn e.now (env_of frame.now) (lists_of legs.now) from to
        (thing_of builder.old) (thing_of own.now) from (thing_of builder.old) }
    requires direct { AreDirect e.now }
    requires form { IsLoop e.now }
    ensures { Acts result (range_over e.now (env_of frame.now) (lists_of legs.now) from to
        (thing_of builder.old)) (thing_of builder.new) }
{
    if tries {
        try_block(e, frame, own, legs, from, to, builder, alloc)
    } else {
        walk_block(e, frame, own, legs, from, to, builder, alloc)
    }
}

/// The rows of a block, worked out at once where its body allows that.
#[cycle(rows)]
#[tactic(auto, using(crate::proofs::RangeSteps::is_ordered, crate::proofs::RangeSteps::block_ready, crate::proofs::RangeSteps::block_is_done))]
fn try_block(
    e: &Expr,
    frame: &Frame,
    own: &Owned,
    legs: &Legs,
    from: usize,
    to: usize,
    builder: &mut Owned,
    alloc: Global,
) -> Result<bool, Stop>
    requires on { RangeOn e.now (env_of frame.now) (lists_of legs.now) from to
        (thing_of builder.old) (thing_of own.now) from (thing_of builder.old) }
    requires direct { AreDirect e.now }
    requires form { IsLoop e.now }
    ensures { Acts result (range_over e.now (env_of frame.now) (lists_of legs.now) from to
        (thing_of builder.old)) (thing_of builder.new) }
{
    match block_of(e, &*frame, own, &*legs, from, to - from, alloc) {
        Some(deed) => do_block(deed, to - from, builder),
        None => walk_block(e, frame, own, legs, from, to, builder, alloc),
    }
}

/// The rows of a block, walked one by one.
#[cycle(rows)]
fn walk_block(
    e: &Expr,
    frame: &Frame,
    own: &Owned,
    legs: &Legs,
    from: usize,
    to: usize,
    builder: &mut Owned,
    alloc: Global,
) -> Result<bool, Stop>
    requires on { RangeOn e.now (env_of frame.now) (lists_of legs.now) from to
        (thing_of builder.old) (thing_of own.now) from (thing_of builder.old) }
    requires direct { AreDirect e.now }
    requires form { IsLoop e.now }
    ensures { Acts result (range_over e.now (env_of frame.now) (lists_of legs.now) from to
        (thing_of builder.old)) (thing_of builder.new) }
{
    match walk_rows(e, frame, own, legs, from, to, builder, alloc) {
        Ok(()) => Ok(false),
        Err(stop) => Err(stop),
    }
}

/// Rows, walked one by one.
#[cycle(rows)]
#[tactic(auto, using(crate::proofs::RangeSteps::range_there, crate::proofs::RangeSteps::range_row_acts, crate::proofs::RangeSteps::range_act_next, crate::proofs::RangeSteps::range_act_stops, crate::proofs::RangeSteps::range_end))]
fn walk_rows(
    e: &Expr,
    frame: &Frame,
    own: &Owned,
    legs: &Legs,
    from: usize,
    to: usize,
    builder: &mut Owned,
    alloc: Global,
) -> Result<(), Stop>
    requires on { RangeOn e.now (env_of frame.now) (lists_of legs.now) from to
        (thing_of builder.old) (thing_of own.now) from (thing_of builder.old) }
    requires direct { AreDirect e.now }
    requires form { IsLoop e.now }
    ensures { Acts result (range_over e.now (env_of frame.now) (lists_of legs.now) from to
        (thing_of builder.old)) (thing_of builder.new) }
{
    for number in from..to {
        match run_row(e, &*frame, own, &*legs, number, builder, alloc) {
            Ok(()) => {}
            Err(stop) => return Err(stop),
        }
    }
    Ok(())
}

/// One row of a loop, in place.
#[cycle(rows)]
fn run_row(
    e: &Expr,
    frame: &Frame,
    own: &Owned,
    legs: &Legs,
    number: usize,
    builder: &mut Owned,
    alloc: Global,
) -> Result<(), Stop>
    requires there { number < length_of (rows_in (lists_of legs.now)) }
    requires fits { RowActFits e.now (env_of frame.now) (thing_of own.now)
        (number, row_in (lists_of legs.now) number) (thing_of builder.old) }
    ensures { Acts result (row_act e.now (env_of frame.now) (thing_of own.now)
        (number, row_in (lists_of legs.now) number) (thing_of builder.old)) (thing_of builder.new) }
{
    match &e.form {
        Form::For(_, _, own_binder, count_binder, row_binder, body) => {
            let row = RowAt::new(&*legs, number);
            let outer = with_builder(own_binder.sym, &*own, &*frame);
            let middle = with_number(count_binder.sym, whole_number(number), &outer);
            let inner = with_row(row_binder.sym, &row, &middle);
            act(body, &inner, builder, alloc)
        }
        _ => unreachable!(),
    }
}
