//! The kernels: what a program's steps answer on all rows, as a list or combined into one number.

ghost use Rattle.std.specs.Prelude.{◌≡◌, ◌+◌, ◌<◌, ◌≤◌, IsTrue, length, map};
ghost use Rattle.std.specs.List.{fold};
ghost use Rattle.weld_data.specs.Operation.{combination};
ghost use Rattle.weld_lanes.specs.Answers.{at, lane_meaning, row_answer, room_of};
ghost use Rattle.weld_lanes.specs.Blocks.{ArePart, AreAnswered, AreConstants, IsAnswered};
ghost use Rattle.weld_lanes.specs.Formed.{is_formed};

use crate::block::{Rows, answer_step, operand, part};
use crate::constants::put_constants;
use crate::kinds::Lane;
use crate::room::{BLOCK, Scratch};
use crate::steps::{LaneProgram, LaneStep};
use crate::works::{Greatest, Least, Product, Sum, each_copy, fold_all};
use weld_data::MergeOp;

/// The answers of one more step on the rows of a block.
fn answer_next<L: Lane>(
    program: &LaneProgram,
    uniforms: &[L],
    constants: &[L],
    first: &[L],
    second: &[L],
    place: usize,
    room: &mut [L],
)
    requires kind { program.now.kind ≡ L.kind }
    requires constants { AreConstants program.now.steps.items (map L.number uniforms.now)
        (map L.number constants.now) (length program.now.steps.items) }
    requires wide { room_of (length program.now.steps.items) ≤ length constants.now }
    requires same { length second.now ≡ length first.now }
    requires small { length first.now ≤ 512 }
    requires there { place < length program.now.steps.items }
    requires long { room_of (length program.now.steps.items) ≤ length room.old }
    requires answered { AreAnswered L.kind program.now.steps.items (map L.number uniforms.now)
        (map L.number first.now) (map L.number second.now) (map L.number room.old) place
        (length first.now) }
    ensures { AreAnswered L.kind program.now.steps.items (map L.number uniforms.now)
        (map L.number first.now) (map L.number second.now) (map L.number room.new) (place + 1)
        (length first.now) }
{
    let steps = program.steps.as_slice();
    let (before, rest) = room.split_at_mut(place * BLOCK);
    let rows = Rows {
        steps,
        answered: place,
        uniforms,
        constants,
        first,
        second,
        room: &*before,
    };
    answer_into(&rows, steps[place], rest);
}

/// The answers of the next step into the first places of the room that is left.
fn answer_into<L: Lane>(rows: &Rows<L>, step: LaneStep, rest: &mut [L])
    requires formed { IsTrue (is_formed L.kind rows.now.answered step) }
    requires constants { AreConstants rows.now.steps.now (map L.number rows.now.uniforms.now)
        (map L.number rows.now.constants.now) (length rows.now.steps.now) }
    requires answered { AreAnswered L.kind rows.now.steps.now (map L.number rows.now.uniforms.now)
        (map L.number rows.now.first.now) (map L.number rows.now.second.now)
        (map L.number rows.now.room.now) rows.now.answered (length rows.now.first.now) }
    requires long { length rows.now.first.now ≤ length rest.old }
    ensures { IsAnswered L.kind rows.now.steps.now (map L.number rows.now.uniforms.now)
        (map L.number rows.now.first.now) (map L.number rows.now.second.now) step
        (map L.number rest.new) (length rows.now.first.now) }
{
    answer_step(rows, step, &mut rest[..rows.first.len()]);
}

/// The answers of all steps on the rows of a block.
fn answer_all<L: Lane>(
    program: &LaneProgram,
    uniforms: &[L],
    constants: &[L],
    first: &[L],
    second: &[L],
    room: &mut [L],
)
    requires kind { program.now.kind ≡ L.kind }
    requires constants { AreConstants program.now.steps.items (map L.number uniforms.now)
        (map L.number constants.now) (length program.now.steps.items) }
    requires wide { room_of (length program.now.steps.items) ≤ length constants.now }
    requires same { length second.now ≡ length first.now }
    requires small { length first.now ≤ 512 }
    requires long { room_of (length program.now.steps.items) ≤ length room.old }
    ensures { AreAnswered L.kind program.now.steps.items (map L.number uniforms.now)
        (map L.number first.now) (map L.number second.now) (map L.number room.new)
        (length program.now.steps.items) (length first.now) }
{
    for place in 0..program.steps.len() {
        answer_next(program, uniforms, constants, first, second, place, room);
    }
}

/// The answers on the rows of a block: those of the last step.
fn block_answers<'a, L: Lane>(
    program: &'a LaneProgram,
    uniforms: &'a [L],
    constants: &'a [L],
    first: &'a [L],
    second: &'a [L],
    room: &'a mut [L],
) -> &'a [L]
    requires kind { program.now.kind ≡ L.kind }
    requires constants { AreConstants program.now.steps.items (map L.number uniforms.now)
        (map L.number constants.now) (length program.now.steps.items) }
    requires wide { room_of (length program.now.steps.items) ≤ length constants.now }
    requires same { length second.now ≡ length first.now }
    requires small { length first.now ≤ 512 }
    requires long { room_of (length program.now.steps.items) ≤ length room.old }
    ensures long { length result.now ≡ length first.now }
    ensures each { ArePart (λ j. row_answer L.kind program.now.steps.items
        (map L.number uniforms.now) (at (map L.number first.now) j)
        (at (map L.number second.now) j)) (map L.number result.now) (length first.now) }
{
    answer_all(program, uniforms, constants, first, second, room);
    let steps = program.steps.as_slice();
    let rows = Rows {
        steps,
        answered: steps.len(),
        uniforms,
        constants,
        first,
        second,
        room: &*room,
    };
    operand(&rows, steps.len() - 1)
}

/// The answers of the program's steps on the rows of one block, of which there are 512 at most, lent from the room for them, or
/// from a column or from constants that the last step is. Columns and uniform numbers are as for `map_lanes`, the constants those of
/// `constants_for`. It takes no memory, and what the room holds doesn't matter.
#[tactic(auto, using(crate::proofs::Meaning::block_meaning))]
pub fn answer_block<'a, L: Lane>(
    program: &'a LaneProgram,
    room: &'a mut [L],
    first: &'a [L],
    second: &'a [L],
    uniforms: &'a [L],
    constants: &'a [L],
) -> &'a [L]
    requires kind { program.now.kind ≡ L.kind }
    requires constants { AreConstants program.now.steps.items (map L.number uniforms.now)
        (map L.number constants.now) (length program.now.steps.items) }
    requires wide { room_of (length program.now.steps.items) ≤ length constants.now }
    requires room { room_of (length program.now.steps.items) ≤ length room.old }
    requires second { length second.now ≡ length first.now }
    requires small { length first.now ≤ 512 }
    ensures long { length result.now ≡ length first.now }
    ensures answers { map L.number result.now ≡ lane_meaning L.kind program.now.steps.items
        (map L.number uniforms.now) (map L.number first.now) (map L.number second.now) }
{
    block_answers(program, uniforms, constants, first, second, room)
}

/// The answers of the program's steps on all rows, one row after another, whose numbers of the first and of the second column
/// stand at the same place; a loop over one column hands it over twice. The numbers that are the same for all rows are named
/// by their places. It takes no memory, and what the scratch holds doesn't matter.
pub fn map_lanes<L: Lane>(
    program: &LaneProgram,
    scratch: &mut Scratch<L>,
    first: &[L],
    second: &[L],
    uniforms: &[L],
    out: &mut [L],
)
    requires kind { program.now.kind ≡ L.kind }
    requires room { room_of (length program.now.steps.items) ≤ scratch.old }
    requires second { length second.now ≡ length first.now }
    requires out { length out.old ≡ length first.now }
    ensures answers { map L.number out.new ≡ lane_meaning L.kind program.now.steps.items
        (map L.number uniforms.now) (map L.number first.now) (map L.number second.now) }
    ensures room { scratch.new ≡ scratch.old }
{
    put_constants(program, uniforms, &mut scratch.constants);
    map_all(
        program,
        &mut scratch.items,
        first,
        second,
        uniforms,
        &scratch.constants,
        out,
    );
}

/// The same in room that is lent.
fn map_all<L: Lane>(
    program: &LaneProgram,
    room: &mut [L],
    first: &[L],
    second: &[L],
    uniforms: &[L],
    constants: &[L],
    out: &mut [L],
)
    requires kind { program.now.kind ≡ L.kind }
    requires constants { AreConstants program.now.steps.items (map L.number uniforms.now)
        (map L.number constants.now) (length program.now.steps.items) }
    requires wide { room_of (length program.now.steps.items) ≤ length constants.now }
    requires room { room_of (length program.now.steps.items) ≤ length room.old }
    requires second { length second.now ≡ length first.now }
    requires out { length out.old ≡ length first.now }
    ensures { map L.number out.new ≡ lane_meaning L.kind program.now.steps.items
        (map L.number uniforms.now) (map L.number first.now) (map L.number second.now) }
{
    let mut from = 0;
    while from < first.len() {
        let count = (first.len() - from).min(BLOCK);
        let cells = part(first, from, count);
        let others = part(second, from, count);
        map_block(
            program,
            uniforms,
            constants,
            cells,
            others,
            room,
            &mut out[from..from + count],
        );
        from += count;
    }
}

/// The same on the rows of a block.
fn map_block<L: Lane>(
    program: &LaneProgram,
    uniforms: &[L],
    constants: &[L],
    first: &[L],
    second: &[L],
    room: &mut [L],
    out: &mut [L],
)
    requires kind { program.now.kind ≡ L.kind }
    requires constants { AreConstants program.now.steps.items (map L.number uniforms.now)
        (map L.number constants.now) (length program.now.steps.items) }
    requires wide { room_of (length program.now.steps.items) ≤ length constants.now }
    requires same { length second.now ≡ length first.now }
    requires small { length first.now ≤ 512 }
    requires long { room_of (length program.now.steps.items) ≤ length room.old }
    requires out { length out.old ≡ length first.now }
    ensures { ArePart (λ j. row_answer L.kind program.now.steps.items (map L.number uniforms.now)
        (at (map L.number first.now) j) (at (map L.number second.now) j)) (map L.number out.new)
        (length first.now) }
{
    let answers = block_answers(program, uniforms, constants, first, second, room);
    each_copy(out, answers);
}

/// What the program's steps answer on all rows, combined one after another with what is there by the operator, at the kind.
/// Columns, uniform numbers and scratch are as for `map_lanes`. It takes no memory.
pub fn fold_lanes<L: Lane>(
    program: &LaneProgram,
    scratch: &mut Scratch<L>,
    first: &[L],
    second: &[L],
    uniforms: &[L],
    op: MergeOp,
    start: L,
) -> L
    requires kind { program.now.kind ≡ L.kind }
    requires room { room_of (length program.now.steps.items) ≤ scratch.old }
    requires second { length second.now ≡ length first.now }
    ensures answer { L.number result ≡ fold (λ x y. combination op L.kind x y) (L.number start)
        (lane_meaning L.kind program.now.steps.items (map L.number uniforms.now)
        (map L.number first.now) (map L.number second.now)) }
    ensures room { scratch.new ≡ scratch.old }
{
    put_constants(program, uniforms, &mut scratch.constants);
    fold_rows(
        program,
        &mut scratch.items,
        first,
        second,
        uniforms,
        &scratch.constants,
        op,
        start,
    )
}

/// The same in room that is lent.
fn fold_rows<L: Lane>(
    program: &LaneProgram,
    room: &mut [L],
    first: &[L],
    second: &[L],
    uniforms: &[L],
    constants: &[L],
    op: MergeOp,
    start: L,
) -> L
    requires kind { program.now.kind ≡ L.kind }
    requires constants { AreConstants program.now.steps.items (map L.number uniforms.now)
        (map L.number constants.now) (length program.now.steps.items) }
    requires wide { room_of (length program.now.steps.items) ≤ length constants.now }
    requires room { room_of (length program.now.steps.items) ≤ length room.old }
    requires second { length second.now ≡ length first.now }
    ensures { L.number result ≡ fold (λ x y. combination op L.kind x y) (L.number start)
        (lane_meaning L.kind program.now.steps.items (map L.number uniforms.now)
        (map L.number first.now) (map L.number second.now)) }
{
    let mut total = start;
    let mut from = 0;
    while from < first.len() {
        let count = (first.len() - from).min(BLOCK);
        let cells = part(first, from, count);
        let others = part(second, from, count);
        total = fold_block(program, uniforms, constants, cells, others, room, op, total);
        from += count;
    }
    total
}

/// The same on the rows of a block.
#[tactic(auto, using(crate::proofs::Meaning::block_meaning))]
fn fold_block<L: Lane>(
    program: &LaneProgram,
    uniforms: &[L],
    constants: &[L],
    first: &[L],
    second: &[L],
    room: &mut [L],
    op: MergeOp,
    start: L,
) -> L
    requires kind { program.now.kind ≡ L.kind }
    requires constants { AreConstants program.now.steps.items (map L.number uniforms.now)
        (map L.number constants.now) (length program.now.steps.items) }
    requires wide { room_of (length program.now.steps.items) ≤ length constants.now }
    requires same { length second.now ≡ length first.now }
    requires small { length first.now ≤ 512 }
    requires long { room_of (length program.now.steps.items) ≤ length room.old }
    ensures { L.number result ≡ fold (λ x y. combination op L.kind x y) (L.number start)
        (lane_meaning L.kind program.now.steps.items (map L.number uniforms.now)
        (map L.number first.now) (map L.number second.now)) }
{
    let answers = block_answers(program, uniforms, constants, first, second, room);
    combined(op, start, answers)
}

/// Numbers combined one after another with what is there: the operator is looked at once.
fn combined<L: Lane>(op: MergeOp, start: L, numbers: &[L]) -> L
    ensures { L.number result ≡ fold (λ x y. combination op L.kind x y) (L.number start)
        (map L.number numbers.now) }
{
    match op {
        MergeOp::Add => fold_all(&Sum, start, numbers),
        MergeOp::Mul => fold_all(&Product, start, numbers),
        MergeOp::Min => fold_all(&Least, start, numbers),
        MergeOp::Max => fold_all(&Greatest, start, numbers),
    }
}
