//! Steps on the rows of a block: each is worked out for all of them before the next.

ghost use Rattle.std.specs.Prelude.{◌≡◌, ◌+◌, ◌<◌, ◌≤◌, IsTrue, length, map};
ghost use Rattle.weld_lanes.specs.Answers.{at, room_of};
ghost use Rattle.weld_lanes.specs.Blocks.{ArePart, AreAnswered, AreConstants, IsAnswered, answers_at, block_at, is_constant, step_at};
ghost use Rattle.weld_lanes.specs.Formed.{is_formed, is_arithmetic, is_comparison};
ghost use Rattle.weld_lanes.specs.declared.steps.LaneStep.TheVariants as step_names;

use crate::kinds::Lane;
use crate::room::BLOCK;
use crate::steps::LaneStep;
use crate::works::{
    AtMost, Both, Difference, Either, Equal, Less, Product, Sum, Unequal, Work, each_choice,
    each_not, each_two,
};
use weld_data::BinOp;

/// So many numbers of a column from a place on.
#[tactic(auto, using(crate::proofs::Parts::part_taken))]
pub(crate) fn part<'a, L: Lane>(column: &'a [L], from: usize, count: usize) -> &'a [L]
    requires { from + count ≤ length column.now }
    ensures long { length result.now ≡ count }
    ensures each { ArePart (λ j. at (map L.number column.now) (from + j)) (map L.number result.now)
        count }
{
    &column[from..from + count]
}

/// The rows of a block: the steps and how many of them are answered, the numbers that are the same for all rows, the constants
/// of steps, the numbers of the two columns, and the answers.
#[derive(Drop)]
pub(crate) struct Rows<'a, L> {
    pub steps: &'a [LaneStep],
    pub answered: usize,
    pub uniforms: &'a [L],
    pub constants: &'a [L],
    pub first: &'a [L],
    pub second: &'a [L],
    pub room: &'a [L],
    ghost same: { length second.now ≡ length first.now },
    ghost small: { length first.now ≤ 512 },
    ghost there: { answered ≤ length steps.now },
    ghost long: { room_of answered ≤ length room.now },
    ghost wide: { room_of (length steps.now) ≤ length constants.now },
}

/// The answers of a step that is answered: of a column's step the column itself, of a constant those that were made once.
pub(crate) fn operand<'a, L: Lane>(rows: &Rows<'a, L>, step: usize) -> &'a [L]
    requires there { step < rows.now.answered }
    requires constants { AreConstants rows.now.steps.now (map L.number rows.now.uniforms.now)
        (map L.number rows.now.constants.now) (length rows.now.steps.now) }
    ensures long { length result.now ≡ length rows.now.first.now }
    ensures each { ArePart (block_at rows.now.steps.now (map L.number rows.now.uniforms.now)
        (map L.number rows.now.first.now) (map L.number rows.now.second.now)
        (map L.number rows.now.room.now) step) (map L.number result.now)
        (length rows.now.first.now) }
{
    match rows.steps[step] {
        LaneStep::A => rows.first,
        LaneStep::B => rows.second,
        LaneStep::Lit(_) | LaneStep::Uniform(_) | LaneStep::Truth(_) => { constants(rows, step) }
        _ => part(rows.room, step * BLOCK, rows.first.len()),
    }
}

/// The answers of a step that answers the same on every row.
#[tactic(auto, using(crate::proofs::ConstantLemmas::constants_are))]
fn constants<'a, L: Lane>(rows: &Rows<'a, L>, step: usize) -> &'a [L]
    requires there { step < rows.now.answered }
    requires constant { IsTrue (is_constant (step_at rows.now.steps.now step)) }
    requires constants { AreConstants rows.now.steps.now (map L.number rows.now.uniforms.now)
        (map L.number rows.now.constants.now) (length rows.now.steps.now) }
    ensures long { length result.now ≡ length rows.now.first.now }
    ensures each { ArePart (block_at rows.now.steps.now (map L.number rows.now.uniforms.now)
        (map L.number rows.now.first.now) (map L.number rows.now.second.now)
        (map L.number rows.now.room.now) step) (map L.number result.now)
        (length rows.now.first.now) }
{
    part(rows.constants, step * BLOCK, rows.first.len())
}

/// What an operator makes of the answers of two steps.
#[tactic(auto, using(crate::proofs::Running::two_answers))]
fn binary<L: Lane, W: Work<L>>(rows: &Rows<L>, work: &W, i: u32, j: u32, out: &mut [L])
    requires first { i < rows.now.answered }
    requires second { j < rows.now.answered }
    requires constants { AreConstants rows.now.steps.now (map L.number rows.now.uniforms.now)
        (map L.number rows.now.constants.now) (length rows.now.steps.now) }
    requires answered { AreAnswered L.kind rows.now.steps.now (map L.number rows.now.uniforms.now)
        (map L.number rows.now.first.now) (map L.number rows.now.second.now)
        (map L.number rows.now.room.now) rows.now.answered (length rows.now.first.now) }
    requires long { length out.old ≡ length rows.now.first.now }
    ensures { ArePart (λ r. let rs = answers_at L.kind rows.now.steps.now
        (map L.number rows.now.uniforms.now) (map L.number rows.now.first.now)
        (map L.number rows.now.second.now) r in W.gives (at rs i) (at rs j)) (map L.number out.new)
        (length rows.now.first.now) }
{
    each_two(
        work,
        out,
        operand(rows, i as usize),
        operand(rows, j as usize),
    );
}

/// The answers of a step of arithmetic.
fn arithmetic<L: Lane>(rows: &Rows<L>, op: BinOp, i: u32, j: u32, out: &mut [L])
    requires op { IsTrue (is_arithmetic op) }
    requires first { i < rows.now.answered }
    requires second { j < rows.now.answered }
    requires constants { AreConstants rows.now.steps.now (map L.number rows.now.uniforms.now)
        (map L.number rows.now.constants.now) (length rows.now.steps.now) }
    requires answered { AreAnswered L.kind rows.now.steps.now (map L.number rows.now.uniforms.now)
        (map L.number rows.now.first.now) (map L.number rows.now.second.now)
        (map L.number rows.now.room.now) rows.now.answered (length rows.now.first.now) }
    requires long { length out.old ≡ length rows.now.first.now }
    ensures { IsAnswered L.kind rows.now.steps.now (map L.number rows.now.uniforms.now)
        (map L.number rows.now.first.now) (map L.number rows.now.second.now)
        (step_names.Arith op i j) (map L.number out.new) (length rows.now.first.now) }
{
    match op {
        BinOp::Add => binary(rows, &Sum, i, j, out),
        BinOp::Sub => binary(rows, &Difference, i, j, out),
        BinOp::Mul => binary(rows, &Product, i, j, out),
        _ => unreachable!(),
    }
}

/// The answers of a step that compares.
fn compared<L: Lane>(rows: &Rows<L>, op: BinOp, i: u32, j: u32, out: &mut [L])
    requires op { IsTrue (is_comparison op) }
    requires first { i < rows.now.answered }
    requires second { j < rows.now.answered }
    requires constants { AreConstants rows.now.steps.now (map L.number rows.now.uniforms.now)
        (map L.number rows.now.constants.now) (length rows.now.steps.now) }
    requires answered { AreAnswered L.kind rows.now.steps.now (map L.number rows.now.uniforms.now)
        (map L.number rows.now.first.now) (map L.number rows.now.second.now)
        (map L.number rows.now.room.now) rows.now.answered (length rows.now.first.now) }
    requires long { length out.old ≡ length rows.now.first.now }
    ensures { IsAnswered L.kind rows.now.steps.now (map L.number rows.now.uniforms.now)
        (map L.number rows.now.first.now) (map L.number rows.now.second.now)
        (step_names.Compare op i j) (map L.number out.new) (length rows.now.first.now) }
{
    match op {
        BinOp::Eq => binary(rows, &Equal, i, j, out),
        BinOp::Ne => binary(rows, &Unequal, i, j, out),
        BinOp::Lt => binary(rows, &Less, i, j, out),
        BinOp::Le => binary(rows, &AtMost, i, j, out),
        BinOp::Gt => binary(rows, &Less, j, i, out),
        BinOp::Ge => binary(rows, &AtMost, j, i, out),
        _ => unreachable!(),
    }
}

/// The answers of a step that says whether an earlier one's aren't true.
#[tactic(auto, using(crate::proofs::Running::not_answers))]
fn negated<L: Lane>(rows: &Rows<L>, i: u32, out: &mut [L])
    requires first { i < rows.now.answered }
    requires constants { AreConstants rows.now.steps.now (map L.number rows.now.uniforms.now)
        (map L.number rows.now.constants.now) (length rows.now.steps.now) }
    requires answered { AreAnswered L.kind rows.now.steps.now (map L.number rows.now.uniforms.now)
        (map L.number rows.now.first.now) (map L.number rows.now.second.now)
        (map L.number rows.now.room.now) rows.now.answered (length rows.now.first.now) }
    requires long { length out.old ≡ length rows.now.first.now }
    ensures { IsAnswered L.kind rows.now.steps.now (map L.number rows.now.uniforms.now)
        (map L.number rows.now.first.now) (map L.number rows.now.second.now) (step_names.Not i)
        (map L.number out.new) (length rows.now.first.now) }
{
    each_not(out, operand(rows, i as usize));
}

/// The answers of a step that chooses.
#[tactic(auto, using(crate::proofs::Running::chosen_answers))]
fn selected<L: Lane>(rows: &Rows<L>, truths: u32, i: u32, j: u32, out: &mut [L])
    requires truths { truths < rows.now.answered }
    requires first { i < rows.now.answered }
    requires second { j < rows.now.answered }
    requires constants { AreConstants rows.now.steps.now (map L.number rows.now.uniforms.now)
        (map L.number rows.now.constants.now) (length rows.now.steps.now) }
    requires answered { AreAnswered L.kind rows.now.steps.now (map L.number rows.now.uniforms.now)
        (map L.number rows.now.first.now) (map L.number rows.now.second.now)
        (map L.number rows.now.room.now) rows.now.answered (length rows.now.first.now) }
    requires long { length out.old ≡ length rows.now.first.now }
    ensures { IsAnswered L.kind rows.now.steps.now (map L.number rows.now.uniforms.now)
        (map L.number rows.now.first.now) (map L.number rows.now.second.now)
        (step_names.Select truths i j) (map L.number out.new) (length rows.now.first.now) }
{
    each_choice(
        out,
        operand(rows, truths as usize),
        operand(rows, i as usize),
        operand(rows, j as usize),
    );
}

/// The answers of the next step; of a column's step and of a constant nothing is written.
#[inline(never)]
pub(crate) fn answer_step<L: Lane>(rows: &Rows<L>, step: LaneStep, out: &mut [L])
    requires formed { IsTrue (is_formed L.kind rows.now.answered step) }
    requires constants { AreConstants rows.now.steps.now (map L.number rows.now.uniforms.now)
        (map L.number rows.now.constants.now) (length rows.now.steps.now) }
    requires answered { AreAnswered L.kind rows.now.steps.now (map L.number rows.now.uniforms.now)
        (map L.number rows.now.first.now) (map L.number rows.now.second.now)
        (map L.number rows.now.room.now) rows.now.answered (length rows.now.first.now) }
    requires long { length out.old ≡ length rows.now.first.now }
    ensures { IsAnswered L.kind rows.now.steps.now (map L.number rows.now.uniforms.now)
        (map L.number rows.now.first.now) (map L.number rows.now.second.now) step
        (map L.number out.new) (length rows.now.first.now) }
{
    match step {
        LaneStep::A | LaneStep::B => {}
        LaneStep::Lit(_) | LaneStep::Uniform(_) | LaneStep::Truth(_) => {}
        LaneStep::Arith(op, i, j) => arithmetic(rows, op, i, j, out),
        LaneStep::Compare(op, i, j) => compared(rows, op, i, j, out),
        LaneStep::Not(i) => negated(rows, i, out),
        LaneStep::And(i, j) => binary(rows, &Both, i, j, out),
        LaneStep::Or(i, j) => binary(rows, &Either, i, j, out),
        LaneStep::Select(truths, i, j) => selected(rows, truths, i, j, out),
    }
}
