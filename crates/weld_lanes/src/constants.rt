//! The answers of steps that answer the same on every row: made once, for all blocks.

ghost use Rattle.std.specs.Prelude.{◌≡◌, ◌+◌, ◌*◌, ◌<◌, ◌≤◌, IsTrue, length, map, IfOk};
ghost use Rattle.weld_lanes.specs.Answers.{at, room_of};
ghost use Rattle.weld_lanes.specs.Blocks.{AreConstants, AreSameAt, constant_of, step_at};
ghost use Rattle.weld_lanes.specs.Formed.{is_formed};

use crate::kinds::Lane;
use crate::room::{BLOCK, room_for};
use crate::steps::{LaneProgram, LaneStep};
use crate::works::each_same;
use std::alloc::{AllocError, Global};

/// The constants of a program's steps, as `answer_block` wants them: literals, truth values, and the numbers that are the same
/// for all rows, which are named by their places. It fails for want of memory alone.
pub fn constants_for<L: Lane>(
    program: &LaneProgram,
    uniforms: &[L],
    alloc: Global,
) -> Result<Vec<L>, AllocError>
    requires kind { program.now.kind ≡ L.kind }
    ensures long { IfOk result (λ constants. room_of (length program.now.steps.items)
        ≤ length constants.items) }
    ensures are { IfOk result (λ constants. AreConstants program.now.steps.items
        (map L.number uniforms.now) (map L.number constants.items)
        (length program.now.steps.items)) }
{
    let mut constants = room_for(program, alloc)?;
    put_constants(program, uniforms, &mut constants);
    Ok(constants)
}

/// Puts the constants of a program's steps there.
pub(crate) fn put_constants<L: Lane>(program: &LaneProgram, uniforms: &[L], constants: &mut [L])
    requires kind { program.now.kind ≡ L.kind }
    requires long { room_of (length program.now.steps.items) ≤ length constants.old }
    ensures long { length constants.new ≡ length constants.old }
    ensures are { AreConstants program.now.steps.items (map L.number uniforms.now)
        (map L.number constants.new) (length program.now.steps.items) }
{
    for place in 0..program.steps.len() {
        put_constant(program, uniforms, place, constants);
    }
}

/// Puts that of one more step there.
fn put_constant<L: Lane>(program: &LaneProgram, uniforms: &[L], place: usize, constants: &mut [L])
    requires kind { program.now.kind ≡ L.kind }
    requires there { place < length program.now.steps.items }
    requires long { room_of (length program.now.steps.items) ≤ length constants.old }
    requires are { AreConstants program.now.steps.items (map L.number uniforms.now)
        (map L.number constants.old) place }
    ensures long { length constants.new ≡ length constants.old }
    ensures are { AreConstants program.now.steps.items (map L.number uniforms.now)
        (map L.number constants.new) (place + 1) }
{
    let step = program.steps.as_slice()[place];
    put_same(constant(uniforms, place, step), place, constants);
}

/// What the step answers on every row, if it is the same on all; else 0, which nothing reads.
fn constant<L: Lane>(uniforms: &[L], before: usize, step: LaneStep) -> L
    requires { IsTrue (is_formed L.kind before step) }
    ensures { L.number result ≡ constant_of (map L.number uniforms.now) step }
{
    let _before = before;
    match step {
        LaneStep::Lit(x) => L::from_wide(x),
        LaneStep::Uniform(place) => uniform(uniforms, place),
        LaneStep::Truth(test) => L::of_truth(test),
        _ => L::of_truth(false),
    }
}

/// The number at a place of those that are the same for all rows.
fn uniform<L: Lane>(uniforms: &[L], place: u32) -> L
    ensures { L.number result ≡ at (map L.number uniforms.now) place }
{
    let place = place as usize;
    if place < uniforms.len() {
        uniforms[place]
    } else {
        L::of_truth(false)
    }
}

/// Puts the number at the places of a step.
fn put_same<L: Lane>(x: L, place: usize, constants: &mut [L])
    requires { place * 512 + 512 ≤ length constants.old }
    ensures long { length constants.new ≡ length constants.old }
    ensures same { AreSameAt (L.number x) place (map L.number constants.old)
        (map L.number constants.new) }
{
    let from = place * BLOCK;
    each_same(&mut constants[from..from + BLOCK], x);
}
