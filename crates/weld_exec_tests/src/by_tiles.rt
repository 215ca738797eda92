//! Runs of plans in one thread, the rows of each loop cut into tiles of any lengths.

ghost use Rattle.std.specs.Prelude.{◌≡◌, ◌≤◌, ◌<◌, IfOk, OnOk};
ghost use Rattle.weld_data.specs.View.{view_val};
ghost use Rattle.weld_meaning.specs.Meaning.{ArgumentsFit, meaning};
ghost use Rattle.weld_builders.specs.Outcome.{fault};
ghost use Rattle.weld_eval.specs.Answers.{Answers, OnFault};
ghost use Rattle.weld_tile_parts.specs.Parts.{joined_evaluation, IsWhole};
ghost use Rattle.weld_plan.specs.PlanView.{IsPlan};
ghost use Rattle.weld_exec.specs.Run.{env_inputs, program_meaning, IsReady, AtLoop, evaluation_of, rows_at, left_of};

use std::alloc::Global;
use weld_data::{Stop, Val, Vals};
use weld_exec::{Env, Next, run_tile};
use weld_meaning::LoopId;
use weld_plan::Plan;
use weld_tile_parts::Joined;
use weld_tiles::Tile;

/// Whether a tile ends behind this row: bit `row % 6` of `ends`, so that the numbers below 64 are the 64 tilings of
/// seven rows.
fn ends_behind(row: u64, ends: u64) -> bool {
    (ends >> (row % 6)) % 2 == 1
}

/// Where the tile ends that begins at this row of so many.
fn end_of(row: u64, rows: u64, ends: u64) -> u64
    requires { row < rows }
    ensures later { row < result }
    ensures within { result ≤ rows }
{
    for last in row..rows {
        if ends_behind(last, ends) {
            return last + 1;
        }
    }
    rows
}

/// Runs the next tile, up to this row, and enters what it makes.
fn take_tile(
    alloc: Global,
    plan: &Plan,
    env: &Env,
    at: LoopId,
    hi: u64,
    joined: &mut Joined,
) -> Result<(), Stop>
    requires at { AtLoop plan.now env.now at }
    requires whole { IsWhole joined.old }
    requires evaluation { joined_evaluation joined.old ≡ evaluation_of plan.now env.now }
    requires more { joined.old.end < hi }
    requires within { hi ≤ rows_at env.now }
    ensures whole { OnOk result (IsWhole joined.new) }
    ensures evaluation { joined_evaluation joined.new ≡ joined_evaluation joined.old }
    ensures end { OnOk result (joined.new.end ≡ hi) }
    ensures fault { OnFault result (program_meaning plan.now env.now ≡ fault) }
{
    let tile = Tile {
        number: joined.next,
        lo: joined.end,
        hi,
    };
    let piece = match run_tile(alloc, plan, env, at, tile) {
        Ok(piece) => piece,
        Err(stop) => return Err(stop),
    };
    match piece.enter(joined) {
        Ok(()) => Ok(()),
        Err(_) => Err(Stop::Memory),
    }
}

/// The builder of the loop at which the run stands, behind its last row.
fn join_tiles(alloc: Global, plan: &Plan, env: &Env, at: LoopId, ends: u64) -> Result<Joined, Stop>
    requires at { AtLoop plan.now env.now at }
    ensures whole { IfOk result (λ j. IsWhole j) }
    ensures evaluation { IfOk result (λ j. joined_evaluation j ≡ evaluation_of plan.now env.now) }
    ensures all { IfOk result (λ j. j.end ≡ rows_at env.now) }
    ensures fault { OnFault result (program_meaning plan.now env.now ≡ fault) }
{
    let rows = env.rows_of(plan, at);
    let mut joined = match env.begin(plan, at, alloc) {
        Ok(joined) => joined,
        Err(_) => return Err(Stop::Memory),
    };
    while joined.end < rows {
        let hi = end_of(joined.end, rows, ends);
        match take_tile(alloc, plan, env, at, hi, &mut joined) {
            Ok(()) => {}
            Err(stop) => return Err(stop),
        }
    }
    Ok(joined)
}

/// Runs the loop at which the run stands, and goes behind it.
fn take_loop(alloc: Global, plan: &Plan, env: &mut Env, at: LoopId, ends: u64) -> Result<(), Stop>
    requires { AtLoop plan.now env.old at }
    ensures ready { OnOk result (IsReady plan.now env.new) }
    ensures left { OnOk result (left_of plan.now env.new < left_of plan.now env.old) }
    ensures inputs { env_inputs env.new ≡ env_inputs env.old }
    ensures fault { OnFault result (program_meaning plan.now env.old ≡ fault) }
{
    let joined = match join_tiles(alloc, plan, &*env, at, ends) {
        Ok(joined) => joined,
        Err(stop) => return Err(stop),
    };
    match env.store(plan, at, joined, alloc) {
        Ok(()) => Ok(()),
        Err(_) => Err(Stop::Memory),
    }
}

/// The value of the plan's program on inputs of its parameters' types, tiles ending where `ends` says.
pub(crate) fn run_by(alloc: Global, plan: &Plan, inputs: &Vals, ends: u64) -> Result<Val, Stop>
    requires plan { IsPlan plan.now }
    requires fit { ArgumentsFit plan.now.program.now.params inputs.now }
    ensures { Answers view_val result (meaning plan.now.program.now inputs.now) }
{
    let mut env = match Env::new(alloc, plan, inputs) {
        Ok(env) => env,
        Err(_) => return Err(Stop::Memory),
    };
    loop {
        match env.advance(plan, alloc) {
            Ok(Next::Done(value)) => return Ok(value),
            Ok(Next::Loop(at)) => match take_loop(alloc, plan, &mut env, at, ends) {
                Ok(()) => {}
                Err(stop) => return Err(stop),
            },
            Err(stop) => return Err(stop),
        }
    }
}
