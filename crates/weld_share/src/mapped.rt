//! Programs run by their plans, tile by tile.

ghost use Rattle.std.specs.Prelude.{◌≡◌, ◌≤◌, ◌<◌, ◌^◌, length, IfOk};
ghost use Rattle.weld_tree.specs.Program.{loops};
ghost use Rattle.weld_data.specs.View.{view_val};
ghost use Rattle.weld_meaning.specs.Meaning.{ArgumentsFit, meaning};
ghost use Rattle.weld_eval.specs.Answers.{Answers};
ghost use Rattle.weld_plan.specs.PlanView.{IsPlan};
ghost use Rattle.weld_sizes.specs.Lanes.{lane_marks};
ghost use Rattle.weld_sizes.specs.Marks.{set_among};
ghost use Rattle.weld_sizes.specs.Sized.{sized_marks};
ghost use Rattle.weld_share.specs.Counts.{IsNote};

use crate::note::RunNote;
use crate::tiled::run_loop;
use crate::way::{Sharing, Way};
use std::alloc::Global;
use std::thread::Threads;
use weld_data::{Stop, Val, Vals};
use weld_exec::{Env, Next};
use weld_plan::Plan;
use weld_ports::Gate;
use weld_sizes::{count_lanes, count_sized};

/// The value of the plan's program on inputs of its parameters' types, and what the run counted. The rows of each shared loop
/// are cut into tiles of at most `cut` rows. Stretches of neighbouring tiles, as many at a time as there are `workers`, are
/// mapped over the processors, and what they make is joined in their order. The gate is told of each tile before it is run. It
/// faults exactly where the meaning is a fault. It may want memory. What is counted is the same for all workers.
pub fn run_mapped<G: Gate>(
    rt: &(impl Threads + Sync),
    alloc: Global,
    plan: &Plan,
    inputs: &Vals,
    workers: u32,
    cut: u32,
    gate: &G,
) -> Result<(Val, RunNote), Stop>
    requires plan { IsPlan plan.now }
    requires fit { ArgumentsFit plan.now.program.now.params inputs.now }
    requires some_worker { 1 ≤ workers }
    requires workers { workers ≤ 64 }
    requires cut { 1 ≤ cut }
    ensures value { Answers (λ r. view_val r.0) result (meaning plan.now.program.now inputs.now) }
    ensures note { IfOk result (λ r. IsNote plan.now.program.now inputs.now cut r.1) }
{
    let sharing = Sharing { workers, cut };
    run_by(rt, alloc, plan, inputs, sharing, gate, Way::Mapped)
}

/// The same, in one way or the other.
fn run_by<G: Gate>(
    rt: &(impl Threads + Sync),
    alloc: Global,
    plan: &Plan,
    inputs: &Vals,
    sharing: Sharing,
    gate: &G,
    way: Way,
) -> Result<(Val, RunNote), Stop>
    requires plan { IsPlan plan.now }
    requires fit { ArgumentsFit plan.now.program.now.params inputs.now }
    ensures value { Answers (λ r. view_val r.0) result (meaning plan.now.program.now inputs.now) }
    ensures note { IfOk result (λ r. IsNote plan.now.program.now inputs.now sharing.cut r.1) }
{
    let mut env = match Env::new(alloc, plan, inputs) {
        Ok(env) => env,
        Err(_) => return Err(Stop::Memory),
    };
    let mut note = no_counts(plan);
    loop {
        match env.advance(plan, alloc) {
            Ok(Next::Done(value)) => return Ok((value, note)),
            Ok(Next::Loop(at)) => match run_loop(
                rt, alloc, plan, &mut env, at, sharing, gate, way,
            ) {
                Ok((tiles, rows)) => {
                    note.tiles += tiles as u128;
                    note.turns += u128::from(rows);
                }
                Err(stop) => return Err(stop),
            },
            Err(stop) => return Err(stop),
        }
    }
}

/// What a run of the plan has counted before its first step. A plan has so few steps that the rows of a loop for each can be
/// counted. It takes no memory.
fn no_counts(plan: &Plan) -> RunNote
    requires { IsPlan plan.now }
    ensures loops { result.loops ≡ loops plan.now.program.now.body }
    ensures sized { result.sized ≡ set_among (sized_marks plan.now.program.now.body) }
    ensures lanes { result.lanes ≡ set_among (lane_marks plan.now.program.now.body) }
    ensures tiles { result.tiles ≡ 0 }
    ensures turns { result.turns ≡ 0 }
    ensures few { length plan.now.steps.items < 2 ^ 64 }
{
    let _steps = plan.steps.len();
    let program = plan.program;
    RunNote {
        loops: program.body.loops(),
        sized: count_sized(program),
        lanes: count_lanes(program),
        tiles: 0,
        turns: 0,
    }
}

/// The same as `run_mapped`, the rows shared otherwise: each of the workers has a hand of short stretches, and takes from those
/// of the others when its own is empty. A worker runs stretches that follow one another into one part.
pub fn run_plan<G: Gate>(
    rt: &(impl Threads + Sync),
    alloc: Global,
    plan: &Plan,
    inputs: &Vals,
    workers: u32,
    cut: u32,
    gate: &G,
) -> Result<(Val, RunNote), Stop>
    requires plan { IsPlan plan.now }
    requires fit { ArgumentsFit plan.now.program.now.params inputs.now }
    requires some_worker { 1 ≤ workers }
    requires workers { workers ≤ 64 }
    requires cut { 1 ≤ cut }
    ensures value { Answers (λ r. view_val r.0) result (meaning plan.now.program.now inputs.now) }
    ensures note { IfOk result (λ r. IsNote plan.now.program.now inputs.now cut r.1) }
{
    let sharing = Sharing { workers, cut };
    run_by(rt, alloc, plan, inputs, sharing, gate, Way::Shared)
}
