//! Programs run in both ways, stretches shared by workers and stretches mapped over the processors; also the fixed script of
//! `weld soak` on a large table.

ghost use Rattle.std.specs.Prelude.{◌≡◌, ◌≤◌, IfOk};
ghost use Rattle.weld_data.specs.View.{view_val};
ghost use Rattle.weld_tree.specs.HasValue.{HasValue};
ghost use Rattle.weld_meaning.specs.Typing.{ProgramHas};
ghost use Rattle.weld_meaning.specs.Meaning.{ArgumentsFit};
ghost use Rattle.weld_plan.specs.PlanView.{IsPlan};

use std::alloc::Global;
use std::test::Fail;
use std::thread::Threads;
use weld_data::{Stop, Val, Vals};
use weld_exec_tests::prepared::{is_written, prepare};
use weld_exec_tests::programs::{
    ABOVE_LOOPS, BODIES, FAULTS, KEYS_AND_CELLS, KINDS, SEVEN_ROWS, STEPS, TOTALS_AND_LISTS,
};
use weld_meaning::laws::typed_programs_are_never_stuck;
use weld_plan::{Plan, make_plan};
use weld_ports::NoGate;
use weld_script::soak::{Soak, make_soak};
use weld_session::{Gathered, gather};
use weld_share::{RunNote, run_mapped, run_plan};
use weld_tree::Ty;

/// The numbers of workers, each with a cut.
static RUNS: [(u32, u32); 4] = [(1, 4096), (2, 1), (3, 2), (64, 3)];

/// Whether a run came to the value that is written so, or to a fault where `fault` is wanted, and what it counted.
fn came_to(
    alloc: Global,
    outcome: Result<(Val, RunNote), Stop>,
    ty: &Ty,
    wanted: &str,
) -> Result<(bool, Option<RunNote>), Fail>
    requires { IfOk outcome (λ r. HasValue ty.now (view_val r.0)) }
{
    match outcome {
        Ok((value, note)) => Ok((is_written(alloc, &value, ty, wanted)?, Some(note))),
        Err(Stop::Fault) => Ok((wanted == "fault", None)),
        Err(Stop::Memory) => Err(Fail::from("memory was wanting")),
    }
}

/// Whether both ways come to what is wanted, and count the same.
fn agree(
    rt: &(impl Threads + Sync),
    alloc: Global,
    plan: &Plan,
    ty: &Ty,
    arguments: &Vals,
    wanted: &str,
    workers: u32,
    cut: u32,
) -> Result<bool, Fail>
    requires plan { IsPlan plan.now }
    requires typed { ProgramHas plan.now.program.now ty.now }
    requires fit { ArgumentsFit plan.now.program.now.params arguments.now }
{
    if workers == 0 || workers > 64 || cut == 0 {
        return Err(Fail::from("no such workers or cut"));
    }
    typed_programs_are_never_stuck();
    let shared = run_plan(rt, alloc, plan, arguments, workers, cut, &NoGate);
    let (shared, shared_note) = came_to(alloc, shared, ty, wanted)?;
    let mapped = run_mapped(rt, alloc, plan, arguments, workers, cut, &NoGate);
    let (mapped, mapped_note) = came_to(alloc, mapped, ty, wanted)?;
    Ok(shared && mapped && shared_note == mapped_note)
}

/// Whether both ways agree for all numbers of workers and cuts.
fn holds(rt: &(impl Threads + Sync), alloc: Global, job: &str, wanted: &str) -> Result<bool, Fail> {
    let prepared = prepare(rt, alloc, job)?;
    let plan = make_plan(alloc, &prepared.checked.accepted)?;
    let ty = &prepared.checked.ty;
    for (workers, cut) in &RUNS {
        if !agree(
            rt,
            alloc,
            &plan,
            ty,
            &prepared.arguments,
            wanted,
            *workers,
            *cut,
        )? {
            return Ok(false);
        }
    }
    Ok(true)
}

/// Both ways agree on all of these jobs.
fn all_hold(rt: &(impl Threads + Sync), alloc: Global, jobs: &[(&str, &str)]) -> Result<(), Fail> {
    for (job, wanted) in jobs {
        if !holds(rt, alloc, job, wanted)? {
            return Err(Fail::from(*job));
        }
    }
    Ok(())
}

#[test]
fn both_ways_come_to_the_same(rt: HostRuntime) -> Result<(), Fail> {
    let alloc = rt.alloc();
    all_hold(&rt, alloc, &TOTALS_AND_LISTS)?;
    all_hold(&rt, alloc, &KEYS_AND_CELLS)?;
    all_hold(&rt, alloc, &KINDS)?;
    all_hold(&rt, alloc, &BODIES)?;
    all_hold(&rt, alloc, &STEPS)?;
    all_hold(&rt, alloc, &ABOVE_LOOPS)?;
    all_hold(&rt, alloc, &FAULTS)?;
    all_hold(&rt, alloc, &SEVEN_ROWS)
}

/// Whether both ways agree on the fixed script, with a table of so many rows made from the seed 1.
fn holds_of_soak(
    rt: &(impl Threads + Sync),
    alloc: Global,
    rows: u32,
    wanted: &str,
    workers: u32,
    cut: u32,
) -> Result<bool, Fail>
    requires { rows ≤ 1000000 }
{
    let Soak { script, inputs } = make_soak(alloc, 1, rows)?;
    let Gathered {
        program,
        inputs,
        ty,
    } = gather(alloc, &script, inputs)?;
    let plan = make_plan(alloc, &program)?;
    agree(rt, alloc, &plan, &ty, &inputs, wanted, workers, cut)
}

#[test]
fn both_ways_agree_on_a_large_made_table(rt: HostRuntime) -> Result<(), Fail> {
    let alloc = rt.alloc();
    let wanted =
        "{485739998,dict{0:1232211,1:1214027,2:1219341,3:1220803,4:1235032,5:1234804,6:1225171,7:1228532},179830}";
    for (workers, cut) in &[(4u32, 4096u32), (3, 100)] {
        if !holds_of_soak(&rt, alloc, 200000, wanted, *workers, *cut)? {
            return Err(Fail::from("both ways don't agree"));
        }
    }
    Ok(())
}
