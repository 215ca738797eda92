ghost use Rattle.std.specs.Prelude.{◌≡◌, ◌≤◌};
ghost use Rattle.weld_meaning.specs.Typing.{ProgramHas};
ghost use Rattle.weld_meaning.specs.Meaning.{ArgumentsFit};
ghost use Rattle.weld_plan.specs.PlanView.{IsPlan};

use crate::jobs::{COUNTED, CUTS, Counted, JOBS, Job};
use crate::recorder::Recorder;
use std::alloc::Global;
use std::test::Fail;
use std::thread::Threads;
use weld_data::{Stop, Vals};
use weld_exec_tests::prepared::{is_written, prepare};
use weld_meaning::laws::typed_programs_are_never_stuck;
use weld_plan::{Plan, make_plan};
use weld_ports::NoGate;
use weld_share::run_plan;
use weld_tree::Ty;

/// The numbers of workers.
static WORKERS: [u32; 4] = [1, 2, 8, 64];

/// How many tiles a gate counts apart.
const MOST_TILES: usize = 16;

/// Whether a run with so many workers and this cut, which makes so many tiles, comes to what is wanted, counts what
/// there is, and tells the gate of each tile once. Where it faults, the tiles behind the one that does aren't all run.
fn is_run_so(
    rt: &(impl Threads + Sync),
    alloc: Global,
    plan: &Plan,
    ty: &Ty,
    arguments: &Vals,
    job: &Job,
    workers: u32,
    cut: u32,
    tiles: u64,
) -> Result<bool, Fail>
    requires plan { IsPlan plan.now }
    requires typed { ProgramHas plan.now.program.now ty.now }
    requires fit { ArgumentsFit plan.now.program.now.params arguments.now }
{
    if workers == 0 || workers > 64 || cut == 0 {
        return Err(Fail::from("no such workers or cut"));
    }
    typed_programs_are_never_stuck();
    let gate = Recorder::new(alloc, MOST_TILES)?;
    match run_plan(rt, alloc, plan, arguments, workers, cut, &gate) {
        Ok((value, note)) => Ok(
            note.loops == job.loops
                && note.tiles == u128::from(tiles)
                && note.turns == job.rows
                && is_written(alloc, &value, ty, job.wanted)?
                && gate.was_told_of_each_once(tiles),
        ),
        Err(Stop::Fault) => Ok(job.wanted == "fault" && gate.was_told_of_none_twice(tiles)),
        Err(Stop::Memory) => Err(Fail::from("memory was wanting")),
    }
}

/// Whether the runs with this cut are so, whatever the number of workers.
fn are_runs_so(
    rt: &(impl Threads + Sync),
    alloc: Global,
    plan: &Plan,
    ty: &Ty,
    arguments: &Vals,
    job: &Job,
    cut: u32,
    tiles: u64,
) -> Result<bool, Fail>
    requires plan { IsPlan plan.now }
    requires typed { ProgramHas plan.now.program.now ty.now }
    requires fit { ArgumentsFit plan.now.program.now.params arguments.now }
{
    for workers in &WORKERS {
        if !is_run_so(rt, alloc, plan, ty, arguments, job, *workers, cut, tiles)? {
            return Ok(false);
        }
    }
    Ok(true)
}

/// Whether all runs of the job are so.
fn holds(rt: &(impl Threads + Sync), alloc: Global, job: &Job) -> Result<bool, Fail> {
    let prepared = prepare(rt, alloc, job.text)?;
    let plan = make_plan(alloc, &prepared.checked.accepted)?;
    let ty = &prepared.checked.ty;
    for (cut, tiles) in CUTS.iter().zip(&job.tiles) {
        if !are_runs_so(rt, alloc, &plan, ty, &prepared.arguments, job, *cut, *tiles)? {
            return Ok(false);
        }
    }
    Ok(true)
}

/// All runs of these jobs are so.
fn all_hold(rt: &(impl Threads + Sync), alloc: Global, jobs: &[Job]) -> Result<(), Fail> {
    for job in jobs {
        if !holds(rt, alloc, job)? {
            return Err(Fail::from(job.text));
        }
    }
    Ok(())
}

#[test]
fn each_job_comes_to_the_same_for_all_workers_and_cuts(rt: HostRuntime) -> Result<(), Fail> {
    all_hold(&rt, rt.alloc(), &JOBS)
}

/// Whether a run of the job counts what there is.
fn counts_so(rt: &(impl Threads + Sync), alloc: Global, counted: &Counted) -> Result<bool, Fail> {
    if counted.cut == 0 {
        return Err(Fail::from("no such cut"));
    }
    let prepared = prepare(rt, alloc, counted.text)?;
    let plan = make_plan(alloc, &prepared.checked.accepted)?;
    match run_plan(
        rt,
        alloc,
        &plan,
        &prepared.arguments,
        4,
        counted.cut,
        &NoGate,
    ) {
        Ok((_, note)) => Ok(
            note.loops == counted.loops
                && note.tiles == counted.tiles
                && note.turns == counted.turns,
        ),
        Err(_) => Err(Fail::from("there is no value")),
    }
}

/// Runs of these jobs count what there is.
fn all_count_so(rt: &(impl Threads + Sync), alloc: Global, jobs: &[Counted]) -> Result<(), Fail> {
    for counted in jobs {
        if !counts_so(rt, alloc, counted)? {
            return Err(Fail::from(counted.text));
        }
    }
    Ok(())
}

#[test]
fn all_loops_that_are_run_by_tiles_are_counted(rt: HostRuntime) -> Result<(), Fail> {
    all_count_so(&rt, rt.alloc(), &COUNTED)
}
