ghost use Rattle.std.specs.Prelude.{◌≡◌};
ghost use Rattle.weld_meaning.specs.Typing.{ProgramHas};
ghost use Rattle.weld_meaning.specs.Meaning.{ArgumentsFit};
ghost use Rattle.weld_plan.specs.PlanView.{IsPlan};

use crate::by_tiles::run_by;
use crate::prepared::{comes_to, prepare};
use crate::programs::{
    ABOVE_LOOPS, BODIES, FAULTS, KEYS_AND_CELLS, KINDS, SEVEN_ROWS, STEPS, TOTALS_AND_LISTS,
};
use std::alloc::{AllocError, Global};
use std::test::Fail;
use std::thread::Threads;
use weld_data::Vals;
use weld_meaning::laws::typed_programs_are_never_stuck;
use weld_plan::{Plan, make_plan};
use weld_rows::eval_plain;
use weld_tree::Ty;

/// Whether the program comes to this one element after another.
fn plainly(
    alloc: Global,
    plan: &Plan,
    ty: &Ty,
    arguments: &Vals,
    wanted: &str,
) -> Result<bool, AllocError>
    requires plan { IsPlan plan.now }
    requires typed { ProgramHas plan.now.program.now ty.now }
    requires fit { ArgumentsFit plan.now.program.now.params arguments.now }
{
    typed_programs_are_never_stuck();
    let outcome = eval_plain(alloc, plan.program, arguments);
    comes_to(alloc, &outcome, ty, wanted)
}

/// Whether it comes to this by its plan, tiles ending where `ends` says.
fn by_tiles(
    alloc: Global,
    plan: &Plan,
    ty: &Ty,
    arguments: &Vals,
    wanted: &str,
    ends: u64,
) -> Result<bool, AllocError>
    requires plan { IsPlan plan.now }
    requires typed { ProgramHas plan.now.program.now ty.now }
    requires fit { ArgumentsFit plan.now.program.now.params arguments.now }
{
    typed_programs_are_never_stuck();
    let outcome = run_by(alloc, plan, arguments, ends);
    comes_to(alloc, &outcome, ty, wanted)
}

/// Whether it comes to this in all these ways.
fn agrees(
    alloc: Global,
    plan: &Plan,
    ty: &Ty,
    arguments: &Vals,
    wanted: &str,
) -> Result<bool, AllocError>
    requires plan { IsPlan plan.now }
    requires typed { ProgramHas plan.now.program.now ty.now }
    requires fit { ArgumentsFit plan.now.program.now.params arguments.now }
{
    for ends in 0..64 {
        if !by_tiles(alloc, plan, ty, arguments, wanted, ends)? {
            return Ok(false);
        }
    }
    plainly(alloc, plan, ty, arguments, wanted)
}

/// Whether the job comes to this in all these ways.
fn holds(rt: &(impl Threads + Sync), alloc: Global, job: &str, wanted: &str) -> Result<bool, Fail> {
    let job = prepare(rt, alloc, job)?;
    let plan = make_plan(alloc, &job.checked.accepted)?;
    Ok(agrees(alloc, &plan, &job.checked.ty, &job.arguments, wanted)?)
}

/// Each of these jobs comes to its text in all these ways.
fn all_hold(rt: &(impl Threads + Sync), alloc: Global, jobs: &[(&str, &str)]) -> Result<(), Fail> {
    for (job, wanted) in jobs {
        if !holds(rt, alloc, job, wanted)? {
            return Err(Fail::from(*job));
        }
    }
    Ok(())
}

#[test]
fn totals_and_lists(rt: HostRuntime) -> Result<(), Fail> {
    all_hold(&rt, rt.alloc(), &TOTALS_AND_LISTS)
}

#[test]
fn keys_and_cells(rt: HostRuntime) -> Result<(), Fail> {
    all_hold(&rt, rt.alloc(), &KEYS_AND_CELLS)
}

#[test]
fn kinds(rt: HostRuntime) -> Result<(), Fail> {
    all_hold(&rt, rt.alloc(), &KINDS)
}

#[test]
fn bodies(rt: HostRuntime) -> Result<(), Fail> {
    all_hold(&rt, rt.alloc(), &BODIES)
}

#[test]
fn steps(rt: HostRuntime) -> Result<(), Fail> {
    all_hold(&rt, rt.alloc(), &STEPS)
}

#[test]
fn above_loops(rt: HostRuntime) -> Result<(), Fail> {
    all_hold(&rt, rt.alloc(), &ABOVE_LOOPS)
}

#[test]
fn faults(rt: HostRuntime) -> Result<(), Fail> {
    all_hold(&rt, rt.alloc(), &FAULTS)
}

#[test]
fn each_tiling_of_seven_rows(rt: HostRuntime) -> Result<(), Fail> {
    all_hold(&rt, rt.alloc(), &SEVEN_ROWS)
}
