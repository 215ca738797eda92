//! Jobs made ready to be run, and what runs come to.

ghost use Rattle.std.specs.Prelude.{◌≡◌, IfOk};
ghost use Rattle.weld_data.specs.View.{view_val};
ghost use Rattle.weld_tree.specs.HasValue.{HasValue};
ghost use Rattle.weld_meaning.specs.Typing.{ProgramHas};
ghost use Rattle.weld_meaning.specs.Meaning.{ArgumentsFit};

use std::alloc::{AllocError, Global};
use std::test::Fail;
use std::thread::Threads;
use weld_check_types::{Typed, check_types};
use weld_data::{Stop, Val, Vals};
use weld_inputs::arguments::read_arguments;
use weld_job::split_blocks;
use weld_meaning::Accepted;
use weld_parse::parse;
use weld_tree::Ty;
use weld_uses::accept;
use weld_write_value::write_value;

/// A program that no rule refuses, with the type of its value.
#[derive(Drop)]
pub struct Checked {
    pub accepted: Accepted,
    pub ty: Ty,
}

/// A job that can be run: its program, and the arguments that its data give.
#[derive(Drop)]
pub struct Prepared {
    pub checked: Checked,
    pub arguments: Vals,
}

/// The typed program, where its use of builders is linear.
fn accept_typed(alloc: Global, typed: Typed) -> Result<Checked, Fail>
    ensures { IfOk result (λ c. ProgramHas c.accepted c.ty) }
{
    let Typed { program, ty } = typed;
    match accept(alloc, program) {
        Ok(accepted) => Ok(Checked { accepted, ty }),
        Err(_) => Err(Fail::from("the use of builders is refused")),
    }
}

/// The program that the text spells.
fn check(alloc: Global, text: &[u8]) -> Result<Checked, Fail>
    ensures { IfOk result (λ c. ProgramHas c.accepted c.ty) }
{
    let Ok(program) = parse(alloc, text) else {
        return Err(Fail::from("the text is refused"));
    };
    match check_types(alloc, program) {
        Ok(typed) => accept_typed(alloc, typed),
        Err(_) => Err(Fail::from("the types are refused")),
    }
}

/// The job, made ready: its program is typed, and its arguments are of its parameters' types. It fails where the job
/// is refused or its data don't fit.
pub fn prepare(rt: &(impl Threads + Sync), alloc: Global, job: &str) -> Result<Prepared, Fail>
    ensures typed { IfOk result (λ r. ProgramHas r.checked.accepted r.checked.ty) }
    ensures fit { IfOk result (λ r. ArgumentsFit r.checked.accepted.params r.arguments) }
{
    let job = split_blocks(alloc, job.as_bytes())?;
    let checked = check(alloc, job.text())?;
    match read_arguments(rt, alloc, &checked.accepted.program.params, &job, 2) {
        Ok(arguments) => Ok(Prepared { checked, arguments }),
        Err(_) => Err(Fail::from("the data don't fit")),
    }
}

/// Whether the value of the type is written so. It may want memory.
pub fn is_written(alloc: Global, value: &Val, ty: &Ty, wanted: &str) -> Result<bool, AllocError>
    requires { HasValue ty.now (view_val value.now) }
{
    let text = write_value(alloc, value, ty)?;
    Ok(text.as_slice() == wanted.as_bytes())
}

/// Whether a run came to what is wanted: to the value of the type that is written so, or to a fault where `fault` is
/// wanted. Where it wanted memory there is no answer.
pub fn comes_to(
    alloc: Global,
    outcome: &Result<Val, Stop>,
    ty: &Ty,
    wanted: &str,
) -> Result<bool, AllocError>
    requires { IfOk outcome.now (λ v. HasValue ty.now (view_val v)) }
{
    match outcome {
        Ok(value) => is_written(alloc, value, ty, wanted),
        Err(Stop::Fault) => Ok(wanted == "fault"),
        Err(Stop::Memory) => Err(AllocError),
    }
}
