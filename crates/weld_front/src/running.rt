ghost use Rattle.std.specs.Prelude.{◌≡◌, IfOk, IfErr};
ghost use Rattle.weld_data.specs.View.{view_val};
ghost use Rattle.weld_tree.specs.Program.{loops};
ghost use Rattle.weld_inputs.specs.Arguments.{Arguments, IsUnfit, Tells};
ghost use Rattle.weld_meaning.specs.Typing.{ParamsFit, ProgramHas};
ghost use Rattle.weld_meaning.specs.Meaning.{ArgumentsFit, meaning};
ghost use Rattle.weld_check_types.specs.Notes.{ProgramIsNoted};
ghost use Rattle.weld_eval.specs.Answers.{Answers};
ghost use Rattle.weld_front.specs.Concluding.{IsCounted};
ghost use Rattle.weld_front.specs.Answer.{ProgramConcludes, ProgramAnswers, RunAnswers};

use crate::accepting::{Checked, accept_text};
use crate::answer::{Answer, done, fault, refused, unfit};
use crate::asked::Asked;
use std::alloc::{AllocError, Global};
use std::thread::Threads;
use weld_check_types::unnoted::notes_play_no_part;
use weld_data::{Stop, Val, Vals};
use weld_inputs::arguments::{DataStop, read_arguments};
use weld_job::Job;
use weld_meaning::Accepted;
use weld_meaning::laws::{meaning_looks_past_spelling, typed_programs_are_never_stuck};
use weld_passes::laws::chains_look_past_notes;
use weld_passes::optimise;
use weld_plan::make_plan;
use weld_ports::Gate;
use weld_share::{RunNote, run_plan};
use weld_tree::laws::same_programs_have_same_counts;
use weld_tree::{Program, Ty};

/// The value of an accepted program on arguments of its parameters' types, or its fault. The optimised
/// program is run in its place, by its plan; what is counted is that run, with tiles of the cut that is asked
/// for. The value is the same for all workers and cuts. The gate is told of each tile before it is run.
pub fn run_program<R: Threads + Sync, G: Gate>(
    rt: &R,
    alloc: Global,
    program: Accepted,
    arguments: &Vals,
    asked: Asked,
    gate: &G,
) -> Result<(Val, RunNote), Stop>
    requires noted { ProgramIsNoted program }
    requires fit { ArgumentsFit program.params arguments.now }
    ensures value { Answers (λ r. view_val r.0) result (meaning program arguments.now) }
    ensures note { IfOk result (λ r. IsCounted program arguments.now asked.options.cut r.1) }
{
    let optimised = match optimise(alloc, program) {
        Ok(optimised) => optimised,
        Err(_) => return Err(Stop::Memory),
    };
    let plan = match make_plan(alloc, optimised.accepted()) {
        Ok(plan) => plan,
        Err(_) => return Err(Stop::Memory),
    };
    let options = asked.options;
    run_plan(
        rt,
        alloc,
        &plan,
        arguments,
        options.workers,
        options.cut,
        gate,
    )
}

/// How many loops stand in the program: a program has fewer than a u64 can count. It takes no memory.
pub(crate) fn count_loops(program: &Program) -> u64
    ensures { result ≡ loops program.now.body }
{
    program.body.loops()
}

/// What an accepted program is answered with on arguments of its types, which are let go before the answer is made.
fn run_on<R: Threads + Sync, G: Gate>(
    rt: &R,
    alloc: Global,
    program: Accepted,
    ty: &Ty,
    arguments: Vals,
    asked: Asked,
    gate: &G,
) -> Result<Answer, AllocError>
    requires typed { ProgramHas program ty.now }
    requires noted { ProgramIsNoted program }
    requires fit { ArgumentsFit program.params arguments }
    ensures { IfOk result (λ answer. ProgramConcludes asked.options program ty.now arguments
        answer.status answer.text) }
{
    typed_programs_are_never_stuck();
    let loops = count_loops(program.program());
    match run_program(rt, alloc, program, &arguments, asked, gate) {
        Ok((value, note)) => {
            drop(arguments);
            done(rt, alloc, &value, ty, asked, loops, note)
        }
        Err(Stop::Fault) => fault(alloc),
        Err(Stop::Memory) => Err(AllocError),
    }
}

/// The arguments that the job's data give the program. The job is let go.
fn take_arguments(
    rt: &(impl Threads + Sync),
    alloc: Global,
    program: &Accepted,
    job: Job,
    asked: Asked,
) -> Result<Vals, DataStop>
    requires { ParamsFit program.now.params }
    ensures arguments { IfOk result (Arguments program.now.params job) }
    ensures typed { IfOk result (ArgumentsFit program.now.params) }
    ensures unfit { IfErr result (Tells (IsUnfit program.now.params job)) }
{
    let workers = asked.options.workers;
    read_arguments(rt, alloc, &program.program().params, &job, workers)
}

/// What an accepted program is answered with on the data of the job, which is let go before the program is run.
fn run_job<R: Threads + Sync, G: Gate>(
    rt: &R,
    alloc: Global,
    checked: Checked,
    job: Job,
    asked: Asked,
    gate: &G,
) -> Result<Answer, AllocError>
    requires typed { ProgramHas checked.program checked.ty }
    requires noted { ProgramIsNoted checked.program }
    ensures { IfOk result (λ answer. ProgramAnswers asked.options checked.program checked.ty job
        answer.status answer.text) }
{
    let Checked { program, ty } = checked;
    match take_arguments(rt, alloc, &program, job, asked) {
        Ok(arguments) => run_on(rt, alloc, program, &ty, arguments, asked, gate),
        Err(DataStop::Unfit(number, code)) => unfit(alloc, number, code),
        Err(DataStop::Memory) => Err(AllocError),
    }
}

/// What `run` answers to a job that isn't too long.
pub(crate) fn answer_run<R: Threads + Sync, G: Gate>(
    rt: &R,
    alloc: Global,
    job: Job,
    asked: Asked,
    gate: &G,
) -> Result<Answer, AllocError>
    ensures { IfOk result (λ answer. RunAnswers asked.options job answer.status answer.text) }
{
    notes_play_no_part();
    meaning_looks_past_spelling();
    same_programs_have_same_counts();
    chains_look_past_notes();
    match accept_text(alloc, job.text()) {
        Ok(checked) => run_job(rt, alloc, checked, job, asked, gate),
        Err(refusal) => refused(alloc, refusal),
    }
}
