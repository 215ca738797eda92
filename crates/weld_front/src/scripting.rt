ghost use Rattle.std.specs.Prelude.{◌≡◌, IfOk, IfErr, MatchOption};
ghost use Rattle.weld_data.specs.View.{view_val};
ghost use Rattle.weld_meaning.specs.Meaning.{ArgumentsFit, meaning};
ghost use Rattle.weld_check_types.specs.Notes.{ProgramIsNoted};
ghost use Rattle.weld_check_types.specs.Unnoted.{IsSameButNotes};
ghost use Rattle.weld_eval.specs.Answers.{Answers};
ghost use Rattle.weld_share.specs.Counts.{IsNote};
ghost use Rattle.weld_inputs.specs.Arguments.{Tells};
ghost use Rattle.weld_inputs.specs.Inputs.{Inputs, IsUnfit};
ghost use Rattle.weld_script.specs.Script.{AreInputs, declared_of};
ghost use Rattle.weld_session.specs.Answer.{IsGathered};
ghost use Rattle.weld_front.specs.Sessions.{IsPastSizes, IsCountedOf, ScriptConcludes, ScriptAnswers, SessionAnswers, SoakAnswers};

use crate::answer::{Answer, done, fault, script_refused, unfit};
use crate::asked::Asked;
use crate::running::{count_loops, run_program};
use std::alloc::{AllocError, Global};
use std::thread::Threads;
use weld_check_types::check_types;
use weld_check_types::unnoted::notes_play_no_part;
use weld_data::{Stop, Val, Vals};
use weld_inputs::arguments::DataStop;
use weld_inputs::read_inputs;
use weld_job::Job;
use weld_meaning::Accepted;
use weld_meaning::laws::{
    meaning_looks_past_spelling, the_walk_is_linear_use, typed_programs_are_never_stuck,
};
use weld_passes::laws::chains_look_past_notes;
use weld_plan::make_plan;
use weld_ports::Gate;
use weld_read_script::read_script;
use weld_script::Script;
use weld_script::soak::{Soak, make_soak};
use weld_session::{Gathered, gather};
use weld_share::{RunNote, run_plan};
use weld_tree::Refusal;
use weld_tree::laws::same_programs_have_same_counts;

/// The program with the types of its nodes noted, where these keep the sizes that texts are held to.
fn note_types(alloc: Global, program: &Accepted) -> Result<Option<Accepted>, AllocError>
    ensures { IfOk result (λ r. MatchOption r (IsPastSizes program.now)
        (λ noted. IsSameButNotes noted program.now × ProgramIsNoted noted)) }
{
    notes_play_no_part();
    the_walk_is_linear_use();
    let copy = program.program().copy(alloc)?;
    match check_types(alloc, copy) {
        Ok(typed) => Ok(Some(Accepted {
            program: typed.program,
        })),
        Err(Refusal::At(_, _)) => Ok(None),
        Err(Refusal::Size(_)) => unreachable!(),
        Err(Refusal::Memory) => Err(AllocError),
    }
}

/// The value of a script's program on its inputs, and what was counted.
fn run_gathered<R: Threads + Sync, G: Gate>(
    rt: &R,
    alloc: Global,
    program: Accepted,
    inputs: &Vals,
    asked: Asked,
    gate: &G,
) -> Result<(Val, RunNote), Stop>
    requires { ArgumentsFit program.params inputs.now }
    ensures value { Answers (λ r. view_val r.0) result (meaning program inputs.now) }
    ensures note { IfOk result (λ r. IsCountedOf program inputs.now asked.options.cut r.1) }
{
    notes_play_no_part();
    meaning_looks_past_spelling();
    same_programs_have_same_counts();
    chains_look_past_notes();
    match note_types(alloc, &program) {
        Ok(Some(noted)) => run_program(rt, alloc, noted, inputs, asked, gate),
        Ok(None) => run_as_it_is(rt, alloc, &program, inputs, asked, gate),
        Err(_) => Err(Stop::Memory),
    }
}

/// The value of an accepted program by its own plan.
fn run_as_it_is<R: Threads + Sync, G: Gate>(
    rt: &R,
    alloc: Global,
    program: &Accepted,
    inputs: &Vals,
    asked: Asked,
    gate: &G,
) -> Result<(Val, RunNote), Stop>
    requires { ArgumentsFit program.now.params inputs.now }
    ensures value { Answers (λ r. view_val r.0) result (meaning program.now inputs.now) }
    ensures note { IfOk result (λ r. IsNote program.now inputs.now asked.options.cut r.1) }
{
    let plan = match make_plan(alloc, program) {
        Ok(plan) => plan,
        Err(_) => return Err(Stop::Memory),
    };
    let options = asked.options;
    run_plan(rt, alloc, &plan, inputs, options.workers, options.cut, gate)
}

/// What a script is answered with on the values of its declarations.
fn conclude_script<R: Threads + Sync, G: Gate>(
    rt: &R,
    alloc: Global,
    script: &Script,
    inputs: Vals,
    asked: Asked,
    gate: &G,
) -> Result<Answer, AllocError>
    requires { AreInputs (declared_of script.now.made) inputs }
    ensures { IfOk result (λ answer. ScriptConcludes asked.options script.now inputs answer.status
        answer.text) }
{
    typed_programs_are_never_stuck();
    let Gathered {
        program,
        inputs,
        ty,
    } = gather(alloc, script, inputs)?;
    let loops = count_loops(program.program());
    match run_gathered(rt, alloc, program, &inputs, asked, gate) {
        Ok((value, note)) => {
            drop(inputs);
            done(rt, alloc, &value, &ty, asked, loops, note)
        }
        Err(Stop::Fault) => fault(alloc),
        Err(Stop::Memory) => Err(AllocError),
    }
}

/// The values that the job's data give the declarations. The job is let go.
fn take_inputs(
    rt: &(impl Threads + Sync),
    alloc: Global,
    script: &Script,
    job: Job,
    asked: Asked,
) -> Result<Vals, DataStop>
    ensures inputs { IfOk result (Inputs (declared_of script.now.made) job) }
    ensures typed { IfOk result (AreInputs (declared_of script.now.made)) }
    ensures unfit { IfErr result (Tells (IsUnfit (declared_of script.now.made) job)) }
{
    read_inputs(rt, alloc, script, &job, asked.options.workers)
}

/// What a script is answered with on the data of the job, which is let go before the program is run.
fn answer_script<R: Threads + Sync, G: Gate>(
    rt: &R,
    alloc: Global,
    script: &Script,
    job: Job,
    asked: Asked,
    gate: &G,
) -> Result<Answer, AllocError>
    ensures { IfOk result (λ answer. ScriptAnswers asked.options script.now job answer.status
        answer.text) }
{
    match take_inputs(rt, alloc, script, job, asked) {
        Ok(inputs) => conclude_script(rt, alloc, script, inputs, asked, gate),
        Err(DataStop::Unfit(number, code)) => unfit(alloc, number, code),
        Err(DataStop::Memory) => Err(AllocError),
    }
}

/// What `session` answers to a job that isn't too long.
pub(crate) fn answer_session<R: Threads + Sync, G: Gate>(
    rt: &R,
    alloc: Global,
    job: Job,
    asked: Asked,
    gate: &G,
) -> Result<Answer, AllocError>
    ensures { IfOk result (λ answer. SessionAnswers asked.options job answer.status answer.text) }
{
    match read_script(alloc, job.text()) {
        Ok(script) => answer_script(rt, alloc, &script, job, asked, gate),
        Err(fault) => script_refused(alloc, fault),
    }
}

/// What `soak` answers: the fixed script on the table that its seed and rows make.
pub(crate) fn answer_soak<R: Threads + Sync, G: Gate>(
    rt: &R,
    alloc: Global,
    asked: Asked,
    gate: &G,
) -> Result<Answer, AllocError>
    ensures { IfOk result (λ answer. SoakAnswers asked.options answer.status answer.text) }
{
    let Soak { script, inputs } = make_soak(alloc, asked.options.seed, asked.options.rows)?;
    conclude_script(rt, alloc, &script, inputs, asked, gate)
}
