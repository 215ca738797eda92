ghost use Rattle.std.specs.Prelude.{◌≡◌, ◌≤◌, true, false, Err, IfOk, OnOk, IfSome};
ghost use Rattle.weld_ports.specs.Faults.{Rises};
ghost use Rattle.weld_job.specs.Reading.{Takes};
ghost use Rattle.weld_front.specs.Asking.{reads_a_job};
ghost use Rattle.weld_front.specs.Answer.{Answers, AnswersParts, CheckAnswers, IsOfJob, Extent, job_bytes};
ghost use Rattle.weld_front.specs.Sessions.{SoakAnswers};

use crate::accepting::{Checked, accept_text};
use crate::answer::{Answer, NoAnswer, refused, told};
use crate::asked::Asked;
use crate::running::answer_run;
use crate::scripting::{answer_session, answer_soak};
use crate::showing::answer_show;
use std::alloc::{AllocError, Global};
use std::mem::forget;
use std::snapshot::Snapshot;
use std::thread::{Builder, Promise, Threads};
use weld_job::{Job, JobFault, read_job};
use weld_ports::{Gate, Source};
use weld_tree::{Code, Refusal};
use weld_words::Command;

/// What `check` answers to a job that isn't too long.
fn answer_check(alloc: Global, job: &Job) -> Result<Answer, AllocError>
    ensures { IfOk result (λ answer. CheckAnswers job.now answer.status answer.text) }
{
    match accept_text(alloc, job.text()) {
        Ok(checked) => {
            let Checked { program, ty } = checked;
            let answer = told(alloc, &ty);
            // The answer ends the process, which lets go of a large tree sooner than a walk over its nodes.
            forget(program);
            answer
        }
        Err(refusal) => refused(alloc, refusal),
    }
}

/// The bytes of stack for the check of a program of many lets.
const STACK: usize = 64 << 20;

/// A thread that checks promises what `check` answers to the job.
#[derive(Drop)]
struct Checks(Snapshot<Job>);

impl Promise<Result<Answer, AllocError>> for Checks {
    ghost use Rattle.std.specs.Prelude.{IfOk};
    ghost use Rattle.weld_front.specs.Answer.{CheckAnswers};

    ghost kept_by = { λ p r. IfOk r (λ answer. CheckAnswers p.0.value answer.status answer.text) };
}

/// Whether the text may have more lets, one in the body of another, than any program's own stack has room for: some
/// take stack by the kilobyte. Each has a semicolon.
fn may_be_deep(text: &[u8]) -> bool {
    let mut lets = 0u32;
    for byte in text {
        if *byte == b';' {
            lets = lets.saturating_add(1);
        }
    }
    lets > 256
}

/// What `check` answers to a job that isn't too long, found on a stack of its own where the program's may be too small.
fn check_job<R: Threads + Sync>(rt: &R, alloc: Global, job: Job) -> Result<Answer, AllocError>
    ensures { IfOk result (λ answer. CheckAnswers job answer.status answer.text) }
{
    if !may_be_deep(job.text()) {
        return answer_check(alloc, &job);
    }
    let promise = Checks(Snapshot::of(&job));
    let check = move || answer_check(alloc, &job);
    match Builder::new()
        .stack_size(STACK)
        .spawn_with(rt, promise, check)
    {
        Ok(thread) => thread.join(rt),
        Err(unstarted) => {
            let check = unstarted.value;
            check()
        }
    }
}

/// The answer to a job that isn't too long.
fn answer_parts<R: Threads + Sync, G: Gate>(
    rt: &R,
    alloc: Global,
    job: Job,
    asked: Asked,
    gate: &G,
) -> Result<Answer, AllocError>
    requires { reads_a_job asked.options.command ≡ true }
    ensures { IfOk result (λ answer. AnswersParts asked.options job answer.status answer.text) }
{
    match asked.options.command {
        Command::Run => answer_run(rt, alloc, job, asked, gate),
        Command::Check => check_job(rt, alloc, job),
        Command::Show => answer_show(alloc, &job),
        Command::Session => answer_session(rt, alloc, job, asked, gate),
        Command::Soak => unreachable!(),
    }
}

/// Reads a job and finds its answer. Of a job that is too long it takes just one byte more than the limit;
/// else it reads to the end, but where a read fails or memory is wanting.
#[tactic(auto, using(crate::proofs::AnswerLemmas::parts_answer, crate::proofs::AnswerLemmas::long_answer, crate::proofs::AnswerLemmas::parts_status, crate::proofs::AnswerLemmas::within_extent, crate::proofs::AnswerLemmas::over_extent))]
fn read_answer<R: Threads + Sync, S: Source, G: Gate>(
    rt: &R,
    alloc: Global,
    asked: Asked,
    input: &mut S,
    gate: &G,
) -> Result<Answer, NoAnswer>
    requires { reads_a_job asked.options.command ≡ true }
    ensures ok { IfOk result (λ answer. IfSome (S.left input.old)
        (λ bytes. Answers asked.options bytes answer.status answer.text)) }
    ensures status { IfOk result (λ answer. IsOfJob answer.status) }
    ensures extent { OnOk result (Extent (S.left input.old) (S.left input.new)) }
    ensures read { result ≡ Err NoAnswer.Read → Rises (S.faults input.old) (S.faults input.new) }
    ensures taken { Takes (S.left input.old) (S.left input.new) }
    ensures never_falls { S.faults input.old ≤ S.faults input.new }
{
    match read_job(alloc, input) {
        Ok(job) => match answer_parts(rt, alloc, job, asked, gate) {
            Ok(answer) => Ok(answer),
            Err(_) => Err(NoAnswer::Memory),
        },
        Err(JobFault::TooLong) => match refused(alloc, Refusal::Size(Code::M1)) {
            Ok(answer) => Ok(answer),
            Err(_) => Err(NoAnswer::Memory),
        },
        Err(JobFault::Read) => Err(NoAnswer::Read),
        Err(JobFault::Memory) => Err(NoAnswer::Memory),
    }
}

/// What `soak` answers.
#[tactic(auto, using(crate::proofs::AnswerLemmas::soak_of_job))]
fn soak_answer<R: Threads + Sync, G: Gate>(
    rt: &R,
    alloc: Global,
    asked: Asked,
    gate: &G,
) -> Result<Answer, NoAnswer>
    ensures answer { IfOk result (λ answer. SoakAnswers asked.options answer.status answer.text) }
    ensures status { IfOk result (λ answer. IsOfJob answer.status) }
    ensures read { result ≡ Err NoAnswer.Read → ⊥ }
{
    match answer_soak(rt, alloc, asked, gate) {
        Ok(answer) => Ok(answer),
        Err(_) => Err(NoAnswer::Memory),
    }
}

/// Finds the answer to what is asked for: of a job that is read, or of `soak`, which reads nothing.
#[tactic(auto, using(crate::proofs::AnswerLemmas::read_bytes, crate::proofs::AnswerLemmas::soak_bytes))]
pub fn find_answer<R: Threads + Sync, S: Source, G: Gate>(
    rt: &R,
    alloc: Global,
    asked: Asked,
    input: &mut S,
    gate: &G,
) -> Result<Answer, NoAnswer>
    ensures ok { IfOk result (λ answer. IfSome (job_bytes asked.options (S.left input.old))
        (λ bytes. Answers asked.options bytes answer.status answer.text)) }
    ensures status { IfOk result (λ answer. IsOfJob answer.status) }
    ensures extent { reads_a_job asked.options.command ≡ true
        → OnOk result (Extent (S.left input.old) (S.left input.new)) }
    ensures unread { reads_a_job asked.options.command ≡ false
        → (S.left input.new ≡ S.left input.old) × (S.faults input.new ≡ S.faults input.old) }
    ensures read { result ≡ Err NoAnswer.Read → Rises (S.faults input.old) (S.faults input.new) }
    ensures taken { Takes (S.left input.old) (S.left input.new) }
    ensures never_falls { S.faults input.old ≤ S.faults input.new }
{
    if is_reader(asked.options.command) {
        read_answer(rt, alloc, asked, input, gate)
    } else {
        soak_answer(rt, alloc, asked, gate)
    }
}

/// Whether the command reads a job.
fn is_reader(command: Command) -> bool
    ensures { result ≡ reads_a_job command }
{
    match command {
        Command::Run | Command::Check | Command::Show | Command::Session => true,
        Command::Soak => false,
    }
}
