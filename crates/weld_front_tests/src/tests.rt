ghost use Rattle.std.specs.Prelude.{◌≤◌};

use std::alloc::{AllocError, Global};
use std::test::Fail;
use std::thread::Threads;
use weld_front::{Status, weld_main};
use weld_ports::{MemorySink, MemorySource, NoGate};

/// One call over memory: how it ended, what the sink holds, and how much of it a flush found.
#[derive(Drop)]
struct Outcome {
    status: Status,
    held: Vec<u8>,
    settled: usize,
}

/// Calls `weld_main` on this word and a job, with a source and a sink that pass so many bytes at once and
/// whose calls of these numbers fail; 0 is the number of no call.
fn call(
    rt: &(impl Threads + Sync),
    alloc: Global,
    word: &str,
    job: &str,
    steps: (usize, usize),
    failing: (u64, u64),
) -> Result<Outcome, AllocError>
    requires reads { 1 ≤ steps.0 }
    requires writes { 1 ≤ steps.1 }
{
    let words = vec![in alloc; String::from_str(alloc, word)?]?;
    let reads = vec![in alloc; failing.0]?;
    let writes = vec![in alloc; failing.1]?;
    let bytes = Vec::from_slice(alloc, job.as_bytes())?;
    let mut input = MemorySource::new(bytes, steps.0, reads);
    let mut output = MemorySink::new(alloc, 256, steps.1, writes)?;
    let status = weld_main(
        rt,
        alloc,
        words.as_slice(),
        &mut input,
        &mut output,
        &NoGate,
    );
    Ok(Outcome {
        status,
        held: output.held().to_vec(alloc)?,
        settled: output.settled(),
    })
}

const SQUARES: &str =
    "|v: vec[i64]| result(for(v, merger[i64,+], |b,i,x| merge(b, x * x)))\n%%\n%value\n[1,2,3]\n";

/// A word, a job and the answer.
type Case = (&'static str, &'static str, &'static str);

static CASES: [Case; 5] = [
    ("run", SQUARES, "14\n"),
    (
        "run",
        "|v: vec[i64]| result(for(v, merger[i64,+], |b,i,x| merge(b, 1L / x)))\n%%\n%value\n[0]",
        "fault\n",
    ),
    ("run", "y", "refused N1 at 1:1\n"),
    ("check", SQUARES, "ok i64\n"),
    (
        "walk",
        "",
        "usage: weld run|check|show|session|soak [--workers N] [--cut N] [--report] [--seed N] [--rows N]\n",
    ),
];

/// With a step of 1 call number n writes byte n, and the last call is the flush: where one of them fails, the
/// sink holds what came before.
fn ends_at(
    rt: &(impl Threads + Sync),
    alloc: Global,
    case: &Case,
    number: usize,
) -> Result<bool, AllocError> {
    let failing = (number as u64).saturating_add(1);
    let outcome = call(rt, alloc, case.0, case.1, (1000, 1), (0, failing))?;
    Ok(
        outcome.status == Status::Write
            && Some(outcome.held.as_slice()) == case.2.as_bytes().get(..number)
            && outcome.settled == 0,
    )
}

#[test]
fn a_failed_write_leaves_a_front_of_the_answer(rt: HostRuntime) -> Result<(), Fail> {
    for case in &CASES {
        for number in 0..case.2.len() + 1 {
            assert!(rt;
                ends_at(&rt, rt.alloc(), case, number)?,
                "{case:?}, call {number}"
            );
        }
    }
    Ok(())
}

/// A sink that takes all at once is called twice: one write of the whole answer, and one flush.
fn is_called_twice(
    rt: &(impl Threads + Sync),
    alloc: Global,
    case: &Case,
) -> Result<bool, AllocError> {
    let at_flush = call(rt, alloc, case.0, case.1, (1000, 1000), (0, 2))?;
    let after = call(rt, alloc, case.0, case.1, (1000, 1000), (0, 3))?;
    Ok(
        at_flush.status == Status::Write
            && at_flush.held.as_slice() == case.2.as_bytes()
            && at_flush.settled == 0
            && after.settled == case.2.len(),
    )
}

#[test]
fn an_answer_is_one_write_and_one_flush(rt: HostRuntime) -> Result<(), Fail> {
    for case in &CASES {
        assert!(rt; is_called_twice(&rt, rt.alloc(), case)?, "{case:?}");
    }
    Ok(())
}

#[test]
fn failing_and_short_reads(rt: HostRuntime) -> Result<(), Fail> {
    for number in 1..13 {
        let outcome = call(&rt, rt.alloc(), "run", SQUARES, (8, 1000), (number, 0))?;
        let is_silent = outcome.status == Status::Read && outcome.held.is_empty();
        assert!(rt; is_silent, "read {number}");
    }
    for step in 1..10 {
        let outcome = call(&rt, rt.alloc(), "run", SQUARES, (step, step), (100, 0))?;
        assert_eq!(rt; outcome.held.as_slice(), b"14\n".as_slice(), "step {step}");
    }
    Ok(())
}
