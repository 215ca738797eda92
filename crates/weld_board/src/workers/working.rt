//! What a worker does.

ghost use Rattle.std.specs.Prelude.{◌≡◌, ◌+◌, ◌<◌, ◌≤◌, ℕ, [], ◌∷◌, ◌++◌, List, length, OnOk, IsTrue};
ghost use Rattle.weld_board.specs.Sitting.{IsEmptied, Sits, taken, board_dealt, board_tiles};
ghost use Rattle.weld_board.specs.declared.workers.span.Span.{Span};
ghost use Rattle.weld_board.specs.Spans.{jobs_in, AreMade, EndsAt, OnFault, IfFault};
ghost use Rattle.weld_board.specs.Work.{AreJobs, HasDone, Works};

use crate::Board;
use crate::workers::jobs::Jobs;
use crate::workers::span::Span;
use crate::workers::worker::Worker;
use weld_data::Stop;

/// Takes jobs until the seat has found every hand empty. After a stop they are only taken.
pub(crate) fn work<P: Drop, T: Jobs<P>>(jobs: &T, board: &Board, worker: &mut Worker<P>)
    requires ready { T.ready jobs.now }
    requires numbered { AreJobs (board_tiles board.now) }
    requires few { T.count jobs.now < 18446744073709551616 }
    requires length { length (board_tiles board.now) ≡ T.count jobs.now }
    requires works { Works (T.made jobs.now) (T.faults jobs.now) board.now worker.old }
    ensures works { Works (T.made jobs.now) (T.faults jobs.now) board.now worker.new }
    ensures emptied { IsEmptied worker.new.seat }
{
    'takes: while let Some(tile) = worker.seat.take(board) {
        do_job(jobs, worker, tile.number);
    }
}

/// Does a job, if nothing has stopped the worker, and keeps what it makes.
fn do_job<P: Drop, T: Jobs<P>>(jobs: &T, worker: &mut Worker<P>, job: u64)
    requires ready { T.ready jobs.now }
    requires job { job < T.count jobs.now }
    requires few { T.count jobs.now < 18446744073709551616 }
    requires done { (before : List ℕ) × HasDone (T.made jobs.now) (T.faults jobs.now)
        worker.old.stop worker.old.spans.items before }
    requires fault { IfFault worker.old.stop (T.faults jobs.now) }
    ensures seat { worker.new.seat ≡ worker.old.seat }
    ensures done { (before : List ℕ) → HasDone (T.made jobs.now) (T.faults jobs.now) worker.old.stop
        worker.old.spans.items before → HasDone (T.made jobs.now) (T.faults jobs.now)
        worker.new.stop worker.new.spans.items (before ++ job ∷ []) }
    ensures fault { IfFault worker.new.stop (T.faults jobs.now) }
{
    if worker.stop.is_some() {
        return;
    }
    match keep(jobs, &mut worker.spans, job) {
        Ok(()) => {}
        Err(stop) => worker.stop = Some(stop),
    }
}

/// Does a job and keeps what it makes: in the last part, where the job is its next, else in a new one.
fn keep<P: Drop, T: Jobs<P>>(jobs: &T, spans: &mut Vec<Span<P>>, job: u64) -> Result<(), Stop>
    requires ready { T.ready jobs.now }
    requires job { job < T.count jobs.now }
    requires few { T.count jobs.now < 18446744073709551616 }
    requires made { AreMade (T.made jobs.now) spans.old.items }
    ensures made { OnOk result (AreMade (T.made jobs.now) spans.new.items) }
    ensures jobs { OnOk result (jobs_in spans.new.items ≡ jobs_in spans.old.items ++ job ∷ []) }
    ensures fault { OnFault result (T.faults jobs.now) }
{
    if goes_on(spans.as_slice(), job) {
        return run_last(jobs, spans, job);
    }
    match push_bare(jobs, spans, job) {
        Ok(()) => run_last(jobs, spans, job),
        Err(stop) => Err(stop),
    }
}

/// Appends a span that begins with a job.
fn push_bare<P: Drop, T: Jobs<P>>(jobs: &T, spans: &mut Vec<Span<P>>, job: u64) -> Result<(), Stop>
    requires ready { T.ready jobs.now }
    requires job { job < T.count jobs.now }
    requires made { AreMade (T.made jobs.now) spans.old.items }
    ensures last { OnOk result (EndsAt (T.made jobs.now) job spans.new.items) }
    ensures jobs { OnOk result (jobs_in spans.new.items ≡ jobs_in spans.old.items) }
    ensures fault { OnFault result (T.faults jobs.now) }
{
    let part = match jobs.begin(job) {
        Ok(part) => part,
        Err(stop) => return Err(stop),
    };
    let span = Span {
        first: job,
        next: job,
        part,
    };
    match spans.push(span) {
        Ok(()) => Ok(()),
        Err(_) => Err(Stop::Memory),
    }
}

/// Whether the job is the next of the last span.
fn goes_on<P>(spans: &[Span<P>], job: u64) -> bool
    ensures { IsTrue result → (front : List (Span P)) × (last : Span P)
        × (spans.now ≡ front ++ last ∷ []) × (last.next ≡ job) }
{
    match spans.last() {
        Some(span) => span.next == job,
        None => false,
    }
}

/// Does a job into the last span, of which it is the next.
fn run_last<P: Drop, T: Jobs<P>>(jobs: &T, spans: &mut [Span<P>], job: u64) -> Result<(), Stop>
    requires ready { T.ready jobs.now }
    requires job { job < T.count jobs.now }
    requires few { T.count jobs.now < 18446744073709551616 }
    requires last { EndsAt (T.made jobs.now) job spans.old }
    ensures made { OnOk result (AreMade (T.made jobs.now) spans.new) }
    ensures jobs { OnOk result (jobs_in spans.new ≡ jobs_in spans.old ++ job ∷ []) }
    ensures fault { OnFault result (T.faults jobs.now) }
{
    let at = spans.len() - 1;
    let span = &mut spans[at];
    match jobs.run(span.first, job, &mut span.part) {
        Ok(()) => {
            span.next = job + 1;
            Ok(())
        }
        Err(stop) => Err(stop),
    }
}
