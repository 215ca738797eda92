//! What workers have made, put together.

ghost use Rattle.std.specs.Prelude.{◌≡◌, ◌<◌, [], All, length, map, IfOk, OnOk, IsPermutation};
ghost use Rattle.weld_board.specs.Dealing.{joined};
ghost use Rattle.weld_board.specs.Sitting.{Sits, IsEmptied, board_dealt, seats_in, seats_room, taken, numbers};
ghost use Rattle.weld_board.specs.Spans.{jobs_in, AreMade, AreSpans, OnFault, IfFault};
ghost use Rattle.weld_board.specs.Work.{HasWorked, Goes, Stopped};

use crate::workers::jobs::Jobs;
use crate::workers::span::Span;
use crate::workers::worker::Worker;
use crate::{Board, Seats, close};
use std::alloc::{AllocError, Global};
use weld_data::Stop;

/// What has stopped workers: a fault where one was stopped by a fault, else want of memory where one was stopped by that; None
/// where none was. It takes no memory.
pub(crate) fn stop_of<P, T: Jobs<P>>(jobs: &T, board: &Board, workers: &[Worker<P>]) -> Option<Stop>
    requires { All (HasWorked (T.made jobs.now) (T.faults jobs.now) board.now) workers.now }
    ensures stop { Stopped workers.now result }
    ensures fault { IfFault result (T.faults jobs.now) }
{
    let _jobs = jobs;
    let _board = board;
    let mut memory = false;
    for worker in workers {
        match worker.stop {
            Some(Stop::Fault) => return Some(Stop::Fault),
            Some(Stop::Memory) => memory = true,
            None => {}
        }
    }
    if memory { Some(Stop::Memory) } else { None }
}

/// What workers have made that nothing has stopped, in the order of the jobs.
pub(crate) fn gather<P: Drop, T: Jobs<P>>(
    alloc: Global,
    jobs: &T,
    board: Board,
    mut seats: Seats,
    workers: Vec<Worker<P>>,
) -> Result<Vec<Span<P>>, Stop>
    requires worked { All (HasWorked (T.made jobs.now) (T.faults jobs.now) board) workers.items }
    requires go { All Goes workers.items }
    requires all { length workers.items ≡ (board_dealt board).workers }
    requires none { seats_in seats ≡ [] }
    requires room { seats_room seats ≡ (board_dealt board).workers }
    requires count { (board_dealt board).tiles ≡ T.count jobs.now }
    ensures spans { IfOk result (λ v. AreSpans (T.made jobs.now) 0 (T.count jobs.now) v.items) }
    ensures fault { OnFault result (T.faults jobs.now) }
{
    let mut spans = Vec::new(alloc);
    match come_back(jobs, &board, workers, &mut seats, &mut spans) {
        Ok(()) => {}
        Err(_) => return Err(Stop::Memory),
    }
    let _taken = close(board, seats);
    sort(jobs, &mut spans);
    Ok(spans)
}

/// Puts back the workers' seats, and puts together what they have made, in the same order.
fn come_back<P: Drop, T: Jobs<P>>(
    jobs: &T,
    board: &Board,
    mut workers: Vec<Worker<P>>,
    seats: &mut Seats,
    spans: &mut Vec<Span<P>>,
) -> Result<(), AllocError>
    requires worked { All (HasWorked (T.made jobs.now) (T.faults jobs.now) board.now)
        workers.items }
    requires go { All Goes workers.items }
    requires none { seats_in seats.old ≡ [] }
    requires room { seats_room seats.old ≡ length workers.items }
    requires empty { spans.old.items ≡ [] }
    ensures sit { OnOk result (All (Sits board.now) (seats_in seats.new)) }
    ensures emptied { OnOk result (All IsEmptied (seats_in seats.new)) }
    ensures all { OnOk result (length (seats_in seats.new) ≡ length workers.items) }
    ensures made { OnOk result (AreMade (T.made jobs.now) spans.new.items) }
    ensures jobs { OnOk result (jobs_in spans.new.items ≡ joined (map taken (seats_in seats.new))) }
{
    let _jobs = jobs;
    let _board = board;
    'workers: while let Some(worker) = workers.pop() {
        let Worker {
            seat,
            spans: mut more,
            stop: _,
        } = worker;
        seats.put(seat);
        match spans.append(&mut more) {
            Ok(()) => {}
            Err(_) => return Err(AllocError),
        }
    }
    Ok(())
}

/// Sorts spans whose jobs are all that there are by their numbers. It takes no memory.
fn sort<P, T: Jobs<P>>(jobs: &T, spans: &mut Vec<Span<P>>)
    requires made { AreMade (T.made jobs.now) spans.old.items }
    requires all { IsPermutation (jobs_in spans.old.items) (numbers (T.count jobs.now)) }
    ensures { AreSpans (T.made jobs.now) 0 (T.count jobs.now) spans.new.items }
{
    let _jobs = jobs;
    spans.sort_unstable_by_key(|span| span.first);
}
