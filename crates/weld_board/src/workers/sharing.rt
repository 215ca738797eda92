//! Jobs shared by workers, each in a thread of its own.

ghost use Rattle.std.specs.Prelude.{◌≡◌, ◌≤◌, ◌<◌, [], All, length, IfOk};
ghost use Rattle.weld_board.specs.Sitting.{AreFresh, board_tiles, seats_in, seats_room};
ghost use Rattle.weld_board.specs.Spans.{AreSpans, OnFault};
ghost use Rattle.weld_board.specs.Work.{AreJobs, IsIdle, HasWorked};

use crate::workers::gathering::{gather, stop_of};
use crate::workers::jobs::Jobs;
use crate::workers::span::Span;
use crate::workers::worker::Worker;
use crate::workers::working::work;
use crate::{Board, Seats, deal};
use std::alloc::{AllocError, Global};
use std::thread;
use std::thread::Threads;
use weld_data::Stop;
use weld_tiles::Tile;

/// What the jobs have made, in the order of their numbers: spans of neighbouring jobs, from the first to the last. The jobs are
/// dealt to the hands of so many workers at a board, or of one for each job where these are fewer, each in a thread of its own
/// where one can be made; a worker whose hand is empty takes from those of the others. A job that follows the one that its worker did last goes into the same part. It
/// faults only where a job does. It may want memory.
pub fn share_jobs<P: Send + Drop, T: Jobs<P>>(
    rt: &(impl Threads + Sync),
    alloc: Global,
    jobs: &T,
    count: usize,
    workers: u32,
) -> Result<Vec<Span<P>>, Stop>
    requires ready { T.ready jobs.now }
    requires count { T.count jobs.now ≡ count }
    requires some_worker { 1 ≤ workers }
    requires workers { workers ≤ 64 }
    ensures spans { IfOk result (λ v. AreSpans (T.made jobs.now) 0 count v.items) }
    ensures fault { OnFault result (T.faults jobs.now) }
{
    let tiles = match tiles_for(alloc, count) {
        Ok(tiles) => tiles,
        Err(_) => return Err(Stop::Memory),
    };
    let hands = hands_for(count, workers);
    let (board, mut seats) = match deal(alloc, tiles.as_slice(), hands) {
        Ok(dealt) => dealt,
        Err(_) => return Err(Stop::Memory),
    };
    let idle = match seat_workers(alloc, &board, &mut seats) {
        Ok(idle) => idle,
        Err(_) => return Err(Stop::Memory),
    };
    let worked = all_work(rt, jobs, &board, idle, hands as usize);
    match stop_of(jobs, &board, worked.as_slice()) {
        Some(stop) => Err(stop),
        None => gather(alloc, jobs, board, seats, worked),
    }
}

/// How many hands are dealt: no more than there are jobs, and at least one, so that no thread is started for want of a job. It
/// takes no memory.
fn hands_for(count: usize, workers: u32) -> u32
    requires some_worker { 1 ≤ workers }
    requires workers { workers ≤ 64 }
    ensures some { 1 ≤ result }
    ensures few { result ≤ 64 }
{
    if count < workers as usize {
        (count as u32).max(1)
    } else {
        workers
    }
}

/// Tiles that stand for so many jobs, each with its place as its number.
fn tiles_for(alloc: Global, count: usize) -> Result<Vec<Tile>, AllocError>
    ensures jobs { IfOk result (λ v. AreJobs v.items) }
    ensures all { IfOk result (λ v. length v.items ≡ count) }
{
    let mut tiles = Vec::with_capacity(alloc, count)?;
    for k in 0..count {
        let number = k as u64;
        tiles.push(Tile {
            number,
            lo: number,
            hi: number,
        })?;
    }
    Ok(tiles)
}

/// A worker for each seat, before its first job.
fn seat_workers<P: Drop>(
    alloc: Global,
    board: &Board,
    seats: &mut Seats,
) -> Result<Vec<Worker<P>>, AllocError>
    requires { AreFresh board.now 0 (seats_in seats.old) }
    ensures idle { IfOk result (λ v. All (IsIdle board.now) v.items) }
    ensures all { IfOk result (λ v. length v.items ≡ length (seats_in seats.old)) }
    ensures none { IfOk result (λ v. seats_in seats.new ≡ []) }
    ensures room { seats_room seats.new ≡ seats_room seats.old }
{
    let _board = board;
    let mut workers = Vec::new(alloc);
    'seats: while let Some(seat) = seats.pop() {
        let worker = Worker {
            seat,
            spans: Vec::new(alloc),
            stop: None,
        };
        match workers.push(worker) {
            Ok(()) => {}
            Err(_) => return Err(AllocError),
        }
    }
    Ok(workers)
}

/// The workers, after they have worked.
fn all_work<P: Send + Drop, T: Jobs<P>>(
    rt: &(impl Threads + Sync),
    jobs: &T,
    board: &Board,
    mut workers: Vec<Worker<P>>,
    threads: usize,
) -> Vec<Worker<P>>
    requires threads { 0 < threads }
    requires ready { T.ready jobs.now }
    requires numbered { AreJobs (board_tiles board.now) }
    requires few { T.count jobs.now < 18446744073709551616 }
    requires length { length (board_tiles board.now) ≡ T.count jobs.now }
    requires idle { All (IsIdle board.now) workers.items }
    ensures worked { All (HasWorked (T.made jobs.now) (T.faults jobs.now) board.now) result.items }
    ensures all { length result.items ≡ length workers.items }
{
    work_all(rt, jobs, board, workers.as_mut_slice(), threads);
    workers
}

/// Lets each worker work, in a thread of its own where one can be made.
fn work_all<P: Send + Drop, T: Jobs<P>>(
    rt: &(impl Threads + Sync),
    jobs: &T,
    board: &Board,
    workers: &mut [Worker<P>],
    threads: usize,
)
    requires threads { 0 < threads }
    requires ready { T.ready jobs.now }
    requires numbered { AreJobs (board_tiles board.now) }
    requires few { T.count jobs.now < 18446744073709551616 }
    requires length { length (board_tiles board.now) ≡ T.count jobs.now }
    requires idle { All (IsIdle board.now) workers.old }
    ensures { All (HasWorked (T.made jobs.now) (T.faults jobs.now) board.now) workers.new }
{
    thread::for_each_mut(
        rt,
        workers,
        threads,
        &|_, worker: &mut Worker<P>|
            requires { T.ready jobs.now × AreJobs (board_tiles board.now)
                × (T.count jobs.now < 18446744073709551616)
                × (length (board_tiles board.now) ≡ T.count jobs.now)
                × IsIdle board.now worker.now }
            ensures { HasWorked (T.made jobs.entry.now) (T.faults jobs.entry.now) board.entry.now
                worker.exit.now }
        { work(jobs, board, worker) },
    );
}
