//! The stretches of a loop, shared by workers at a board.

ghost use Rattle.std.specs.Prelude.{◌≡◌, ◌≤◌, ◌<◌, ℕ, length, drop, IfOk, OnOk};
ghost use Rattle.weld_builders.specs.Outcome.{fault};
ghost use Rattle.weld_eval.specs.Answers.{OnFault};
ghost use Rattle.weld_eval.specs.ThingView.{thing_of};
ghost use Rattle.weld_tile_parts.specs.Parts.{joined_evaluation, IsWhole};
ghost use Rattle.weld_exec.specs.Run.{program_meaning, evaluation_of, rows_at, IsAtALoop};
ghost use Rattle.weld_board.specs.Spans.{AreSpans, IsMade};
ghost use Rattle.weld_share.specs.Stretches.{AreStretches};
ghost use Rattle.weld_share.specs.Shared.{AreShared, HasMade, row_of};

use crate::stretch::Stretch;
use crate::tiled::Tiled;
use crate::way::{Sharing, Way};
use std::alloc::Global;
use std::thread::Threads;
use weld_board::workers::{Jobs, Span, share_jobs};
use weld_data::Stop;
use weld_eval::thing::Owned;
use weld_exec::{bare_part, part_of};
use weld_ports::Gate;
use weld_tile_parts::Joined;
use weld_tiles::Tile;

/// Stretches of a loop that follow one another, as jobs.
#[derive(Drop)]
pub(crate) struct Batch<'a, 'b, 'c, G> {
    run: &'c Tiled<'a, 'b, G>,
    stretches: &'c [Stretch<'a>],
}

impl<'a, 'b, 'c, G: Gate> Jobs<Owned> for Batch<'a, 'b, 'c, G> {
    ghost ready = { λ b. IsAtALoop b.run.now.plan.now b.run.now.env.now × AreShared (rows_at b.run.now.env.now) b.stretches.now };

    ghost count = { λ b. length b.stretches.now };

    ghost made = { λ b first next part. HasMade b.run.now.plan.now b.run.now.env.now b.stretches.now first next (thing_of part) };

    ghost faults = { λ b. program_meaning b.run.now.plan.now b.run.now.env.now ≡ fault };

    fn begin(&self, job: u64) -> Result<Owned, Stop> {
        let run = self.run;
        let whole = self.stretches[job as usize].whole;
        match bare_part(run.plan, run.env, whole, run.alloc) {
            Ok(part) => Ok(part),
            Err(_) => Err(Stop::Memory),
        }
    }

    fn run(&self, _first: u64, job: u64, part: &mut Owned) -> Result<(), Stop> {
        let stretch = &self.stretches[job as usize];
        let run = self.run;
        for tile in stretch.tiles {
            run.gate.before(tile.number);
            match run.run_told(*tile, part) {
                Ok(()) => {}
                Err(stop) => return Err(stop),
            }
        }
        Ok(())
    }
}

/// The builder at the start, joined with what stretches make, of which as many as the hands hold are shared before what they
/// make is joined.
pub(crate) fn share_stretches<G: Gate>(
    rt: &(impl Threads + Sync),
    alloc: Global,
    run: &Tiled<G>,
    stretches: &[Stretch],
    sharing: Sharing,
    start: Joined,
) -> Result<Joined, Stop>
    requires at { IsAtALoop run.now.plan.now run.now.env.now }
    requires whole { IsWhole start }
    requires evaluation { joined_evaluation start ≡ evaluation_of run.now.plan.now run.now.env.now }
    requires stretches { AreStretches start.next start.end (rows_at run.now.env.now) stretches.now }
    ensures whole { IfOk result (λ j. IsWhole j) }
    ensures evaluation { IfOk result (λ j. joined_evaluation j
        ≡ evaluation_of run.now.plan.now run.now.env.now) }
    ensures all { IfOk result (λ j. j.end ≡ rows_at run.now.env.now) }
    ensures fault { OnFault result (program_meaning run.now.plan.now run.now.env.now ≡ fault) }
{
    let batch_len = (sharing.workers * Way::Shared.each()) as usize;
    let mut joined = start;
    let mut at = 0;
    'batches: while at < stretches.len() {
        let (_, left) = stretches.split_at(at);
        let len = left.len().min(batch_len);
        joined = match share_batch(rt, alloc, run, left, len, sharing, joined) {
            Ok(joined) => joined,
            Err(stop) => return Err(stop),
        };
        at += len;
    }
    Ok(joined)
}

/// The builder that has come to the first of some stretches, joined with what so many of them make.
#[tactic(auto, using(crate::proofs::Spanning::batch_shared, crate::proofs::Spanning::batch_begins, crate::proofs::Spanning::batch_behind))]
fn share_batch<G: Gate>(
    rt: &(impl Threads + Sync),
    alloc: Global,
    run: &Tiled<G>,
    left: &[Stretch],
    len: usize,
    sharing: Sharing,
    joined: Joined,
) -> Result<Joined, Stop>
    requires at { IsAtALoop run.now.plan.now run.now.env.now }
    requires whole { IsWhole joined }
    requires evaluation { joined_evaluation joined ≡ evaluation_of run.now.plan.now
        run.now.env.now }
    requires some { 0 < len }
    requires enough { len ≤ length left.now }
    requires stretches { (n : ℕ) × AreStretches n joined.end (rows_at run.now.env.now) left.now }
    ensures whole { IfOk result (λ j. IsWhole j) }
    ensures evaluation { IfOk result (λ j. joined_evaluation j
        ≡ evaluation_of run.now.plan.now run.now.env.now) }
    ensures behind { IfOk result (λ j. (n : ℕ) × AreStretches n j.end (rows_at run.now.env.now)
        (drop len left.now)) }
    ensures fault { OnFault result (program_meaning run.now.plan.now run.now.env.now ≡ fault) }
{
    let (batch, _) = left.split_at(len);
    let jobs = Batch {
        run,
        stretches: batch,
    };
    match share_jobs(rt, alloc, &jobs, batch.len(), sharing.workers) {
        Ok(spans) => enter_spans(run, batch, spans, joined),
        Err(stop) => Err(stop),
    }
}

/// Joins what stretches have made, in their order, to the builder that has come to the first of them.
fn enter_spans<G: Gate>(
    run: &Tiled<G>,
    batch: &[Stretch],
    spans: Vec<Span<Owned>>,
    mut joined: Joined,
) -> Result<Joined, Stop>
    requires at { IsAtALoop run.now.plan.now run.now.env.now }
    requires whole { IsWhole joined }
    requires evaluation { joined_evaluation joined ≡ evaluation_of run.now.plan.now
        run.now.env.now }
    requires some { 0 < length batch.now }
    requires stretches { AreShared (rows_at run.now.env.now) batch.now }
    requires begins { joined.end ≡ row_of batch.now 0 }
    requires spans { AreSpans (λ first next part. HasMade run.now.plan.now run.now.env.now batch.now
        first next (thing_of part)) 0 (length batch.now) spans.items }
    ensures whole { IfOk result (λ j. IsWhole j) }
    ensures evaluation { IfOk result (λ j. joined_evaluation j
        ≡ evaluation_of run.now.plan.now run.now.env.now) }
    ensures ends { IfOk result (λ j. j.end ≡ row_of batch.now (length batch.now)) }
    ensures fault { OnFault result (program_meaning run.now.plan.now run.now.env.now ≡ fault) }
{
    for span in spans {
        match enter_span(run, batch, span, &mut joined) {
            Ok(()) => {}
            Err(stop) => return Err(stop),
        }
    }
    Ok(joined)
}

/// Joins what the next stretches have made.
fn enter_span<G: Gate>(
    run: &Tiled<G>,
    batch: &[Stretch],
    span: Span<Owned>,
    into: &mut Joined,
) -> Result<(), Stop>
    requires at { IsAtALoop run.now.plan.now run.now.env.now }
    requires whole { IsWhole into.old }
    requires evaluation { joined_evaluation into.old ≡ evaluation_of run.now.plan.now
        run.now.env.now }
    requires stretches { AreShared (rows_at run.now.env.now) batch.now }
    requires made { IsMade (λ first next part. HasMade run.now.plan.now run.now.env.now batch.now
        first next (thing_of part)) span }
    requires begins { into.old.end ≡ row_of batch.now span.first }
    ensures whole { OnOk result (IsWhole into.new) }
    ensures evaluation { joined_evaluation into.new ≡ joined_evaluation into.old }
    ensures ends { OnOk result (into.new.end ≡ row_of batch.now span.next) }
    ensures fault { OnFault result (program_meaning run.now.plan.now run.now.env.now ≡ fault) }
{
    let Span {
        first: _,
        next,
        part,
    } = span;
    let last = (next - 1) as usize;
    let tile = Tile {
        number: into.next,
        lo: into.end,
        hi: batch[last].whole.hi,
    };
    let part = part_of(run.plan, run.env, tile, part);
    match part.seal().enter(into) {
        Ok(()) => Ok(()),
        Err(_) => Err(Stop::Memory),
    }
}
