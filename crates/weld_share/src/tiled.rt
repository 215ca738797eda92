//! One loop, by stretches of tiles that are run apart.

ghost use Rattle.std.specs.Prelude.{◌≡◌, ◌∷◌, ◌≤◌, ◌<◌, ◌+◌, ◌^◌, length, drop, Err, IfOk, IsOkAnd, OnOk, All};
ghost use Rattle.weld_builders.specs.Outcome.{fault};
ghost use Rattle.weld_eval.specs.Answers.{OnFault};
ghost use Rattle.weld_tiles.specs.Tiling.{Follows, IsTiling};
ghost use Rattle.weld_tile_parts.specs.Parts.{part_evaluation, joined_evaluation, IsWhole};
ghost use Rattle.weld_exec.specs.Run.{env_inputs, program_meaning, IsReady, left_of, evaluation_of, rows_at, rows_left, AtLoop, IsAtALoop};
ghost use Rattle.weld_share.specs.Counts.{AreCut};
ghost use Rattle.weld_share.specs.Mapped.{IsAnswer};
ghost use Rattle.weld_share.specs.Stretches.{IsStretchOf, AreStretches};

use crate::parallel::{RunsStretches, map_stretches};
use crate::sharing::share_stretches;
use crate::stretch::{Stretch, stretches};
use crate::way::{Sharing, Way};
use std::alloc::Global;
use std::thread::Threads;
use weld_data::Stop;
use weld_exec::{Env, bare_part, part_of};
use weld_meaning::LoopId;
use weld_plan::Plan;
use weld_ports::Gate;
use weld_tile_parts::{Joined, TilePart};
use weld_tiles::{Tile, tiles};

/// The loop at which a run stands, whose stretches any thread may run. The gate is told of each tile before it is run.
#[derive(Drop)]
pub(crate) struct Tiled<'a, 'b, G> {
    pub(crate) alloc: Global,
    pub(crate) plan: &'a Plan<'b>,
    pub(crate) env: &'a Env<'b>,
    pub(crate) gate: &'a G,
}

impl<'a, 'b, G: Gate> RunsStretches for Tiled<'a, 'b, G> {
    ghost takes = { λ r s. IsAtALoop r.plan.now r.env.now × IsStretchOf (rows_at r.env.now) s };

    ghost answers = { λ r s answer. IsAnswer r.plan.now r.env.now s.whole answer };

    fn run(&self, stretch: &Stretch) -> Result<TilePart, Stop> {
        let whole = stretch.whole;
        let mut part = match bare_part(self.plan, self.env, whole, self.alloc) {
            Ok(part) => part,
            Err(_) => return Err(Stop::Memory),
        };
        for tile in stretch.tiles {
            self.gate.before(tile.number);
            match self.run_told(*tile, &mut part) {
                Ok(()) => {}
                Err(stop) => return Err(stop),
            }
        }
        Ok(part_of(self.plan, self.env, stretch.whole, part))
    }
}

/// Joins what the next stretch has made.
fn enter_one(answer: Result<TilePart, Stop>, into: &mut Joined) -> Result<(), Stop>
    requires whole { IsWhole into.old }
    requires follows { IfOk answer (λ part. Follows part.tile into.old.next into.old.end) }
    requires evaluation { IfOk answer (λ part. part_evaluation part ≡ joined_evaluation into.old) }
    ensures whole { OnOk result (IsWhole into.new) }
    ensures evaluation { joined_evaluation into.new ≡ joined_evaluation into.old }
    ensures on { OnOk result (IsOkAnd answer (λ part. (into.new.next ≡ part.tile.number + 1)
        × (into.new.end ≡ part.tile.hi))) }
    ensures fault { OnFault result (answer ≡ Err Stop.Fault) }
{
    let part = match answer {
        Ok(part) => part,
        Err(stop) => return Err(stop),
    };
    match part.seal().enter(into) {
        Ok(()) => Ok(()),
        Err(_) => Err(Stop::Memory),
    }
}

#[tactic(auto, using(crate::proofs::Counting::tiles_are_cut))]
/// Runs the loop at which the run stands, by tiles, and goes behind it: how many tiles and how many rows there were.
pub(crate) fn run_loop<G: Gate>(
    rt: &(impl Threads + Sync),
    alloc: Global,
    plan: &Plan,
    env: &mut Env,
    at: LoopId,
    sharing: Sharing,
    gate: &G,
    way: Way,
) -> Result<(usize, u64), Stop>
    requires { AtLoop plan.now env.old at }
    ensures ready { OnOk result (IsReady plan.now env.new) }
    ensures left { OnOk result (left_of plan.now env.new < left_of plan.now env.old) }
    ensures inputs { env_inputs env.new ≡ env_inputs env.old }
    ensures rows { IfOk result (λ r. rows_left plan.now env.old
        ≡ r.1 ∷ rows_left plan.now env.new) }
    ensures tiles { IfOk result (λ r. AreCut sharing.cut r.1 r.0) }
    ensures few { IfOk result (λ r. r.1 < 2 ^ 64) }
    ensures fault { OnFault result (program_meaning plan.now env.old ≡ fault) }
{
    let rows = env.rows_of(plan, at);
    let list = match tiles(alloc, rows, sharing.cut) {
        Ok(list) => list,
        Err(_) => return Err(Stop::Memory),
    };
    let joined = match join_tiles(
        rt,
        alloc,
        plan,
        &*env,
        at,
        list.as_slice(),
        sharing,
        gate,
        way,
    ) {
        Ok(joined) => joined,
        Err(stop) => return Err(stop),
    };
    match env.store(plan, at, joined, alloc) {
        Ok(()) => Ok((list.len(), rows)),
        Err(_) => Err(Stop::Memory),
    }
}

/// The builder of the loop at which the run stands, joined with what the tiles of its rows make.
#[tactic(auto, using(weld_exec::proofs::Tiling::at_a_loop))]
fn join_tiles<G: Gate>(
    rt: &(impl Threads + Sync),
    alloc: Global,
    plan: &Plan,
    env: &Env,
    at: LoopId,
    tiles: &[Tile],
    sharing: Sharing,
    gate: &G,
    way: Way,
) -> Result<Joined, Stop>
    requires at { AtLoop plan.now env.now at }
    requires tiling { IsTiling tiles.now (rows_at env.now) }
    ensures whole { IfOk result (λ j. IsWhole j) }
    ensures evaluation { IfOk result (λ j. joined_evaluation j ≡ evaluation_of plan.now env.now) }
    ensures all { IfOk result (λ j. j.end ≡ rows_at env.now) }
    ensures fault { OnFault result (program_meaning plan.now env.now ≡ fault) }
{
    let stretches = match stretches(alloc, tiles, env.rows_of(plan, at), sharing, way) {
        Ok(stretches) => stretches,
        Err(_) => return Err(Stop::Memory),
    };
    let start = match env.begin(plan, at, alloc) {
        Ok(start) => start,
        Err(_) => return Err(Stop::Memory),
    };
    let run = Tiled {
        alloc,
        plan,
        env,
        gate,
    };
    match way {
        Way::Mapped => join_stretches(rt, alloc, &run, &stretches, sharing, start),
        Way::Shared => share_stretches(rt, alloc, &run, &stretches, sharing, start),
    }
}

/// The builder at the start, joined with what stretches make, of which as many as there are workers are run before what they
/// make is joined.
fn join_stretches<G: Gate>(
    rt: &(impl Threads + Sync),
    alloc: Global,
    run: &Tiled<G>,
    stretches: &[Stretch],
    sharing: Sharing,
    start: Joined,
) -> Result<Joined, Stop>
    requires at { IsAtALoop run.now.plan.now run.now.env.now }
    requires whole { IsWhole start }
    requires evaluation { joined_evaluation start ≡ evaluation_of run.now.plan.now run.now.env.now }
    requires stretches { AreStretches start.next start.end (rows_at run.now.env.now) stretches.now }
    ensures whole { IfOk result (λ j. IsWhole j) }
    ensures evaluation { IfOk result (λ j. joined_evaluation j
        ≡ evaluation_of run.now.plan.now run.now.env.now) }
    ensures all { IfOk result (λ j. j.end ≡ rows_at run.now.env.now) }
    ensures fault { OnFault result (program_meaning run.now.plan.now run.now.env.now ≡ fault) }
{
    let batch_len = sharing.workers as usize;
    let mut joined = start;
    let mut at = 0;
    'batches: while at < stretches.len() {
        let (_, left) = stretches.split_at(at);
        let len = left.len().min(batch_len);
        joined = match join_batch(rt, alloc, run, left, len, joined) {
            Ok(joined) => joined,
            Err(stop) => return Err(stop),
        };
        at += len;
    }
    Ok(joined)
}

/// The builder that has come to the first of some stretches, joined with what so many of them make, in their order. The first
/// stop in that order is the answer.
#[tactic(auto, using(crate::proofs::Following::batch_answers))]
fn join_batch<G: Gate>(
    rt: &(impl Threads + Sync),
    alloc: Global,
    run: &Tiled<G>,
    left: &[Stretch],
    len: usize,
    mut joined: Joined,
) -> Result<Joined, Stop>
    requires at { IsAtALoop run.now.plan.now run.now.env.now }
    requires whole { IsWhole joined }
    requires evaluation { joined_evaluation joined ≡ evaluation_of run.now.plan.now
        run.now.env.now }
    requires stretches { AreStretches joined.next joined.end (rows_at run.now.env.now) left.now }
    requires enough { len ≤ length left.now }
    ensures whole { IfOk result (λ j. IsWhole j) }
    ensures evaluation { IfOk result (λ j. joined_evaluation j
        ≡ evaluation_of run.now.plan.now run.now.env.now) }
    ensures behind { IfOk result (λ j. AreStretches j.next j.end (rows_at run.now.env.now)
        (drop len left.now)) }
    ensures fault { OnFault result (program_meaning run.now.plan.now run.now.env.now ≡ fault) }
{
    let (batch, _) = left.split_at(len);
    let answers = match map_stretches(rt, alloc, run, batch) {
        Ok(answers) => answers,
        Err(_) => return Err(Stop::Memory),
    };
    for answer in answers {
        match enter_one(answer, &mut joined) {
            Ok(()) => {}
            Err(stop) => return Err(stop),
        }
    }
    Ok(joined)
}
