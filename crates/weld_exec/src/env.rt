//! The state of a run between the steps of its plan.

ghost use Rattle.std.specs.Prelude.{◌≡◌, ◌∷◌, ◌<◌, ◌≤◌, drop, IfOk, OnOk};
ghost use Rattle.weld_data.specs.Value.{Value};
ghost use Rattle.weld_builders.specs.Outcome.{done};
ghost use Rattle.weld_meaning.specs.Meaning.{ArgumentsFit, meaning};
ghost use Rattle.weld_acts.specs.Ranges.{Evaluation, IsSoFar};
ghost use Rattle.weld_eval.specs.ThingView.{thing_of};
ghost use Rattle.weld_tile_parts.specs.Parts.{joined_thing, joined_evaluation, IsWhole};
ghost use Rattle.weld_plan.specs.PlanView.{IsPlan, view_steps};
ghost use Rattle.weld_plan.specs.SharedRows.{program_rows};
ghost use Rattle.weld_exec.specs.Run.{env_inputs, IsReady, AtLoop, NextAnswer, LeavesNone, IsLoopNext, loop_node, evaluation_of, rows_at, rows_left, left_of};

use crate::gather::drop_vectors;
use crate::stack::{drop_top, pop, push};
use std::alloc::{AllocError, Global};
use weld_data::{Stop, Val, Vals};
use weld_eval::names::Names;
use weld_eval::thing::{Fields, Owned, copy_thing};
use weld_meaning::LoopId;
use weld_plan::{Plan, Step};
use weld_tile_parts::Joined;
use weld_tree::Expr;

/// Where a run of a plan stands. It borrows the inputs.
#[derive(Drop)]
pub struct Env<'a> {
    pub(crate) inputs: &'a Vals,
    pub(crate) at: usize,
    pub(crate) skip: usize,
    pub(crate) rows: usize,
    pub(crate) names: Names,
    pub(crate) stack: Fields,
}

/// What comes next in a run: a shared loop, whose legs and builder are evaluated, or the end with the program's value.
#[derive(Drop)]
pub enum Next {
    Loop(LoopId),
    Done(Val),
}

impl<'a> Env<'a> {
    /// A run before its first step. The inputs are of the types of the program's parameters.
    pub fn new(alloc: Global, plan: &Plan, inputs: &'a Vals) -> Result<Env<'a>, AllocError>
        requires plan { IsPlan plan.now }
        requires fit { ArgumentsFit plan.now.program.now.params inputs.now }
        ensures ready { IfOk result (λ env. IsReady plan.now env) }
        ensures inputs { IfOk result (λ env. env_inputs env ≡ inputs.now) }
        ensures rows { IfOk result (λ env. (v : Value) → meaning plan.now.program.now inputs.now
            ≡ done v → rows_left plan.now env ≡ program_rows plan.now.program.now inputs.now) }
    {
        let _plan = plan;
        Ok(Env {
            inputs,
            at: 0,
            skip: 0,
            rows: 0,
            names: Names::new(alloc),
            stack: Fields::End,
        })
    }

    /// Goes on to the next shared loop, whose legs and builder are evaluated then, or to the end. It faults exactly
    /// where what lies between does, and then the program's meaning is a fault. After a stop the run is only good to be
    /// dropped.
    pub fn advance(&mut self, plan: &Plan, alloc: Global) -> Result<Next, Stop>
        requires { IsReady plan.now self.old }
        ensures next { NextAnswer result plan.now self.new }
        ensures inputs { env_inputs self.new ≡ env_inputs self.old }
        ensures left { OnOk result (left_of plan.now self.new ≤ left_of plan.now self.old) }
        ensures rows { OnOk result (rows_left plan.now self.new ≡ rows_left plan.now self.old) }
        ensures none { IfOk result (LeavesNone plan.now self.new) }
    {
        while self.at < plan.steps.len() {
            let step = plan.steps[self.at];
            if self.skip > 0 {
                self.skip -= 1;
                self.at += 1;
            } else {
                match step {
                    Step::Loop(node, at) => {
                        return match self.stand(plan, node, at, alloc) {
                            Ok(next) => Ok(next),
                            Err(stop) => Err(stop),
                        };
                    }
                    _ => match self.take_step(plan, step, alloc) {
                        Ok(()) => {}
                        Err(stop) => return Err(stop),
                    },
                }
            }
        }
        match pop(&mut self.stack) {
            Owned::Value(v) => Ok(Next::Done(v)),
            _ => unreachable!(),
        }
    }

    /// The number of rows of the loop at which the run stands. It takes no memory.
    pub fn rows_of(&self, plan: &Plan, at: LoopId) -> u64
        requires { AtLoop plan.now self.now at }
        ensures { result ≡ rows_at self.now }
    {
        let _plan = plan;
        let _at = at;
        self.rows as u64
    }

    /// The builder with which the loop at which the run stands starts, before its first tile.
    pub fn begin(&self, plan: &Plan, at: LoopId, alloc: Global) -> Result<Joined, AllocError>
        requires { AtLoop plan.now self.now at }
        ensures whole { IfOk result (λ j. IsWhole j) }
        ensures thing { IfOk result (λ j. joined_thing j
            ≡ (evaluation_of plan.now self.now).start) }
        ensures next { IfOk result (λ j. j.next ≡ 0) }
        ensures end { IfOk result (λ j. j.end ≡ 0) }
        ensures evaluation { IfOk result (λ j. joined_evaluation j
            ≡ evaluation_of plan.now self.now) }
    {
        let _at = at;
        match &self.stack {
            Fields::And(start, _) => match copy_thing(start, alloc) {
                Ok(start) => Ok(joined_of(plan, self, start)),
                Err(e) => Err(e),
            },
            Fields::End => unreachable!(),
        }
    }

    /// Goes behind the loop at which the run stands, with the builder that has come to its last row. Where memory is
    /// wanting, the run is only good to be dropped.
    #[tactic(auto, using(crate::proofs::Looping::next_there))]
    pub fn store(
        &mut self,
        plan: &Plan,
        at: LoopId,
        value: Joined,
        alloc: Global,
    ) -> Result<(), AllocError>
        requires at { AtLoop plan.now self.old at }
        requires whole { IsWhole value }
        requires evaluation { joined_evaluation value ≡ evaluation_of plan.now self.old }
        requires end { value.end ≡ rows_at self.old }
        ensures ready { OnOk result (IsReady plan.now self.new) }
        ensures inputs { env_inputs self.new ≡ env_inputs self.old }
        ensures left { OnOk result (left_of plan.now self.new < left_of plan.now self.old) }
        ensures rows { OnOk result (rows_left plan.now self.old
            ≡ rows_at self.old ∷ rows_left plan.now self.new) }
    {
        let _at = at;
        let node = loop_at(plan, self.at);
        drop_top(&mut self.stack);
        drop_vectors(node, &mut self.stack);
        match push(&mut self.stack, value.into_thing(), alloc) {
            Ok(()) => {
                self.at += 1;
                Ok(())
            }
            Err(e) => Err(e),
        }
    }
}

/// The builder of the evaluation at which the run stands, before its first tile. It takes no memory.
fn joined_of(_plan: &Plan, _env: &Env, start: Owned) -> Joined
    ghost at: { Evaluation }
    requires { IsSoFar at 0 (thing_of start) }
    ensures whole { IsWhole result }
    ensures thing { joined_thing result ≡ thing_of start }
    ensures next { result.next ≡ 0 }
    ensures end { result.end ≡ 0 }
    ensures evaluation { joined_evaluation result ≡ at }
{
    Joined::of(start)
}

/// The node of the loop at a place of the plan. It takes no memory.
#[tactic(auto, using(crate::proofs::Looping::next_there))]
pub(crate) fn loop_at<'a>(plan: &Plan<'a>, at: usize) -> &'a Expr
    requires { IsLoopNext (drop at (view_steps plan.now.steps.items)) }
    ensures { result.now ≡ loop_node plan.now.program.now.body
        (drop at (view_steps plan.now.steps.items)) }
{
    match plan.steps[at] {
        Step::Loop(node, _) => node,
        _ => unreachable!(),
    }
}
