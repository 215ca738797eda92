//! The steps between shared loops.

ghost use Rattle.std.specs.Prelude.{◌≡◌, ◌+◌, ◌<◌, ◌^◌, length, IfOk, OnOk};
ghost use Rattle.weld_tree.specs.ExprView.{view_two};
ghost use Rattle.weld_plan.specs.PlanView.{view_step};
ghost use Rattle.weld_plan.specs.declared.plan.Plan.{Plan};
ghost use Rattle.weld_plan.specs.StepTree.{compute as compute_step, run_turns, decide as decide_step, unless as unless_step, skip as skip_step, bind as bind_step, unbind as unbind_step, run_loop};
ghost use Rattle.weld_plan.specs.Leads.{settles as settles_so};
ghost use Rattle.weld_exec.specs.Stacked.{IsWork};
ghost use Rattle.weld_exec.specs.Run.{env_inputs, rows_left, StandsAt, IsNext, StepAnswer, NextAnswer, LeavesNone, IsNoLoop};

use crate::apply::apply;
use crate::env::{Env, Next};
use crate::evaluate::{compute, take_turns};
use crate::gather::count;
use crate::stack::{drop_top, pop, push, top_truth};
use std::alloc::Global;
use weld_data::{Num, Stop, Val};
use weld_eval::thing::Owned;
use weld_meaning::LoopId;
use weld_plan::{Plan, Step};
use weld_tree::{Expr, Sym, TwoForm};

/// Whether the first part of `&&` or `||`, which is this truth value, decides alone. It takes no memory.
fn settles(form: TwoForm, truth: bool) -> bool
    ensures { result ≡ settles_so (view_two form) truth }
{
    match form {
        TwoForm::And => !truth,
        _ => truth,
    }
}

impl<'a> Env<'a> {
    /// Takes the next step, which is no loop. After a stop the run is only good to be dropped.
    pub(crate) fn take_step(&mut self, plan: &Plan, step: Step, alloc: Global) -> Result<(), Stop>
        requires stands { StandsAt plan.now self.old (view_step step) }
        requires more { self.old.at < length plan.now.steps.items }
        requires form { IsNoLoop (view_step step) }
        ensures step { StepAnswer result plan.now self.old self.new }
        ensures at { OnOk result (self.new.at ≡ self.old.at + 1) }
        ensures rows { OnOk result (rows_left plan.now self.new ≡ rows_left plan.now self.old) }
        ensures inputs { env_inputs self.new ≡ env_inputs self.old }
    {
        match step {
            Step::Compute(e) => self.compute(plan, e, alloc),
            Step::Turns(e) => self.turns(plan, e, alloc),
            Step::Decide(form, count) => self.decide(form, count, alloc),
            Step::Unless(count) => self.unless(count),
            Step::Skip(count) => self.skip(count),
            Step::Bind(name) => self.bind(name),
            Step::Unbind => self.unbind(),
            Step::Loop(_, _) => unreachable!(),
            _ => self.work(step, alloc),
        }
    }

    /// An expression without shared loops.
    fn compute(&mut self, plan: &Plan, e: &Expr, alloc: Global) -> Result<(), Stop>
        requires stands { StandsAt plan.now self.old (compute_step e.now) }
        requires more { self.old.at < length plan.now.steps.items }
        ensures step { StepAnswer result plan.now self.old self.new }
        ensures at { OnOk result (self.new.at ≡ self.old.at + 1) }
        ensures rows { OnOk result (rows_left plan.now self.new ≡ rows_left plan.now self.old) }
        ensures inputs { env_inputs self.new ≡ env_inputs self.old }
    {
        match compute(e, plan.program, self.inputs, &self.names, alloc) {
            Ok(x) => match push(&mut self.stack, x, alloc) {
                Ok(()) => {
                    self.at += 1;
                    Ok(())
                }
                Err(_) => Err(Stop::Memory),
            },
            Err(stop) => Err(stop),
        }
    }

    /// The turns of an `iterate`, from the newest thing.
    fn turns(&mut self, plan: &Plan, e: &Expr, alloc: Global) -> Result<(), Stop>
        requires stands { StandsAt plan.now self.old (run_turns e.now) }
        requires more { self.old.at < length plan.now.steps.items }
        ensures step { StepAnswer result plan.now self.old self.new }
        ensures at { OnOk result (self.new.at ≡ self.old.at + 1) }
        ensures rows { OnOk result (rows_left plan.now self.new ≡ rows_left plan.now self.old) }
        ensures inputs { env_inputs self.new ≡ env_inputs self.old }
    {
        let state = match pop(&mut self.stack) {
            Owned::Value(v) => v,
            _ => unreachable!(),
        };
        match take_turns(e, state, plan.program, self.inputs, &self.names, alloc) {
            Ok(x) => match push(&mut self.stack, x, alloc) {
                Ok(()) => {
                    self.at += 1;
                    Ok(())
                }
                Err(_) => Err(Stop::Memory),
            },
            Err(stop) => Err(stop),
        }
    }

    /// `&&` and `||`, whose first part is the newest thing: where it decides, it is the answer.
    fn decide(&mut self, form: TwoForm, count: usize, alloc: Global) -> Result<(), Stop>
        requires next { IsNext self.old (decide_step (view_two form) count) }
        requires more { self.old.at < 2 ^ 63 }
        ensures step { (p : Plan) → StandsAt p self.old (decide_step (view_two form) count)
            → StepAnswer result p self.old self.new }
        ensures at { OnOk result (self.new.at ≡ self.old.at + 1) }
        ensures rows { (p : Plan) → StandsAt p self.old (decide_step (view_two form) count)
            → OnOk result (rows_left p self.new ≡ rows_left p self.old) }
        ensures inputs { env_inputs self.new ≡ env_inputs self.old }
    {
        let truth = top_truth(&self.stack);
        drop_top(&mut self.stack);
        self.at += 1;
        if settles(form, truth) {
            self.skip = count;
            let answer = Owned::Value(Val::Num(Num::of_bool(truth)));
            match push(&mut self.stack, answer, alloc) {
                Ok(()) => Ok(()),
                Err(_) => Err(Stop::Memory),
            }
        } else {
            Ok(())
        }
    }

    /// The condition of an `if`, the newest thing: where it is false, the first arm is left out.
    fn unless(&mut self, count: usize) -> Result<(), Stop>
        requires next { IsNext self.old (unless_step count) }
        requires more { self.old.at < 2 ^ 63 }
        ensures step { (p : Plan) → StandsAt p self.old (unless_step count)
            → StepAnswer result p self.old self.new }
        ensures at { OnOk result (self.new.at ≡ self.old.at + 1) }
        ensures rows { (p : Plan) → StandsAt p self.old (unless_step count)
            → OnOk result (rows_left p self.new ≡ rows_left p self.old) }
        ensures inputs { env_inputs self.new ≡ env_inputs self.old }
    {
        let truth = top_truth(&self.stack);
        drop_top(&mut self.stack);
        self.at += 1;
        self.skip = if truth { 0 } else { count };
        Ok(())
    }

    /// Leaves out so many steps.
    fn skip(&mut self, count: usize) -> Result<(), Stop>
        requires next { IsNext self.old (skip_step count) }
        requires more { self.old.at < 2 ^ 63 }
        ensures step { (p : Plan) → StandsAt p self.old (skip_step count)
            → StepAnswer result p self.old self.new }
        ensures at { OnOk result (self.new.at ≡ self.old.at + 1) }
        ensures rows { (p : Plan) → StandsAt p self.old (skip_step count)
            → OnOk result (rows_left p self.new ≡ rows_left p self.old) }
        ensures inputs { env_inputs self.new ≡ env_inputs self.old }
    {
        self.at += 1;
        self.skip = count;
        Ok(())
    }

    /// A name for the newest thing.
    fn bind(&mut self, name: Sym) -> Result<(), Stop>
        requires next { IsNext self.old (bind_step name.0) }
        requires more { self.old.at < 2 ^ 63 }
        ensures step { (p : Plan) → StandsAt p self.old (bind_step name.0)
            → StepAnswer result p self.old self.new }
        ensures at { OnOk result (self.new.at ≡ self.old.at + 1) }
        ensures rows { (p : Plan) → StandsAt p self.old (bind_step name.0)
            → OnOk result (rows_left p self.new ≡ rows_left p self.old) }
        ensures inputs { env_inputs self.new ≡ env_inputs self.old }
    {
        let x = pop(&mut self.stack);
        match self.names.bind(name, x) {
            Ok(()) => {
                self.at += 1;
                Ok(())
            }
            Err(_) => Err(Stop::Memory),
        }
    }

    /// Without the newest name.
    fn unbind(&mut self) -> Result<(), Stop>
        requires next { IsNext self.old unbind_step }
        requires more { self.old.at < 2 ^ 63 }
        ensures step { (p : Plan) → StandsAt p self.old unbind_step
            → StepAnswer result p self.old self.new }
        ensures at { OnOk result (self.new.at ≡ self.old.at + 1) }
        ensures rows { (p : Plan) → StandsAt p self.old unbind_step
            → OnOk result (rows_left p self.new ≡ rows_left p self.old) }
        ensures inputs { env_inputs self.new ≡ env_inputs self.old }
    {
        self.names.unbind();
        self.at += 1;
        Ok(())
    }

    /// A step that works on the stack alone.
    fn work(&mut self, step: Step, alloc: Global) -> Result<(), Stop>
        requires next { IsNext self.old (view_step step) }
        requires more { self.old.at < 2 ^ 63 }
        requires form { IsWork (view_step step) }
        ensures step { (p : Plan) → StandsAt p self.old (view_step step.entry)
            → StepAnswer result p self.old self.new }
        ensures at { OnOk result (self.new.at ≡ self.old.at + 1) }
        ensures rows { (p : Plan) → StandsAt p self.old (view_step step.entry)
            → OnOk result (rows_left p self.new ≡ rows_left p self.old) }
        ensures inputs { env_inputs self.new ≡ env_inputs self.old }
    {
        match apply(step, &mut self.stack, alloc) {
            Ok(()) => {
                self.at += 1;
                Ok(())
            }
            Err(stop) => Err(stop),
        }
    }

    /// Stands at a loop, which is the next step: counts its rows. It faults where its legs aren't of one length.
    pub(crate) fn stand(
        &mut self,
        plan: &Plan,
        node: &Expr,
        at: LoopId,
        alloc: Global,
    ) -> Result<Next, Stop>
        requires { StandsAt plan.now self.old (run_loop node.now at.0) }
        ensures next { NextAnswer result plan.now self.new }
        ensures place { self.new.at ≡ self.old.at }
        ensures rows { rows_left plan.now self.new ≡ rows_left plan.now self.old }
        ensures inputs { env_inputs self.new ≡ env_inputs self.old }
        ensures none { IfOk result (LeavesNone plan.now self.new) }
    {
        match count(
            node,
            plan.program,
            self.inputs,
            &self.names,
            &self.stack,
            alloc,
        ) {
            Ok(rows) => {
                self.rows = rows;
                Ok(Next::Loop(at))
            }
            Err(stop) => Err(stop),
        }
    }
}
