//! The steps that work on the stack alone.

ghost use Rattle.weld_meaning.specs.Thing.{rest_of};
ghost use Rattle.weld_tree.specs.ExprView.{view_one, view_two, view_three, view_many};
ghost use Rattle.weld_eval.specs.ThingView.{things_of};
ghost use Rattle.weld_plan.specs.PlanView.{view_step};
ghost use Rattle.weld_exec.specs.Stacked.{TakesStep, after_step, StackAnswer, TakesOne, one_stack, TakesTwo, two_stack, TakesThree, three_stack, TakesMany, many_stack, TakesStride, stride_stack};

use crate::stack::{pop, put};
use std::alloc::Global;
use weld_data::Stop;
use weld_eval::thing::{Fields, Held};
use weld_eval_forms::legs::strided;
use weld_eval_forms::several::{many, push_thing};
use weld_eval_forms::triple::three;
use weld_eval_forms::twofold::two;
use weld_eval_forms::unary::one;
use weld_plan::Step;
use weld_tree::{ManyForm, OneForm, ThreeForm, TwoForm};

/// Takes a step that works on the stack alone. After a stop the stack is only good to be dropped.
pub(crate) fn apply(step: Step, stack: &mut Fields, alloc: Global) -> Result<(), Stop>
    requires { TakesStep (view_step step) (things_of stack.old) }
    ensures { StackAnswer result (after_step (view_step step.entry) (things_of stack.old))
        (things_of stack.new) }
{
    match step {
        Step::One(form) => apply_one(form, stack, alloc),
        Step::Two(form) => apply_two(form, stack, alloc),
        Step::Three(form) => apply_three(form, stack, alloc),
        Step::Many(form, count) => apply_many(form, count, stack, alloc),
        Step::Stride => apply_stride(stack, alloc),
        _ => unreachable!(),
    }
}

/// A form of one part, on the newest thing.
fn apply_one(form: &OneForm, stack: &mut Fields, alloc: Global) -> Result<(), Stop>
    requires { TakesOne (view_one form.now) (things_of stack.old) }
    ensures { StackAnswer result (one_stack (view_one form.now) (things_of stack.old))
        (things_of stack.new) }
{
    let x = pop(stack);
    match one(form, Held::Made(x), alloc) {
        Ok(y) => put(stack, y, alloc),
        Err(stop) => Err(stop),
    }
}

/// A form of two parts, of which the newest thing is the second.
fn apply_two(form: TwoForm, stack: &mut Fields, alloc: Global) -> Result<(), Stop>
    requires { TakesTwo (view_two form) (things_of stack.old) }
    ensures { StackAnswer result (two_stack (view_two form) (things_of stack.old))
        (things_of stack.new) }
{
    let y = pop(stack);
    let x = pop(stack);
    match two(form, Held::Made(x), Held::Made(y), alloc) {
        Ok(z) => put(stack, z, alloc),
        Err(stop) => Err(stop),
    }
}

/// A form of three parts, of which the newest thing is the third.
fn apply_three(form: ThreeForm, stack: &mut Fields, alloc: Global) -> Result<(), Stop>
    requires { TakesThree (view_three form) (things_of stack.old) }
    ensures { StackAnswer result (three_stack (view_three form) (things_of stack.old))
        (things_of stack.new) }
{
    let z = pop(stack);
    let y = pop(stack);
    let x = pop(stack);
    match three(form, Held::Made(x), Held::Made(y), Held::Made(z), alloc) {
        Ok(answer) => put(stack, answer, alloc),
        Err(stop) => Err(stop),
    }
}

#[tactic(auto, using(crate::proofs::Applying::gather_starts, crate::proofs::Applying::gather_something, crate::proofs::Applying::gather_on))]
/// A vector or a struct of so many of the newest things, the newest first.
fn apply_many(form: ManyForm, count: usize, stack: &mut Fields, alloc: Global) -> Result<(), Stop>
    requires { TakesMany (view_many form) count (things_of stack.old) }
    ensures { StackAnswer result (many_stack (view_many form) count (things_of stack.old))
        (things_of stack.new) }
{
    let mut things = Vec::new(alloc);
    for _place in 0..count {
        let x = pop(stack);
        match push_thing(&mut things, Held::Made(x), alloc) {
            Ok(()) => {}
            Err(_) => return Err(Stop::Memory),
        }
    }
    match many(form, things, alloc) {
        Ok(answer) => put(stack, answer, alloc),
        Err(stop) => Err(stop),
    }
}

/// The vector of a leg with bounds and a stride.
fn apply_stride(stack: &mut Fields, alloc: Global) -> Result<(), Stop>
    requires { TakesStride (things_of stack.old) }
    ensures { StackAnswer result (stride_stack (things_of stack.old)) (things_of stack.new) }
{
    let stride = pop(stack);
    let end = pop(stack);
    let start = pop(stack);
    let v = pop(stack);
    match strided(
        Held::Made(v),
        Held::Made(start),
        Held::Made(end),
        Held::Made(stride),
        alloc,
    ) {
        Ok(leg) => put(stack, leg, alloc),
        Err(stop) => Err(stop),
    }
}
