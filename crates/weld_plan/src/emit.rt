//! The steps of an expression, one form after another.

ghost use Rattle.std.specs.Prelude.{◌≡◌, ◌+◌, ◌<◌, ◌^◌, ◌++◌, ◌∷◌, [], map, IfOk, OnOk};
ghost use Rattle.weld_tree.specs.ExprTree.{pack_exprs, pack_legs};
ghost use Rattle.weld_tree.specs.ExprView.{view_leg, view_two, view_three};
ghost use Rattle.weld_tree.specs.Program.{loops, loops_in, loops_in_leg, loops_in_legs};
ghost use Rattle.weld_plan.specs.PlanView.{view_step, view_steps};
ghost use Rattle.weld_plan.specs.StepTree.{steps_of, all_steps, leg_steps, legs_steps, two_steps, three_steps, arms_steps, bind, unbind, stride};

use crate::path::is_path;
use crate::step::Step;
use std::alloc::{AllocError, Global};
use weld_meaning::LoopId;
use weld_tree::{Expr, Form, Leg, Sym, ThreeForm, TwoForm};

/// One step more.
fn push<'a>(steps: &mut Vec<Step<'a>>, step: Step<'a>) -> Result<(), AllocError>
    ensures { OnOk result (view_steps steps.new.items ≡ view_steps steps.old.items
        ++ view_step step.entry ∷ []) }
{
    steps.push(step)?;
    Ok(())
}

/// A jump over these steps, and then they.
fn push_over<'a>(
    steps: &mut Vec<Step<'a>>,
    jump: Step<'a>,
    over: &[Step<'a>],
) -> Result<(), AllocError>
    ensures { OnOk result (view_steps steps.new.items ≡ view_steps steps.old.items
        ++ view_step jump.entry ∷ view_steps over.now) }
{
    steps.push(jump)?;
    steps.extend_from_slice(over)?;
    Ok(())
}

/// The number of the first loop behind an expression whose first loop has that number. It takes no memory.
fn past(e: &Expr, base: u32) -> u32
    requires { base + loops e.now < 2 ^ 32 }
    ensures { result ≡ base + loops e.now }
{
    base + e.loops() as u32
}

/// The number of the first loop behind a leg. It takes no memory.
fn past_leg(leg: &Leg, base: u32) -> u32
    requires { base + loops_in_leg (view_leg leg.now) < 2 ^ 32 }
    ensures { result ≡ base + loops_in_leg (view_leg leg.now) }
{
    match leg {
        Leg::Whole(e) => past(e, base),
        Leg::Strided(e, start, end, stride) => {
            past(stride, past(end, past(start, past(e, base))))
        }
    }
}

/// The steps of an expression whose first loop has that number in the text.
#[cycle(add)]
pub(crate) fn add<'a>(
    e: &'a Expr,
    base: u32,
    steps: &mut Vec<Step<'a>>,
    alloc: Global,
) -> Result<(), AllocError>
    requires { base + loops e.now < 2 ^ 32 }
    ensures { OnOk result (view_steps steps.new.items ≡ view_steps steps.old.items
        ++ steps_of e.now base) }
{
    if e.loops() == 0 {
        return push(steps, Step::Compute(e));
    }
    match &e.form {
        Form::Leaf(_) => push(steps, Step::Compute(e)),
        Form::One(form, part) => {
            add(part, base, steps, alloc)?;
            push(steps, Step::One(form))
        }
        Form::Two(form, first, second) => add_two(first, second, *form, base, steps, alloc),
        Form::Three(form, first, second, third) => {
            add_three(first, second, third, *form, base, steps, alloc)
        }
        Form::Many(form, parts) => {
            let parts = parts.as_slice();
            add_all(parts, base, steps, alloc)?;
            push(steps, Step::Many(*form, parts.len()))
        }
        Form::Let(binder, value, body) => add_let(value, body, binder.sym, base, steps, alloc),
        Form::For(legs, start, _, _, _, _) => {
            let after = add_legs(legs.as_slice(), base + 1, steps, alloc)?;
            add(start, after, steps, alloc)?;
            push(steps, Step::Loop(e, LoopId(base)))
        }
        Form::Iterate(state, _, _) => {
            add(state, base, steps, alloc)?;
            push(steps, Step::Turns(e))
        }
    }
}

/// The steps of a node of two parts.
#[cycle(add)]
fn add_two<'a>(
    first: &'a Expr,
    second: &'a Expr,
    form: TwoForm,
    base: u32,
    steps: &mut Vec<Step<'a>>,
    alloc: Global,
) -> Result<(), AllocError>
    requires { base + (loops first.now + loops second.now) < 2 ^ 32 }
    ensures { OnOk result (view_steps steps.new.items ≡ view_steps steps.old.items
        ++ two_steps (view_two form) (steps_of first.now base)
        (steps_of second.now (base + loops first.now))) }
{
    add(first, base, steps, alloc)?;
    match form {
        TwoForm::And | TwoForm::Or => {
            let mut arm = Vec::new(alloc);
            add(second, past(first, base), &mut arm, alloc)?;
            push_over(steps, Step::Decide(form, arm.len()), &arm)
        }
        TwoForm::Binary(_) | TwoForm::LookUp | TwoForm::KeyExists | TwoForm::Merge => {
            add(second, past(first, base), steps, alloc)?;
            push(steps, Step::Two(form))
        }
    }
}

/// The steps of a node of three parts.
#[cycle(add)]
fn add_three<'a>(
    first: &'a Expr,
    second: &'a Expr,
    third: &'a Expr,
    form: ThreeForm,
    base: u32,
    steps: &mut Vec<Step<'a>>,
    alloc: Global,
) -> Result<(), AllocError>
    requires { base + (loops first.now + loops second.now + loops third.now) < 2 ^ 32 }
    ensures { OnOk result (view_steps steps.new.items ≡ view_steps steps.old.items
        ++ three_steps (view_three form) (steps_of first.now base)
        (steps_of second.now (base + loops first.now)) (steps_of third.now
        (base + loops first.now + loops second.now))) }
{
    add(first, base, steps, alloc)?;
    let middle = past(first, base);
    match form {
        ThreeForm::If => add_arms(second, third, middle, steps, alloc),
        ThreeForm::Select | ThreeForm::Slice => {
            add(second, middle, steps, alloc)?;
            add(third, past(second, middle), steps, alloc)?;
            push(steps, Step::Three(form))
        }
    }
}

/// The steps of the arms of an `if`, of which one is jumped over.
#[cycle(add)]
fn add_arms<'a>(
    then: &'a Expr,
    otherwise: &'a Expr,
    base: u32,
    steps: &mut Vec<Step<'a>>,
    alloc: Global,
) -> Result<(), AllocError>
    requires { base + (loops then.now + loops otherwise.now) < 2 ^ 32 }
    ensures { OnOk result (view_steps steps.new.items ≡ view_steps steps.old.items
        ++ arms_steps (steps_of then.now base) (steps_of otherwise.now (base + loops then.now))) }
{
    let mut first = Vec::new(alloc);
    add(then, base, &mut first, alloc)?;
    let mut second = Vec::new(alloc);
    add(otherwise, past(then, base), &mut second, alloc)?;
    push_over(steps, Step::Unless(first.len() + 1), &first)?;
    push_over(steps, Step::Skip(second.len()), &second)
}

/// The steps of a `let`.
#[cycle(add)]
fn add_let<'a>(
    value: &'a Expr,
    body: &'a Expr,
    name: Sym,
    base: u32,
    steps: &mut Vec<Step<'a>>,
    alloc: Global,
) -> Result<(), AllocError>
    requires { base + (loops value.now + loops body.now) < 2 ^ 32 }
    ensures { OnOk result (view_steps steps.new.items ≡ view_steps steps.old.items
        ++ (steps_of value.now base ++ bind name.0 ∷ (steps_of body.now (base + loops value.now)
        ++ unbind ∷ []))) }
{
    add(value, base, steps, alloc)?;
    push(steps, Step::Bind(name))?;
    add(body, past(value, base), steps, alloc)?;
    push(steps, Step::Unbind)
}

/// The steps of the parts of a vector or a struct, those of the last part first.
#[cycle(add)]
fn add_all<'a>(
    parts: &'a [Expr],
    base: u32,
    steps: &mut Vec<Step<'a>>,
    alloc: Global,
) -> Result<(), AllocError>
    requires { base + loops_in (pack_exprs parts.now) < 2 ^ 32 }
    ensures { OnOk result (view_steps steps.new.items ≡ view_steps steps.old.items
        ++ all_steps (pack_exprs parts.now) base) }
{
    match parts.split_first() {
        None => Ok(()),
        Some((first, rest)) => {
            add_all(rest, past(first, base), steps, alloc)?;
            add(first, base, steps, alloc)
        }
    }
}

/// The steps of the legs of a loop, those of the last leg first; it answers the number of the first loop behind them.
#[cycle(add)]
fn add_legs<'a>(
    legs: &'a [Leg],
    base: u32,
    steps: &mut Vec<Step<'a>>,
    alloc: Global,
) -> Result<u32, AllocError>
    requires { base + loops_in_legs (pack_legs (map view_leg legs.now)) < 2 ^ 32 }
    ensures steps { OnOk result (view_steps steps.new.items
        ≡ view_steps steps.old.items ++ legs_steps (pack_legs (map view_leg legs.now)) base) }
    ensures after { IfOk result (λ after. after ≡ base + loops_in_legs
        (pack_legs (map view_leg legs.now))) }
{
    match legs.split_first() {
        None => Ok(base),
        Some((first, rest)) => {
            let after = add_legs(rest, past_leg(first, base), steps, alloc)?;
            add_leg(first, base, steps, alloc)?;
            Ok(after)
        }
    }
}

/// The steps of one leg, which there are none of where its vector stands somewhere already.
#[cycle(add)]
fn add_leg<'a>(
    leg: &'a Leg,
    base: u32,
    steps: &mut Vec<Step<'a>>,
    alloc: Global,
) -> Result<(), AllocError>
    requires { base + loops_in_leg (view_leg leg.now) < 2 ^ 32 }
    ensures { OnOk result (view_steps steps.new.items ≡ view_steps steps.old.items
        ++ leg_steps (view_leg leg.now) base) }
{
    match leg {
        Leg::Whole(e) => {
            if is_path(e) {
                Ok(())
            } else {
                add(e, base, steps, alloc)
            }
        }
        Leg::Strided(e, start, end, stride) => {
            add(e, base, steps, alloc)?;
            let base = past(e, base);
            add(start, base, steps, alloc)?;
            let base = past(start, base);
            add(end, base, steps, alloc)?;
            add(stride, past(end, base), steps, alloc)?;
            push(steps, Step::Stride)
        }
    }
}
