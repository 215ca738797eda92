//! The walk.

ghost use Rattle.std.specs.Prelude.{◌≡◌, ◌||◌, IfOk, map};
ghost use Rattle.weld_tree.specs.ExprTree.{At, pack_exprs, pack_legs};
ghost use Rattle.weld_tree.specs.ExprView.{view_form, view_leg};
ghost use Rattle.weld_rewriting.specs.Sweep.{swept, all_swept, leg_swept, legs_swept, parts_swept, moves, some_move, leg_moves, legs_move, parts_move};

use crate::sweep::rule::Rule;
use std::alloc::{AllocError, Global};
use weld_tree::{Expr, Exprs, Form, Leg, Legs};

/// Tries the rule at each node of the expression, the parts of a node before it, in place, and
/// answers whether it matched at one. It fails for want of memory alone; the expression may be
/// anything then.
#[cycle(sweep)]
pub fn sweep<R: Rule>(alloc: Global, rule: &R, e: &mut Expr) -> Result<bool, AllocError>
    ensures matched { IfOk result (λ matched. matched ≡ moves (R.rule rule.now) e.old) }
    ensures swept { IfOk result (λ _. e.new ≡ swept (R.rule rule.now) e.old) }
{
    let within = sweep_parts(alloc, rule, &mut e.form)?;
    let here = rule.try_at(alloc, e)?;
    Ok(within || here)
}

#[cycle(sweep)]
fn sweep_parts<R: Rule>(alloc: Global, rule: &R, form: &mut Form) -> Result<bool, AllocError>
    ensures matched { IfOk result (λ matched.
        (at : At) → matched ≡ parts_move (R.rule rule.now) (view_form form.old at)) }
    ensures swept { IfOk result (λ _.
        (at : At) → view_form form.new at ≡ parts_swept (R.rule rule.now) (view_form form.old at)) }
{
    match form {
        Form::Leaf(_) => Ok(false),
        Form::One(_, part) => sweep(alloc, rule, part),
        Form::Two(_, first, second) => sweep_two(alloc, rule, first, second),
        Form::Let(_, value, body) => sweep_two(alloc, rule, value, body),
        Form::Iterate(state, _, body) => sweep_two(alloc, rule, state, body),
        Form::Three(_, first, second, third) => sweep_three(alloc, rule, first, second, third),
        Form::Many(_, parts) => sweep_all(alloc, rule, parts),
        Form::For(legs, builder, _, _, _, body) => sweep_loop(alloc, rule, legs, builder, body),
    }
}

#[cycle(sweep)]
fn sweep_two<R: Rule>(
    alloc: Global,
    rule: &R,
    first: &mut Expr,
    second: &mut Expr,
) -> Result<bool, AllocError>
    ensures matched { IfOk result (λ matched.
        matched ≡ (moves (R.rule rule.now) first.old || moves (R.rule rule.now) second.old)) }
    ensures first { IfOk result (λ _. first.new ≡ swept (R.rule rule.now) first.old) }
    ensures second { IfOk result (λ _. second.new ≡ swept (R.rule rule.now) second.old) }
{
    let one = sweep(alloc, rule, first)?;
    let other = sweep(alloc, rule, second)?;
    Ok(one || other)
}

#[cycle(sweep)]
fn sweep_three<R: Rule>(
    alloc: Global,
    rule: &R,
    first: &mut Expr,
    second: &mut Expr,
    third: &mut Expr,
) -> Result<bool, AllocError>
    ensures matched { IfOk result (λ matched.
        matched ≡ (moves (R.rule rule.now) first.old || moves (R.rule rule.now) second.old
        || moves (R.rule rule.now) third.old)) }
    ensures first { IfOk result (λ _. first.new ≡ swept (R.rule rule.now) first.old) }
    ensures second { IfOk result (λ _. second.new ≡ swept (R.rule rule.now) second.old) }
    ensures third { IfOk result (λ _. third.new ≡ swept (R.rule rule.now) third.old) }
{
    let one = sweep_two(alloc, rule, first, second)?;
    let other = sweep(alloc, rule, third)?;
    Ok(one || other)
}

#[cycle(sweep)]
fn sweep_loop<R: Rule>(
    alloc: Global,
    rule: &R,
    legs: &mut Legs,
    builder: &mut Expr,
    body: &mut Expr,
) -> Result<bool, AllocError>
    ensures matched { IfOk result (λ matched.
        matched ≡ (legs_move (R.rule rule.now) (pack_legs legs.old)
        || moves (R.rule rule.now) builder.old || moves (R.rule rule.now) body.old)) }
    ensures legs { IfOk result (λ _.
        pack_legs legs.new ≡ legs_swept (R.rule rule.now) (pack_legs legs.old)) }
    ensures builder { IfOk result (λ _. builder.new ≡ swept (R.rule rule.now) builder.old) }
    ensures body { IfOk result (λ _. body.new ≡ swept (R.rule rule.now) body.old) }
{
    let before = sweep_legs(alloc, rule, legs)?;
    let one = sweep(alloc, rule, builder)?;
    let other = sweep(alloc, rule, body)?;
    Ok(before || one || other)
}

#[cycle(sweep)]
fn sweep_all<R: Rule>(alloc: Global, rule: &R, parts: &mut Exprs) -> Result<bool, AllocError>
    ensures matched { IfOk result (λ matched.
        matched ≡ some_move (R.rule rule.now) (pack_exprs parts.old)) }
    ensures swept { IfOk result (λ _.
        pack_exprs parts.new ≡ all_swept (R.rule rule.now) (pack_exprs parts.old)) }
{
    sweep_each(alloc, rule, parts.as_mut_slice())
}

#[cycle(sweep)]
fn sweep_each<R: Rule>(alloc: Global, rule: &R, parts: &mut [Expr]) -> Result<bool, AllocError>
    ensures matched { IfOk result (λ matched.
        matched ≡ some_move (R.rule rule.now) (pack_exprs parts.old)) }
    ensures swept { IfOk result (λ _. parts.new ≡ map (swept (R.rule rule.now)) parts.old) }
{
    let mut matched = false;
    for part in parts.iter_mut() {
        match sweep(alloc, rule, part) {
            Ok(here) => matched |= here,
            Err(error) => return Err(error),
        }
    }
    Ok(matched)
}

#[cycle(sweep)]
fn sweep_leg<R: Rule>(alloc: Global, rule: &R, leg: &mut Leg) -> Result<bool, AllocError>
    ensures matched { IfOk result (λ matched.
        matched ≡ leg_moves (R.rule rule.now) (view_leg leg.old)) }
    ensures swept { IfOk result (λ _.
        view_leg leg.new ≡ leg_swept (R.rule rule.now) (view_leg leg.old)) }
{
    match leg {
        Leg::Whole(vector) => sweep(alloc, rule, vector),
        Leg::Strided(vector, start, end, stride) => {
            let one = sweep_three(alloc, rule, vector, start, end)?;
            let other = sweep(alloc, rule, stride)?;
            Ok(one || other)
        }
    }
}

#[cycle(sweep)]
fn sweep_legs<R: Rule>(alloc: Global, rule: &R, legs: &mut Legs) -> Result<bool, AllocError>
    ensures matched { IfOk result (λ matched.
        matched ≡ legs_move (R.rule rule.now) (pack_legs legs.old)) }
    ensures swept { IfOk result (λ _.
        pack_legs legs.new ≡ legs_swept (R.rule rule.now) (pack_legs legs.old)) }
{
    sweep_each_leg(alloc, rule, legs.as_mut_slice())
}

#[cycle(sweep)]
fn sweep_each_leg<R: Rule>(alloc: Global, rule: &R, legs: &mut [Leg]) -> Result<bool, AllocError>
    ensures matched { IfOk result (λ matched.
        matched ≡ legs_move (R.rule rule.now) (pack_legs (map view_leg legs.old))) }
    ensures swept { IfOk result (λ _.
        map view_leg legs.new ≡ map (leg_swept (R.rule rule.now)) (map view_leg legs.old)) }
{
    let mut matched = false;
    for leg in legs.iter_mut() {
        match sweep_leg(alloc, rule, leg) {
            Ok(here) => matched |= here,
            Err(error) => return Err(error),
        }
    }
    Ok(matched)
}
