//! Whether loops within a loop's body start with the list's builder.

ghost use Rattle.std.specs.Prelude.{◌≡◌, ◌∷◌, ◌&&◌, not, map, IfOk};
ghost use Rattle.weld_tree.specs.ExprTree as tree;
ghost use Rattle.weld_tree.specs.ExprTree.{pack_exprs, pack_legs};
ghost use Rattle.weld_tree.specs.ExprView.{view_leg};
ghost use Rattle.weld_meaning.specs.Origin.{origin};
ghost use Rattle.weld_handing.specs.Handing.{all_start_none, holds, leg_starts_none, legs_start_none, starts_none};

use crate::merging::holds;
use crate::source::source_of;
use std::alloc::{AllocError, Global};
use weld_linear::Scope;
use weld_tree::{Binder, Expr, Exprs, Form, Leg, Legs};

/// Whether no loop within starts with the list's builder. It fails for want of memory alone.
#[cycle(starts)]
pub fn starts_none(e: &Expr, scope: &Scope, alloc: Global) -> Result<bool, AllocError>
    ensures { IfOk result (λ b. b ≡ starts_none scope.now e.now) }
{
    match &e.form {
        Form::Leaf(_) => Ok(true),
        Form::One(_, part) => starts_none(part, scope, alloc),
        Form::Two(_, first, second) => two_start_none(first, second, scope, alloc),
        Form::Three(_, first, second, third) => {
            three_start_none(first, second, third, scope, alloc)
        }
        Form::Many(_, parts) => all_start_none(parts, scope, alloc),
        Form::Let(binder, value, body) => let_starts_none(binder, value, body, scope, alloc),
        Form::For(legs, builder, _, _, _, _) => loop_starts_none(legs, builder, scope, alloc),
        Form::Iterate(state, _, _) => starts_none(state, scope, alloc),
    }
}

#[cycle(starts)]
fn two_start_none(
    first: &Expr,
    second: &Expr,
    scope: &Scope,
    alloc: Global,
) -> Result<bool, AllocError>
    ensures { IfOk result (λ b. b
        ≡ (starts_none scope.now first.now && starts_none scope.now second.now)) }
{
    if !starts_none(first, scope, alloc)? {
        return Ok(false);
    }
    starts_none(second, scope, alloc)
}

#[cycle(starts)]
fn three_start_none(
    first: &Expr,
    second: &Expr,
    third: &Expr,
    scope: &Scope,
    alloc: Global,
) -> Result<bool, AllocError>
    ensures { IfOk result (λ b. b ≡ (starts_none scope.now first.now
        && (starts_none scope.now second.now && starts_none scope.now third.now))) }
{
    if !starts_none(first, scope, alloc)? {
        return Ok(false);
    }
    two_start_none(second, third, scope, alloc)
}

#[cycle(starts)]
fn let_starts_none(
    binder: &Binder,
    value: &Expr,
    body: &Expr,
    scope: &Scope,
    alloc: Global,
) -> Result<bool, AllocError>
    ensures { IfOk result (λ b. b ≡ (starts_none scope.now value.now
        && starts_none ((binder.now.sym.0, origin value.now scope.now) ∷ scope.now) body.now)) }
{
    if !starts_none(value, scope, alloc)? {
        return Ok(false);
    }
    let source = source_of(value, scope, alloc)?;
    let inner = Scope::bound(binder.sym, &source, &*scope);
    starts_none(body, &inner, alloc)
}

#[cycle(starts)]
fn loop_starts_none(
    legs: &Legs,
    builder: &Expr,
    scope: &Scope,
    alloc: Global,
) -> Result<bool, AllocError>
    ensures { IfOk result (λ b. b ≡ (not (holds (origin builder.now scope.now))
        && (legs_start_none scope.now (pack_legs legs.now)
        && starts_none scope.now builder.now))) }
{
    let source = source_of(builder, scope, alloc)?;
    if holds(&source) {
        return Ok(false);
    }
    if !legs_start_none(legs, scope, alloc)? {
        return Ok(false);
    }
    starts_none(builder, scope, alloc)
}

#[cycle(starts)]
#[tactic(auto, using(crate::proofs::Lists::starts_left, crate::proofs::Lists::no_starts_left))]
fn all_start_none(parts: &Exprs, scope: &Scope, alloc: Global) -> Result<bool, AllocError>
    ensures { IfOk result (λ b. b ≡ all_start_none scope.now (pack_exprs parts.now)) }
{
    for part in parts.as_slice() {
        if !starts_none(part, scope, alloc)? {
            return Ok(false);
        }
    }
    Ok(true)
}

#[cycle(starts)]
fn leg_starts_none(leg: &Leg, scope: &Scope, alloc: Global) -> Result<bool, AllocError>
    ensures { IfOk result (λ b. b ≡ leg_starts_none scope.now (view_leg leg.now)) }
{
    match leg {
        Leg::Whole(e) => starts_none(e, scope, alloc),
        Leg::Strided(e, from, to, by) => strided_starts_none(e, from, to, by, scope, alloc),
    }
}

#[cycle(starts)]
fn strided_starts_none(
    e: &Expr,
    from: &Expr,
    to: &Expr,
    by: &Expr,
    scope: &Scope,
    alloc: Global,
) -> Result<bool, AllocError>
    ensures { IfOk result (λ b. b
        ≡ leg_starts_none scope.now (tree.strided e.now from.now to.now by.now)) }
{
    if !starts_none(e, scope, alloc)? {
        return Ok(false);
    }
    three_start_none(from, to, by, scope, alloc)
}

#[cycle(starts)]
#[tactic(auto, using(crate::proofs::Lists::leg_starts_left, crate::proofs::Lists::no_leg_starts_left))]
fn legs_start_none(legs: &Legs, scope: &Scope, alloc: Global) -> Result<bool, AllocError>
    ensures { IfOk result (λ b. b ≡ legs_start_none scope.now (pack_legs legs.now)) }
{
    for leg in legs.as_slice() {
        if !leg_starts_none(leg, scope, alloc)? {
            return Ok(false);
        }
    }
    Ok(true)
}
