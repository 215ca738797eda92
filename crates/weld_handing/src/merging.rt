//! Where a loop's body merges into its own list, and where its loops start with that.

ghost use Rattle.std.specs.Prelude.{◌≡◌, ◌+◌, ◌∷◌, ◌&&◌, min, map, if◌then◌else◌, IfOk};
ghost use Rattle.weld_tree.specs.ExprTree as tree;
ghost use Rattle.weld_tree.specs.ExprTree.{pack_exprs, pack_legs};
ghost use Rattle.weld_tree.specs.ExprView.{view_leg, view_two};
ghost use Rattle.weld_meaning.specs.Origin.{origin};
ghost use Rattle.weld_linear.specs.Sources.{pack_origins};
ghost use Rattle.weld_vertical.specs.Sinking.{is_merge};
ghost use Rattle.weld_handing.specs.Handing.{is_held, holds, some_hold};
ghost use Rattle.weld_handing.specs.Merging.{all_list_merges, always_merges, leg_list_merges, legs_list_merges, list_merges};

use crate::source::source_of;
use std::alloc::{AllocError, Global};
use weld_linear::{Scope, Source, SourceForm, Sources};
use weld_tree::{Binder, Expr, Exprs, Form, Leg, Legs, TwoForm};

/// Whether it is the list's builder itself. It takes no memory.
pub(crate) fn is_held(source: &Source) -> bool
    ensures { result ≡ is_held source.now }
{
    match &source.form {
        SourceForm::Own(_) => true,
        SourceForm::Value | SourceForm::Made | SourceForm::Outer => false,
        SourceForm::Named(_, _) | SourceForm::Struct(_) => false,
    }
}

/// Whether the list's builder stands in it. It takes no memory.
#[cycle(holds)]
pub(crate) fn holds(source: &Source) -> bool
    ensures { result ≡ holds source.now }
{
    match &source.form {
        SourceForm::Own(_) => true,
        SourceForm::Value | SourceForm::Made | SourceForm::Outer => false,
        SourceForm::Named(_, _) => false,
        SourceForm::Struct(fields) => some_hold(fields),
    }
}

#[cycle(holds)]
#[tactic(auto, using(crate::proofs::Lists::hold_left, crate::proofs::Lists::no_hold_left))]
fn some_hold(sources: &Sources) -> bool
    ensures { result ≡ some_hold (pack_origins sources.now) }
{
    for source in sources.as_slice() {
        if holds(source) {
            return true;
        }
    }
    false
}

/// Whether the form is a merge.
pub(crate) fn is_merge(two: TwoForm) -> bool
    ensures { result ≡ is_merge (view_two two) }
{
    match two {
        TwoForm::Merge => true,
        TwoForm::Binary(_) | TwoForm::And | TwoForm::Or => false,
        TwoForm::LookUp | TwoForm::KeyExists => false,
    }
}

/// At how many merges of the expression the builder is the list's, or the greatest u64 where that is
/// less. It fails for want of memory alone.
#[cycle(merges)]
pub fn list_merges(e: &Expr, scope: &Scope, alloc: Global) -> Result<u64, AllocError>
    ensures { IfOk result (λ n. n ≡ min (list_merges scope.now e.now) u64.MAX) }
{
    match &e.form {
        Form::Leaf(_) => Ok(0),
        Form::One(_, part) => list_merges(part, scope, alloc),
        Form::Two(two, first, second) => merges_in_two(*two, first, second, scope, alloc),
        Form::Three(_, first, second, third) => {
            merges_in_three(first, second, third, scope, alloc)
        }
        Form::Many(_, parts) => merges_in_all(parts, scope, alloc),
        Form::Let(binder, value, body) => merges_in_let(binder, value, body, scope, alloc),
        Form::For(legs, builder, _, _, _, _) => merges_in_loop(legs, builder, scope, alloc),
        Form::Iterate(state, _, _) => list_merges(state, scope, alloc),
    }
}

#[cycle(merges)]
fn merges_in_two(
    two: TwoForm,
    first: &Expr,
    second: &Expr,
    scope: &Scope,
    alloc: Global,
) -> Result<u64, AllocError>
    ensures { IfOk result (λ n. n
        ≡ min ((if is_merge (view_two two) && is_held (origin first.now scope.now) then 1 else 0)
        + (list_merges scope.now first.now + list_merges scope.now second.now)) u64.MAX) }
{
    let here = merges_here(two, first, scope, alloc)?;
    let before = list_merges(first, scope, alloc)?;
    let after = list_merges(second, scope, alloc)?;
    Ok(here.saturating_add(before.saturating_add(after)))
}

/// 1 where a node of two parts is a merge into the list, else 0.
fn merges_here(two: TwoForm, first: &Expr, scope: &Scope, alloc: Global) -> Result<u64, AllocError>
    ensures { IfOk result (λ n. n
        ≡ (if is_merge (view_two two) && is_held (origin first.now scope.now) then 1 else 0)) }
{
    if merges_into_list(two, first, scope, alloc)? {
        Ok(1)
    } else {
        Ok(0)
    }
}

/// Whether a node of two parts is a merge into the list.
fn merges_into_list(
    two: TwoForm,
    first: &Expr,
    scope: &Scope,
    alloc: Global,
) -> Result<bool, AllocError>
    ensures { IfOk result (λ b. b
        ≡ (is_merge (view_two two) && is_held (origin first.now scope.now))) }
{
    if !is_merge(two) {
        return Ok(false);
    }
    let source = source_of(first, scope, alloc)?;
    Ok(is_held(&source))
}

#[cycle(merges)]
fn merges_in_three(
    first: &Expr,
    second: &Expr,
    third: &Expr,
    scope: &Scope,
    alloc: Global,
) -> Result<u64, AllocError>
    ensures { IfOk result (λ n. n ≡ min (list_merges scope.now first.now
        + (list_merges scope.now second.now + list_merges scope.now third.now)) u64.MAX) }
{
    let before = list_merges(first, scope, alloc)?;
    let between = list_merges(second, scope, alloc)?;
    let after = list_merges(third, scope, alloc)?;
    Ok(before.saturating_add(between.saturating_add(after)))
}

#[cycle(merges)]
fn merges_in_let(
    binder: &Binder,
    value: &Expr,
    body: &Expr,
    scope: &Scope,
    alloc: Global,
) -> Result<u64, AllocError>
    ensures { IfOk result (λ n. n ≡ min (list_merges scope.now value.now
        + list_merges ((binder.now.sym.0, origin value.now scope.now) ∷ scope.now) body.now)
        u64.MAX) }
{
    let before = list_merges(value, scope, alloc)?;
    let source = source_of(value, scope, alloc)?;
    let inner = Scope::bound(binder.sym, &source, &*scope);
    let after = list_merges(body, &inner, alloc)?;
    Ok(before.saturating_add(after))
}

#[cycle(merges)]
fn merges_in_loop(
    legs: &Legs,
    builder: &Expr,
    scope: &Scope,
    alloc: Global,
) -> Result<u64, AllocError>
    ensures { IfOk result (λ n. n ≡ min (legs_list_merges scope.now (pack_legs legs.now)
        + list_merges scope.now builder.now) u64.MAX) }
{
    let before = merges_in_legs(legs, scope, alloc)?;
    let after = list_merges(builder, scope, alloc)?;
    Ok(before.saturating_add(after))
}

#[cycle(merges)]
#[tactic(auto, using(crate::proofs::Lists::merges_left, crate::proofs::Lists::no_merges_left))]
fn merges_in_all(parts: &Exprs, scope: &Scope, alloc: Global) -> Result<u64, AllocError>
    ensures { IfOk result (λ n. n
        ≡ min (all_list_merges scope.now (pack_exprs parts.now)) u64.MAX) }
{
    let mut sum = 0u64;
    for part in parts.as_slice() {
        sum = sum.saturating_add(list_merges(part, scope, alloc)?);
    }
    Ok(sum)
}

#[cycle(merges)]
fn merges_in_leg(leg: &Leg, scope: &Scope, alloc: Global) -> Result<u64, AllocError>
    ensures { IfOk result (λ n. n
        ≡ min (leg_list_merges scope.now (view_leg leg.now)) u64.MAX) }
{
    match leg {
        Leg::Whole(e) => list_merges(e, scope, alloc),
        Leg::Strided(e, from, to, by) => merges_in_strided(e, from, to, by, scope, alloc),
    }
}

#[cycle(merges)]
fn merges_in_strided(
    e: &Expr,
    from: &Expr,
    to: &Expr,
    by: &Expr,
    scope: &Scope,
    alloc: Global,
) -> Result<u64, AllocError>
    ensures { IfOk result (λ n. n ≡ min (leg_list_merges scope.now
        (tree.strided e.now from.now to.now by.now)) u64.MAX) }
{
    let first = list_merges(e, scope, alloc)?;
    let others = merges_in_three(from, to, by, scope, alloc)?;
    Ok(first.saturating_add(others))
}

#[cycle(merges)]
#[tactic(auto, using(crate::proofs::Lists::leg_merges_left, crate::proofs::Lists::no_leg_merges_left))]
fn merges_in_legs(legs: &Legs, scope: &Scope, alloc: Global) -> Result<u64, AllocError>
    ensures { IfOk result (λ n. n
        ≡ min (legs_list_merges scope.now (pack_legs legs.now)) u64.MAX) }
{
    let mut sum = 0u64;
    for leg in legs.as_slice() {
        sum = sum.saturating_add(merges_in_leg(leg, scope, alloc)?);
    }
    Ok(sum)
}

/// Whether it merges into the list in every row: lets, perhaps none, that end in such a merge. It
/// fails for want of memory alone.
#[cycle(always)]
pub fn always_merges(e: &Expr, scope: &Scope, alloc: Global) -> Result<bool, AllocError>
    ensures { IfOk result (λ b. b ≡ always_merges scope.now e.now) }
{
    match &e.form {
        Form::Two(two, first, _) => merges_into_list(*two, first, scope, alloc),
        Form::Let(binder, value, body) => let_always_merges(binder, value, body, scope, alloc),
        _ => Ok(false),
    }
}

#[cycle(always)]
fn let_always_merges(
    binder: &Binder,
    value: &Expr,
    body: &Expr,
    scope: &Scope,
    alloc: Global,
) -> Result<bool, AllocError>
    ensures { IfOk result (λ b. b
        ≡ always_merges ((binder.now.sym.0, origin value.now scope.now) ∷ scope.now) body.now) }
{
    let source = source_of(value, scope, alloc)?;
    let inner = Scope::bound(binder.sym, &source, &*scope);
    always_merges(body, &inner, alloc)
}
