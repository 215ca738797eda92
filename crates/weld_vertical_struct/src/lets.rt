//! Lets of pairs, taken apart.

ghost use Rattle.std.specs.Prelude.{◌≡◌, ℕ, true, IfOk};
ghost use Rattle.weld_tree.specs.ExprTree.{At, ExprTree};
ghost use Rattle.weld_tree.specs.ExprView.{view_form};
ghost use Rattle.weld_rewriting.specs.Sweep.{settled};
ghost use Rattle.weld_vertical_struct.specs.Parting.{bound_at, either_bound_at, has_pair, is_pair, opened, part_binder, part_bound_at, pairs_rule, within_body};

use crate::apart::{is_apart, is_unused, part};
use std::alloc::{AllocError, Global};
use weld_inline::{Lets, has_loop};
use weld_rewriting::sweep::Rule;
use weld_tree::{Binder, Expr, Form, ManyForm, Sym};

/// Whose pairs are taken apart: the builder that stands in a part of them, and a name that stands
/// nowhere in the body, for that part.
#[derive(Clone, Copy)]
pub(crate) struct Names {
    pub(crate) builder: Sym,
    pub(crate) part: Sym,
}

/// The `let` with the pair's part of that number bound by a `let` of its own around it, and the other
/// part bound in the pair's place: where the body uses the pair by its parts and no loop stands in the
/// part.
fn bind_part(
    alloc: Global,
    e: &Expr,
    name: Sym,
    number: u32,
    first: &Expr,
    other: &Expr,
) -> Result<Option<Expr>, AllocError>
    ensures { IfOk result (λ bound. bound ≡ part_bound_at name.0 number first.now other.now e.now) }
{
    let Form::Let(binder, _, body) = &e.form else {
        return Ok(None);
    };
    if !is_apart(body, binder.sym, name) || has_loop(first) {
        return Ok(None);
    }
    let mut rest = body.copy(alloc)?;
    part(alloc, &mut rest, binder.sym, name, number)?;
    let inner = Expr {
        form: Form::Let(
            without_note(binder, binder.sym),
            other.boxed_copy(alloc)?,
            Box::new(alloc, rest)?,
        ),
        place: e.place,
        ty: e.ty.copy(alloc)?,
    };
    Ok(Some(Expr {
        form: Form::Let(
            without_note(binder, name),
            first.boxed_copy(alloc)?,
            Box::new(alloc, inner)?,
        ),
        place: e.place,
        ty: e.ty.copy(alloc)?,
    }))
}

/// The binder under a number, without its note: it binds a thing of another type.
fn without_note(binder: &Binder, sym: Sym) -> Binder
    ensures { result ≡ part_binder sym.0 binder.now }
{
    Binder {
        sym,
        place: binder.place,
        note: None,
        note_place: binder.note_place,
    }
}

/// The same of the first of two parts in which the builder stands.
#[tactic(auto, using(crate::proofs::Finding::first_bound, crate::proofs::Finding::second_bound, crate::proofs::Finding::neither_bound))]
fn bind_either(
    alloc: Global,
    e: &Expr,
    names: Names,
    first: &Expr,
    second: &Expr,
) -> Result<Option<Expr>, AllocError>
    ensures { IfOk result (λ bound. bound
        ≡ either_bound_at names.builder.0 names.part.0 first.now second.now e.now) }
{
    if !is_unused(first, names.builder) {
        return bind_part(alloc, e, names.part, 0, first, second);
    }
    if !is_unused(second, names.builder) {
        return bind_part(alloc, e, names.part, 1, second, first);
    }
    Ok(None)
}

/// The same of an expression, where it is a `let` of a pair that is made there.
fn bind(alloc: Global, e: &Expr, names: Names) -> Result<Option<Expr>, AllocError>
    ensures { IfOk result (λ bound. bound ≡ bound_at names.builder.0 names.part.0 e.now) }
{
    let Form::Let(_, value, _) = &e.form else {
        return Ok(None);
    };
    match &value.form {
        Form::Many(ManyForm::Struct, parts) => match parts.as_slice() {
            [first, second] => bind_either(alloc, e, names, first, second),
            _ => Ok(None),
        },
        _ => Ok(None),
    }
}

/// Where the expression is a `let` of a pair, in a part of which the builder stands, and that part may
/// be put in its place, the other part takes the pair's place. Any other expression stays. It fails for
/// want of memory alone; the expression is as it was then.
#[tactic(auto, using(crate::proofs::Finding::nothing_bound, crate::proofs::Finding::bound_left, crate::proofs::Finding::bound_put))]
fn take_apart(alloc: Global, e: &mut Expr, names: Names) -> Result<(), AllocError>
    ensures { IfOk result (λ _. e.new ≡ settled (pairs_rule names.builder.0 names.part.0) e.old) }
{
    let Some(mut bound) = bind(alloc, &*e, names)? else {
        return Ok(());
    };
    if Lets.try_at(alloc, &mut bound)? {
        *e = bound;
    }
    Ok(())
}

/// Takes pairs apart down the body, through so many bodies of lets and arms of ifs. It fails for want
/// of memory alone; the body may be anything then.
#[cycle(opening)]
#[tactic(auto, using(crate::proofs::Depth::opened_none, crate::proofs::Depth::opened_more))]
pub(crate) fn open(alloc: Global, e: &mut Expr, names: Names, depth: u64) -> Result<(), AllocError>
    ensures { IfOk result (λ _.
        e.new ≡ opened names.builder.0 names.part.0 depth e.old) }
{
    if depth == 0 {
        return Ok(());
    }
    take_apart(alloc, e, names)?;
    open_below(alloc, &mut e.form, names, depth - 1)
}

#[cycle(opening)]
fn open_below(alloc: Global, form: &mut Form, names: Names, depth: u64) -> Result<(), AllocError>
    ensures { IfOk result (λ _. (at : At) → view_form form.new at
        ≡ within_body (opened names.builder.0 names.part.0 depth) (view_form form.old at)) }
{
    match form {
        Form::Let(_, _, body) => open(alloc, body, names, depth),
        Form::Three(_, _, first, second) => open_both(alloc, first, second, names, depth),
        _ => Ok(()),
    }
}

#[cycle(opening)]
fn open_both(
    alloc: Global,
    first: &mut Expr,
    second: &mut Expr,
    names: Names,
    depth: u64,
) -> Result<(), AllocError>
    ensures first { IfOk result (λ _.
        first.new ≡ opened names.builder.0 names.part.0 depth first.old) }
    ensures second { IfOk result (λ _.
        second.new ≡ opened names.builder.0 names.part.0 depth second.old) }
{
    open(alloc, first, names, depth)?;
    open(alloc, second, names, depth)
}

/// Whether there is a `let` of a pair down the body. It takes no memory.
pub(crate) fn has_pair(e: &Expr) -> bool
    ensures { result ≡ has_pair e.now }
{
    match &e.form {
        Form::Let(_, value, body) => is_pair(value) || has_pair(body),
        Form::Three(_, _, first, second) => has_pair(first) || has_pair(second),
        _ => false,
    }
}

fn is_pair(e: &Expr) -> bool
    ensures { result ≡ is_pair e.now }
{
    match &e.form {
        Form::Many(ManyForm::Struct, parts) => matches!(parts.as_slice(), [_, _]),
        _ => false,
    }
}
