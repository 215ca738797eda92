//! One loop from what both start from.

ghost use Rattle.std.specs.Prelude.{◌≡◌, IfOk};
ghost use Rattle.weld_tree.specs.ExprTree.{leaf, name as name_form};
ghost use Rattle.weld_meaning.specs.Names.{put};
ghost use Rattle.weld_joining.specs.Beside.{node_of};
ghost use Rattle.weld_joining.specs.Parts.{IsBoth, body_of_second, field_let, loop_of_both, pair_at};

use crate::halves::Run;
use crate::parts::{bare, builder_field, legs_item, named, noted_type, pair_at};
use std::alloc::{AllocError, Global};
use weld_data::Kind;
use weld_substitution::put_at;
use weld_tree::{Binder, Expr, Form, Known, Place, Sym, Ty};

/// The types of that from which both start, and that of the struct of both.
#[derive(Drop)]
pub(crate) struct Both {
    pub(crate) first: Ty,
    pub(crate) second: Ty,
    pub(crate) all: Ty,
}

/// The types of that from which the loops start.
pub(crate) fn both_of(alloc: Global, first: &Run, second: &Run) -> Result<Both, AllocError>
    ensures { IfOk result (λ both. IsBoth first.now second.now both) }
{
    let first = noted_type(alloc, &first.start)?;
    let second = noted_type(alloc, &second.start)?;
    let all = Ty::pair_of(alloc, first.copy(alloc)?, second.copy(alloc)?)?;
    Ok(Both { first, second, all })
}

/// One loop from both.
pub(crate) fn loop_of_both(
    alloc: Global,
    place: Place,
    both: Both,
    first: Run,
    second: Run,
) -> Result<Box<Expr>, AllocError>
    ensures { IfOk result (λ b. b.value ≡ loop_of_both both place first second) }
{
    let pair = bare(&second.row);
    let body = body_of_second(
        alloc,
        place,
        &first,
        second.number.sym,
        pair.sym,
        second.body,
    )?;
    let Both {
        first: one_type,
        second: two_type,
        all,
    } = both;
    let one = step(
        alloc,
        place,
        &all,
        0,
        one_type,
        pair.sym,
        first.builder,
        first.body,
    )?;
    let two = step(
        alloc,
        place,
        &all,
        1,
        two_type,
        pair.sym,
        second.builder,
        body,
    )?;
    let body = pair_at(alloc, place, &all, one, two)?;
    let start = both_starts(alloc, place, &all, first.start, second.start)?;
    let pair = Box::new(alloc, pair)?;
    let number = Box::new(alloc, first.number)?;
    let row = Box::new(alloc, first.row)?;
    let made = Expr {
        form: Form::For(first.legs, start, pair, number, row, body),
        place,
        ty: Known::Is(all),
    };
    Ok(Box::new(alloc, made)?)
}

/// A body behind a `let` of its builder as the field of both.
fn step(
    alloc: Global,
    place: Place,
    all: &Ty,
    number: u32,
    ty: Ty,
    pair: Sym,
    builder: Binder,
    body: Box<Expr>,
) -> Result<Expr, AllocError>
    ensures { IfOk result (λ e. e ≡ field_let place all.now number ty pair.0 builder body.value) }
{
    let field = builder_field(alloc, place, all, number, &ty, pair)?;
    Ok(Expr {
        form: Form::Let(builder, field, body),
        place,
        ty: Known::Is(ty),
    })
}

/// The struct of that from which both start.
fn both_starts(
    alloc: Global,
    place: Place,
    all: &Ty,
    first: Box<Expr>,
    second: Box<Expr>,
) -> Result<Box<Expr>, AllocError>
    ensures { IfOk result (λ b. b.value ≡ pair_at place all.now first.value second.value) }
{
    pair_at(
        alloc,
        place,
        all,
        Box::into_inner(first),
        Box::into_inner(second),
    )
}

/// The second body, which has this row number and row, with the first loop's.
fn body_of_second(
    alloc: Global,
    place: Place,
    first: &Run,
    number: Sym,
    row: Sym,
    body: Box<Expr>,
) -> Result<Box<Expr>, AllocError>
    ensures { IfOk result (λ b. b.value ≡ body_of_second place first.now number.0 row.0
        body.value) }
{
    let item = legs_item(alloc, &first.legs)?;
    let body = with_name(alloc, place, first.row.sym, item, row, body)?;
    let ty = Ty::scalar(Kind::I64);
    with_name(alloc, place, first.number.sym, ty, number, body)
}

/// The expression with another name, of the type, for a name.
fn with_name(
    alloc: Global,
    place: Place,
    name: Sym,
    ty: Ty,
    old: Sym,
    e: Box<Expr>,
) -> Result<Box<Expr>, AllocError>
    ensures { IfOk result (λ b. b.value ≡ put old.0 (leaf (node_of place ty) (name_form name.0))
        e.value) }
{
    let name = named(place, name, ty);
    put_at(alloc, e, old, &name)
}
