//! Expressions that stand in no text, one node each.
ghost use Rattle.std.specs.Prelude.{◌≡◌, Option, IfOk, map};
ghost use Rattle.weld_tree.specs.Blank.{blank_at};
ghost use Rattle.weld_tree.specs.ExprTree.{two, three, whole};
ghost use Rattle.weld_tree.specs.ExprView.{view_form, view_two, view_three};
ghost use Rattle.weld_tree.specs.TypeView.{view_build};
ghost use Rattle.weld_calls.specs.CallPrograms.{new_binder as plain_binder, use_of as plain_use, literal as plain_literal, field_of as plain_field, pair as plain_pair, fresh_builder as plain_builder};

use std::alloc::{AllocError, Global};
use weld_data::Kind;
use weld_tree::{
    Binder, BuildTy, Expr, Exprs, Form, Known, LeafForm, Leg, Legs, ManyForm, OneForm, Place, Sym,
    ThreeForm, TwoForm, Ty,
};

/// An expression that stands in no text.
pub(crate) fn placeless(alloc: Global, form: Form) -> Result<Box<Expr>, AllocError>
    ensures { IfOk result (λ e. e.value ≡ view_form form blank_at) }
{
    let place = Place { line: 0, column: 0 };
    Ok(Box::new(
        alloc,
        Expr {
            form,
            place,
            ty: Known::Blank,
        },
    )?)
}

/// A binder that stands in no text.
pub(crate) fn new_binder(number: u32, note: Option<Ty>) -> Binder
    ensures { result ≡ plain_binder number note }
{
    let place = Place { line: 0, column: 0 };
    Binder {
        sym: Sym(number),
        place,
        note,
        note_place: place,
    }
}

/// A use of a name.
pub(crate) fn use_of(alloc: Global, name: u32) -> Result<Box<Expr>, AllocError>
    ensures { IfOk result (λ e. e.value ≡ plain_use name) }
{
    placeless(alloc, Form::Leaf(LeafForm::Name(Sym(name))))
}

/// A number of kind i64.
pub(crate) fn literal(alloc: Global, number: u32) -> Result<Box<Expr>, AllocError>
    ensures { IfOk result (λ e. e.value ≡ plain_literal number) }
{
    placeless(
        alloc,
        Form::Leaf(LeafForm::Int(Kind::I64, i128::from(number))),
    )
}

/// A builder without a starting value.
pub(crate) fn fresh_builder(alloc: Global, builder: BuildTy) -> Result<Box<Expr>, AllocError>
    ensures { IfOk result (λ e. e.value ≡ plain_builder (view_build builder)) }
{
    placeless(alloc, Form::Leaf(LeafForm::Builder(builder)))
}

/// A field of a name, by its number from 0.
pub(crate) fn field_of(alloc: Global, number: u32, name: u32) -> Result<Box<Expr>, AllocError>
    ensures { IfOk result (λ e. e.value ≡ plain_field number (plain_use name)) }
{
    let part = use_of(alloc, name)?;
    placeless(alloc, Form::One(OneForm::Field(number), part))
}

/// A form of two parts.
pub(crate) fn two_of(
    alloc: Global,
    form: TwoForm,
    first: Box<Expr>,
    second: Box<Expr>,
) -> Result<Box<Expr>, AllocError>
    ensures { IfOk result (λ e. e.value ≡ two blank_at (view_two form) first.value second.value) }
{
    placeless(alloc, Form::Two(form, first, second))
}

/// A form of three parts.
pub(crate) fn three_of(
    alloc: Global,
    form: ThreeForm,
    first: Box<Expr>,
    second: Box<Expr>,
    third: Box<Expr>,
) -> Result<Box<Expr>, AllocError>
    ensures { IfOk result (λ e. e.value ≡ three blank_at (view_three form) first.value second.value
        third.value) }
{
    placeless(alloc, Form::Three(form, first, second, third))
}

/// The struct of a name and the number 1.
pub(crate) fn counted(alloc: Global, name: u32) -> Result<Box<Expr>, AllocError>
    ensures { IfOk result (λ e. e.value ≡ plain_pair (plain_use name) (plain_literal 1)) }
{
    let mut parts = Exprs::new(alloc);
    parts.push(Box::into_inner(use_of(alloc, name)?))?;
    parts.push(Box::into_inner(literal(alloc, 1)?))?;
    placeless(alloc, Form::Many(ManyForm::Struct, parts))
}

/// The names of whole vectors, as legs of a loop.
pub(crate) fn name_legs(alloc: Global, names: &[u32]) -> Result<Legs, AllocError>
    ensures { IfOk result (λ legs. legs ≡ map (λ s. whole (plain_use s)) names.now) }
{
    let mut legs = Legs::new(alloc);
    for name in names {
        let leg = Leg::Whole(use_of(alloc, *name)?);
        legs.push(leg)?;
    }
    Ok(legs)
}
