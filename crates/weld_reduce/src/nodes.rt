//! Nodes of trees, of which no type is noted yet.
ghost use Rattle.std.specs.Prelude.{◌≡◌, IfOk};
ghost use Rattle.weld_tree.specs.ExprTree as trees;
ghost use Rattle.weld_tree.specs.ExprTree.{pack_exprs};
ghost use Rattle.weld_tree.specs.ExprView.{view_leaf, view_one, view_two, view_three, view_many};
ghost use Rattle.weld_reduce.specs.Forms.{at};

use std::alloc::{AllocError, Global};
use weld_tree::{
    Binder, Expr, Exprs, Form, Known, LeafForm, ManyForm, OneForm, Place, ThreeForm, TwoForm,
};

/// A node without parts.
#[inline(always)]
pub fn leaf(alloc: Global, place: Place, leaf: LeafForm) -> Result<Box<Expr>, AllocError>
    ensures { IfOk result (λ e. e.value ≡ trees.leaf (at place) (view_leaf leaf)) }
{
    Ok(Box::new(
        alloc,
        Expr {
            form: Form::Leaf(leaf),
            place,
            ty: Known::Blank,
        },
    )?)
}

/// A node of one part.
pub fn one(
    alloc: Global,
    place: Place,
    form: OneForm,
    e: Box<Expr>,
) -> Result<Box<Expr>, AllocError>
    ensures { IfOk result (λ node. node.value ≡ trees.one (at place) (view_one form) e.value) }
{
    Ok(Box::new(
        alloc,
        Expr {
            form: Form::One(form, e),
            place,
            ty: Known::Blank,
        },
    )?)
}

/// A node of two parts.
pub fn two(
    alloc: Global,
    place: Place,
    form: TwoForm,
    e: Box<Expr>,
    f: Box<Expr>,
) -> Result<Box<Expr>, AllocError>
    ensures { IfOk result
        (λ node. node.value ≡ trees.two (at place) (view_two form) e.value f.value) }
{
    Ok(Box::new(
        alloc,
        Expr {
            form: Form::Two(form, e, f),
            place,
            ty: Known::Blank,
        },
    )?)
}

/// A node of three parts.
pub fn three(
    alloc: Global,
    place: Place,
    form: ThreeForm,
    e: Box<Expr>,
    f: Box<Expr>,
    g: Box<Expr>,
) -> Result<Box<Expr>, AllocError>
    ensures { IfOk result
        (λ node. node.value ≡ trees.three (at place) (view_three form) e.value f.value g.value) }
{
    Ok(Box::new(
        alloc,
        Expr {
            form: Form::Three(form, e, f, g),
            place,
            ty: Known::Blank,
        },
    )?)
}

/// A node of any number of parts.
pub fn many(
    alloc: Global,
    place: Place,
    form: ManyForm,
    parts: Exprs,
) -> Result<Box<Expr>, AllocError>
    ensures { IfOk result
        (λ node. node.value ≡ trees.many (at place) (view_many form) (pack_exprs parts)) }
{
    Ok(Box::new(
        alloc,
        Expr {
            form: Form::Many(form, parts),
            place,
            ty: Known::Blank,
        },
    )?)
}

/// A `let`.
pub fn let_in(
    alloc: Global,
    place: Place,
    binder: Binder,
    value: Box<Expr>,
    body: Box<Expr>,
) -> Result<Box<Expr>, AllocError>
    ensures { IfOk result
        (λ node. node.value ≡ trees.let_in (at place) binder value.value body.value) }
{
    Ok(Box::new(
        alloc,
        Expr {
            form: Form::Let(binder, value, body),
            place,
            ty: Known::Blank,
        },
    )?)
}

/// An `iterate`.
pub fn iterate(
    alloc: Global,
    place: Place,
    state: Box<Expr>,
    binder: Binder,
    body: Box<Expr>,
) -> Result<Box<Expr>, AllocError>
    ensures { IfOk result
        (λ node. node.value ≡ trees.iterate (at place) state.value binder body.value) }
{
    Ok(Box::new(
        alloc,
        Expr {
            form: Form::Iterate(state, binder, body),
            place,
            ty: Known::Blank,
        },
    )?)
}
