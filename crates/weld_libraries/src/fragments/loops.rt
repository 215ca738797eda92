//! Loops over whole vectors.
ghost use Rattle.std.specs.Prelude.{◌≡◌, ◌<◌, ◌+◌, IfOk};
ghost use Rattle.weld_tree.specs.ExprTree.{pack_legs};
ghost use Rattle.weld_calls.specs.CallPrograms.{gathered as plain_gathered, merging as plain_merging, mapped as plain_mapped, combined as plain_combined, legs_of};

use crate::fragments::trees::{fresh_builder, name_legs, new_binder, placeless, two_of, use_of};
use std::alloc::{AllocError, Global};
use weld_data::MergeOp;
use weld_tree::{BuildTy, Expr, Form, Legs, OneForm, TwoForm, Ty};

/// The result of a loop over these vectors, whose binders are numbered from `first`.
#[tactic(auto, using(crate::proofs::Legs::legs_are))]
pub(crate) fn gathered(
    alloc: Global,
    vectors: &[u32],
    builder: Box<Expr>,
    first: u32,
    body: Box<Expr>,
) -> Result<Box<Expr>, AllocError>
    requires { first < 100 }
    ensures { IfOk result (λ e. e.value ≡ plain_gathered (legs_of vectors.now) builder.value first
        (first + 1) (first + 2) body.value) }
{
    let legs = name_legs(alloc, vectors)?;
    let b = Box::new(alloc, new_binder(first, None))?;
    let n = Box::new(alloc, new_binder(first + 1, None))?;
    let x = Box::new(alloc, new_binder(first + 2, None))?;
    let all = placeless(alloc, Form::For(legs, builder, b, n, x, body))?;
    placeless(alloc, Form::One(OneForm::Finish, all))
}

/// A loop that merges an item for each row.
pub(crate) fn merging(
    alloc: Global,
    vectors: &[u32],
    builder: Box<Expr>,
    first: u32,
    item: Box<Expr>,
) -> Result<Box<Expr>, AllocError>
    requires { first < 100 }
    ensures { IfOk result (λ e. e.value ≡ plain_merging vectors.now builder.value first
        item.value) }
{
    let own = use_of(alloc, first)?;
    let body = two_of(alloc, TwoForm::Merge, own, item)?;
    gathered(alloc, vectors, builder, first, body)
}

/// A loop that makes a vector of elements of the type.
pub(crate) fn mapped(
    alloc: Global,
    vectors: &[u32],
    ty: Ty,
    first: u32,
    item: Box<Expr>,
) -> Result<Box<Expr>, AllocError>
    requires { first < 100 }
    ensures { IfOk result (λ e. e.value ≡ plain_mapped vectors.now ty first item.value) }
{
    let builder = fresh_builder(alloc, BuildTy::List(Box::new(alloc, ty)?))?;
    merging(alloc, vectors, builder, first, item)
}

/// A loop that combines numbers of the type.
pub(crate) fn combined(
    alloc: Global,
    vectors: &[u32],
    ty: Ty,
    op: MergeOp,
    first: u32,
    item: Box<Expr>,
) -> Result<Box<Expr>, AllocError>
    requires { first < 100 }
    ensures { IfOk result (λ e. e.value ≡ plain_combined vectors.now ty op first item.value) }
{
    let builder = fresh_builder(alloc, BuildTy::Total(Box::new(alloc, ty)?, op))?;
    merging(alloc, vectors, builder, first, item)
}
