//! What several calls have in common.
ghost use Rattle.std.specs.Prelude.{◌≡◌, ◌<◌, IfOk};
ghost use Rattle.weld_calls.specs.CallPrograms.{across as plain_across, zipped as plain_zipped, against as plain_against, reduced as plain_reduced, dotted as plain_dotted};

use crate::fragments::loops::{combined, mapped};
use crate::fragments::trees::{field_of, two_of, use_of};
use std::alloc::{AllocError, Global};
use weld_data::{BinOp, MergeOp};
use weld_tree::{Expr, TwoForm, Ty};

/// The operator between the fields of a row of two.
fn across(alloc: Global, op: BinOp, row: u32) -> Result<Box<Expr>, AllocError>
    ensures { IfOk result (λ e. e.value ≡ plain_across op row) }
{
    let left = field_of(alloc, 0, row)?;
    let right = field_of(alloc, 1, row)?;
    two_of(alloc, TwoForm::Binary(op), left, right)
}

/// The operator, place by place, on the first two parameters.
pub(crate) fn zipped(alloc: Global, op: BinOp, ty: Ty) -> Result<Box<Expr>, AllocError>
    ensures { IfOk result (λ e. e.value ≡ plain_zipped op ty) }
{
    let item = across(alloc, op, 4)?;
    mapped(alloc, &[0, 1], ty, 2, item)
}

/// The operator between each element of the first parameter and the second parameter.
pub(crate) fn against(alloc: Global, op: BinOp, ty: Ty) -> Result<Box<Expr>, AllocError>
    ensures { IfOk result (λ e. e.value ≡ plain_against op ty) }
{
    let element = use_of(alloc, 4)?;
    let number = use_of(alloc, 1)?;
    let item = two_of(alloc, TwoForm::Binary(op), element, number)?;
    mapped(alloc, &[0], ty, 2, item)
}

/// All elements of the first parameter combined.
pub(crate) fn reduced(alloc: Global, op: MergeOp, ty: Ty) -> Result<Box<Expr>, AllocError>
    ensures { IfOk result (λ e. e.value ≡ plain_reduced op ty) }
{
    let item = use_of(alloc, 3)?;
    combined(alloc, &[0], ty, op, 1, item)
}

/// The sum of the products of two vectors; the binders are numbered from `first`.
pub(crate) fn dotted(
    alloc: Global,
    left: u32,
    right: u32,
    ty: Ty,
    first: u32,
) -> Result<Box<Expr>, AllocError>
    requires { first < 100 }
    ensures { IfOk result (λ e. e.value ≡ plain_dotted left right ty first) }
{
    let item = across(alloc, BinOp::Mul, first + 2)?;
    combined(alloc, &[left, right], ty, MergeOp::Add, first, item)
}
