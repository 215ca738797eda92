//! The bodies of the calls' programs that no other call has.
ghost use Rattle.std.specs.Prelude.{◌≡◌, List, [], IfOk};
ghost use Rattle.weld_tree.specs.TypeTree.{TypeTree};
ghost use Rattle.weld_calls.specs.CallTypes.{argument, item};
ghost use Rattle.weld_calls.specs.declared.call.Call.TheVariants as calls;
ghost use Rattle.weld_calls.specs.CallPrograms.{body_of as plain_body};

use crate::fragments::loops::{combined, gathered, mapped, merging};
use crate::fragments::shapes::dotted;
use crate::fragments::trees::{
    counted, field_of, fresh_builder, literal, placeless, three_of, two_of, use_of,
};
use std::alloc::{AllocError, Global};
use weld_data::{Kind, MergeOp};
use weld_tree::{BuildTy, Expr, Form, OneForm, ThreeForm, TwoForm, Ty};

/// The elements of the second parameter where the first is true, of the third where it is false.
pub(crate) fn where_body(alloc: Global, ty: Ty) -> Result<Box<Expr>, AllocError>
    ensures { IfOk result (λ e. (ts : List TypeTree) → ty ≡ item (argument 1 ts)
        → e.value ≡ plain_body calls.Where ts) }
{
    let mask = field_of(alloc, 0, 5)?;
    let one = field_of(alloc, 1, 5)?;
    let other = field_of(alloc, 2, 5)?;
    let item = three_of(alloc, ThreeForm::Select, mask, one, other)?;
    mapped(alloc, &[0, 1, 2], ty, 3, item)
}

/// The elements of the first parameter at the places of the second.
pub(crate) fn take_body(alloc: Global, ty: Ty) -> Result<Box<Expr>, AllocError>
    ensures { IfOk result (λ e. (ts : List TypeTree) → ty ≡ item (argument 0 ts)
        → e.value ≡ plain_body calls.Take ts) }
{
    let vector = use_of(alloc, 0)?;
    let place = use_of(alloc, 4)?;
    let item = two_of(alloc, TwoForm::LookUp, vector, place)?;
    mapped(alloc, &[1], ty, 2, item)
}

/// The dot of each row of the first parameter with the second.
pub(crate) fn rows_dot_body(alloc: Global, ty: Ty) -> Result<Box<Expr>, AllocError>
    ensures { IfOk result (λ e. (ts : List TypeTree) → ty ≡ item (argument 1 ts)
        → e.value ≡ plain_body calls.RowsDot ts) }
{
    let item = dotted(alloc, 4, 1, ty.copy(alloc)?, 5)?;
    mapped(alloc, &[0], ty, 2, item)
}

/// How many elements are true.
pub(crate) fn count_body(alloc: Global) -> Result<Box<Expr>, AllocError>
    ensures { IfOk result (λ e. e.value ≡ plain_body calls.Count []) }
{
    let truth = use_of(alloc, 3)?;
    let one = literal(alloc, 1)?;
    let none = literal(alloc, 0)?;
    let item = three_of(alloc, ThreeForm::Select, truth, one, none)?;
    combined(alloc, &[0], Ty::scalar(Kind::I64), MergeOp::Add, 1, item)
}

/// How often each place stands in the first parameter, added to the second.
pub(crate) fn histogram_body(alloc: Global) -> Result<Box<Expr>, AllocError>
    ensures { IfOk result (λ e. e.value ≡ plain_body calls.Histogram []) }
{
    let cells = BuildTy::Cells(Box::new(alloc, Ty::scalar(Kind::I64))?, MergeOp::Add);
    let start = use_of(alloc, 1)?;
    let builder = placeless(alloc, Form::One(OneForm::Builder(cells), start))?;
    let item = counted(alloc, 4)?;
    merging(alloc, &[0], builder, 2, item)
}

/// For each key the sum of the numbers beside it.
pub(crate) fn group_sum_body(alloc: Global, key: Ty, ty: Ty) -> Result<Box<Expr>, AllocError>
    ensures { IfOk result (λ e. (ts : List TypeTree) → key ≡ item (argument 0 ts)
        → ty ≡ item (argument 1 ts) → e.value ≡ plain_body calls.GroupSum ts) }
{
    let key = Box::new(alloc, key)?;
    let keyed = BuildTy::Keyed(key, Box::new(alloc, ty)?, MergeOp::Add);
    let builder = fresh_builder(alloc, keyed)?;
    let item = use_of(alloc, 4)?;
    merging(alloc, &[0, 1], builder, 2, item)
}

/// For each key the list of the elements beside it.
pub(crate) fn group_list_body(alloc: Global, key: Ty, ty: Ty) -> Result<Box<Expr>, AllocError>
    ensures { IfOk result (λ e. (ts : List TypeTree) → key ≡ item (argument 0 ts)
        → ty ≡ item (argument 1 ts) → e.value ≡ plain_body calls.GroupList ts) }
{
    let key = Box::new(alloc, key)?;
    let groups = BuildTy::Groups(key, Box::new(alloc, ty)?);
    let builder = fresh_builder(alloc, groups)?;
    let item = use_of(alloc, 4)?;
    merging(alloc, &[0, 1], builder, 2, item)
}

/// For each key the number of its places.
pub(crate) fn group_count_body(alloc: Global, key: Ty) -> Result<Box<Expr>, AllocError>
    ensures { IfOk result (λ e. (ts : List TypeTree) → key ≡ item (argument 0 ts)
        → e.value ≡ plain_body calls.GroupCount ts) }
{
    let number = Box::new(alloc, Ty::scalar(Kind::I64))?;
    let keyed = BuildTy::Keyed(Box::new(alloc, key)?, number, MergeOp::Add);
    let builder = fresh_builder(alloc, keyed)?;
    let item = counted(alloc, 3)?;
    merging(alloc, &[0], builder, 1, item)
}

/// The elements of the first parameter where the second is true.
pub(crate) fn filter_body(alloc: Global, ty: Ty) -> Result<Box<Expr>, AllocError>
    ensures { IfOk result (λ e. (ts : List TypeTree) → ty ≡ item (argument 0 ts)
        → e.value ≡ plain_body calls.Filter ts) }
{
    let builder = fresh_builder(alloc, BuildTy::List(Box::new(alloc, ty)?))?;
    let mask = field_of(alloc, 1, 4)?;
    let element = field_of(alloc, 0, 4)?;
    let own = use_of(alloc, 2)?;
    let kept = two_of(alloc, TwoForm::Merge, own, element)?;
    let left = use_of(alloc, 2)?;
    let body = three_of(alloc, ThreeForm::If, mask, kept, left)?;
    gathered(alloc, &[0, 1], builder, 2, body)
}

/// So many elements of the first parameter from a place on.
pub(crate) fn slice_body(alloc: Global) -> Result<Box<Expr>, AllocError>
    ensures { IfOk result (λ e. e.value ≡ plain_body calls.Slice []) }
{
    let vector = use_of(alloc, 0)?;
    let start = use_of(alloc, 1)?;
    let count = use_of(alloc, 2)?;
    three_of(alloc, ThreeForm::Slice, vector, start, count)
}
