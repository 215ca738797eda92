//! The calls on vectors of numbers and of truths.

ghost use Rattle.std.specs.Prelude.{◌≡◌, IfOk, IfSome};
ghost use Rattle.weld_data.specs.Kind.{IsInteger};
ghost use Rattle.weld_data.specs.Operation.{start_of};
ghost use Rattle.weld_data.specs.Value.{number};
ghost use Rattle.weld_data.specs.View.{view_val};
ghost use Rattle.weld_data.specs.Wrapped.{wrapped};
ghost use Rattle.weld_tree.specs.TypeTree.{scalar, vec};
ghost use Rattle.weld_tree.specs.HasValue.{HasValue};
ghost use Rattle.weld_builders.specs.Outcome.{map_out};
ghost use Rattle.weld_builders.specs.Range.{AllInRange};
ghost use Rattle.weld_calls.specs.Folds.{combined_all};
ghost use Rattle.weld_calls.specs.CallTypes.{IsArithmetic, truth_type};
ghost use Rattle.weld_calls.specs.Lists.{numbers, truths, dot as dot_list};
ghost use Rattle.weld_calls.specs.CallMeaning.{place_by_place, scale_meaning, compare_meaning, count_meaning, where_meaning};
ghost use Rattle.weld_eager.specs.Reading.{IsFaultOr};

use crate::make::{truth_vector_of, vector_of};
use crate::numbers::{chosen, compared, count_true, elementwise, scaled, total};
use crate::read::{number_of, numbers_as, truths_of};
use std::alloc::{AllocError, Global};
use weld_data::{BinOp, Kind, MergeOp, Num, Val};
use weld_eval::values::whole_number;

/// The operator's answers, place by place; none where there is a fault.
#[tactic(auto, using(crate::proofs::Answering::vector_or_fault))]
pub fn arithmetic(
    alloc: Global,
    op: BinOp,
    kind: Kind,
    v: &Val,
    w: &Val,
) -> Result<Option<Val>, AllocError>
    requires integer { IsInteger kind }
    requires operator { IsArithmetic op }
    requires left { HasValue (vec (scalar kind)) (view_val v.now) }
    requires right { HasValue (vec (scalar kind)) (view_val w.now) }
    ensures { IfOk result (λ r. IsFaultOr r view_val (place_by_place op kind (view_val v.now)
        (view_val w.now))) }
{
    let xs = numbers_as(alloc, kind, v)?;
    let ys = numbers_as(alloc, kind, w)?;
    match elementwise(alloc, op, kind, &xs, &ys)? {
        Some(zs) => Ok(Some(vector_of(alloc, kind, &zs)?)),
        None => Ok(None),
    }
}

/// Each number times another.
pub fn scale(alloc: Global, kind: Kind, v: &Val, s: &Val) -> Result<Val, AllocError>
    requires integer { IsInteger kind }
    requires vector { HasValue (vec (scalar kind)) (view_val v.now) }
    requires number { HasValue (scalar kind) (view_val s.now) }
    ensures { IfOk result (λ r. view_val r ≡ scale_meaning kind (view_val v.now) (view_val s.now)) }
{
    let xs = numbers_as(alloc, kind, v)?;
    let zs = scaled(alloc, kind, &xs, number_of(kind, s))?;
    vector_of(alloc, kind, &zs)
}

/// Whether each number compares so with another.
pub fn compare(alloc: Global, op: BinOp, kind: Kind, v: &Val, s: &Val) -> Result<Val, AllocError>
    requires vector { HasValue (vec (scalar kind)) (view_val v.now) }
    requires number { HasValue (scalar kind) (view_val s.now) }
    ensures { IfOk result (λ r. view_val r ≡ compare_meaning op (view_val v.now) (view_val s.now)) }
{
    let xs = numbers_as(alloc, kind, v)?;
    let bs = compared(alloc, op, &xs, number_of(kind, s))?;
    Ok(truth_vector_of(bs))
}

/// At each place the first of two numbers where the mark is true, else the second; none where there is
/// a fault.
#[tactic(auto, using(crate::proofs::Answering::chosen_or_fault))]
pub fn where_(
    alloc: Global,
    kind: Kind,
    m: &Val,
    v: &Val,
    w: &Val,
) -> Result<Option<Val>, AllocError>
    requires marks { HasValue (vec truth_type) (view_val m.now) }
    requires left { HasValue (vec (scalar kind)) (view_val v.now) }
    requires right { HasValue (vec (scalar kind)) (view_val w.now) }
    ensures { IfOk result (λ r. IsFaultOr r view_val (where_meaning kind (view_val m.now)
        (view_val v.now) (view_val w.now))) }
{
    let marks = truths_of(alloc, m)?;
    let xs = numbers_as(alloc, kind, v)?;
    let ys = numbers_as(alloc, kind, w)?;
    match chosen(alloc, kind, &marks, &xs, &ys)? {
        Some(zs) => Ok(Some(vector_of(alloc, kind, &zs)?)),
        None => Ok(None),
    }
}

/// The wrapped sum of the products, place by place; none where there are more of one than of the other.
#[tactic(auto, using(crate::proofs::Answering::dot_there, crate::proofs::Answering::dot_fault))]
pub fn dot_of(
    alloc: Global,
    kind: Kind,
    xs: &[i128],
    ys: &[i128],
) -> Result<Option<Num>, AllocError>
    requires integer { IsInteger kind }
    requires left { AllInRange kind xs.now }
    requires right { AllInRange kind ys.now }
    ensures value { IfOk result (λ r. IsFaultOr r (λ n. n.value) (dot_list kind xs.now ys.now)) }
    ensures kind { IfOk result (λ r. IfSome r (λ n. n.kind ≡ kind)) }
{
    match elementwise(alloc, BinOp::Mul, kind, xs, ys)? {
        Some(products) => Ok(Some(total(MergeOp::Add, kind, &products))),
        None => Ok(None),
    }
}

/// The sum of the products of two vectors' numbers, place by place. None is a fault: they aren't of one length.
#[tactic(auto, using(crate::proofs::Answering::dot_or_fault))]
pub fn dot(alloc: Global, kind: Kind, v: &Val, w: &Val) -> Result<Option<Val>, AllocError>
    requires integer { IsInteger kind }
    requires left { HasValue (vec (scalar kind)) (view_val v.now) }
    requires right { HasValue (vec (scalar kind)) (view_val w.now) }
    ensures { IfOk result (λ r. IsFaultOr r view_val (map_out (number kind)
        (dot_list kind (numbers (view_val v.now)) (numbers (view_val w.now))))) }
{
    let xs = numbers_as(alloc, kind, v)?;
    let ys = numbers_as(alloc, kind, w)?;
    match dot_of(alloc, kind, &xs, &ys)? {
        Some(number) => Ok(Some(Val::Num(number))),
        None => Ok(None),
    }
}

/// All numbers combined, from the number that a builder of the operator starts with.
pub fn reduce(alloc: Global, op: MergeOp, kind: Kind, v: &Val) -> Result<Val, AllocError>
    requires integer { IsInteger kind }
    requires vector { HasValue (vec (scalar kind)) (view_val v.now) }
    ensures { IfOk result (λ r. view_val r ≡ number kind
        (combined_all op kind (start_of op kind) (numbers (view_val v.now)))) }
{
    let xs = numbers_as(alloc, kind, v)?;
    Ok(Val::Num(total(op, kind, &xs)))
}

/// How many are true.
pub fn count(alloc: Global, m: &Val) -> Result<Val, AllocError>
    requires { HasValue (vec truth_type) (view_val m.now) }
    ensures { IfOk result (λ r. view_val r ≡ count_meaning (view_val m.now)) }
{
    let marks = truths_of(alloc, m)?;
    Ok(Val::Num(whole_number(count_true(&marks))))
}
