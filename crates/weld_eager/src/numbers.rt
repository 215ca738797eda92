//! Numbers of one kind, added, combined and compared.

ghost use Rattle.std.specs.Prelude.{◌≡◌, if◌then◌else◌, ◌*ℤ◌, map, IfOk, IfSome};
ghost use Rattle.weld_data.specs.Kind.{IsInteger, InRange};
ghost use Rattle.weld_data.specs.Operation.{operation, start_of};
ghost use Rattle.weld_data.specs.Wrapped.{wrapped};
ghost use Rattle.weld_builders.specs.Range.{AllInRange};
ghost use Rattle.weld_calls.specs.Folds.{combined_all};
ghost use Rattle.weld_calls.specs.CallTypes.{IsArithmetic};
ghost use Rattle.weld_eager.specs.Reading.{IsFaultOr};
ghost use Rattle.weld_calls.specs.Lists.{elementwise as elementwise_list, chosen as chosen_list, compared as compared_numbers, how_many};

use std::alloc::{AllocError, Global};
use weld_data::{BinOp, Kind, MergeOp, Num, binary, combine, neutral};

/// All numbers of an integer kind combined, from the number that a builder of the operator starts with.
pub fn total(op: MergeOp, kind: Kind, xs: &[i128]) -> Num
    requires integer { IsInteger kind }
    requires in_range { AllInRange kind xs.now }
    ensures kind { result.kind ≡ kind }
    ensures value { result.value ≡ combined_all op kind (start_of op kind) xs.now }
{
    let mut value = neutral(op, kind);
    for x in xs {
        value = combine(op, kind, value, *x);
    }
    Num { kind, value }
}

/// The operator's answers, place by place; none where there are more of one than of the other, and at a
/// zero divisor.
pub fn elementwise(
    alloc: Global,
    op: BinOp,
    kind: Kind,
    xs: &[i128],
    ys: &[i128],
) -> Result<Option<Vec<i128>>, AllocError>
    requires integer { IsInteger kind }
    requires operator { IsArithmetic op }
    requires left { AllInRange kind xs.now }
    requires right { AllInRange kind ys.now }
    ensures answer { IfOk result (λ r. IsFaultOr r (λ v. v.items)
        (elementwise_list op kind xs.now ys.now)) }
    ensures in_range { IfOk result (λ r. IfSome r (λ v. AllInRange kind v.items)) }
{
    if xs.len() != ys.len() {
        return Ok(None);
    }
    let mut zs = Vec::new(alloc);
    for i in 0..xs.len() {
        let Some(z) = operated_one(op, kind, xs[i], ys[i]) else {
            return Ok(None);
        };
        zs.push(z)?;
    }
    Ok(Some(zs))
}

/// The operator's answer on two numbers of an integer kind; none at a zero divisor.
#[tactic(auto, using(crate::proofs::Combining::takes_integer, crate::proofs::Combining::arithmetic_in_range))]
fn operated_one(op: BinOp, kind: Kind, x: i128, y: i128) -> Option<i128>
    requires integer { IsInteger kind }
    requires operator { IsArithmetic op }
    requires left { InRange kind x }
    requires right { InRange kind y }
    ensures value { result ≡ operation op kind x y }
    ensures in_range { IfSome result (InRange kind) }
{
    binary(op, kind, x, y)
}

/// Each number times another, wrapped.
pub fn scaled(alloc: Global, kind: Kind, xs: &[i128], s: i128) -> Result<Vec<i128>, AllocError>
    requires integer { IsInteger kind }
    requires numbers { AllInRange kind xs.now }
    requires number { InRange kind s }
    ensures value { IfOk result (λ v. v.items ≡ map (λ x. wrapped kind (x *ℤ s)) xs.now) }
{
    let mut zs = Vec::new(alloc);
    for x in xs {
        zs.push(combine(MergeOp::Mul, kind, *x, s))?;
    }
    Ok(zs)
}

/// Whether each number compares so with another.
pub fn compared(alloc: Global, op: BinOp, xs: &[i128], s: i128) -> Result<Vec<bool>, AllocError>
    ensures { IfOk result (λ v. v.items ≡ map (λ x. compared_numbers op x s) xs.now) }
{
    xs.iter().map(|x| compared_one(op, *x, s)).collect(alloc)
}

/// Whether two numbers compare so; by an arithmetic operator no two do.
fn compared_one(op: BinOp, x: i128, y: i128) -> bool
    ensures { result ≡ compared_numbers op x y }
{
    match op {
        BinOp::Eq => x == y,
        BinOp::Ne => x != y,
        BinOp::Lt => x < y,
        BinOp::Le => x <= y,
        BinOp::Gt => x > y,
        BinOp::Ge => x >= y,
        _ => false,
    }
}

/// How many are true.
pub fn count_true(marks: &[bool]) -> usize
    ensures { result ≡ how_many (λ b. b) marks.now }
{
    marks.iter().filter(|mark| **mark).count()
}

/// At each place the first of two numbers where the mark is true, else the second; none where there are
/// more of one than of another.
pub fn chosen(
    alloc: Global,
    kind: Kind,
    marks: &[bool],
    xs: &[i128],
    ys: &[i128],
) -> Result<Option<Vec<i128>>, AllocError>
    requires left { AllInRange kind xs.now }
    requires right { AllInRange kind ys.now }
    ensures answer { IfOk result (λ r. IsFaultOr r (λ v. v.items)
        (chosen_list marks.now xs.now ys.now)) }
    ensures in_range { IfOk result (λ r. IfSome r (λ v. AllInRange kind v.items)) }
{
    if xs.len() != ys.len() {
        return Ok(None);
    }
    if marks.len() != xs.len() {
        return Ok(None);
    }
    let mut zs = Vec::new(alloc);
    for i in 0..xs.len() {
        zs.push(pick(marks[i], xs[i], ys[i]))?;
    }
    Ok(Some(zs))
}

/// The first where the mark is true, else the second.
fn pick(mark: bool, x: i128, y: i128) -> i128
    ensures { result ≡ if mark then x else y }
{
    if mark { x } else { y }
}
