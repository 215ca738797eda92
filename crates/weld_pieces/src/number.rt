//! Numbers of a kind as they are kept here.

ghost use Rattle.std.specs.Prelude.{◌≡◌};
ghost use Rattle.weld_data.specs.Kind.{IsInteger, IsNarrow, InRange};
ghost use Rattle.weld_data.specs.declared.kind.Kind.TheVariants as kinds;
ghost use Rattle.weld_data.specs.Operation.{combination};
ghost use Rattle.weld_builders.specs.Range.{AllInRange};
ghost use Rattle.weld_pieces.specs.Total.{combined_all};
ghost use Rattle.weld_pieces.specs.Word.{word};

use weld_data::{Kind, MergeOp, combine};

/// Two numbers of an integer kind combined by the operator of a builder.
#[inline(always)]
pub(crate) fn combine_wide(op: MergeOp, kind: Kind, x: i128, y: i128) -> i128
    requires integer { IsInteger kind }
    requires left { InRange kind x }
    requires right { InRange kind y }
    ensures value { result ≡ combination op kind x y }
    ensures in_range { InRange kind result }
{
    match kind {
        Kind::I64 => i128::from(combine_i64(op, x as i64, y as i64)),
        _ => combine(op, kind, x, y),
    }
}

/// The same of the words that stand for them.
#[inline(always)]
pub(crate) fn combine_words(op: MergeOp, kind: Kind, x: i64, y: i64) -> i64
    requires integer { IsInteger kind }
    requires left { InRange kind (word kind x) }
    requires right { InRange kind (word kind y) }
    ensures value { word kind result ≡ combination op kind (word kind x) (word kind y) }
    ensures in_range { InRange kind (word kind result) }
{
    match kind {
        Kind::I64 => combine_i64(op, x, y),
        _ => to_word(kind, combine(op, kind, wide(kind, x), wide(kind, y))),
    }
}

/// The same of numbers that lie within an i64.
#[inline(always)]
pub(crate) fn combine_kept(op: MergeOp, kind: Kind, x: i64, y: i64) -> i64
    requires integer { IsInteger kind }
    requires narrow { IsNarrow kind }
    requires left { InRange kind x }
    requires right { InRange kind y }
    ensures value { result ≡ combination op kind x y }
    ensures in_range { InRange kind result }
{
    match kind {
        Kind::I64 => combine_i64(op, x, y),
        _ => narrow(kind, combine(op, kind, i128::from(x), i128::from(y))),
    }
}

/// The same at 64 bits.
#[inline(always)]
pub(crate) fn combine_i64(op: MergeOp, x: i64, y: i64) -> i64
    ensures { result ≡ combination op kinds.I64 x y }
{
    match op {
        MergeOp::Add => x.wrapping_add(y),
        MergeOp::Mul => x.wrapping_mul(y),
        MergeOp::Min => x.min(y),
        MergeOp::Max => x.max(y),
    }
}

/// Numbers of an integer kind combined one after another with what is there by the operator of a
/// builder. The operator and the kind are looked at once. It takes no memory.
pub(crate) fn combine_all(op: MergeOp, kind: Kind, x: i64, items: &[i64]) -> i64
    requires integer { IsInteger kind }
    requires narrow { IsNarrow kind }
    requires start { InRange kind x }
    requires items { AllInRange kind items.now }
    ensures value { result ≡ combined_all op kind x items.now }
    ensures in_range { InRange kind result }
{
    match op {
        MergeOp::Add => combine_by(MergeOp::Add, kind, x, items),
        MergeOp::Mul => combine_by(MergeOp::Mul, kind, x, items),
        MergeOp::Min => combine_by(MergeOp::Min, kind, x, items),
        MergeOp::Max => combine_by(MergeOp::Max, kind, x, items),
    }
}

/// The same by an operator that is known where it is compiled.
#[inline(always)]
fn combine_by(op: MergeOp, kind: Kind, x: i64, items: &[i64]) -> i64
    requires integer { IsInteger kind }
    requires narrow { IsNarrow kind }
    requires start { InRange kind x }
    requires items { AllInRange kind items.now }
    ensures value { result ≡ combined_all op kind x items.now }
    ensures in_range { InRange kind result }
{
    match kind {
        Kind::I64 => combine_each(op, Kind::I64, x, items),
        _ => combine_each(op, kind, x, items),
    }
}

/// The same by an operator and at a kind that are known where it is compiled.
#[inline(always)]
fn combine_each(op: MergeOp, kind: Kind, x: i64, items: &[i64]) -> i64
    requires integer { IsInteger kind }
    requires narrow { IsNarrow kind }
    requires start { InRange kind x }
    requires items { AllInRange kind items.now }
    ensures value { result ≡ combined_all op kind x items.now }
    ensures in_range { InRange kind result }
{
    let mut total = x;
    for i in 0..items.len() {
        total = combine_kept(op, kind, total, items[i]);
    }
    total
}

/// A number of a kind that lies within an i64.
#[inline(always)]
pub(crate) fn narrow(kind: Kind, x: i128) -> i64
    requires narrow { IsNarrow kind }
    requires in_range { InRange kind x }
    ensures { result ≡ x }
{
    x as i64
}

/// The number that a word stands for.
#[inline(always)]
pub(crate) fn wide(kind: Kind, x: i64) -> i128
    ensures { result ≡ word kind x }
{
    match kind {
        Kind::U64 => i128::from(x) + (1 << 63),
        _ => i128::from(x),
    }
}

/// The word that stands for a number.
#[inline(always)]
pub(crate) fn to_word(kind: Kind, x: i128) -> i64
    requires { InRange kind x }
    ensures { word kind result ≡ x }
{
    match kind {
        Kind::U64 => (x - (1 << 63)) as i64,
        _ => x as i64,
    }
}
