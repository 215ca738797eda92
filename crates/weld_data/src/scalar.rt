//! Operations on the numbers of one kind.

ghost use Rattle.std.specs.Prelude.{◌≡◌, ◌≢◌, ◌↔◌, pos, ◌+ℤ◌, ◌-ℤ◌, ◌*ℤ◌, int_div, int_rem, IsNone, IfSome};
ghost use Rattle.weld_data.specs.Kind as kinds;
ghost use Rattle.weld_data.specs.declared.kind.Kind.TheVariants as kind_names;
ghost use Rattle.weld_data.specs.Kind.{IsInteger, InRange};
ghost use Rattle.weld_data.specs.Wrapped.{wrapped};
ghost use Rattle.weld_data.specs.Operation.{truth, operation, combination, start_of, answer_kind, TakesKind, Divides};

use crate::kind::Kind;
use crate::op::{BinOp, MergeOp};

/// The number of an integer kind that equals `x` modulo two to the number of the kind's bits.
pub fn wrap(kind: Kind, x: i128) -> i128
    requires { IsInteger kind }
    ensures value { result ≡ wrapped kind x }
    ensures in_range { InRange kind result }
{
    match kind {
        Kind::Bool => unreachable!(),
        Kind::I8 => i128::from((x.rem_euclid(1 << 8) as u8).cast_signed()),
        Kind::I16 => i128::from((x.rem_euclid(1 << 16) as u16).cast_signed()),
        Kind::I32 => i128::from((x.rem_euclid(1 << 32) as u32).cast_signed()),
        Kind::I64 => i128::from((x.rem_euclid(1 << 64) as u64).cast_signed()),
        Kind::U8 => x.rem_euclid(1 << 8),
        Kind::U16 => x.rem_euclid(1 << 16),
        Kind::U32 => x.rem_euclid(1 << 32),
        Kind::U64 => x.rem_euclid(1 << 64),
    }
}

/// The operator's answer on two numbers of the kind; a comparison answers 0 or 1.
/// Truth values can only be tested for equality. None comes exactly where the operator divides by 0.
pub fn binary(op: BinOp, kind: Kind, x: i128, y: i128) -> Option<i128>
    requires left { InRange kind x }
    requires right { InRange kind y }
    requires takes { TakesKind op kind }
    ensures value { result ≡ operation op kind x y }
    ensures none { IsNone result ↔ (Divides op × (y ≡ pos 0)) }
    ensures in_range { IfSome result (InRange (answer_kind op kind)) }
{
    match op {
        BinOp::Add => Some(sum(kind, x, y)),
        BinOp::Sub => Some(difference(kind, x, y)),
        BinOp::Mul => Some(product(kind, x, y)),
        BinOp::Div if y == 0 => None,
        BinOp::Div => Some(quotient(kind, x, y)),
        BinOp::Rem if y == 0 => None,
        BinOp::Rem => Some(remainder(kind, x, y)),
        BinOp::Eq => Some(number_of(x == y)),
        BinOp::Ne => Some(number_of(x != y)),
        BinOp::Lt => Some(number_of(x < y)),
        BinOp::Le => Some(number_of(x <= y)),
        BinOp::Gt => Some(number_of(x > y)),
        BinOp::Ge => Some(number_of(x >= y)),
    }
}

/// Two numbers of an integer kind combined by the operator of a builder.
pub fn combine(op: MergeOp, kind: Kind, x: i128, y: i128) -> i128
    requires integer { IsInteger kind }
    requires left { InRange kind x }
    requires right { InRange kind y }
    ensures value { result ≡ combination op kind x y }
    ensures in_range { InRange kind result }
{
    match op {
        MergeOp::Add => sum(kind, x, y),
        MergeOp::Mul => product(kind, x, y),
        MergeOp::Min => x.min(y),
        MergeOp::Max => x.max(y),
    }
}

/// The number of an integer kind that a builder of this operator starts with.
pub fn neutral(op: MergeOp, kind: Kind) -> i128
    requires { IsInteger kind }
    ensures value { result ≡ start_of op kind }
    ensures in_range { InRange kind result }
{
    match op {
        MergeOp::Add => 0,
        MergeOp::Mul => 1,
        MergeOp::Min => greatest(kind),
        MergeOp::Max => least(kind),
    }
}

/// The greatest number of the kind.
fn greatest(kind: Kind) -> i128
    ensures { result ≡ kinds.greatest kind }
{
    match kind {
        Kind::Bool => 1,
        Kind::I8 => i128::from(i8::MAX),
        Kind::I16 => i128::from(i16::MAX),
        Kind::I32 => i128::from(i32::MAX),
        Kind::I64 => i128::from(i64::MAX),
        Kind::U8 => i128::from(u8::MAX),
        Kind::U16 => i128::from(u16::MAX),
        Kind::U32 => i128::from(u32::MAX),
        Kind::U64 => i128::from(u64::MAX),
    }
}

/// The least number of the kind.
fn least(kind: Kind) -> i128
    ensures { result ≡ kinds.least kind }
{
    match kind {
        Kind::I8 => i128::from(i8::MIN),
        Kind::I16 => i128::from(i16::MIN),
        Kind::I32 => i128::from(i32::MIN),
        Kind::I64 => i128::from(i64::MIN),
        Kind::Bool | Kind::U8 | Kind::U16 | Kind::U32 | Kind::U64 => 0,
    }
}

/// 1 for true, 0 for false.
fn number_of(test: bool) -> i128
    ensures value { result ≡ truth test }
    ensures in_range { InRange kind_names.Bool result }
{
    if test { 1 } else { 0 }
}

/// The wrapped sum.
fn sum(kind: Kind, x: i128, y: i128) -> i128
    requires integer { IsInteger kind }
    requires left { InRange kind x }
    requires right { InRange kind y }
    ensures value { result ≡ wrapped kind (x +ℤ y) }
    ensures in_range { InRange kind result }
{
    wrap(kind, x + y)
}

/// The wrapped difference.
fn difference(kind: Kind, x: i128, y: i128) -> i128
    requires integer { IsInteger kind }
    requires left { InRange kind x }
    requires right { InRange kind y }
    ensures value { result ≡ wrapped kind (x -ℤ y) }
    ensures in_range { InRange kind result }
{
    wrap(kind, x - y)
}

/// The wrapped product.
fn product(kind: Kind, x: i128, y: i128) -> i128
    requires integer { IsInteger kind }
    requires left { InRange kind x }
    requires right { InRange kind y }
    ensures value { result ≡ wrapped kind (x *ℤ y) }
    ensures in_range { InRange kind result }
{
    match kind {
        Kind::U64 => widest_product(x, y),
        _ => wrap(kind, x * y),
    }
}

/// The wrapped product of two numbers of kind u64, which may pass an i128.
fn widest_product(x: i128, y: i128) -> i128
    requires left { InRange kind_names.U64 x }
    requires right { InRange kind_names.U64 y }
    ensures value { result ≡ wrapped kind_names.U64 (x *ℤ y) }
    ensures in_range { InRange kind_names.U64 result }
{
    i128::from((x as u64).wrapping_mul(y as u64))
}

/// The wrapped quotient, truncated.
fn quotient(kind: Kind, x: i128, y: i128) -> i128
    requires integer { IsInteger kind }
    requires left { InRange kind x }
    requires right { InRange kind y }
    requires divides { y ≢ pos 0 }
    ensures value { result ≡ wrapped kind (int_div x y) }
    ensures in_range { InRange kind result }
{
    wrap(kind, x / y)
}

/// The remainder, with the sign of the dividend.
fn remainder(kind: Kind, x: i128, y: i128) -> i128
    requires left { InRange kind x }
    requires right { InRange kind y }
    requires divides { y ≢ pos 0 }
    ensures value { result ≡ int_rem x y }
    ensures in_range { InRange kind result }
{
    x % y
}
