//! Arithmetic and comparisons of whole numbers of one kind, each kept in a word of 64 bits: a number of kind u64 by its
//! bits, each other as it is. Where the kind is known, nothing is asked and nothing but the word is touched.

ghost use Rattle.std.specs.Prelude.{◌≡◌, ◌≢◌, false, pos, neg_ℤ, ◌+ℤ◌, ◌-ℤ◌, ◌*ℤ◌, int_div, int_rem, int_lt, int_le};
ghost use Rattle.std.specs.Ordering.{int_eq};
ghost use Rattle.weld_data.specs.declared.kind.Kind.TheVariants as kind_names;
ghost use Rattle.weld_data.specs.Kind.{IsInteger, IsNarrow, InRange};
ghost use Rattle.weld_data.specs.Wrapped.{wrapped};
ghost use Rattle.weld_data.specs.Operation.{truth, answer_kind as kind_of_answer, TakesKind};
ghost use Rattle.weld_eval.specs.Word.{of_word};
ghost use Rattle.weld_eval.specs.WordArithmeticAnswers.{IsWordOf};

use weld_data::{BinOp, Kind};

/// The kind of the operator's answer: comparisons answer truth values.
#[inline(always)]
pub fn answer_kind(op: BinOp, kind: Kind) -> Kind
    ensures { result ≡ kind_of_answer op kind }
{
    match op {
        BinOp::Add | BinOp::Sub | BinOp::Mul | BinOp::Div | BinOp::Rem => kind,
        _ => Kind::Bool,
    }
}

/// The word of the operator's answer on the numbers of two words of the kind; a comparison answers 0 or 1.
#[inline(always)]
pub fn operation(op: BinOp, kind: Kind, x: i64, y: i64) -> Option<i64>
    requires left { InRange kind (of_word kind x) }
    requires right { InRange kind (of_word kind y) }
    requires takes { TakesKind op kind }
    ensures { IsWordOf op kind (of_word kind x) (of_word kind y) result }
{
    match op {
        BinOp::Add => Some(sum(kind, x, y)),
        BinOp::Sub => Some(difference(kind, x, y)),
        BinOp::Mul => Some(product(kind, x, y)),
        BinOp::Div if is_zero(kind, y) => None,
        BinOp::Div => Some(quotient(kind, x, y)),
        BinOp::Rem if is_zero(kind, y) => None,
        BinOp::Rem => Some(remainder(kind, x, y)),
        BinOp::Eq => Some(number_of(is_equal(kind, x, y))),
        BinOp::Ne => Some(number_of(!is_equal(kind, x, y))),
        BinOp::Lt => Some(number_of(is_less(kind, x, y))),
        BinOp::Le => Some(number_of(is_at_most(kind, x, y))),
        BinOp::Gt => Some(number_of(is_less(kind, y, x))),
        BinOp::Ge => Some(number_of(is_at_most(kind, y, x))),
    }
}

/// 1 for true, 0 for false.
#[inline(always)]
pub fn number_of(test: bool) -> i64
    ensures value { result ≡ truth test }
    ensures in_range { InRange kind_names.Bool result }
{
    if test { 1 } else { 0 }
}

/// Whether the number of a word of the kind is 0.
#[tactic(auto, using(crate::proofs::Words::zero_words))]
#[inline(always)]
fn is_zero(kind: Kind, x: i64) -> bool
    ensures number { result ≡ int_eq (of_word kind x) (pos 0) }
    ensures word { result ≡ false → x ≢ pos 0 }
{
    let _kind = kind;
    x == 0
}

/// Whether the numbers of two words of the kind are equal.
#[tactic(auto, using(crate::proofs::Words::equal_words))]
#[inline(always)]
pub fn is_equal(kind: Kind, x: i64, y: i64) -> bool
    ensures { result ≡ int_eq (of_word kind x) (of_word kind y) }
{
    let _kind = kind;
    x == y
}

/// Whether the number of the first word of the kind is less than that of the second.
#[tactic(auto, using(crate::proofs::Shorts::narrow_kind, crate::proofs::Shorts::narrow_word))]
#[inline(always)]
pub fn is_less(kind: Kind, x: i64, y: i64) -> bool
    ensures { result ≡ int_lt (of_word kind x) (of_word kind y) }
{
    match kind {
        Kind::U64 => x.cast_unsigned() < y.cast_unsigned(),
        _ => x < y,
    }
}

/// Whether the number of the first word of the kind is at most that of the second.
#[tactic(auto, using(crate::proofs::Shorts::narrow_kind, crate::proofs::Shorts::narrow_word))]
#[inline(always)]
pub fn is_at_most(kind: Kind, x: i64, y: i64) -> bool
    ensures { result ≡ int_le (of_word kind x) (of_word kind y) }
{
    match kind {
        Kind::U64 => x.cast_unsigned() <= y.cast_unsigned(),
        _ => x <= y,
    }
}

/// The word of the number of an integer kind that equals a number modulo two to the number of the kind's bits.
#[tactic(auto, using(crate::proofs::Words::unsigned_wrapped))]
#[inline(always)]
fn wrap(kind: Kind, x: i64) -> i64
    requires { IsInteger kind }
    ensures value { of_word kind result ≡ wrapped kind x }
    ensures in_range { InRange kind (of_word kind result) }
{
    match kind {
        Kind::Bool => unreachable!(),
        Kind::I8 => i64::from((x.rem_euclid(1 << 8) as u8).cast_signed()),
        Kind::I16 => i64::from((x.rem_euclid(1 << 16) as u16).cast_signed()),
        Kind::I32 => i64::from((x.rem_euclid(1 << 32) as u32).cast_signed()),
        Kind::I64 | Kind::U64 => x,
        Kind::U8 => x.rem_euclid(1 << 8),
        Kind::U16 => x.rem_euclid(1 << 16),
        Kind::U32 => x.rem_euclid(1 << 32),
    }
}

/// The word of the number of an integer kind that the number of a word of any kind wraps to; false is 0 and true is 1.
#[inline(always)]
pub fn converted(to: Kind, from: Kind, x: i64) -> i64
    requires { IsInteger to }
    ensures value { of_word to result ≡ wrapped to (of_word from x) }
    ensures in_range { InRange to (of_word to result) }
{
    let _from = from;
    wrap(to, x)
}

/// The word of the wrapped opposite of the number of a word.
#[inline(always)]
pub fn opposite(kind: Kind, x: i64) -> i64
    requires { IsInteger kind }
    ensures value { of_word kind result ≡ wrapped kind (neg_ℤ (of_word kind x)) }
    ensures in_range { InRange kind (of_word kind result) }
{
    wrap(kind, x.wrapping_neg())
}

/// The word of the wrapped sum of the numbers of two words.
#[inline(always)]
pub fn sum(kind: Kind, x: i64, y: i64) -> i64
    requires { IsInteger kind }
    ensures value { of_word kind result ≡ wrapped kind (of_word kind x +ℤ of_word kind y) }
    ensures in_range { InRange kind (of_word kind result) }
{
    wrap(kind, x.wrapping_add(y))
}

/// The word of the wrapped difference of the numbers of two words.
#[inline(always)]
pub fn difference(kind: Kind, x: i64, y: i64) -> i64
    requires { IsInteger kind }
    ensures value { of_word kind result ≡ wrapped kind (of_word kind x -ℤ of_word kind y) }
    ensures in_range { InRange kind (of_word kind result) }
{
    wrap(kind, x.wrapping_sub(y))
}

/// The word of the wrapped product of the numbers of two words.
#[inline(always)]
pub fn product(kind: Kind, x: i64, y: i64) -> i64
    requires { IsInteger kind }
    ensures value { of_word kind result ≡ wrapped kind (of_word kind x *ℤ of_word kind y) }
    ensures in_range { InRange kind (of_word kind result) }
{
    wrap(kind, x.wrapping_mul(y))
}

/// The word of the wrapped quotient, truncated, of the numbers of two words.
#[tactic(auto, using(crate::proofs::Shorts::narrow_kind, crate::proofs::Words::quotient_word))]
#[inline(always)]
pub fn quotient(kind: Kind, x: i64, y: i64) -> i64
    requires integer { IsInteger kind }
    requires divides { y ≢ pos 0 }
    ensures value { of_word kind result ≡ wrapped kind (int_div (of_word kind x) (of_word kind y)) }
    ensures in_range { InRange kind (of_word kind result) }
{
    match kind {
        Kind::U64 => unsigned_quotient(x.cast_unsigned(), y.cast_unsigned()),
        _ => narrow_quotient(kind, x, y),
    }
}

/// The same of kind u64.
#[inline(always)]
fn unsigned_quotient(x: u64, y: u64) -> i64
    requires { y ≢ 0 }
    ensures value { of_word kind_names.U64 result ≡ wrapped kind_names.U64
        (int_div (pos x) (pos y)) }
    ensures in_range { InRange kind_names.U64 (of_word kind_names.U64 result) }
{
    (x / y).cast_signed()
}

/// The same of the other kinds.
#[inline(always)]
fn narrow_quotient(kind: Kind, x: i64, y: i64) -> i64
    requires integer { IsInteger kind }
    requires divides { y ≢ pos 0 }
    ensures value { of_word kind result ≡ wrapped kind (int_div x y) }
    ensures in_range { InRange kind (of_word kind result) }
{
    wrap(kind, x.wrapping_div(y))
}

/// The word of the remainder of the numbers of two words, with the sign of the dividend.
#[tactic(auto, using(crate::proofs::Shorts::narrow_kind, crate::proofs::Words::remainder_word))]
#[inline(always)]
pub fn remainder(kind: Kind, x: i64, y: i64) -> i64
    requires left { InRange kind (of_word kind x) }
    requires right { InRange kind (of_word kind y) }
    requires divides { y ≢ pos 0 }
    ensures value { of_word kind result ≡ int_rem (of_word kind x) (of_word kind y) }
    ensures in_range { InRange kind (of_word kind result) }
{
    match kind {
        Kind::U64 => unsigned_remainder(x.cast_unsigned(), y.cast_unsigned()),
        _ => narrow_remainder(kind, x, y),
    }
}

/// The same of kind u64.
#[inline(always)]
fn unsigned_remainder(x: u64, y: u64) -> i64
    requires { y ≢ 0 }
    ensures value { of_word kind_names.U64 result ≡ int_rem (pos x) (pos y) }
    ensures in_range { InRange kind_names.U64 (of_word kind_names.U64 result) }
{
    (x % y).cast_signed()
}

/// The same of the other kinds.
#[inline(always)]
fn narrow_remainder(kind: Kind, x: i64, y: i64) -> i64
    requires narrow { IsNarrow kind }
    requires left { InRange kind x }
    requires right { InRange kind y }
    requires divides { y ≢ pos 0 }
    ensures value { result ≡ int_rem x y }
    ensures in_range { InRange kind result }
{
    x.wrapping_rem(y)
}
