//! Scalars, each read straight into the array of its kind.

ghost use Rattle.std.specs.Prelude.{◌≡◌, ℤ, pos, None, IfSome, ℕ, IfNone, IfOk, OnOk, ◌<◌, ◌++◌, length, map};
ghost use Rattle.weld_data.specs.Value.{Value, number};
ghost use Rattle.weld_data.specs.Operation.{truth};
ghost use Rattle.weld_data.specs.declared.kind.Kind.{Kind};
ghost use Rattle.weld_data.specs.declared.kind.Kind.TheVariants as kinds;
ghost use Rattle.weld_values.specs.Grammar.{scalar_at, truth_at, Found};
ghost use Rattle.weld_values.specs.Judging.{IsClamped, Judged, IsRead, IsReadInto};

use crate::flaw::Flaw;
use crate::tokens::{after_blanks, integer, truth};
use std::alloc::AllocError;
use weld_data::Items;

/// A scalar of one kind, as an array of that kind keeps it.
pub trait Cell: Copy + Drop {
    ghost kind: { Kind };

    ghost value: { Self → Value };

    /// The scalar at the front of the text, and what follows it.
    fn read(text: &[u8]) -> Option<(Self, Flaw, &[u8])>
        ensures found { IfSome result (λ found. IsRead (Found (scalar_at kind)) text.now found.1
            (value found.0) found.2.now) }
        ensures none { IfNone result (scalar_at kind text.now ≡ None) }
        ensures less { IfSome result (λ found. length found.2.now < length text.now) };
}

/// Appends the scalar at the front of the text, and answers what follows it.
#[inline(always)]
pub(crate) fn append_cell<'a, T: Cell>(
    items: &mut Items<T>,
    text: &'a [u8],
) -> Result<Option<(Flaw, &'a [u8])>, AllocError>
    ensures found { IfOk result (λ o. IfSome o (λ found. IsReadInto (Found (scalar_at T.kind))
        text.now found.0 (map T.value items.old) (map T.value items.new) found.1.now)) }
    ensures none { IfOk result (λ o. IfNone o (scalar_at T.kind text.now ≡ None)) }
    ensures less { IfOk result (λ o. IfSome o (λ found. length found.1.now < length text.now)) }
{
    match T::read(text) {
        Some((value, flaw, rest)) => {
            items.push(value)?;
            Ok(Some((flaw, rest)))
        }
        None => Ok(None),
    }
}

impl Cell for bool {
    ghost use Rattle.std.specs.Prelude.{Bool};

    ghost kind = { kinds.Bool };

    ghost value = { λ (b : Bool). number kinds.Bool (truth b) };

    #[inline(always)]
    fn read(text: &[u8]) -> Option<(bool, Flaw, &[u8])> {
        match truth(after_blanks(text)) {
            Some((value, rest)) => Some((value, Flaw::Fine, rest)),
            None => None,
        }
    }
}

impl Cell for i8 {
    ghost kind = { kinds.I8 };

    ghost value = { number kinds.I8 };

    #[inline(always)]
    fn read(text: &[u8]) -> Option<(i8, Flaw, &[u8])> {
        match integer(after_blanks(text)) {
            Some((x, rest)) => Some(narrowed_i8(x, rest)),
            None => None,
        }
    }
}

impl Cell for i16 {
    ghost kind = { kinds.I16 };

    ghost value = { number kinds.I16 };

    #[inline(always)]
    fn read(text: &[u8]) -> Option<(i16, Flaw, &[u8])> {
        match integer(after_blanks(text)) {
            Some((x, rest)) => Some(narrowed_i16(x, rest)),
            None => None,
        }
    }
}

impl Cell for i32 {
    ghost kind = { kinds.I32 };

    ghost value = { number kinds.I32 };

    #[inline(always)]
    fn read(text: &[u8]) -> Option<(i32, Flaw, &[u8])> {
        match integer(after_blanks(text)) {
            Some((x, rest)) => Some(narrowed_i32(x, rest)),
            None => None,
        }
    }
}

impl Cell for i64 {
    ghost kind = { kinds.I64 };

    ghost value = { number kinds.I64 };

    #[inline(always)]
    fn read(text: &[u8]) -> Option<(i64, Flaw, &[u8])> {
        match integer(after_blanks(text)) {
            Some((x, rest)) => Some(narrowed_i64(x, rest)),
            None => None,
        }
    }
}

impl Cell for u8 {
    ghost kind = { kinds.U8 };

    ghost value = { λ (n : ℕ). number kinds.U8 (pos n) };

    #[inline(always)]
    fn read(text: &[u8]) -> Option<(u8, Flaw, &[u8])> {
        match integer(after_blanks(text)) {
            Some((x, rest)) => Some(narrowed_u8(x, rest)),
            None => None,
        }
    }
}

impl Cell for u16 {
    ghost kind = { kinds.U16 };

    ghost value = { λ (n : ℕ). number kinds.U16 (pos n) };

    #[inline(always)]
    fn read(text: &[u8]) -> Option<(u16, Flaw, &[u8])> {
        match integer(after_blanks(text)) {
            Some((x, rest)) => Some(narrowed_u16(x, rest)),
            None => None,
        }
    }
}

impl Cell for u32 {
    ghost kind = { kinds.U32 };

    ghost value = { λ (n : ℕ). number kinds.U32 (pos n) };

    #[inline(always)]
    fn read(text: &[u8]) -> Option<(u32, Flaw, &[u8])> {
        match integer(after_blanks(text)) {
            Some((x, rest)) => Some(narrowed_u32(x, rest)),
            None => None,
        }
    }
}

impl Cell for u64 {
    ghost kind = { kinds.U64 };

    ghost value = { λ (n : ℕ). number kinds.U64 (pos n) };

    #[inline(always)]
    fn read(text: &[u8]) -> Option<(u64, Flaw, &[u8])> {
        match integer(after_blanks(text)) {
            Some((x, rest)) => Some(narrowed_u64(x, rest)),
            None => None,
        }
    }
}

/// The number as one of kind i8, if it is in range; and what follows it.
#[inline(always)]
fn narrowed_i8(x: i128, rest: &[u8]) -> (i8, Flaw, &[u8])
    ensures judged { (z : ℤ) → IsClamped x z → Judged result.1 (number kinds.I8 z)
        (number kinds.I8 result.0) }
    ensures rest { result.2.now ≡ rest.now }
{
    if x < i128::from(i8::MIN) || i128::from(i8::MAX) < x {
        (0, Flaw::Range, rest)
    } else {
        (x as i8, Flaw::Fine, rest)
    }
}

/// The number as one of kind i16, if it is in range; and what follows it.
#[inline(always)]
fn narrowed_i16(x: i128, rest: &[u8]) -> (i16, Flaw, &[u8])
    ensures judged { (z : ℤ) → IsClamped x z → Judged result.1 (number kinds.I16 z)
        (number kinds.I16 result.0) }
    ensures rest { result.2.now ≡ rest.now }
{
    if x < i128::from(i16::MIN) || i128::from(i16::MAX) < x {
        (0, Flaw::Range, rest)
    } else {
        (x as i16, Flaw::Fine, rest)
    }
}

/// The number as one of kind i32, if it is in range; and what follows it.
#[inline(always)]
fn narrowed_i32(x: i128, rest: &[u8]) -> (i32, Flaw, &[u8])
    ensures judged { (z : ℤ) → IsClamped x z → Judged result.1 (number kinds.I32 z)
        (number kinds.I32 result.0) }
    ensures rest { result.2.now ≡ rest.now }
{
    if x < i128::from(i32::MIN) || i128::from(i32::MAX) < x {
        (0, Flaw::Range, rest)
    } else {
        (x as i32, Flaw::Fine, rest)
    }
}

/// The number as one of kind i64, if it is in range; and what follows it.
#[inline(always)]
fn narrowed_i64(x: i128, rest: &[u8]) -> (i64, Flaw, &[u8])
    ensures judged { (z : ℤ) → IsClamped x z → Judged result.1 (number kinds.I64 z)
        (number kinds.I64 result.0) }
    ensures rest { result.2.now ≡ rest.now }
{
    if x < i128::from(i64::MIN) || i128::from(i64::MAX) < x {
        (0, Flaw::Range, rest)
    } else {
        (x as i64, Flaw::Fine, rest)
    }
}

/// The number as one of kind u8, if it is in range; and what follows it.
#[inline(always)]
fn narrowed_u8(x: i128, rest: &[u8]) -> (u8, Flaw, &[u8])
    ensures judged { (z : ℤ) → IsClamped x z → Judged result.1 (number kinds.U8 z)
        (number kinds.U8 (pos result.0)) }
    ensures rest { result.2.now ≡ rest.now }
{
    if x < i128::from(u8::MIN) || i128::from(u8::MAX) < x {
        (0, Flaw::Range, rest)
    } else {
        (x as u8, Flaw::Fine, rest)
    }
}

/// The number as one of kind u16, if it is in range; and what follows it.
#[inline(always)]
fn narrowed_u16(x: i128, rest: &[u8]) -> (u16, Flaw, &[u8])
    ensures judged { (z : ℤ) → IsClamped x z → Judged result.1 (number kinds.U16 z)
        (number kinds.U16 (pos result.0)) }
    ensures rest { result.2.now ≡ rest.now }
{
    if x < i128::from(u16::MIN) || i128::from(u16::MAX) < x {
        (0, Flaw::Range, rest)
    } else {
        (x as u16, Flaw::Fine, rest)
    }
}

/// The number as one of kind u32, if it is in range; and what follows it.
#[inline(always)]
fn narrowed_u32(x: i128, rest: &[u8]) -> (u32, Flaw, &[u8])
    ensures judged { (z : ℤ) → IsClamped x z → Judged result.1 (number kinds.U32 z)
        (number kinds.U32 (pos result.0)) }
    ensures rest { result.2.now ≡ rest.now }
{
    if x < i128::from(u32::MIN) || i128::from(u32::MAX) < x {
        (0, Flaw::Range, rest)
    } else {
        (x as u32, Flaw::Fine, rest)
    }
}

/// The number as one of kind u64, if it is in range; and what follows it.
#[inline(always)]
fn narrowed_u64(x: i128, rest: &[u8]) -> (u64, Flaw, &[u8])
    ensures judged { (z : ℤ) → IsClamped x z → Judged result.1 (number kinds.U64 z)
        (number kinds.U64 (pos result.0)) }
    ensures rest { result.2.now ≡ rest.now }
{
    if x < i128::from(u64::MIN) || i128::from(u64::MAX) < x {
        (0, Flaw::Range, rest)
    } else {
        (x as u64, Flaw::Fine, rest)
    }
}
