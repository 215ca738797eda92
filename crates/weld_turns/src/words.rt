//! Operators on numbers of which the kinds aren't known beforehand. A number is handed on as its kind and its word apart, so
//! that both stay in registers.

ghost use Rattle.std.specs.Prelude.{◌≡◌, true};
ghost use Rattle.weld_data.specs.Kind.{InRange, IsInteger};
ghost use Rattle.weld_data.specs.Operation.{TakesKind};
ghost use Rattle.weld_data.specs.Value.{number};
ghost use Rattle.weld_eval.specs.Word.{of_word};
ghost use Rattle.weld_meaning.specs.Evaluation.{operated, negated, contrary, cast_to};
ghost use Rattle.weld_turns.specs.Answers.{IsTruthOf, KindAndWord};

use crate::code::Halt;
use weld_data::{BinOp, Kind};
use weld_eval::word_arithmetic::{answer_kind, converted, number_of, operation, opposite};

/// Whether the kind is one of integers.
#[inline(always)]
fn is_integer(kind: Kind) -> bool
    ensures { result ≡ true → IsInteger kind }
{
    match kind {
        Kind::Bool => false,
        _ => true,
    }
}

/// Whether the operator takes numbers of the kind.
#[inline(always)]
fn takes(op: BinOp, kind: Kind) -> bool
    ensures { result ≡ true → TakesKind op kind }
{
    match op {
        BinOp::Eq | BinOp::Ne => true,
        _ => is_integer(kind),
    }
}

/// Whether two kinds are the same.
#[inline(always)]
fn is_same(kind: Kind, other: Kind) -> bool
    ensures { result ≡ true → kind ≡ other }
{
    kind == other
}

/// What the operator makes of two numbers.
#[inline(always)]
#[tactic(auto, using(crate::proofs::WordLemmas::word_in_range, crate::proofs::WordLemmas::work_some, crate::proofs::WordLemmas::work_none))]
pub fn operate(
    op: BinOp,
    kind: Kind,
    x: i64,
    other: Kind,
    y: i64,
    into: &mut i64,
) -> Result<Kind, Halt>
    requires left { InRange kind (of_word kind x) }
    requires right { InRange other (of_word other y) }
    ensures { KindAndWord result into.new (operated op (number kind (of_word kind x))
        (number other (of_word other y))) }
{
    if !is_same(kind, other) {
        return Err(Halt::Other);
    }
    if !takes(op, kind) {
        return Err(Halt::Other);
    }
    match operation(op, kind, x, y) {
        Some(word) => {
            *into = word;
            Ok(answer_kind(op, kind))
        }
        None => Err(Halt::Fault),
    }
}

/// The wrapped opposite of a number.
#[inline(always)]
#[tactic(auto, using(crate::proofs::WordLemmas::opposite_is))]
pub fn negate(kind: Kind, x: i64, into: &mut i64) -> Result<Kind, Halt>
    ensures { KindAndWord result into.new (negated (number kind (of_word kind x))) }
{
    if !is_integer(kind) {
        return Err(Halt::Other);
    }
    *into = opposite(kind, x);
    Ok(kind)
}

/// The number wrapped to a kind.
#[inline(always)]
#[tactic(auto, using(crate::proofs::WordLemmas::cast_is))]
pub fn convert(to: Kind, kind: Kind, x: i64, into: &mut i64) -> Result<Kind, Halt>
    ensures { KindAndWord result into.new (cast_to to (number kind (of_word kind x))) }
{
    if !is_integer(to) {
        return Err(Halt::Other);
    }
    *into = converted(to, kind, x);
    Ok(to)
}

/// The truth value that a number is.
#[inline(always)]
#[tactic(auto, using(crate::proofs::WordLemmas::truth_is))]
pub fn truth_in(kind: Kind, x: i64) -> Result<bool, Halt>
    ensures { IsTruthOf result (number kind (of_word kind x)) }
{
    match kind {
        Kind::Bool => Ok(x == 1),
        _ => Err(Halt::Other),
    }
}

/// The other truth value.
#[inline(always)]
#[tactic(auto, using(crate::proofs::WordLemmas::contrary_is))]
pub fn contradict(kind: Kind, x: i64, into: &mut i64) -> Result<Kind, Halt>
    ensures { KindAndWord result into.new (contrary (number kind (of_word kind x))) }
{
    match truth_in(kind, x) {
        Ok(truth) => {
            *into = number_of(!truth);
            Ok(Kind::Bool)
        }
        Err(halt) => Err(halt),
    }
}
