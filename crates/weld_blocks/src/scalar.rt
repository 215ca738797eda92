//! Operations on numbers in 64 bits.

ghost use Rattle.std.specs.Prelude.{◌≡◌};
ghost use Rattle.weld_data.specs.Kind.{IsInteger};
ghost use Rattle.weld_builders.specs.Outcome.{done};
ghost use Rattle.weld_meaning.specs.Evaluation.{operated as operated_value, negated as negated_value, contrary as contrary_value, cast_to, truth_of as truth_value_of, whole_number as whole_number_value};
ghost use Rattle.weld_eval.specs.Answers.{Answers, IsSure};
ghost use Rattle.weld_eval.specs.Fits.{AreOperands, IsIntegerNumber, IsTruth};
ghost use Rattle.weld_eval.specs.ShortView.{view_short};

use weld_data::{BinOp, Kind, Stop};
use weld_eval::short::Short;
use weld_eval::word_arithmetic::{answer_kind, converted, operation, opposite};

/// The operator's answer on two numbers of a kind that it takes: wrapping arithmetic or a comparison.
/// It faults exactly where it divides by 0. It takes no memory.
#[tactic(auto, using(crate::proofs::Words::left_word, crate::proofs::Words::right_word, crate::proofs::Words::takes_words, crate::proofs::Words::words_some, crate::proofs::Words::words_none))]
#[inline(always)]
pub fn operated(op: BinOp, x: Short, y: Short) -> Result<Short, Stop>
    requires { AreOperands op (view_short x) (view_short y) }
    ensures value { Answers view_short result (operated_value op (view_short x) (view_short y)) }
    ensures sure { IsSure result }
{
    match operation(op, x.kind, x.word, y.word) {
        Some(word) => Ok(Short {
            kind: answer_kind(op, x.kind),
            word,
        }),
        None => Err(Stop::Fault),
    }
}

/// The wrapped opposite of a number of an integer kind. It takes no memory.
#[tactic(auto, using(crate::proofs::Scalars::integer_kind))]
#[inline(always)]
pub fn negated(x: Short) -> Short
    requires { IsIntegerNumber (view_short x) }
    ensures { negated_value (view_short x) ≡ done (view_short result) }
{
    Short {
        kind: x.kind,
        word: opposite(x.kind, x.word),
    }
}

/// The truth value that a number is. It takes no memory.
#[tactic(auto, using(crate::proofs::Words::truth_is))]
#[inline(always)]
pub fn truth_of(x: Short) -> bool
    requires { IsTruth (view_short x) }
    ensures { truth_value_of (view_short x) ≡ done result }
{
    x.word == 1
}

/// The other truth value. It takes no memory.
#[inline]
pub fn contrary(x: Short) -> Short
    requires { IsTruth (view_short x) }
    ensures { contrary_value (view_short x) ≡ done (view_short result) }
{
    Short::of_truth(!truth_of(x))
}

/// The number of an integer kind that equals the number modulo the kind's size; false is 0 and true
/// is 1. It takes no memory.
#[inline(always)]
pub fn cast(kind: Kind, x: Short) -> Short
    requires { IsInteger kind }
    ensures { cast_to kind (view_short x) ≡ done (view_short result) }
{
    Short {
        kind,
        word: converted(kind, x.kind, x.word),
    }
}

/// A count as an i64, wrapped. It takes no memory.
#[tactic(auto, using(crate::proofs::Scalars::counted))]
#[inline]
pub fn whole_number(count: usize) -> Short
    ensures { view_short result ≡ whole_number_value count }
{
    Short::of_i64((count as u64).cast_signed())
}
