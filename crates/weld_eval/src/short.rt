//! Numbers in 64 bits.

ghost use Rattle.weld_data.specs.Kind.{InRange};
ghost use Rattle.weld_eval.specs.Word.{of_word};

use weld_data::{Kind, Num};

/// A number of a program with its kind, kept in a word of 64 bits: a number of kind u64 by its bits,
/// each other as it is. It lies in the kind's range; false is 0 and true is 1.
#[derive(Clone, Copy, Debug)]
pub struct Short {
    pub kind: Kind,
    pub word: i64,
    ghost in_range: { InRange kind (of_word kind word) },
}

impl Short {
    ghost use Rattle.std.specs.Prelude.{◌≡◌, pos, true};
    ghost use Rattle.weld_data.specs.Kind.{IsNarrow};
    ghost use Rattle.weld_data.specs.Value.{number};
    ghost use Rattle.weld_meaning.specs.Evaluation.{truth_value};
    ghost use Rattle.weld_eval.specs.ShortView.{view_short, IsWord};
    ghost use Rattle.weld_data.specs.declared.kind.Kind.TheVariants as kinds;

    /// The same number. It takes no memory.
    #[inline(always)]
    #[tactic(auto, using(crate::proofs::Shorts::fits_i64))]
    pub fn of_num(n: Num) -> Short
        ensures { view_short result ≡ number n.kind n.value }
    {
        match n.kind {
            Kind::U64 => Short::of_u64(n.value as u64),
            _ => Short::narrow(n.kind, n.value as i64),
        }
    }

    /// The number of a kind whose numbers are words with a sign. It takes no memory.
    #[inline(always)]
    #[tactic(auto, using(crate::proofs::Shorts::narrow_word, crate::proofs::Shorts::narrow_in_range))]
    pub fn narrow(kind: Kind, x: i64) -> Short
        requires narrow { IsNarrow kind }
        requires in_range { InRange kind x }
        ensures kind { result.kind ≡ kind }
        ensures number { view_short result ≡ number kind x }
        ensures word { IsWord result }
    {
        Short { kind, word: x }
    }

    /// The same number. It takes no memory.
    #[inline(always)]
    pub fn to_num(self) -> Num
        ensures { view_short self ≡ number result.kind result.value }
    {
        match self.kind {
            Kind::U64 => Num::of_u64(self.word.cast_unsigned()),
            _ => Num {
                kind: self.kind,
                value: i128::from(self.word),
            },
        }
    }

    /// Whether the number is the word itself: all are but those of kind u64 that pass an i64. It takes
    /// no memory.
    #[inline(always)]
    #[tactic(auto, using(crate::proofs::Shorts::narrow_word, crate::proofs::Shorts::narrow_kind, crate::proofs::Shorts::low_word))]
    pub fn is_word(self) -> bool
        ensures { result ≡ true → IsWord self }
    {
        match self.kind {
            Kind::U64 => self.word >= 0,
            _ => true,
        }
    }

    /// The number of a truth value. It takes no memory.
    #[inline(always)]
    pub fn of_truth(truth: bool) -> Short
        ensures { view_short result ≡ truth_value truth }
    {
        Short {
            kind: Kind::Bool,
            word: if truth { 1 } else { 0 },
        }
    }

    /// The number of kind i64. It takes no memory.
    #[inline(always)]
    pub fn of_i64(x: i64) -> Short
        ensures kind { result.kind ≡ kinds.I64 }
        ensures word { result.word ≡ x }
        ensures number { view_short result ≡ number kinds.I64 x }
    {
        Short {
            kind: Kind::I64,
            word: x,
        }
    }

    /// The number of kind u64. It takes no memory.
    #[inline(always)]
    pub fn of_u64(x: u64) -> Short
        ensures { view_short result ≡ number kinds.U64 (pos x) }
    {
        Short {
            kind: Kind::U64,
            word: x.cast_signed(),
        }
    }
}
