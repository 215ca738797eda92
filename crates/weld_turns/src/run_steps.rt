//! Instructions that are run over words. It takes no memory.

ghost use Rattle.std.specs.Prelude.{◌≡◌, ◌+◌, ◌<◌, ℕ, true, int_lt, int_le, IfSome};
ghost use Rattle.std.specs.Ordering.{int_eq};
ghost use Rattle.weld_builders.specs.Outcome.{done, map_out, or_fault};
ghost use Rattle.weld_data.specs.declared.kind.Kind.TheVariants as kinds;
ghost use Rattle.weld_data.specs.Operation.{operation as answer_of, TakesKind};
ghost use Rattle.weld_turns.specs.Answers.{NextState};
ghost use Rattle.weld_turns.specs.CodeView.{shape_value};
ghost use Rattle.weld_turns.specs.StepView.{shown, step_value, with_word, worked, words_of, AreWords, IsTold};

use crate::code::{Halt, Shape};
use crate::step::Step;
use weld_data::{BinOp, Kind};
use weld_eval::word_arithmetic::operation;

/// How many words there are: the first ones stand for slots, the others are taken between.
pub const WORDS: usize = 128;

/// What an operator on integers makes of two words of kind i64; none where it faults.
#[inline(always)]
fn answer(op: BinOp, x: i64, y: i64) -> Option<i64>
    ensures { result ≡ answer_of op kinds.I64 x y }
{
    operation(op, Kind::I64, x, y)
}

/// The same where the second is known beforehand: the commonest divisors are constants to the compiler.
#[inline(always)]
fn answer_with(op: BinOp, x: i64, y: i64) -> Option<i64>
    ensures { result ≡ answer_of op kinds.I64 x y }
{
    match (op, y) {
        (BinOp::Div | BinOp::Rem, 2) => answer(op, x, 2),
        (BinOp::Div | BinOp::Rem, 10) => answer(op, x, 10),
        _ => answer(op, x, y),
    }
}

/// The word of a place, where the place is there.
#[inline(always)]
pub(crate) fn word_in(words: &[i64], i: usize) -> Option<i64>
    ensures { IfSome result (λ x. words_of words.now i ≡ x) }
{
    if i < words.len() {
        Some(words[i])
    } else {
        None
    }
}

/// Puts a word into a place, where the place is there.
#[inline(always)]
pub(crate) fn put(to: usize, x: i64, words: &mut [i64]) -> Result<(), Halt>
    ensures { AreWords result (words_of words.new) (done (with_word (words_of words.old) to x)) }
{
    if to < words.len() {
        words[to] = x;
        Ok(())
    } else {
        Err(Halt::Other)
    }
}

/// Puts the word of a place into another.
#[inline(always)]
fn copy(to: usize, i: usize, words: &mut [i64]) -> Result<(), Halt>
    ensures { AreWords result (words_of words.new)
        (done (with_word (words_of words.old) to (words_of words.old i))) }
{
    match word_in(words, i) {
        Some(x) => put(to, x, words),
        None => Err(Halt::Other),
    }
}

/// Puts an answer into a place; where there is none it is a fault.
#[inline(always)]
fn put_answer(to: usize, answer: Option<i64>, words: &mut [i64]) -> Result<(), Halt>
    ensures { AreWords result (words_of words.new) (map_out (with_word (words_of words.old) to)
        (or_fault answer)) }
{
    match answer {
        Some(x) => put(to, x, words),
        None => Err(Halt::Fault),
    }
}

/// Puts what an operator makes of the words of two places into one.
#[inline(always)]
fn work(op: BinOp, to: usize, i: usize, j: usize, words: &mut [i64]) -> Result<(), Halt>
    ensures { AreWords result (words_of words.new)
        (worked op to (words_of words.old) (words_of words.old i) (words_of words.old j)) }
{
    match (word_in(words, i), word_in(words, j)) {
        (Some(x), Some(y)) => put_answer(to, answer(op, x, y), words),
        _ => Err(Halt::Other),
    }
}

/// Puts what an operator makes of the word of a place and of a word into one.
#[inline(always)]
fn work_with(op: BinOp, to: usize, i: usize, y: i64, words: &mut [i64]) -> Result<(), Halt>
    ensures { AreWords result (words_of words.new)
        (worked op to (words_of words.old) (words_of words.old i) y) }
{
    match word_in(words, i) {
        Some(x) => put_answer(to, answer_with(op, x, y), words),
        None => Err(Halt::Other),
    }
}

/// Whether the words of two places are equal.
#[inline(always)]
fn equal(i: usize, j: usize, words: &[i64]) -> Result<bool, Halt>
    ensures { IsTold result (int_eq (words_of words.now i) (words_of words.now j)) }
{
    match word_in(words, j) {
        Some(y) => equal_with(i, y, words),
        None => Err(Halt::Other),
    }
}

/// The same of the word of a place and of a word.
#[inline(always)]
fn equal_with(i: usize, y: i64, words: &[i64]) -> Result<bool, Halt>
    ensures { IsTold result (int_eq (words_of words.now i) y) }
{
    match word_in(words, i) {
        Some(x) => Ok(x == y),
        None => Err(Halt::Other),
    }
}

/// Whether the words of two places are so that the first is less.
#[inline(always)]
fn less(i: usize, j: usize, words: &[i64]) -> Result<bool, Halt>
    ensures { IsTold result (int_lt (words_of words.now i) (words_of words.now j)) }
{
    match word_in(words, j) {
        Some(y) => less_with(i, y, words),
        None => Err(Halt::Other),
    }
}

/// The same of the word of a place and of a word.
#[inline(always)]
fn less_with(i: usize, y: i64, words: &[i64]) -> Result<bool, Halt>
    ensures { IsTold result (int_lt (words_of words.now i) y) }
{
    match word_in(words, i) {
        Some(x) => Ok(x < y),
        None => Err(Halt::Other),
    }
}

/// Whether the words of two places are so that the first is at most the second.
#[inline(always)]
fn at_most(i: usize, j: usize, words: &[i64]) -> Result<bool, Halt>
    ensures { IsTold result (int_le (words_of words.now i) (words_of words.now j)) }
{
    match word_in(words, j) {
        Some(y) => at_most_with(i, y, words),
        None => Err(Halt::Other),
    }
}

/// The same of the word of a place and of a word.
#[inline(always)]
fn at_most_with(i: usize, y: i64, words: &[i64]) -> Result<bool, Halt>
    ensures { IsTold result (int_le (words_of words.now i) y) }
{
    match word_in(words, i) {
        Some(x) => Ok(x <= y),
        None => Err(Halt::Other),
    }
}

/// Whether the word of a place is more than a word.
#[inline(always)]
fn more_with(i: usize, y: i64, words: &[i64]) -> Result<bool, Halt>
    ensures { IsTold result (int_lt y (words_of words.now i)) }
{
    match word_in(words, i) {
        Some(x) => Ok(x > y),
        None => Err(Halt::Other),
    }
}

/// Whether the word of a place is at least a word.
#[inline(always)]
fn at_least_with(i: usize, y: i64, words: &[i64]) -> Result<bool, Halt>
    ensures { IsTold result (int_le y (words_of words.now i)) }
{
    match word_in(words, i) {
        Some(x) => Ok(x >= y),
        None => Err(Halt::Other),
    }
}

/// Moves a state to the first places from where it stands; it tells whether the places are there. Two fields are moved without a loop.
#[inline(always)]
#[tactic(auto, using(crate::proofs::Shapes::words_moved))]
fn move_state(shape: Shape, first: usize, words: &mut [i64]) -> bool
    ensures { result ≡ true → shape_value shape 0 (shown (words_of words.new))
        ≡ shape_value shape first (shown (words_of words.old)) }
{
    match shape {
        Shape::One => {
            if first >= words.len() {
                return false;
            }
            words[0] = words[first];
            true
        }
        Shape::Fields(2) => {
            if words.len() < 2 || first >= words.len() - 1 {
                return false;
            }
            let (x, y) = (words[first], words[first + 1]);
            words[0] = x;
            words[1] = y;
            true
        }
        Shape::Fields(count) => move_fields(count as usize, first, words),
    }
}

/// Moves so many words to the first places, one after another; it tells whether the places are there.
#[inline(always)]
fn move_fields(count: usize, first: usize, words: &mut [i64]) -> bool
    ensures { result ≡ true → (j : ℕ) → j < count → words_of words.new j
        ≡ words_of words.old (first + j) }
{
    if first > words.len() || count > words.len() - first {
        return false;
    }
    for k in 0..count {
        words[k] = words[first + k];
    }
    true
}

/// One turn: whether to go on; the next state stands in the first places then.
pub fn run_steps(step: &Step, shape: Shape, words: &mut [i64]) -> Result<bool, Halt>
    ensures { NextState result shape (shown (words_of words.new))
        (step_value step.now shape (words_of words.old)) }
{
    let mut at = step;
    'steps: loop {
        match at {
            Step::Put(to, x, rest) => match put(*to, *x, words) {
                Ok(()) => {
                    at = &**rest;
                    continue 'steps;
                }
                Err(halt) => return Err(halt),
            },
            Step::Copy(to, i, rest) => match copy(*to, *i, words) {
                Ok(()) => {
                    at = &**rest;
                    continue 'steps;
                }
                Err(halt) => return Err(halt),
            },
            Step::Sum(to, i, j, rest) => match work(BinOp::Add, *to, *i, *j, words) {
                Ok(()) => {
                    at = &**rest;
                    continue 'steps;
                }
                Err(halt) => return Err(halt),
            },
            Step::SumWith(to, i, y, rest) => match work_with(BinOp::Add, *to, *i, *y, words) {
                Ok(()) => {
                    at = &**rest;
                    continue 'steps;
                }
                Err(halt) => return Err(halt),
            },
            Step::Difference(to, i, j, rest) => match work(BinOp::Sub, *to, *i, *j, words) {
                Ok(()) => {
                    at = &**rest;
                    continue 'steps;
                }
                Err(halt) => return Err(halt),
            },
            Step::DifferenceWith(to, i, y, rest) => match work_with(
                BinOp::Sub,
                *to,
                *i,
                *y,
                words,
            ) {
                Ok(()) => {
                    at = &**rest;
                    continue 'steps;
                }
                Err(halt) => return Err(halt),
            },
            Step::Product(to, i, j, rest) => match work(BinOp::Mul, *to, *i, *j, words) {
                Ok(()) => {
                    at = &**rest;
                    continue 'steps;
                }
                Err(halt) => return Err(halt),
            },
            Step::ProductWith(to, i, y, rest) => match work_with(BinOp::Mul, *to, *i, *y, words) {
                Ok(()) => {
                    at = &**rest;
                    continue 'steps;
                }
                Err(halt) => return Err(halt),
            },
            Step::Quotient(to, i, j, rest) => match work(BinOp::Div, *to, *i, *j, words) {
                Ok(()) => {
                    at = &**rest;
                    continue 'steps;
                }
                Err(halt) => return Err(halt),
            },
            Step::QuotientWith(to, i, y, rest) => match work_with(BinOp::Div, *to, *i, *y, words) {
                Ok(()) => {
                    at = &**rest;
                    continue 'steps;
                }
                Err(halt) => return Err(halt),
            },
            Step::Remainder(to, i, j, rest) => match work(BinOp::Rem, *to, *i, *j, words) {
                Ok(()) => {
                    at = &**rest;
                    continue 'steps;
                }
                Err(halt) => return Err(halt),
            },
            Step::RemainderWith(to, i, y, rest) => match work_with(BinOp::Rem, *to, *i, *y, words) {
                Ok(()) => {
                    at = &**rest;
                    continue 'steps;
                }
                Err(halt) => return Err(halt),
            },
            Step::IfEqual(i, j, x, y) => match equal(*i, *j, words) {
                Ok(true) => {
                    at = &**x;
                    continue 'steps;
                }
                Ok(false) => {
                    at = &**y;
                    continue 'steps;
                }
                Err(halt) => return Err(halt),
            },
            Step::IfEqualWith(i, z, x, y) => match equal_with(*i, *z, words) {
                Ok(true) => {
                    at = &**x;
                    continue 'steps;
                }
                Ok(false) => {
                    at = &**y;
                    continue 'steps;
                }
                Err(halt) => return Err(halt),
            },
            Step::IfLess(i, j, x, y) => match less(*i, *j, words) {
                Ok(true) => {
                    at = &**x;
                    continue 'steps;
                }
                Ok(false) => {
                    at = &**y;
                    continue 'steps;
                }
                Err(halt) => return Err(halt),
            },
            Step::IfLessWith(i, z, x, y) => match less_with(*i, *z, words) {
                Ok(true) => {
                    at = &**x;
                    continue 'steps;
                }
                Ok(false) => {
                    at = &**y;
                    continue 'steps;
                }
                Err(halt) => return Err(halt),
            },
            Step::IfAtMost(i, j, x, y) => match at_most(*i, *j, words) {
                Ok(true) => {
                    at = &**x;
                    continue 'steps;
                }
                Ok(false) => {
                    at = &**y;
                    continue 'steps;
                }
                Err(halt) => return Err(halt),
            },
            Step::IfAtMostWith(i, z, x, y) => match at_most_with(*i, *z, words) {
                Ok(true) => {
                    at = &**x;
                    continue 'steps;
                }
                Ok(false) => {
                    at = &**y;
                    continue 'steps;
                }
                Err(halt) => return Err(halt),
            },
            Step::IfMoreWith(i, z, x, y) => match more_with(*i, *z, words) {
                Ok(true) => {
                    at = &**x;
                    continue 'steps;
                }
                Ok(false) => {
                    at = &**y;
                    continue 'steps;
                }
                Err(halt) => return Err(halt),
            },
            Step::IfAtLeastWith(i, z, x, y) => match at_least_with(*i, *z, words) {
                Ok(true) => {
                    at = &**x;
                    continue 'steps;
                }
                Ok(false) => {
                    at = &**y;
                    continue 'steps;
                }
                Err(halt) => return Err(halt),
            },
            Step::End(first, go) => {
                if move_state(shape, *first, words) {
                    return Ok(*go);
                } else {
                    return Err(Halt::Other);
                }
            }
        }
    }
}
