//! Code that is run over slots. It takes no memory. A number is answered as its kind, and its word is left in its place.

ghost use Rattle.weld_builders.specs.Outcome.{and_then, done, map_out};
ghost use Rattle.weld_data.specs.Kind.{InRange};
ghost use Rattle.weld_data.specs.Value.{number as number_value};
ghost use Rattle.weld_eval.specs.Word.{of_word};
ghost use Rattle.weld_meaning.specs.Evaluation.{operated, selected};
ghost use Rattle.weld_turns.specs.Answers.{AreSlots, ComesToTruth, KindAndWord, KindAtHand, NextState};
ghost use Rattle.weld_turns.specs.CodeView.{either_of, filled, slots_of, turn_value, value, with_slot};

use crate::code::{Code, Filling, Halt, Shape, Turn};
use crate::slots::{in_slot, literal_word, move_state, put_in};
use crate::words::{contradict, convert, negate, operate, truth_in};
use weld_data::{BinOp, Kind};
use weld_eval::short::Short;

/// The number that code comes to.
#[inline(always)]
pub fn number(code: &Code, slots: &[Short], into: &mut i64) -> Result<Kind, Halt>
    ensures { KindAndWord result into.new (value code.now (slots_of slots.now)) }
{
    match at_hand(code, slots, into) {
        Some(kind) => Ok(kind),
        None => compound(code, slots, into),
    }
}

/// The same of a part: a function of its own, so that what is at hand is read in place and not by a call.
#[cycle(run)]
#[inline(always)]
fn part(code: &Code, slots: &[Short], into: &mut i64) -> Result<Kind, Halt>
    ensures { KindAndWord result into.new (value code.now (slots_of slots.now)) }
{
    match at_hand(code, slots, into) {
        Some(kind) => Ok(kind),
        None => compound(code, slots, into),
    }
}

/// The number that code comes to where it is a slot or a literal.
#[inline(always)]
fn at_hand(code: &Code, slots: &[Short], into: &mut i64) -> Option<Kind>
    ensures { KindAtHand result into.new (value code.now (slots_of slots.now)) }
{
    match code {
        Code::Slot(i) => in_slot(slots, *i, into),
        Code::Literal(n) => Some(literal_word(*n, into)),
        _ => None,
    }
}

/// The number that code comes to which isn't at hand.
#[cycle(run)]
#[inline(never)]
fn compound(code: &Code, slots: &[Short], into: &mut i64) -> Result<Kind, Halt>
    ensures { KindAndWord result into.new (value code.now (slots_of slots.now)) }
{
    match code {
        Code::Slot(_) => Err(Halt::Other),
        Code::Literal(_) => Err(Halt::Other),
        Code::Work(op, x, y) => worked(*op, x, y, slots, into),
        Code::Opposite(x) => {
            let mut word = 0;
            match part(x, slots, &mut word) {
                Ok(kind) => negate(kind, word, into),
                Err(halt) => Err(halt),
            }
        }
        Code::Contrary(x) => {
            let mut word = 0;
            match part(x, slots, &mut word) {
                Ok(kind) => contradict(kind, word, into),
                Err(halt) => Err(halt),
            }
        }
        Code::Cast(to, x) => {
            let mut word = 0;
            match part(x, slots, &mut word) {
                Ok(kind) => convert(*to, kind, word, into),
                Err(halt) => Err(halt),
            }
        }
        Code::Choice(test, x, y) => chosen(test, x, y, slots, into),
        Code::Select(test, x, y) => selection(test, x, y, slots, into),
    }
}

/// An operator between two numbers.
#[cycle(run)]
#[inline(always)]
fn worked(op: BinOp, x: &Code, y: &Code, slots: &[Short], into: &mut i64) -> Result<Kind, Halt>
    ensures { KindAndWord result into.new (and_then (value x.now (slots_of slots.now))
        (λ v. and_then (value y.now (slots_of slots.now)) (λ w. operated op v w))) }
{
    let mut word = 0;
    match part(x, slots, &mut word) {
        Ok(kind) => worked_with(op, kind, word, y, slots, into),
        Err(halt) => Err(halt),
    }
}

/// The same where the first is worked out.
#[cycle(run)]
#[inline(always)]
fn worked_with(
    op: BinOp,
    kind: Kind,
    x: i64,
    y: &Code,
    slots: &[Short],
    into: &mut i64,
) -> Result<Kind, Halt>
    requires { InRange kind (of_word kind x) }
    ensures { KindAndWord result into.new (and_then (value y.now (slots_of slots.now))
        (λ w. operated op (number_value kind (of_word kind x)) w)) }
{
    let mut word = 0;
    match part(y, slots, &mut word) {
        Ok(other) => operate(op, kind, x, other, word, into),
        Err(halt) => Err(halt),
    }
}

/// The truth value that code comes to.
#[cycle(run)]
#[inline(always)]
fn truth(code: &Code, slots: &[Short]) -> Result<bool, Halt>
    ensures { ComesToTruth result (value code.now (slots_of slots.now)) }
{
    let mut word = 0;
    match part(code, slots, &mut word) {
        Ok(kind) => truth_in(kind, word),
        Err(halt) => Err(halt),
    }
}

/// The one or the other, as a truth value says.
#[cycle(run)]
#[inline(always)]
#[tactic(auto, using(crate::proofs::Runs::takes_first, crate::proofs::Runs::takes_second))]
fn chosen(test: &Code, x: &Code, y: &Code, slots: &[Short], into: &mut i64) -> Result<Kind, Halt>
    ensures { KindAndWord result into.new (and_then (value test.now (slots_of slots.now))
        (λ u. either_of u (value x.now (slots_of slots.now)) (value y.now (slots_of slots.now)))) }
{
    match truth(test, slots) {
        Ok(true) => part(x, slots, into),
        Ok(false) => part(y, slots, into),
        Err(halt) => Err(halt),
    }
}

/// The one or the other, as a truth value says, where both are worked out.
#[cycle(run)]
#[inline(always)]
fn selection(test: &Code, x: &Code, y: &Code, slots: &[Short], into: &mut i64) -> Result<Kind, Halt>
    ensures { KindAndWord result into.new (and_then (value test.now (slots_of slots.now))
        (λ u. and_then (value x.now (slots_of slots.now))
        (λ v. and_then (value y.now (slots_of slots.now)) (λ w. selected u v w)))) }
{
    let first = match truth(test, slots) {
        Ok(first) => first,
        Err(halt) => return Err(halt),
    };
    let mut word = 0;
    let kind = match part(x, slots, &mut word) {
        Ok(kind) => kind,
        Err(halt) => return Err(halt),
    };
    match part(y, slots, into) {
        Ok(other) => {
            if first {
                *into = word;
                Ok(kind)
            } else {
                Ok(other)
            }
        }
        Err(halt) => Err(halt),
    }
}

/// The truth value that code comes to, of a turn.
fn flag(code: &Code, slots: &[Short]) -> Result<bool, Halt>
    ensures { ComesToTruth result (value code.now (slots_of slots.now)) }
{
    let mut word = 0;
    match number(code, slots, &mut word) {
        Ok(kind) => truth_in(kind, word),
        Err(halt) => Err(halt),
    }
}

/// Fills slots.
#[inline(always)]
fn fill_slots(filling: &Filling, slots: &mut [Short]) -> Result<(), Halt>
    ensures { AreSlots result (slots_of slots.new) (filled filling.now (slots_of slots.old)) }
{
    match filling {
        Filling::Put(to, code) => put_number(*to, code, slots),
        _ => run_filling(filling, slots),
    }
}

/// The same of a part: a function of its own, so that a number is put in place and not by a call.
#[cycle(run_filling)]
#[inline(always)]
fn fill_part(filling: &Filling, slots: &mut [Short]) -> Result<(), Halt>
    ensures { AreSlots result (slots_of slots.new) (filled filling.now (slots_of slots.old)) }
{
    match filling {
        Filling::Put(to, code) => put_number(*to, code, slots),
        _ => run_filling(filling, slots),
    }
}

/// Fills slots where that isn't one number.
#[cycle(run_filling)]
#[inline(never)]
fn run_filling(filling: &Filling, slots: &mut [Short]) -> Result<(), Halt>
    ensures { AreSlots result (slots_of slots.new) (filled filling.now (slots_of slots.old)) }
{
    match filling {
        Filling::Put(_, _) => Err(Halt::Other),
        Filling::Then(x, y) => match fill_part(x, slots) {
            Ok(()) => fill_part(y, slots),
            Err(halt) => Err(halt),
        },
        Filling::Either(test, x, y) => match flag(test, slots) {
            Ok(true) => fill_part(x, slots),
            Ok(false) => fill_part(y, slots),
            Err(halt) => Err(halt),
        },
    }
}

/// Puts the number that code comes to into a slot.
#[inline(always)]
fn put_number(to: usize, code: &Code, slots: &mut [Short]) -> Result<(), Halt>
    ensures { AreSlots result (slots_of slots.new) (map_out (with_slot (slots_of slots.old) to)
        (value code.now (slots_of slots.old))) }
{
    let mut word = 0;
    match number(code, slots, &mut word) {
        Ok(kind) => put_word(to, kind, word, slots),
        Err(halt) => Err(halt),
    }
}

/// Puts a number that is worked out into a slot.
#[inline(always)]
fn put_word(to: usize, kind: Kind, word: i64, slots: &mut [Short]) -> Result<(), Halt>
    requires { InRange kind (of_word kind word) }
    ensures { AreSlots result (slots_of slots.new) (done (with_slot (slots_of slots.old) to
        (number_value kind (of_word kind word)))) }
{
    if put_in(slots, to, kind, word) {
        Ok(())
    } else {
        Err(Halt::Other)
    }
}

/// One turn: whether to go on; the next state stands in the first slots then.
#[cycle(run_turn)]
pub fn run_turn(turn: &Turn, shape: Shape, slots: &mut [Short]) -> Result<bool, Halt>
    ensures { NextState result shape (slots_of slots.new)
        (turn_value turn.now shape (slots_of slots.old)) }
{
    match turn {
        Turn::First(filling, rest) => match fill_slots(filling, slots) {
            Ok(()) => run_turn(rest, shape, slots),
            Err(halt) => Err(halt),
        },
        Turn::Either(test, x, y) => match flag(test, slots) {
            Ok(true) => run_turn(x, shape, slots),
            Ok(false) => run_turn(y, shape, slots),
            Err(halt) => Err(halt),
        },
        Turn::End(first, test) => match flag(test, slots) {
            Ok(go) => {
                if move_state(shape, *first, slots) {
                    Ok(go)
                } else {
                    Err(Halt::Other)
                }
            }
            Err(halt) => Err(halt),
        },
    }
}
