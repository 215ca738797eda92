//! The turns of an `iterate` whose state is a number or a struct of numbers and whose body is numbers. Its code is made once, before the
//! first turn; behind the eighth it goes by instructions on words, where it can be lowered to such. No turn takes memory.

ghost use Rattle.std.specs.Prelude.{◌≡◌, ◌-◌, ◌<◌, ◌≤◌, ℕ, true, length, slice_get, Some, IfOk, IfSome};
ghost use Rattle.weld_data.specs.declared.kind.Kind.TheVariants as kinds;
ghost use Rattle.weld_data.specs.Value.{number, struct, values};
ghost use Rattle.weld_data.specs.View.{view_val};
ghost use Rattle.weld_builders.specs.Outcome.{done};
ghost use Rattle.weld_eval.specs.Answers.{Answers};
ghost use Rattle.weld_eval.specs.FrameView.{env_of};
ghost use Rattle.weld_eval.specs.ThingView.{held_of};
ghost use Rattle.weld_eval_plain.specs.Nodes.{IsIterate};
ghost use Rattle.weld_eval_plain.specs.Turns.{turns_from};
ghost use Rattle.weld_meaning.specs.Evaluation.{turn_limit};
ghost use Rattle.weld_meaning.specs.Thing.{plain};
ghost use Rattle.weld_turns.specs.CodeView.{field_values, shape_value, slots_of};
ghost use Rattle.weld_turns.specs.StepView.{shown, words_of};
ghost use Rattle.weld_turns.specs.States.{comes_from, Follows, IsState, RunsOn, RunsTo, StepsRunOn};

use crate::code::{Halt, MOST_FIELDS, Place, Shape, Turn, Unmade, room};
use crate::lower::lower;
use crate::make_turn::make_turn;
use crate::on_rows::run_all;
use crate::rest::of_turn;
use crate::run::run_turn;
use crate::run_steps::WORDS;
use crate::scope::{no_names, with_name};
use crate::slots::SLOTS;
use crate::step::Step;
use std::alloc::{AllocError, Global};
use weld_data::{Kind, Stop, Val, Vals};
use weld_eval::frame::Frame;
use weld_eval::number::number_of;
use weld_eval::short::Short;
use weld_eval::thing::{Held, Owned};
use weld_tree::{Expr, Form, Sym};

/// How many turns an `iterate` may take.
pub(crate) const TURN_LIMIT: u32 = 1_000_000;

/// How many of them are run by the code before it is lowered to instructions, which pays where more follow.
const FIRST_TURNS: u32 = 8;

/// How much of a turn is lowered at most, with the nodes of its code: what follows a choice counts once for each of its arms.
pub(crate) const MOST_STEPS: usize = 400;

/// What an `iterate` comes to from a state on, where its state and its body are of that form; none where they aren't: then
/// nothing is done. The millionth turn may be the last, and one more is a fault.
pub fn turns_in_slots<'a>(
    e: &Expr,
    frame: &Frame,
    start: &Val,
    alloc: Global,
) -> Option<Result<Held<'a>, Stop>>
    requires { IsIterate e.now }
    ensures { IfSome result (λ r. Answers held_of r (turns_from e.now (env_of frame.now) turn_limit
        (view_val start.now))) }
{
    match &e.form {
        Form::Iterate(_, binder, body) => turns_of_body(binder.sym, body, frame, start, alloc),
        _ => None,
    }
}

/// The same of a body and the name of its state.
fn turns_of_body<'a>(
    name: Sym,
    body: &Expr,
    frame: &Frame,
    start: &Val,
    alloc: Global,
) -> Option<Result<Held<'a>, Stop>>
    ensures { IfSome result (λ r. Answers held_of r (comes_from name.0 body.now (env_of frame.now)
        turn_limit (view_val start.now))) }
{
    let mut slots = [Short::of_i64(0); SLOTS];
    match put_state(start, &mut slots) {
        Some(shape) => match turn_of_body(name, body, shape, frame, alloc) {
            Ok(turn) => run_turns(&turn, shape, &mut slots, alloc),
            Err(Unmade::Other) => None,
            Err(Unmade::Memory) => Some(Err(Stop::Memory)),
        },
        None => None,
    }
}

/// Puts a state into the first slots, where it is a number or a struct of numbers, and tells its shape.
#[tactic(auto, using(crate::proofs::States::one_put))]
fn put_state(start: &Val, slots: &mut [Short]) -> Option<Shape>
    ensures { IfSome result (λ shape. shape_value shape 0 (slots_of slots.new)
        ≡ view_val start.now) }
{
    match start {
        Val::Struct(fields) => put_fields(fields, slots),
        _ => match number_of(start) {
            Some(n) if !slots.is_empty() => {
                slots[0] = n;
                Some(Shape::One)
            }
            _ => None,
        },
    }
}

/// The same of the fields of a struct, where they are numbers and not too many.
#[tactic(auto, using(crate::proofs::Shapes::fields_are))]
fn put_fields(fields: &Vals, slots: &mut [Short]) -> Option<Shape>
    ensures { IfSome result (λ shape. shape_value shape 0 (slots_of slots.new)
        ≡ struct (values fields.now)) }
{
    let count = fields.len();
    if count > MOST_FIELDS || !put_numbers(fields, slots) {
        return None;
    }
    Some(Shape::Fields(count as u8))
}

/// Puts numbers into the first slots; it tells whether all were numbers, and the slots are there.
fn put_numbers(fields: &Vals, slots: &mut [Short]) -> bool
    ensures { result ≡ true → (j : ℕ) → j < length fields.now → slice_get fields.now j
        ≡ Some (slots_of slots.new j) }
{
    if fields.len() > slots.len() {
        return false;
    }
    for k in 0..fields.len() {
        match number_of(fields.at(k)) {
            Some(n) => slots[k] = n,
            None => return false,
        }
    }
    true
}

/// The code of a body in which the name stands for the state.
#[tactic(auto, using(crate::proofs::States::first_scope, crate::proofs::States::body_follows))]
fn turn_of_body(
    name: Sym,
    body: &Expr,
    shape: Shape,
    frame: &Frame,
    alloc: Global,
) -> Result<Turn, Unmade>
    ensures { IfOk result (λ t. Follows t shape name.0 body.now (env_of frame.now)) }
{
    let none = no_names();
    let scope = with_name(name, Place { shape, first: 0 }, &none);
    make_turn(body, shape, &scope, room(shape), frame, alloc)
}

/// The turns, until one says that it is the last: the first ones by the code, those that are left as `run_on` runs them.
#[tactic(auto, using(crate::proofs::States::goes_on, crate::proofs::States::ends, crate::proofs::States::faults, crate::proofs::States::carries_on))]
fn run_turns<'a>(
    turn: &Turn,
    shape: Shape,
    slots: &mut [Short],
    alloc: Global,
) -> Option<Result<Held<'a>, Stop>>
    ensures { IfSome result (λ r. RunsTo r turn.now shape (slots_of slots.old)) }
{
    for _turn in 0..FIRST_TURNS {
        match run_turn(turn, shape, slots) {
            Ok(true) => {}
            Ok(false) => return last_state(shape, slots, alloc),
            Err(Halt::Fault) => return Some(Err(Stop::Fault)),
            Err(Halt::Other) => return None,
        }
    }
    run_on(turn, shape, slots, alloc)
}

/// The turns behind the first ones: by instructions on words where the turn can be lowered to such, else by the code.
fn run_on<'a>(
    turn: &Turn,
    shape: Shape,
    slots: &mut [Short],
    alloc: Global,
) -> Option<Result<Held<'a>, Stop>>
    ensures { IfSome result (λ r. RunsOn r turn.now shape (slots_of slots.old) (turn_limit - 8)) }
{
    let mut words = [0; WORDS];
    if !put_words(shape, slots, &mut words) {
        return run_code(turn, shape, slots, alloc);
    }
    let mut left = MOST_STEPS;
    let whole = of_turn(turn);
    match lower(&whole, shape, &mut left, alloc) {
        Ok(step) => run_lowered(&step, shape, &mut words, alloc),
        Err(_) => run_code(turn, shape, slots, alloc),
    }
}

/// The turns behind the first ones, by the code.
#[tactic(auto, using(crate::proofs::States::goes_on, crate::proofs::States::ends, crate::proofs::States::faults, crate::proofs::States::exceeds))]
fn run_code<'a>(
    turn: &Turn,
    shape: Shape,
    slots: &mut [Short],
    alloc: Global,
) -> Option<Result<Held<'a>, Stop>>
    ensures { IfSome result (λ r. RunsOn r turn.now shape (slots_of slots.old) (turn_limit - 8)) }
{
    for _turn in FIRST_TURNS..TURN_LIMIT {
        match run_turn(turn, shape, slots) {
            Ok(true) => {}
            Ok(false) => return last_state(shape, slots, alloc),
            Err(Halt::Fault) => return Some(Err(Stop::Fault)),
            Err(Halt::Other) => return None,
        }
    }
    Some(Err(Stop::Fault))
}

/// The same by instructions.
fn run_lowered<'a>(
    step: &Step,
    shape: Shape,
    words: &mut [i64],
    alloc: Global,
) -> Option<Result<Held<'a>, Stop>>
    ensures { IfSome result (λ r. StepsRunOn r step.now shape (words_of words.old)
        (turn_limit - 8)) }
{
    match run_all(step, shape, &[], FIRST_TURNS, words) {
        Ok(()) => last_words(shape, words, alloc),
        Err(Halt::Fault) => Some(Err(Stop::Fault)),
        Err(Halt::Other) => None,
    }
}

/// Puts a state that stands in the first slots into the first words, where its numbers are of kind i64; it tells whether they are.
#[tactic(auto, using(crate::proofs::Shapes::words_put))]
fn put_words(shape: Shape, slots: &[Short], words: &mut [i64]) -> bool
    ensures { result ≡ true → shape_value shape 0 (shown (words_of words.new))
        ≡ shape_value shape 0 (slots_of slots.now) }
{
    put_all_words(room(shape), slots, words)
}

/// The same of so many numbers.
fn put_all_words(count: usize, slots: &[Short], words: &mut [i64]) -> bool
    ensures { result ≡ true → (j : ℕ) → j < count → slots_of slots.now j
        ≡ number kinds.I64 (words_of words.new j) }
{
    if count > words.len() {
        return false;
    }
    for k in 0..count {
        match word_in_slot(slots, k) {
            Some(x) => words[k] = x,
            None => return false,
        }
    }
    true
}

/// The word of a slot, where the slot is there and its number is of kind i64.
fn word_in_slot(slots: &[Short], i: usize) -> Option<i64>
    ensures { IfSome result (λ x. slots_of slots.now i ≡ number kinds.I64 x) }
{
    if i >= slots.len() {
        return None;
    }
    let n = slots[i];
    match n.kind {
        Kind::I64 => Some(n.word),
        _ => None,
    }
}

/// Puts two words into the first places; it tells whether the places are there.
pub(crate) fn put_two(x: i64, y: i64, words: &mut [i64]) -> bool
    ensures first { result ≡ true → words_of words.new 0 ≡ x }
    ensures second { result ≡ true → words_of words.new 1 ≡ y }
{
    if words.len() < 2 {
        return false;
    }
    words[0] = x;
    words[1] = y;
    true
}

/// The state that stands in the first slots, as a value.
fn last_state<'a>(shape: Shape, slots: &[Short], alloc: Global) -> Option<Result<Held<'a>, Stop>>
    ensures { IfSome result (λ r. IsState r shape (slots_of slots.now)) }
{
    if slots.is_empty() || room(shape) > slots.len() {
        return None;
    }
    match shape {
        Shape::One => Some(Ok(Held::Made(Owned::Value(Val::Num(slots[0].to_num()))))),
        Shape::Fields(count) => Some(struct_of(count as usize, slots, alloc)),
    }
}

/// The struct of so many numbers that stand in the first slots.
fn struct_of<'a>(count: usize, slots: &[Short], alloc: Global) -> Result<Held<'a>, Stop>
    requires { count ≤ length slots.now }
    ensures { Answers held_of result (done (plain (struct (field_values count 0
        (slots_of slots.now))))) }
{
    match fields_of(count, slots, alloc) {
        Ok(fields) => Ok(Held::Made(Owned::Value(Val::Struct(fields)))),
        Err(_) => Err(Stop::Memory),
    }
}

/// The list of them.
fn fields_of(count: usize, slots: &[Short], alloc: Global) -> Result<Vals, AllocError>
    requires { count ≤ length slots.now }
    ensures { IfOk result (λ vs. values vs ≡ field_values count 0 (slots_of slots.now)) }
{
    let mut fields = Vals::new(alloc);
    for k in 0..count {
        fields.push(Val::Num(slots[k].to_num()))?;
    }
    Ok(fields)
}

/// The state that stands in the first words, as a value.
fn last_words<'a>(shape: Shape, words: &[i64], alloc: Global) -> Option<Result<Held<'a>, Stop>>
    ensures { IfSome result (λ r. IsState r shape (shown (words_of words.now))) }
{
    let mut slots = [Short::of_i64(0); SLOTS];
    if !show_words(room(shape), words, &mut slots) {
        return None;
    }
    last_state(shape, &slots, alloc)
}

/// Puts so many words into the first slots, as numbers of kind i64; it tells whether they are there.
fn show_words(count: usize, words: &[i64], slots: &mut [Short]) -> bool
    ensures { result ≡ true → (j : ℕ) → j < count → slots_of slots.new j
        ≡ number kinds.I64 (words_of words.now j) }
{
    if count > slots.len() || count > words.len() {
        return false;
    }
    for k in 0..count {
        slots[k] = Short::of_i64(words[k]);
    }
    true
}
