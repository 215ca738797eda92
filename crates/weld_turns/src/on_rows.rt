//! The turns of an `iterate` in the body of a loop: its instructions are made once, and run for each row. The body sees the state
//! and, of the row, names of numbers of kind i64 and of structs of which it takes such fields; what else it names stands outside of
//! the loop.

ghost use Rattle.std.specs.Prelude.{◌≡◌, ◌∷◌, [], ◌+◌, ◌<◌, ◌≤◌, ℕ, true, length, drop, slice_get, Some, IfOk, IfSome};
ghost use Rattle.weld_eval.specs.FrameView.{env_of};
ghost use Rattle.weld_meaning.specs.Evaluation.{eval};
ghost use Rattle.weld_turns.specs.OnRows.{placed, state_of, state_site, EndsWith, HasWords, IsOfTwo, MeansBody, RunsAll};
ghost use Rattle.weld_turns.specs.Scopes.{room_of, view_scope, AreBelow, TurnMeans};
ghost use Rattle.weld_turns.specs.CodeView.{shape_value};
ghost use Rattle.weld_turns.specs.Lowering.{settled, Lowers};
ghost use Rattle.weld_turns.specs.StepView.{shown, with_word, words_of, AreWords};
ghost use Rattle.weld_builders.specs.Outcome.{done};

use crate::code::{Halt, Named, Place, Seen, Shape, Spread, Turn, Unmade, room};
use crate::lower::lower;
use crate::make_turn::make_turn;
use crate::rest::of_turn;
use crate::run_steps::{WORDS, put, run_steps, word_in};
use crate::scope::{Scope, no_names, with_name, with_spread};
use crate::step::Step;
use crate::turns::{MOST_STEPS, TURN_LIMIT, put_two};
use std::alloc::Global;
use weld_eval::frame::Frame;
use weld_tree::{Expr, Sym};

/// How many words the names of a row have at most, those of the fields that none takes among them.
pub const MOST_WORDS: usize = 32;

/// The instructions of a turn, by the body, the name of the state and its shape. The names of the row are numbers of kind i64, or
/// structs of which fields are such, whose words stand one behind the other; all others are looked for outside. `Unmade::Other`: the
/// names have more than 32 words, or the body isn't lowered (or uses another field); `Unmade::Memory`: memory is wanting.
pub fn made_turn(
    name: Sym,
    body: &Expr,
    shape: Shape,
    names: &[Named],
    frame: &Frame,
    alloc: Global,
) -> Result<Step, Unmade>
    ensures { IfOk result (λ t. MeansBody t shape name.0 body.now names.now (env_of frame.now)) }
{
    let none = no_names();
    match make_behind(
        name,
        body,
        shape,
        names,
        0,
        room(shape),
        &none,
        frame,
        alloc,
    ) {
        Ok(turn) => lowered(&turn, shape, alloc),
        Err(unmade) => Err(unmade),
    }
}

/// The instructions of a turn that is made.
fn lowered(turn: &Turn, shape: Shape, alloc: Global) -> Result<Step, Unmade>
    ensures { IfOk result (λ t. Lowers shape t (settled turn.now)) }
{
    let mut left = MOST_STEPS;
    let whole = of_turn(turn);
    lower(&whole, shape, &mut left, alloc)
}

/// The code of the turn, where the names before place i have their sites, and the slots from `at` on are free.
#[tactic(auto, using(crate::proofs::OnRows::all_placed, crate::proofs::OnRows::one_placed))]
fn make_behind(
    name: Sym,
    body: &Expr,
    shape: Shape,
    names: &[Named],
    i: usize,
    at: usize,
    scope: &Scope,
    frame: &Frame,
    alloc: Global,
) -> Result<Turn, Unmade>
    requires below { AreBelow (view_scope scope.now) at }
    requires state { room_of shape ≤ at }
    ensures { IfOk result (λ t. TurnMeans t shape
        ((name.0, state_site shape) ∷ placed (drop i names.now) at (view_scope scope.now))
        (env_of frame.now) (eval body.now)) }
{
    if at > room(shape) + MOST_WORDS {
        return Err(Unmade::Other);
    }
    if i >= names.len() {
        let inner = with_name(name, Place { shape, first: 0 }, &*scope);
        return make_turn(body, shape, &inner, at, frame, alloc);
    }
    match names[i].seen {
        Seen::Number => {
            let place = Place {
                shape: Shape::One,
                first: at,
            };
            let inner = with_name(names[i].name, place, &*scope);
            make_behind(
                name,
                body,
                shape,
                names,
                i + 1,
                at + 1,
                &inner,
                frame,
                alloc,
            )
        }
        Seen::Fields { count, taken } => {
            if count > MOST_WORDS {
                return Err(Unmade::Other);
            }
            let spread = Spread {
                name: names[i].name,
                first: at,
                fields: count,
                taken,
            };
            let inner = with_spread(names[i].name, spread, &*scope);
            make_behind(
                name,
                body,
                shape,
                names,
                i + 1,
                at + count,
                &inner,
                frame,
                alloc,
            )
        }
    }
}

/// The last state of the turns from a state of two words (of a single number the second doesn't matter), while the row's names have
/// these words. There is none where a turn faults, where there are more than a million, or for a struct of more fields or fewer.
pub fn end_of_turns(step: &Step, shape: Shape, x: i64, y: i64, row: &[i64]) -> Option<(i64, i64)>
    ensures { IfSome result (λ r. EndsWith step.now shape row.now (state_of shape x y)
        (state_of shape r.0 r.1)) }
{
    if !is_two(shape) {
        return None;
    }
    let mut words = [0; WORDS];
    if !put_two(x, y, &mut words) {
        return None;
    }
    match run_all(step, shape, row, 0, &mut words) {
        Ok(()) => two_words(&words),
        Err(_) => None,
    }
}

/// Whether two words are a state of the shape.
fn is_two(shape: Shape) -> bool
    ensures { result ≡ true → IsOfTwo shape }
{
    match shape {
        Shape::One => true,
        Shape::Fields(count) => count == 2,
    }
}

/// The turns of that number and behind it, counted from 0, from the state that stands in the first words, until one says that it is
/// the last; then the last state stands there. The row's names have these words. The one loop over instructions: where these are run
/// from one place alone they stand inlined there, and a call for each turn would cost as much as the turn.
pub(crate) fn run_all(
    step: &Step,
    shape: Shape,
    row: &[i64],
    from: u32,
    words: &mut [i64],
) -> Result<(), Halt>
    ensures { RunsAll result step.now shape row.now from
        (shape_value shape 0 (shown (words_of words.old)))
        (shape_value shape 0 (shown (words_of words.new))) }
{
    let at = room(shape);
    for _turn in from..TURN_LIMIT {
        if !put_row(row, at, words) {
            return Err(Halt::Other);
        }
        match run_steps(step, shape, words) {
            Ok(true) => {}
            Ok(false) => return Ok(()),
            Err(Halt::Fault) => return Err(Halt::Fault),
            Err(Halt::Other) => return Err(Halt::Other),
        }
    }
    Err(Halt::Fault)
}

/// The first two words.
fn two_words(words: &[i64]) -> Option<(i64, i64)>
    ensures first { IfSome result (λ r. words_of words.now 0 ≡ r.0) }
    ensures second { IfSome result (λ r. words_of words.now 1 ≡ r.1) }
{
    match (word_in(words, 0), word_in(words, 1)) {
        (Some(x), Some(y)) => Some((x, y)),
        _ => None,
    }
}

/// Puts the words of the row's names into the places from one on; it tells whether there is room.
fn put_row(row: &[i64], at: usize, words: &mut [i64]) -> bool
    requires { at ≤ 255 }
    ensures there { result ≡ true → HasWords at row.now (words_of words.new) }
    ensures kept { result ≡ true → (i : ℕ) → i < at → words_of words.new i
        ≡ words_of words.old i }
{
    if row.len() > WORDS {
        return false;
    }
    for k in 0..row.len() {
        match put_one(row, k, at, words) {
            Ok(()) => {}
            Err(_) => return false,
        }
    }
    true
}

/// Puts one of them there.
fn put_one(row: &[i64], k: usize, at: usize, words: &mut [i64]) -> Result<(), Halt>
    requires few { k ≤ 128 }
    requires place { at ≤ 255 }
    ensures { AreWords result (words_of words.new)
        (done (with_word (words_of words.old) (at + k) (words_of row.now k))) }
{
    match word_in(row, k) {
        Some(x) => put(at + k, x, words),
        None => Err(Halt::Other),
    }
}
