//! Slots that are read and written. It takes no memory.

ghost use Rattle.std.specs.Prelude.{◌≡◌, ◌+◌, ◌<◌, ℕ, true};
ghost use Rattle.weld_builders.specs.Outcome.{done};
ghost use Rattle.weld_data.specs.Kind.{InRange};
ghost use Rattle.weld_data.specs.Value.{number};
ghost use Rattle.weld_eval.specs.ShortView.{view_short};
ghost use Rattle.weld_eval.specs.Word.{of_word};
ghost use Rattle.weld_turns.specs.Answers.{IsNumberIn, KindAtHand};
ghost use Rattle.weld_turns.specs.CodeView.{shape_value, slots_of, with_slot};

use crate::code::Shape;
use weld_data::Kind;
use weld_eval::short::Short;

/// How many slots there are: a body that takes more isn't made to code.
pub const SLOTS: usize = 64;

/// The number of a slot, where the slot is there: its kind is answered, its word left in its place.
#[inline(always)]
#[tactic(auto, using(crate::proofs::SlotLemmas::at_slot))]
pub fn in_slot(slots: &[Short], i: usize, into: &mut i64) -> Option<Kind>
    ensures { KindAtHand result into.new (done (slots_of slots.now i)) }
{
    if i < slots.len() {
        Some(literal_word(slots[i], into))
    } else {
        None
    }
}

/// This number: its kind is answered, its word left in its place.
#[inline(always)]
pub fn literal_word(n: Short, into: &mut i64) -> Kind
    ensures { IsNumberIn result into.new (done (view_short n)) }
{
    *into = n.word;
    n.kind
}

/// Puts a number into a slot; it tells whether the slot is there.
#[inline(always)]
pub fn put_in(slots: &mut [Short], to: usize, kind: Kind, word: i64) -> bool
    requires { InRange kind (of_word kind word) }
    ensures { result ≡ true → slots_of slots.new ≡ with_slot (slots_of slots.old) to
        (number kind (of_word kind word)) }
{
    if to < slots.len() {
        slots[to] = Short { kind, word };
        true
    } else {
        false
    }
}

/// Moves a state to the first slots from where it stands; it tells whether the slots are there. Two fields are moved without a loop.
#[inline(always)]
#[tactic(auto, using(crate::proofs::SlotLemmas::one_moved, crate::proofs::SlotLemmas::two_moved, crate::proofs::Shapes::fields_moved))]
pub fn move_state(shape: Shape, first: usize, slots: &mut [Short]) -> bool
    ensures { result ≡ true → shape_value shape 0 (slots_of slots.new)
        ≡ shape_value shape first (slots_of slots.old) }
{
    match shape {
        Shape::One => {
            if first >= slots.len() {
                return false;
            }
            slots[0] = slots[first];
            true
        }
        Shape::Fields(2) => {
            if slots.len() < 2 || first >= slots.len() - 1 {
                return false;
            }
            let (x, y) = (slots[first], slots[first + 1]);
            slots[0] = x;
            slots[1] = y;
            true
        }
        Shape::Fields(count) => move_fields(count as usize, first, slots),
    }
}

/// Moves so many numbers to the first slots, one after another; it tells whether the slots are there.
#[inline(never)]
fn move_fields(count: usize, first: usize, slots: &mut [Short]) -> bool
    ensures { result ≡ true → (j : ℕ) → j < count → slots_of slots.new j
        ≡ slots_of slots.old (first + j) }
{
    if first > slots.len() || count > slots.len() - first {
        return false;
    }
    for k in 0..count {
        slots[k] = slots[first + k];
    }
    true
}
