//! Rows that are picked by their places, so that what may fault is worked out on those rows alone that reach it.

ghost use Rattle.std.specs.Prelude.{◌≡◌, ◌<◌, ℕ, true, false, length, get_or, IfSome};
ghost use Rattle.weld_data.specs.Kind.{IsInteger};
ghost use Rattle.weld_builders.specs.Outcome.{done};
ghost use Rattle.weld_meaning.specs.Evaluation.{truth_of};
ghost use Rattle.weld_eval.specs.ShortView.{view_short};
ghost use Rattle.weld_blocks.specs.Numbers.{MayGive, count_of, number_at};
ghost use Rattle.weld_blocks.specs.Picked.{IsPicked, StandsAt, Where};

use crate::gather::{Gives, gather};
use crate::leaves::constant;
use crate::numbers::Numbers;
use std::alloc::Global;
use weld_data::{BinOp, Kind, MergeOp, Num, neutral};
use weld_eval::short::Short;
use weld_tree::{Expr, Form, Known, LeafForm, TwoForm, TyForm};

/// The numbers of places.
#[derive(Clone, Copy)]
struct Picks<'a> {
    numbers: &'a Numbers,
    places: &'a [usize],
}

impl<'a> Gives for Picks<'a> {
    ghost gives = { λ p place v. IsPicked p.numbers.now p.places.now place v };

    #[inline(always)]
    fn at(&self, place: usize) -> Option<Short> {
        if place >= self.places.len() {
            return None;
        }
        let at = place_at(self.places, place);
        if at < self.numbers.len() {
            Some(self.numbers.at(at))
        } else {
            None
        }
    }
}

/// The numbers of these places, so many, where each is there.
pub(crate) fn picked(
    numbers: &Numbers,
    places: &[usize],
    count: usize,
    alloc: Global,
) -> Option<Numbers>
    ensures { MayGive (λ place v. IsPicked numbers.now places.now place v) result count }
{
    let of = Picks { numbers, places };
    gather(alloc, count, &of)
}

/// The place that was picked at a place. It takes no memory.
#[inline(always)]
pub(crate) fn place_at(places: &[usize], at: usize) -> usize
    requires { at < length places.now }
    ensures { result ≡ get_or places.now at 0 }
{
    places[at]
}

/// Whether the number at a place may be this truth value. It takes no memory.
#[tactic(auto, using(crate::proofs::PickLemmas::not_there))]
#[inline(always)]
fn may_be(truths: &Numbers, place: usize, truth: bool) -> bool
    requires { place < count_of truths.now }
    ensures { result ≡ false → truth_of (number_at truths.now place) ≡ done truth → ⊥ }
{
    if truths.kind != Kind::Bool {
        return false;
    }
    if truths.items[place] == 1 {
        truth
    } else {
        !truth
    }
}

/// The places among so many at which the truth value is this one, and of each place how many such are before it.
pub(crate) fn places_where(
    truths: &Numbers,
    truth: bool,
    count: usize,
    alloc: Global,
) -> Option<(Vec<usize>, Vec<usize>)> {
    let mut places = Vec::new(alloc);
    let mut ranks = Vec::new(alloc);
    for place in 0..count.min(truths.len()) {
        match ranks.push(places.len()) {
            Ok(()) => {}
            Err(_) => return None,
        }
        if may_be(truths, place, truth) {
            match places.push(place) {
                Ok(()) => {}
                Err(_) => return None,
            }
        }
    }
    Some((places, ranks))
}

/// Whether at none of so many places the truth value is this one. It takes no memory.
#[tactic(auto, using(crate::proofs::PickLemmas::nowhere_more))]
pub(crate) fn is_nowhere(truths: &Numbers, truth: bool, count: usize) -> bool
    ensures { result ≡ true → (place : ℕ) → place < count
        → truth_of (number_at truths.now place) ≡ done truth → ⊥ }
{
    if truths.len() < count {
        return false;
    }
    for place in 0..count {
        if may_be(truths, place, truth) {
            return false;
        }
    }
    true
}

/// Numbers of picked places, back where they were picked; elsewhere one of them stands.
#[derive(Clone, Copy)]
struct AtPicked<'a> {
    numbers: &'a Numbers,
    places: &'a [usize],
    ranks: &'a [usize],
    truths: &'a Numbers,
    truth: bool,
}

impl<'a> Gives for AtPicked<'a> {
    ghost gives = { λ s place v. Where s.truths.now s.truth (λ j w. StandsAt s.numbers.now s.places.now j w) place v };

    #[inline(always)]
    fn at(&self, place: usize) -> Option<Short> {
        if place >= self.truths.len() || place >= self.ranks.len() {
            return None;
        }
        if may_be(self.truths, place, self.truth) {
            stands_at(self.numbers, self.places, self.ranks[place], place)
        } else if self.numbers.len() > 0 {
            Some(self.numbers.at(0))
        } else {
            None
        }
    }
}

/// The number that stands where a place was picked, if it was picked as the one of this rank.
#[inline(always)]
fn stands_at(numbers: &Numbers, places: &[usize], rank: usize, place: usize) -> Option<Short>
    ensures { IfSome result (λ n. StandsAt numbers.now places.now place (view_short n)) }
{
    if rank < places.len() && rank < numbers.len() && place_at(places, rank) == place {
        Some(numbers.at(rank))
    } else {
        None
    }
}

/// The numbers of picked places, so many in all, back where they were picked.
pub(crate) fn spread(
    numbers: &Numbers,
    places: &[usize],
    ranks: &[usize],
    truths: &Numbers,
    truth: bool,
    count: usize,
    alloc: Global,
) -> Option<Numbers>
    ensures { MayGive (λ j v. Where truths.now truth (λ i w. StandsAt numbers.now places.now i w) j
        v)
        result count }
{
    let of = AtPicked {
        numbers,
        places,
        ranks,
        truths,
        truth,
    };
    gather(alloc, count, &of)
}

/// So many numbers of the kind that is noted at an expression.
pub(crate) fn any_numbers(e: &Expr, count: usize, alloc: Global) -> Option<Numbers>
    ensures { MayGive (λ j v. Unit {0}) result count }
{
    match &e.ty {
        Known::Is(ty) => match &ty.form {
            TyForm::Scalar(Kind::Bool) => constant(Short::of_truth(false), count, alloc),
            TyForm::Scalar(kind) => constant(zero(*kind), count, alloc),
            _ => None,
        },
        Known::Blank => None,
    }
}

/// The 0 of a kind of integers.
fn zero(kind: Kind) -> Short
    requires { IsInteger kind }
{
    Short::of_num(Num {
        kind,
        value: neutral(MergeOp::Add, kind),
    })
}

/// Whether working the expression out might fault: it divides by something else than a literal, or looks up. It decides how an arm
/// is worked out and no more.
pub fn may_fault(e: &Expr) -> bool {
    match &e.form {
        Form::Leaf(_) => false,
        Form::One(_, part) => may_fault(part),
        Form::Two(TwoForm::Binary(BinOp::Div | BinOp::Rem), first, second) => {
            !is_divisor(second) || may_fault(first)
        }
        Form::Two(TwoForm::LookUp, _, _) => true,
        Form::Two(_, first, second) => may_fault(first) || may_fault(second),
        Form::Three(_, first, second, third) => {
            may_fault(first) || may_fault(second) || may_fault(third)
        }
        Form::Let(_, first, body) => may_fault(first) || may_fault(body),
        _ => true,
    }
}

/// Whether it is a number other than 0.
fn is_divisor(e: &Expr) -> bool {
    match &e.form {
        Form::Leaf(LeafForm::Int(_, value)) => *value != 0,
        _ => false,
    }
}
