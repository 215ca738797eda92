//! Which leg of a loop stands twice.

ghost use Rattle.std.specs.Prelude.{◌≡◌, ◌<◌, length, map, IfSome, option_map};
ghost use Rattle.weld_tree.specs.ExprTree.{pack_legs};
ghost use Rattle.weld_tree.specs.ExprView.{view_leg};
ghost use Rattle.weld_horizontal.specs.Twice.{is_that, leg_name, name_of, place_in, place_of, twice};
ghost use Rattle.weld_horizontal.specs.Doubles.{as_places};

use weld_tree::{Expr, Form, LeafForm, Leg, Sym};

/// Two places in a list of legs, from 0: of a leg, and of the next leg that is the same name.
#[derive(Clone, Copy)]
pub(crate) struct LegPlaces {
    pub(crate) first: usize,
    pub(crate) second: usize,
}

/// The first whole leg that is a name which stands again, and where it stands again first. It takes
/// no memory.
#[tactic(auto, using(crate::proofs::PlaceLemmas::unmoved, crate::proofs::PlaceLemmas::twice_found, crate::proofs::PlaceLemmas::twice_missed, crate::proofs::PlaceLemmas::twice_none))]
pub(crate) fn twice(legs: &[Leg]) -> Option<LegPlaces>
    ensures value { as_places result ≡ twice (pack_legs (map view_leg legs.now)) }
    ensures order { IfSome result (λ p. p.first < p.second) }
    ensures within { IfSome result (λ p. p.second < length legs.now) }
{
    for (i, leg) in legs.iter().enumerate() {
        if let Some(behind) = place_of(leg, &legs[i + 1..]) {
            return Some(LegPlaces {
                first: i,
                second: i + 1 + behind,
            });
        }
    }
    None
}

/// The first place of a whole leg that is the same name as this one, if this one is a name.
fn place_of(leg: &Leg, legs: &[Leg]) -> Option<usize>
    ensures value { result ≡ place_of (leg_name (view_leg leg.now))
        (pack_legs (map view_leg legs.now)) }
    ensures within { IfSome result (λ n. n < length legs.now) }
{
    match leg_name(leg) {
        Some(name) => place_in(name, legs),
        None => None,
    }
}

/// The first place of a whole leg that is the name.
#[tactic(auto, using(crate::proofs::PlaceLemmas::unshifted, crate::proofs::PlaceLemmas::place_found, crate::proofs::PlaceLemmas::place_missed, crate::proofs::PlaceLemmas::place_none))]
fn place_in(name: Sym, legs: &[Leg]) -> Option<usize>
    ensures value { result ≡ place_in name.0 (pack_legs (map view_leg legs.now)) }
    ensures within { IfSome result (λ n. n < length legs.now) }
{
    for (i, leg) in legs.iter().enumerate() {
        if is_that(name, leg) {
            return Some(i);
        }
    }
    None
}

/// Whether the leg is a whole one that is the name.
fn is_that(name: Sym, leg: &Leg) -> bool
    ensures { result ≡ is_that name.0 (leg_name (view_leg leg.now)) }
{
    match leg_name(leg) {
        Some(other) => name.0 == other.0,
        None => false,
    }
}

/// The name that a whole leg is.
fn leg_name(leg: &Leg) -> Option<Sym>
    ensures { option_map (λ s. s.0) result ≡ leg_name (view_leg leg.now) }
{
    match leg {
        Leg::Whole(e) => name_of(e),
        Leg::Strided(_, _, _, _) => None,
    }
}

/// The name that the expression is.
fn name_of(e: &Expr) -> Option<Sym>
    ensures { option_map (λ s. s.0) result ≡ name_of e.now }
{
    match &e.form {
        Form::Leaf(LeafForm::Name(name)) => Some(*name),
        Form::Leaf(_) | Form::One(_, _) | Form::Two(_, _, _) | Form::Three(_, _, _, _) => None,
        Form::Many(_, _) | Form::Let(_, _, _) => None,
        Form::For(_, _, _, _, _, _) | Form::Iterate(_, _, _) => None,
    }
}
