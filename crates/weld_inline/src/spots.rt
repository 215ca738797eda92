//! Where the one use of a name stands.

ghost use Rattle.std.specs.Prelude.{◌≡◌};
ghost use Rattle.weld_substitution.specs.declared.put_anywhere.spot.Spot.TheVariants.{Other};
ghost use Rattle.weld_substitution.specs.Redex.{only_where, or_else, spot_among, spot_below, spot_in_leg, spot_in_legs, spot_of, takes_all, takes_both};
ghost use Rattle.weld_tree.specs.ExprTree.{pack_exprs, pack_legs};
ghost use Rattle.weld_tree.specs.ExprView.{view_leg, view_one, view_three, view_two};

use weld_substitution::put_anywhere::Spot;
use weld_tree::{Expr, Exprs, Form, LeafForm, Leg, Legs, OneForm, Sym, ThreeForm, TwoForm};

/// Where the first use of the name stands, if the way to it passes no lambda, no arm of an `if` and
/// no right side of `&&` or `||`; the expression itself stands at the spot that is handed in. It
/// takes no memory.
#[cycle(spots)]
pub(crate) fn spot_of(e: &Expr, name: Sym, here: Spot) -> Option<Spot>
    ensures { result ≡ spot_of name.0 here e.now }
{
    match &e.form {
        Form::Leaf(LeafForm::Name(other)) => { if name.0 == other.0 { Some(here) } else { None } }
        Form::Leaf(_) => None,
        Form::One(one, part) => spot_of(part, name, spot_below(one)),
        Form::Two(two, first, second) => spot_in_two(*two, first, second, name),
        Form::Three(three, first, second, third) => {
            spot_in_three(*three, first, second, third, name)
        }
        Form::Many(_, parts) => spot_among(parts, name),
        Form::Let(_, value, body) => spot_in_either(value, body, name),
        Form::For(legs, builder, _, _, _, _) => match spot_in_legs(legs, name) {
            Some(spot) => Some(spot),
            None => spot_of(builder, name, Spot::Other),
        },
        Form::Iterate(state, _, _) => spot_of(state, name, Spot::Other),
    }
}

#[cycle(spots)]
fn spot_in_either(first: &Expr, second: &Expr, name: Sym) -> Option<Spot>
    ensures { result ≡ or_else (spot_of name.0 Other first.now) (spot_of name.0 Other second.now) }
{
    match spot_of(first, name, Spot::Other) {
        Some(spot) => Some(spot),
        None => spot_of(second, name, Spot::Other),
    }
}

#[cycle(spots)]
fn spot_in_two(two: TwoForm, first: &Expr, second: &Expr, name: Sym) -> Option<Spot>
    ensures { result
        ≡ or_else (spot_of name.0 Other first.now)
        (only_where (takes_both (view_two two)) (spot_of name.0 Other second.now)) }
{
    if takes_both(two) {
        return spot_in_either(first, second, name);
    }
    spot_of(first, name, Spot::Other)
}

#[cycle(spots)]
fn spot_in_three(
    three: ThreeForm,
    first: &Expr,
    second: &Expr,
    third: &Expr,
    name: Sym,
) -> Option<Spot>
    ensures { result ≡ or_else (spot_of name.0 Other first.now)
        (only_where (takes_all (view_three three))
        (or_else (spot_of name.0 Other second.now) (spot_of name.0 Other third.now))) }
{
    match spot_of(first, name, Spot::Other) {
        Some(spot) => Some(spot),
        None => {
            if takes_all(three) {
                spot_in_either(second, third, name)
            } else {
                None
            }
        }
    }
}

#[cycle(spots)]
fn spot_among(parts: &Exprs, name: Sym) -> Option<Spot>
    ensures { result ≡ spot_among name.0 (pack_exprs parts.now) }
{
    for part in parts.as_slice() {
        if let Some(spot) = spot_of(part, name, Spot::Other) {
            return Some(spot);
        }
    }
    None
}

#[cycle(spots)]
fn spot_in_leg(leg: &Leg, name: Sym) -> Option<Spot>
    ensures { result ≡ spot_in_leg name.0 (view_leg leg.now) }
{
    match leg {
        Leg::Whole(e) => spot_of(e, name, Spot::Leg),
        Leg::Strided(e, from, to, by) => match spot_of(e, name, Spot::Other) {
            Some(spot) => Some(spot),
            None => match spot_of(from, name, Spot::Other) {
                Some(spot) => Some(spot),
                None => spot_in_either(to, by, name),
            },
        },
    }
}

#[cycle(spots)]
fn spot_in_legs(legs: &Legs, name: Sym) -> Option<Spot>
    ensures { result ≡ spot_in_legs name.0 (pack_legs legs.now) }
{
    for leg in legs.as_slice() {
        if let Some(spot) = spot_in_leg(leg, name) {
            return Some(spot);
        }
    }
    None
}

/// Where the part of a node of one part stands.
fn spot_below(one: &OneForm) -> Spot
    ensures { result ≡ spot_below (view_one one.now) }
{
    match one {
        OneForm::Field(_) => Spot::Field,
        OneForm::Finish => Spot::Finish,
        OneForm::Neg | OneForm::Not | OneForm::Cast(_) => Spot::Other,
        OneForm::Len | OneForm::Builder(_) => Spot::Other,
    }
}

/// Whether the second part is evaluated whenever the first gives something.
fn takes_both(two: TwoForm) -> bool
    ensures { result ≡ takes_both (view_two two) }
{
    match two {
        TwoForm::And | TwoForm::Or => false,
        TwoForm::Binary(_) | TwoForm::LookUp | TwoForm::KeyExists | TwoForm::Merge => true,
    }
}

/// Whether all three parts are.
fn takes_all(three: ThreeForm) -> bool
    ensures { result ≡ takes_all (view_three three) }
{
    match three {
        ThreeForm::If => false,
        ThreeForm::Select | ThreeForm::Slice => true,
    }
}
