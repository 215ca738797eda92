//! How often a name is used.

ghost use Rattle.std.specs.Prelude.{◌≡◌, min, map};
ghost use Rattle.weld_tree.specs.ExprTree.{pack_exprs, pack_legs};
ghost use Rattle.weld_tree.specs.ExprView.{view_leg};
ghost use Rattle.weld_substitution.specs.Uses.{uses, uses_in, uses_in_leg, uses_in_legs};

use weld_tree::{Expr, Exprs, Form, LeafForm, Leg, Legs, Sym};

/// How many uses of the name stand in the expression, or the greatest u64 where that is less. It
/// takes no memory.
#[cycle(uses)]
pub fn uses_of(e: &Expr, name: Sym) -> u64
    ensures { result ≡ min (uses e.now name.0) u64.MAX }
{
    match &e.form {
        Form::Leaf(LeafForm::Name(other)) => { if name.0 == other.0 { 1 } else { 0 } }
        Form::Leaf(_) => 0,
        Form::One(_, part) => uses_of(part, name),
        Form::Two(_, first, second)
        | Form::Let(_, first, second)
        | Form::Iterate(first, _, second) => {
            uses_of(first, name).saturating_add(uses_of(second, name))
        }
        Form::Three(_, first, second, third) => uses_of(first, name)
            .saturating_add(uses_of(second, name))
            .saturating_add(uses_of(third, name)),
        Form::Many(_, parts) => uses_in(parts, name),
        Form::For(legs, builder, _, _, _, body) => uses_in_legs(legs, name)
            .saturating_add(uses_of(builder, name))
            .saturating_add(uses_of(body, name)),
    }
}

#[cycle(uses)]
#[tactic(auto, using(crate::proofs::Left::uses_left, crate::proofs::Left::no_uses_left))]
fn uses_in(parts: &Exprs, name: Sym) -> u64
    ensures { result ≡ min (uses_in (pack_exprs parts.now) name.0) u64.MAX }
{
    let mut sum = 0u64;
    for part in parts.as_slice() {
        sum = sum.saturating_add(uses_of(part, name));
    }
    sum
}

#[cycle(uses)]
fn uses_in_leg(leg: &Leg, name: Sym) -> u64
    ensures { result ≡ min (uses_in_leg (view_leg leg.now) name.0) u64.MAX }
{
    match leg {
        Leg::Whole(e) => uses_of(e, name),
        Leg::Strided(e, from, to, by) => uses_of(e, name)
            .saturating_add(uses_of(from, name))
            .saturating_add(uses_of(to, name))
            .saturating_add(uses_of(by, name)),
    }
}

#[cycle(uses)]
#[tactic(auto, using(crate::proofs::Left::leg_uses_left, crate::proofs::Left::no_leg_uses_left))]
fn uses_in_legs(legs: &Legs, name: Sym) -> u64
    ensures { result ≡ min (uses_in_legs (pack_legs legs.now) name.0) u64.MAX }
{
    let mut sum = 0u64;
    for leg in legs.as_slice() {
        sum = sum.saturating_add(uses_in_leg(leg, name));
    }
    sum
}
