//! The lets that are put in their place.

ghost use Rattle.std.specs.Prelude.{◌≡◌};
ghost use Rattle.weld_substitution.specs.Redex.{is_known_value, is_redex, is_used_well, may_stand, stands};

use crate::loops_within::has_loop;
use crate::plain::is_plain;
use crate::spots::spot_of;
use weld_substitution::put_anywhere::Spot;
use weld_substitution::uses_of;
use weld_tree::{Expr, Form, Known, Sym};

/// Whether the expression is a `let` of a plain value, or one whose name is used once in a place
/// where the value may stand. It takes no memory.
pub(crate) fn is_redex(e: &Expr) -> bool
    ensures { result ≡ is_redex e.now }
{
    match &e.form {
        Form::Let(binder, value, body) => is_plain(value) || is_used_well(body, binder.sym, value),
        Form::Leaf(_) | Form::One(_, _) | Form::Two(_, _, _) | Form::Three(_, _, _, _) => false,
        Form::Many(_, _) | Form::For(_, _, _, _, _, _) | Form::Iterate(_, _, _) => false,
    }
}

/// Whether the name is used once in the body, on a way that is taken once and always, where the
/// value may stand.
#[tactic(auto, using(crate::proofs::Once::once_is))]
fn is_used_well(body: &Expr, name: Sym, value: &Expr) -> bool
    ensures { result ≡ is_used_well name.0 value.now body.now }
{
    uses_of(body, name) == 1 && stands(value, spot_of(body, name, Spot::Other))
}

fn stands(value: &Expr, spot: Option<Spot>) -> bool
    ensures { result ≡ stands value.now spot }
{
    match spot {
        Some(spot) => may_stand(value, spot),
        None => false,
    }
}

/// Whether the value may stand at such a spot: one with a loop as a leg or under `result` alone, a
/// builder not under a field access.
fn may_stand(value: &Expr, spot: Spot) -> bool
    ensures { result ≡ may_stand value.now spot }
{
    match spot {
        Spot::Leg | Spot::Finish => true,
        Spot::Field => !has_loop(value) && is_known_value(&value.ty),
        Spot::Other => !has_loop(value),
    }
}

/// Whether the type is known, and no builder stands in it.
fn is_known_value(known: &Known) -> bool
    ensures { result ≡ is_known_value known.now }
{
    match known {
        Known::Blank => false,
        Known::Is(ty) => ty.is_builder_free(),
    }
}
