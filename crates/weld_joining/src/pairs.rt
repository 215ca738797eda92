//! Two lets of loops over one name or of their results, and results of names between them.

ghost use Rattle.std.specs.Prelude.{◌≡◌, is_some, option_map};
ghost use Rattle.weld_tree.specs.ExprTree.{pack_legs};
ghost use Rattle.weld_tree.specs.ExprView.{view_leaf, view_leg, view_one};
ghost use Rattle.weld_substitution.specs.Redex.{is_chain, is_field, is_name_leaf, noted};
ghost use Rattle.weld_joining.specs.Between.{is_named_result, is_unused_next, may_come_up};
ghost use Rattle.weld_joining.specs.Joining.{are_beside, is_followed, is_known, is_pair, leg_name, loop_over, name_in, name_of, only_name, over, result_of, same_name};

use weld_substitution::uses_of;
use weld_tree::{Binder, Expr, Form, Known, LeafForm, Leg, Legs, OneForm, Sym, TyForm};

/// Whether the expression is two lets, each of a loop over one name or of its result, and between
/// them, perhaps, lets of results of names with field accesses, where the second value uses none of
/// the names that the lets from the first on bind. It takes no memory.
pub(crate) fn is_pair(e: &Expr) -> bool
    ensures { result ≡ is_pair e.now }
{
    match &e.form {
        // What follows is gone over behind a loop alone, so each `let` of a result is once in all.
        Form::Let(binder, value, body) => {
            runs_over_a_name(value) && (is_followed(binder, value, body) && may_come_up(body))
        }
        _ => false,
    }
}

/// Whether the expression is a loop over one name, or the result of such a loop.
fn runs_over_a_name(e: &Expr) -> bool
    ensures { result ≡ is_some (over e.now) }
{
    match over(e) {
        Some(_) => true,
        None => false,
    }
}

/// Whether the first `let` from there on that binds no result of a name is such a second one.
fn is_followed(binder: &Binder, value: &Expr, body: &Expr) -> bool
    ensures { result ≡ is_followed binder.now value.now body.now }
{
    match &body.form {
        Form::Let(_, other, rest) => {
            if is_named_result(other) {
                is_followed(binder, value, rest)
            } else {
                are_beside(binder, value, other)
            }
        }
        _ => false,
    }
}

// ---- lets between

/// Whether there is such a `let`, and its value uses none of the names bound before it.
fn may_come_up(e: &Expr) -> bool
    ensures { result ≡ may_come_up e.now }
{
    match &e.form {
        Form::Let(binder, value, body) => {
            if is_named_result(value) {
                is_unused_next(binder.sym, body) && may_come_up(body)
            } else {
                true
            }
        }
        _ => false,
    }
}

/// Whether there is such a `let`, and its value doesn't use the name.
#[tactic(auto, using(crate::proofs::Unused::unused_is))]
fn is_unused_next(sym: Sym, e: &Expr) -> bool
    ensures { result ≡ is_unused_next sym.0 e.now }
{
    match &e.form {
        Form::Let(_, value, body) => {
            if is_named_result(value) {
                is_unused_next(sym, body)
            } else {
                uses_of(value, sym) == 0
            }
        }
        _ => false,
    }
}

/// Whether the expression is the result of a name, or of a name followed by field accesses.
pub(crate) fn is_named_result(e: &Expr) -> bool
    ensures { result ≡ is_named_result e.now }
{
    match &e.form {
        Form::One(OneForm::Finish, part) => is_chain(part),
        _ => false,
    }
}

/// Whether the expression is a name, or a name followed by field accesses.
fn is_chain(e: &Expr) -> bool
    ensures { result ≡ is_chain e.now }
{
    match &e.form {
        Form::Leaf(leaf) => is_name(leaf),
        Form::One(one, part) => is_field(one) && is_chain(part),
        Form::Two(_, _, _) | Form::Three(_, _, _, _) | Form::Many(_, _) => false,
        Form::Let(_, _, _) | Form::For(_, _, _, _, _, _) | Form::Iterate(_, _, _) => false,
    }
}

fn is_name(leaf: &LeafForm) -> bool
    ensures { result ≡ is_name_leaf (view_leaf leaf.now) }
{
    match leaf {
        LeafForm::Name(_) => true,
        LeafForm::Int(_, _) | LeafForm::Truth(_) => false,
        LeafForm::Chars(_) | LeafForm::Builder(_) => false,
    }
}

fn is_field(one: &OneForm) -> bool
    ensures { result ≡ is_field (view_one one.now) }
{
    match one {
        OneForm::Field(_) => true,
        OneForm::Neg | OneForm::Not | OneForm::Cast(_) | OneForm::Len => false,
        OneForm::Finish | OneForm::Builder(_) => false,
    }
}

// ---- both values

#[tactic(auto, using(crate::proofs::Unused::unused_is))]
fn are_beside(binder: &Binder, value: &Expr, other: &Expr) -> bool
    ensures { result ≡ are_beside binder.now value.now other.now }
{
    same_name(over(value), over(other)) && uses_of(other, binder.sym) == 0
}

fn same_name(one: Option<Sym>, other: Option<Sym>) -> bool
    ensures { result ≡ same_name (option_map (λ s. s.0) one) (option_map (λ s. s.0) other) }
{
    match one {
        Some(name) => match other {
            Some(other) => name.0 == other.0,
            None => false,
        },
        None => false,
    }
}

/// The name over which the loop runs that the expression is, or whose result it is.
fn over(e: &Expr) -> Option<Sym>
    ensures { option_map (λ s. s.0) result ≡ over e.now }
{
    match &e.form {
        Form::One(OneForm::Finish, part) => loop_over(part),
        _ => loop_over(e),
    }
}

fn loop_over(e: &Expr) -> Option<Sym>
    ensures { option_map (λ s. s.0) result ≡ loop_over e.now }
{
    match &e.form {
        Form::For(legs, start, _, _, _, _) => {
            if is_noted(start) {
                only_name(legs)
            } else {
                None
            }
        }
        _ => None,
    }
}

/// Whether its type is noted.
fn is_noted(e: &Expr) -> bool
    ensures { result ≡ is_known (noted e.now) }
{
    match &e.ty {
        Known::Is(_) => true,
        Known::Blank => false,
    }
}

/// Whether it is a result.
pub(crate) fn is_result(e: &Expr) -> bool
    ensures { result ≡ is_some (result_of e.now) }
{
    match &e.form {
        Form::One(OneForm::Finish, _) => true,
        _ => false,
    }
}

/// The name that is the only leg.
fn only_name(legs: &Legs) -> Option<Sym>
    ensures { option_map (λ s. s.0) result ≡ only_name (pack_legs legs.now) }
{
    match legs.as_slice() {
        [leg] => leg_name(leg),
        _ => None,
    }
}

fn leg_name(leg: &Leg) -> Option<Sym>
    ensures { option_map (λ s. s.0) result ≡ leg_name (view_leg leg.now) }
{
    match leg {
        Leg::Whole(e) => name_of(e),
        Leg::Strided(_, _, _, _) => None,
    }
}

fn name_of(e: &Expr) -> Option<Sym>
    ensures { option_map (λ s. s.0) result ≡ name_of e.now }
{
    match &e.form {
        Form::Leaf(leaf) => name_in(&e.ty, leaf),
        _ => None,
    }
}

/// The name, where the node is noted to be a vector.
fn name_in(known: &Known, leaf: &LeafForm) -> Option<Sym>
    ensures { option_map (λ s. s.0) result ≡ name_in known.now (view_leaf leaf.now) }
{
    match known {
        Known::Is(ty) => match (&ty.form, leaf) {
            (TyForm::Vec(_), LeafForm::Name(name)) => Some(*name),
            _ => None,
        },
        Known::Blank => None,
    }
}
