//! Where a pair is used by its parts.

ghost use Rattle.std.specs.Prelude.{◌≡◌, ◌==◌, true, IfOk, option_map};
ghost use Rattle.weld_tree.specs.declared.sym.Sym.{Sym};
ghost use Rattle.weld_tree.specs.ExprTree.{pack_exprs, pack_legs};
ghost use Rattle.weld_tree.specs.ExprView.{view_leg, view_one};
ghost use Rattle.weld_substitution.specs.Uses.{uses};
ghost use Rattle.weld_vertical_struct.specs.Parting.{are_apart, field_taken, is_apart, is_part, is_unnamed, leg_is_apart, legs_are_apart, name_of_field, one_part_is_apart, parted};

use std::alloc::{AllocError, Global};
use weld_rewriting::sweep::{Rule, sweep};
use weld_substitution::{is_use, uses_of};
use weld_tree::{Expr, Exprs, Form, LeafForm, Leg, Legs, OneForm, Sym};

/// The number of the field, where it is a field of the name.
fn field_taken(pair: Sym, one: &OneForm, part: &Expr) -> Option<u32>
    ensures { result ≡ field_taken pair.0 (view_one one.now) part.now }
{
    match one {
        OneForm::Field(number) => {
            if is_use(part, pair) {
                Some(*number)
            } else {
                None
            }
        }
        OneForm::Neg | OneForm::Not | OneForm::Cast(_) | OneForm::Len => None,
        OneForm::Finish | OneForm::Builder(_) => None,
    }
}

/// Whether the expression is a field of the name.
fn is_part(e: &Expr, pair: Sym) -> bool
    ensures { result ≡ is_part pair.0 e.now }
{
    match &e.form {
        Form::One(one, part) => field_taken(pair, one, part).is_some(),
        _ => false,
    }
}

/// Whether the name isn't used in the expression.
#[tactic(auto, using(crate::proofs::Once::none_is))]
pub(crate) fn is_unused(e: &Expr, name: Sym) -> bool
    ensures { result ≡ (uses e.now name.0 == 0) }
{
    uses_of(e, name) == 0
}

/// Whether neither name is used in the expression.
fn is_unnamed(e: &Expr, pair: Sym, name: Sym) -> bool
    ensures { result ≡ is_unnamed pair.0 name.0 e.now }
{
    is_unused(e, pair) && is_unused(e, name)
}

/// Whether the pair is used by its first two fields alone, of which no field is taken, and the name
/// not at all; and neither in the body of a lambda. It takes no memory.
#[cycle(apart)]
pub(crate) fn is_apart(e: &Expr, pair: Sym, name: Sym) -> bool
    ensures { result ≡ is_apart pair.0 name.0 e.now }
{
    match &e.form {
        Form::Leaf(_) => !is_use(e, pair) && !is_use(e, name),
        Form::One(one, part) => one_is_apart(one, part, pair, name),
        Form::Two(_, first, second) | Form::Let(_, first, second) => {
            is_apart(first, pair, name) && is_apart(second, pair, name)
        }
        Form::Three(_, first, second, third) => {
            is_apart(first, pair, name)
                && (is_apart(second, pair, name) && is_apart(third, pair, name))
        }
        Form::Many(_, parts) => are_apart(parts, pair, name),
        Form::For(legs, builder, _, _, _, body) => {
            legs_are_apart(legs, pair, name)
                && (is_apart(builder, pair, name) && is_unnamed(body, pair, name))
        }
        Form::Iterate(state, _, body) => {
            is_apart(state, pair, name) && is_unnamed(body, pair, name)
        }
    }
}

#[cycle(apart)]
fn one_is_apart(one: &OneForm, part: &Expr, pair: Sym, name: Sym) -> bool
    ensures { result ≡ one_part_is_apart pair.0 name.0 (view_one one.now) part.now }
{
    match field_taken(pair, one, part) {
        Some(number) => number == 0 || number == 1,
        None => {
            !(matches!(one, OneForm::Field(_)) && is_part(part, pair)) && is_apart(part, pair, name)
        }
    }
}

#[cycle(apart)]
#[tactic(auto, using(crate::proofs::Left::apart_there, crate::proofs::Left::apart_all))]
fn are_apart(parts: &Exprs, pair: Sym, name: Sym) -> bool
    ensures { result ≡ are_apart pair.0 name.0 (pack_exprs parts.now) }
{
    for part in parts.as_slice() {
        if !is_apart(part, pair, name) {
            return false;
        }
    }
    true
}

#[cycle(apart)]
fn leg_is_apart(leg: &Leg, pair: Sym, name: Sym) -> bool
    ensures { result ≡ leg_is_apart pair.0 name.0 (view_leg leg.now) }
{
    match leg {
        Leg::Whole(e) => is_apart(e, pair, name),
        Leg::Strided(e, from, to, by) => {
            is_apart(e, pair, name)
                && (is_apart(from, pair, name)
                    && (is_apart(to, pair, name) && is_apart(by, pair, name)))
        }
    }
}

#[cycle(apart)]
#[tactic(auto, using(crate::proofs::Left::leg_apart_there, crate::proofs::Left::legs_apart_all))]
fn legs_are_apart(legs: &Legs, pair: Sym, name: Sym) -> bool
    ensures { result ≡ legs_are_apart pair.0 name.0 (pack_legs legs.now) }
{
    for leg in legs.as_slice() {
        if !leg_is_apart(leg, pair, name) {
            return false;
        }
    }
    true
}

/// A field of the pair becomes the name of the part: the given name for the part of that number, and
/// the pair's own for the other.
#[derive(Clone, Copy)]
struct Fields {
    pair: Sym,
    name: Sym,
    number: u32,
}

impl Rule for Fields {
    ghost use Rattle.weld_vertical_struct.specs.Parting.{fields_rule};

    ghost rule = { λ f. fields_rule f.pair.0 f.name.0 f.number };

    fn try_at(&self, alloc: Global, e: &mut Expr) -> Result<bool, AllocError> {
        let Some(name) = self.name_for(&*e) else {
            return Ok(false);
        };
        e.form = Form::Leaf(LeafForm::Name(name));
        Ok(true)
    }
}

impl Fields {
    /// The name for the expression, where it is a field of the pair.
    fn name_for(&self, e: &Expr) -> Option<Sym>
        ensures { option_map (λ (y : Sym). y.0) result ≡ name_of_field self.now.pair.0
            self.now.name.0 self.now.number e.now }
    {
        match &e.form {
            Form::One(one, part) => match field_taken(self.pair, one, part) {
                Some(number) if number == self.number => Some(self.name),
                Some(_) => Some(self.pair),
                None => None,
            },
            _ => None,
        }
    }
}

/// Puts names in the place of the pair's parts. It fails for want of memory alone; the expression
/// may be anything then.
#[tactic(auto, using(crate::proofs::Swept::swept_parts))]
pub(crate) fn part(
    alloc: Global,
    e: &mut Expr,
    pair: Sym,
    name: Sym,
    number: u32,
) -> Result<(), AllocError>
    requires { is_apart pair.0 name.0 e.old ≡ true }
    ensures { IfOk result (λ _. e.new ≡ parted pair.0 name.0 number e.old) }
{
    let rule = Fields { pair, name, number };
    sweep(alloc, &rule, e)?;
    Ok(())
}
