//! Expressions put under other numbers in place.
ghost use Rattle.std.specs.Prelude.{◌≡◌, map, IfOk};
ghost use Rattle.weld_tree.specs.ExprTree.{pack_exprs, pack_legs, At};
ghost use Rattle.weld_tree.specs.ExprView.{view_form, view_leaf, view_leg};
ghost use Rattle.weld_objects.specs.Renamed.{renamed, renamed_leaf, renamed_binder, all_renamed, leg_renamed, legs_renamed};
ghost use Rattle.weld_objects.specs.Numbering.{number_in};

use crate::renaming::numbering::Numbering;
use std::alloc::{AllocError, Global};
use weld_tree::{Binder, Expr, Exprs, Form, LeafForm, Leg, Legs};

/// Puts each name and each binder of the expression under the number that the map gives it. It takes
/// no memory.
#[cycle(rename)]
pub fn rename(e: &mut Expr, by: &Numbering)
    ensures { e.new ≡ renamed (number_in by.now) e.old }
{
    rename_form(&mut e.form, by);
}

#[cycle(rename)]
fn rename_form(form: &mut Form, by: &Numbering)
    ensures { (at : At) → view_form form.new at ≡ renamed (number_in by.now)
        (view_form form.old at) }
{
    match form {
        Form::Leaf(leaf) => rename_leaf(leaf, by),
        Form::One(_, part) => rename(part, by),
        Form::Two(_, first, second) => rename_two(first, second, by),
        Form::Three(_, first, second, third) => {
            rename_two(first, second, by);
            rename(third, by);
        }
        Form::Many(_, parts) => rename_all(parts, by),
        Form::Let(binder, value, body) => {
            rename_binder(binder, by);
            rename_two(value, body, by);
        }
        Form::For(legs, builder, b, n, x, body) => {
            rename_legs(legs, by);
            rename_two(builder, body, by);
            rename_binders(b, n, x, by);
        }
        Form::Iterate(state, binder, body) => {
            rename_binder(binder, by);
            rename_two(state, body, by);
        }
    }
}

/// Puts a name under its new number.
fn rename_leaf(leaf: &mut LeafForm, by: &Numbering)
    ensures { view_leaf leaf.new ≡ renamed_leaf (number_in by.now) (view_leaf leaf.old) }
{
    match leaf {
        LeafForm::Name(sym) => *sym = by.number(*sym),
        LeafForm::Int(_, _) | LeafForm::Truth(_) | LeafForm::Chars(_) | LeafForm::Builder(_) => {}
    }
}

fn rename_binder(binder: &mut Binder, by: &Numbering)
    ensures { binder.new ≡ renamed_binder (number_in by.now) binder.old }
{
    binder.sym = by.number(binder.sym);
}

fn rename_binders(b: &mut Binder, n: &mut Binder, x: &mut Binder, by: &Numbering)
    ensures builder { b.new ≡ renamed_binder (number_in by.now) b.old }
    ensures number { n.new ≡ renamed_binder (number_in by.now) n.old }
    ensures row { x.new ≡ renamed_binder (number_in by.now) x.old }
{
    rename_binder(b, by);
    rename_binder(n, by);
    rename_binder(x, by);
}

#[cycle(rename)]
fn rename_two(first: &mut Expr, second: &mut Expr, by: &Numbering)
    ensures first { first.new ≡ renamed (number_in by.now) first.old }
    ensures second { second.new ≡ renamed (number_in by.now) second.old }
{
    rename(first, by);
    rename(second, by);
}

#[cycle(rename)]
fn rename_all(parts: &mut Exprs, by: &Numbering)
    ensures { pack_exprs parts.new ≡ all_renamed (number_in by.now) (pack_exprs parts.old) }
{
    rename_each(parts.as_mut_slice(), by);
}

#[cycle(rename)]
fn rename_each(parts: &mut [Expr], by: &Numbering)
    ensures { parts.new ≡ map (renamed (number_in by.now)) parts.old }
{
    for part in parts.iter_mut() {
        rename(part, by);
    }
}

#[cycle(rename)]
fn rename_legs(legs: &mut Legs, by: &Numbering)
    ensures { pack_legs legs.new ≡ legs_renamed (number_in by.now) (pack_legs legs.old) }
{
    rename_each_leg(legs.as_mut_slice(), by);
}

#[cycle(rename)]
fn rename_each_leg(legs: &mut [Leg], by: &Numbering)
    ensures { map view_leg legs.new ≡ map (leg_renamed (number_in by.now)) (map view_leg legs.old) }
{
    for leg in legs.iter_mut() {
        rename_leg(leg, by);
    }
}

#[cycle(rename)]
fn rename_leg(leg: &mut Leg, by: &Numbering)
    ensures { view_leg leg.new ≡ leg_renamed (number_in by.now) (view_leg leg.old) }
{
    match leg {
        Leg::Whole(vector) => rename(vector, by),
        Leg::Strided(vector, start, end, stride) => {
            rename_two(vector, start, by);
            rename_two(end, stride, by);
        }
    }
}

/// A copy of the expression under other numbers: each name and each binder has the number that the
/// map gives it.
pub fn renamed_copy(alloc: Global, e: &Expr, by: &Numbering) -> Result<Box<Expr>, AllocError>
    ensures { IfOk result (λ copy. copy.value ≡ renamed (number_in by.now) e.now) }
{
    let mut copy = e.boxed_copy(alloc)?;
    rename(&mut copy, by);
    Ok(copy)
}
