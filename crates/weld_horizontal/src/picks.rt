//! The rule of fields of structs that are made there.

ghost use Rattle.std.specs.Prelude.{◌≡◌, true};
ghost use Rattle.weld_tree.specs.ExprTree.{ExprTree, pack_exprs};
ghost use Rattle.weld_horizontal.specs.Picked.{has_nth, is_pick, is_pick_from, made_of, nth_or, picked, picked_from};

use crate::plain::all_plain;
use std::alloc::{AllocError, Global};
use std::mem;
use weld_rewriting::sweep::Rule;
use weld_tree::{Expr, Exprs, Form, ManyForm, OneForm};

/// A field of a struct that is made there of plain expressions is the expression of that field.
#[derive(Clone, Copy)]
pub struct Picks;

impl Rule for Picks {
    ghost use Rattle.weld_horizontal.specs.Doubles.{picks_rule};

    ghost rule = { λ _. picks_rule };

    fn try_at(&self, alloc: Global, e: &mut Expr) -> Result<bool, AllocError> {
        if !is_pick(&*e) {
            return Ok(false);
        }
        pick(alloc, e);
        Ok(true)
    }
}

/// Whether the expression is such a field. It takes no memory.
fn is_pick(e: &Expr) -> bool
    ensures { result ≡ is_pick e.now }
{
    match &e.form {
        Form::One(OneForm::Field(number), part) => has_plain(part, *number),
        Form::Leaf(_) | Form::One(_, _) | Form::Two(_, _, _) | Form::Three(_, _, _, _) => false,
        Form::Many(_, _) | Form::Let(_, _, _) => false,
        Form::For(_, _, _, _, _, _) | Form::Iterate(_, _, _) => false,
    }
}

/// Whether the expression is a struct that is made of plain expressions and has that field.
fn has_plain(e: &Expr, number: u32) -> bool
    ensures { result ≡ is_pick_from (Some number) (made_of e.now) }
{
    match &e.form {
        Form::Many(ManyForm::Struct, parts) => has_nth(parts, number)
            && all_plain(parts.as_slice()),
        Form::Many(_, _) | Form::Leaf(_) | Form::One(_, _) | Form::Two(_, _, _) => false,
        Form::Three(_, _, _, _) | Form::Let(_, _, _) => false,
        Form::For(_, _, _, _, _, _) | Form::Iterate(_, _, _) => false,
    }
}

#[tactic(auto, using(crate::proofs::RowLemmas::nth_there, crate::proofs::RowLemmas::nth_missing))]
fn has_nth(parts: &Exprs, number: u32) -> bool
    ensures { result ≡ has_nth number (pack_exprs parts.now) }
{
    if (number as usize) < parts.len() {
        return true;
    }
    false
}

/// The expression of the field takes the place of the field.
fn pick(alloc: Global, e: &mut Expr)
    requires { is_pick e.old ≡ true }
    ensures { e.new ≡ picked e.old }
{
    let Form::One(one, part) = &mut e.form else {
        unreachable!();
    };
    let OneForm::Field(number) = one else {
        unreachable!();
    };
    let number = *number;
    let item = take_from(alloc, part, number);
    *e = item;
}

/// The expression of that field of a struct that is made there, which is spent.
fn take_from(alloc: Global, part: &mut Expr, number: u32) -> Expr
    requires { is_pick_from (Some number) (made_of part.old) ≡ true }
    ensures { (d : ExprTree) → result ≡ picked_from d (Some number) (made_of part.old) }
{
    let Form::Many(_, parts) = &mut part.form else {
        unreachable!();
    };
    take_nth(alloc, parts, number)
}

/// The expression of that number, from 0. The others are spent.
#[tactic(auto, using(crate::proofs::RowLemmas::nth_below, crate::proofs::RowLemmas::nth_read))]
fn take_nth(alloc: Global, parts: &mut Exprs, number: u32) -> Expr
    requires { has_nth number (pack_exprs parts.old) ≡ true }
    ensures { (d : ExprTree) → result ≡ nth_or d number (pack_exprs parts.old) }
{
    let mut items = mem::replace(parts, Exprs::new(alloc)).into_vec();
    items.remove(number as usize)
}
