//! Values that stand in the rows of a block, each read where it lies.

ghost use Rattle.std.specs.Prelude.{◌≡◌, ◌+◌, IfSome, Some};
ghost use Rattle.weld_builders.specs.Outcome.{done};
ghost use Rattle.weld_data.specs.View.{view_val};
ghost use Rattle.weld_meaning.specs.Environment.{look_for};
ghost use Rattle.weld_meaning.specs.Evaluation.{eval as eval_of};
ghost use Rattle.weld_meaning.specs.Thing.{plain};
ghost use Rattle.weld_eval.specs.LegsView.{lists_of};
ghost use Rattle.weld_eval.specs.RowLists.{row_in};
ghost use Rattle.weld_blocks.specs.Lent.{HasLength, HasLooked, MayHaveLengths, MayHaveLooked};
ghost use Rattle.weld_blocks.specs.Numbers.{number_at, MayBeNumbers};
ghost use Rattle.weld_blocks.specs.Scope.{scope_env, row_env};

use crate::gather::{Gives, gather};
use crate::leaves::only_column;
use crate::numbers::Numbers;
use crate::outer::{element_at, field_of, value_named};
use crate::picking::place_at;
use crate::scalar::whole_number;
use crate::scope::{Rows, Scope};
use std::alloc::Global;
use weld_data::{Column, Val};
use weld_eval::legs::Legs;
use weld_eval::number::number_of;
use weld_eval::short::Short;
use weld_tree::{Expr, Form, LeafForm, OneForm, Sym};

/// What a name, or a field of what one stands for, is on the row of a place, where it is a value that is kept. It takes no memory.
#[tactic(auto, using(crate::proofs::LentLemmas::name_lent, crate::proofs::LentLemmas::field_lent))]
fn value_at<'a>(e: &Expr, scope: &'a Scope<'a>, place: usize) -> Option<&'a Val>
    ensures { IfSome result (λ v. eval_of e.now (scope_env scope.now place)
        ≡ done (plain (view_val v.now))) }
{
    match &e.form {
        Form::Leaf(LeafForm::Name(name)) => match named_at(scope, *name, place) {
            Some(v) => Some(v),
            None => None,
        },
        Form::One(OneForm::Field(field), part) => match value_at(part, scope, place) {
            Some(v) => match field_of(v, *field) {
                Some(w) => Some(w),
                None => None,
            },
            None => None,
        },
        _ => None,
    }
}

/// The value that a name stands for on the row of a place.
#[tactic(auto, using(crate::proofs::LentLemmas::let_lent, crate::proofs::LentLemmas::rows_lent, crate::proofs::PickLemmas::lent_picked))]
fn named_at<'a>(scope: &'a Scope<'a>, name: Sym, place: usize) -> Option<&'a Val>
    ensures { IfSome result (λ v. look_for name.0 (scope_env scope.now place)
        ≡ Some (plain (view_val v.now))) }
{
    match scope {
        Scope::Let(newest, _, rest) => {
            if newest.0 == name.0 {
                None
            } else {
                match named_at(rest, name, place) {
                    Some(v) => Some(v),
                    None => None,
                }
            }
        }
        Scope::Rows(rows) => match named_on_row(rows, name, place) {
            Some(v) => Some(v),
            None => None,
        },
        Scope::Picked(places, _, rest) => {
            if place < places.len() {
                match named_at(rest, name, place_at(places, place)) {
                    Some(v) => Some(v),
                    None => None,
                }
            } else {
                None
            }
        }
    }
}

/// The same where no `let` of the body comes between.
#[tactic(auto, using(crate::proofs::LentLemmas::row_lent, crate::proofs::LentLemmas::outside_lent))]
fn named_on_row<'a>(rows: &'a Rows<'a>, name: Sym, place: usize) -> Option<&'a Val>
    ensures { IfSome result (λ v. look_for name.0 (row_env rows.now place)
        ≡ Some (plain (view_val v.now))) }
{
    if rows.row_name.0 == name.0 {
        match row_at(rows.legs, rows.from, place) {
            Some(v) => Some(v),
            None => None,
        }
    } else if rows.count_name.0 == name.0 || rows.own_name.0 == name.0 {
        None
    } else {
        match value_named(rows.frame, name) {
            Some(v) => Some(v),
            None => None,
        }
    }
}

/// The row of one leg, so many places behind another, where it is a value that is kept.
#[tactic(auto, using(crate::proofs::LentLemmas::one_row))]
fn row_at<'a>(legs: &'a Legs<'a>, from: usize, place: usize) -> Option<&'a Val>
    ensures { IfSome result (λ v. row_in (lists_of legs.now) (from + place) ≡ view_val v.now) }
{
    match only_column(legs) {
        Some(Column::Nest(items)) => match from.checked_add(place) {
            Some(number) => {
                if number < items.len() {
                    Some(items.at(number))
                } else {
                    None
                }
            }
            None => None,
        },
        _ => None,
    }
}

/// The numbers that a name, or a field of what one stands for, is on so many rows, each read where it lies.
pub(crate) fn lent_numbers(e: &Expr, scope: &Scope, count: usize, alloc: Global) -> Option<Numbers>
    ensures { MayBeNumbers e.now (scope_env scope.now) result count }
{
    let of = NumberLent { e, scope };
    gather(alloc, count, &of)
}

/// The lengths of the vectors that it is on so many rows.
pub(crate) fn lent_lengths(e: &Expr, scope: &Scope, count: usize, alloc: Global) -> Option<Numbers>
    ensures { MayHaveLengths e.now (scope_env scope.now) result count }
{
    let of = LengthLent { e, scope };
    gather(alloc, count, &of)
}

/// The elements of the vectors that it is on so many rows, at places that are numbers.
pub(crate) fn lent_elements(
    e: &Expr,
    scope: &Scope,
    places: &Numbers,
    count: usize,
    alloc: Global,
) -> Option<Numbers>
    ensures { MayHaveLooked e.now (scope_env scope.now) places.now result count }
{
    let of = ElementLent { e, scope, places };
    gather(alloc, count, &of)
}

/// The numbers that an expression is on the rows.
#[derive(Clone, Copy)]
struct NumberLent<'a> {
    e: &'a Expr,
    scope: &'a Scope<'a>,
}

impl<'a> Gives for NumberLent<'a> {
    ghost gives = { λ l place v. eval_of l.e.now (scope_env l.scope.now place) ≡ done (plain v) };

    fn at(&self, place: usize) -> Option<Short> {
        match value_at(self.e, self.scope, place) {
            Some(v) => number_of(v),
            None => None,
        }
    }
}

/// The lengths of the vectors that an expression is on the rows.
#[derive(Clone, Copy)]
struct LengthLent<'a> {
    e: &'a Expr,
    scope: &'a Scope<'a>,
}

impl<'a> Gives for LengthLent<'a> {
    ghost gives = { λ l place v. HasLength l.e.now (scope_env l.scope.now place) v };

    fn at(&self, place: usize) -> Option<Short> {
        match value_at(self.e, self.scope, place) {
            Some(Val::List(column)) => Some(whole_number(column.len())),
            _ => None,
        }
    }
}

/// The elements of the vectors that an expression is on the rows, at places that are numbers.
#[derive(Clone, Copy)]
struct ElementLent<'a> {
    e: &'a Expr,
    scope: &'a Scope<'a>,
    places: &'a Numbers,
}

impl<'a> Gives for ElementLent<'a> {
    ghost gives = { λ l place v. HasLooked l.e.now (scope_env l.scope.now place) (number_at l.places.now place) v };

    #[tactic(auto, using(crate::proofs::LentLemmas::looked_lent))]
    fn at(&self, place: usize) -> Option<Short> {
        if place >= self.places.len() {
            return None;
        }
        match value_at(self.e, self.scope, place) {
            Some(Val::List(column)) => element_at(column, self.places.at(place)),
            _ => None,
        }
    }
}
