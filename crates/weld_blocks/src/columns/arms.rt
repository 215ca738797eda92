//! Forms that work a part out on some rows alone, or choose between two.

ghost use Rattle.std.specs.Prelude.{◌≡◌, ◌<◌, true, false};
ghost use Rattle.weld_meaning.specs.Evaluation.{truth_value};
ghost use Rattle.weld_blocks.specs.Numbers.{number_at, MayGive, MayBeNumbers, IsChosen, Chooses};
ghost use Rattle.weld_blocks.specs.Picked.{MayBeNumbersWhere};
ghost use Rattle.weld_blocks.specs.Scope.{scope_env};
ghost use Rattle.weld_eval_plain.specs.Nodes.{IsIf};

use super::numbers;
use crate::choices::choose;
use crate::leaves::constant;
use crate::numbers::{Numbers, is_same};
use crate::picking::{any_numbers, is_nowhere, may_fault, places_where, spread};
use crate::scope::{Scope, with_picked};
use std::alloc::Global;
use weld_data::Kind;
use weld_eval::short::Short;
use weld_tree::{Expr, Form, ThreeForm, TwoForm};

/// The numbers of `&&`: of the right side where the left one is true.
#[cycle(columns)]
#[tactic(auto, using(crate::proofs::PickLemmas::and_where))]
pub(super) fn of_and(e: &Expr, scope: &Scope, count: usize, alloc: Global) -> Option<Numbers>
    ensures { MayBeNumbers e.now (scope_env scope.now) result count }
{
    match &e.form {
        Form::Two(TwoForm::And, first, second) => {
            let condition = match numbers(first, scope, count, alloc) {
                Some(condition) => condition,
                None => return None,
            };
            let then = match numbers_where(second, &condition, true, scope, count, alloc) {
                Some(then) => then,
                None => return None,
            };
            both(&condition, &then, count, alloc)
        }
        _ => None,
    }
}

/// The second truth value where the first one is true, else false.
#[tactic(auto, using(crate::proofs::ColumnLemmas::both_given))]
fn both(condition: &Numbers, then: &Numbers, count: usize, alloc: Global) -> Option<Numbers>
    ensures { MayGive (λ place v. IsChosen (number_at condition.now place)
        (number_at then.now place) (truth_value false) v) result count }
{
    match constant(Short::of_truth(false), count, alloc) {
        Some(otherwise) => chosen(condition, then, &otherwise, count, alloc),
        None => None,
    }
}

/// The numbers of `||`: of the right side where the left one is false.
#[cycle(columns)]
#[tactic(auto, using(crate::proofs::PickLemmas::or_where))]
pub(super) fn of_or(e: &Expr, scope: &Scope, count: usize, alloc: Global) -> Option<Numbers>
    ensures { MayBeNumbers e.now (scope_env scope.now) result count }
{
    match &e.form {
        Form::Two(TwoForm::Or, first, second) => {
            let condition = match numbers(first, scope, count, alloc) {
                Some(condition) => condition,
                None => return None,
            };
            let otherwise = match numbers_where(second, &condition, false, scope, count, alloc) {
                Some(otherwise) => otherwise,
                None => return None,
            };
            either(&condition, &otherwise, count, alloc)
        }
        _ => None,
    }
}

/// True where the first truth value is, else the second one.
#[tactic(auto, using(crate::proofs::ColumnLemmas::either_given))]
fn either(condition: &Numbers, otherwise: &Numbers, count: usize, alloc: Global) -> Option<Numbers>
    ensures { MayGive (λ place v. IsChosen (number_at condition.now place) (truth_value true)
        (number_at otherwise.now place) v) result count }
{
    match constant(Short::of_truth(true), count, alloc) {
        Some(then) => chosen(condition, &then, otherwise, count, alloc),
        None => None,
    }
}

/// The numbers that an expression comes to on the rows on which the truth value is this one; on others it may be any numbers. What
/// may fault is worked out on those rows alone.
#[cycle(columns)]
#[tactic(auto, using(crate::proofs::PickLemmas::wherever))]
pub fn numbers_where(
    e: &Expr,
    truths: &Numbers,
    truth: bool,
    scope: &Scope,
    count: usize,
    alloc: Global,
) -> Option<Numbers>
    ensures { MayBeNumbersWhere e.now (scope_env scope.now) truths.now truth result count }
{
    if may_fault(e) {
        match places_where(truths, truth, count, alloc) {
            Some((places, ranks)) => on_picked(
                e,
                places.as_slice(),
                ranks.as_slice(),
                truths,
                truth,
                scope,
                count,
                alloc,
            ),
            None => None,
        }
    } else {
        numbers(e, scope, count, alloc)
    }
}

/// The same on the rows that were picked; where there are none, any numbers of its kind.
#[cycle(columns)]
#[tactic(auto, using(crate::proofs::PickLemmas::spread_where, crate::proofs::PickLemmas::nowhere))]
fn on_picked(
    e: &Expr,
    places: &[usize],
    ranks: &[usize],
    truths: &Numbers,
    truth: bool,
    scope: &Scope,
    count: usize,
    alloc: Global,
) -> Option<Numbers>
    ensures { MayBeNumbersWhere e.now (scope_env scope.now) truths.now truth result count }
{
    if places.is_empty() && is_nowhere(truths, truth, count) {
        return any_numbers(e, count, alloc);
    }
    let inner = with_picked(places, count, &*scope);
    match numbers(e, &inner, places.len(), alloc) {
        Some(numbers) => spread(&numbers, places, ranks, truths, truth, count, alloc),
        None => None,
    }
}

/// The numbers of an `if`: of each arm on the rows that reach it.
#[cycle(columns)]
#[tactic(auto, using(crate::proofs::PickLemmas::if_where))]
pub(super) fn of_if(e: &Expr, scope: &Scope, count: usize, alloc: Global) -> Option<Numbers>
    requires { IsIf e.now }
    ensures { MayBeNumbers e.now (scope_env scope.now) result count }
{
    match &e.form {
        Form::Three(_, condition, then, otherwise) => {
            let condition = match numbers(condition, scope, count, alloc) {
                Some(condition) => condition,
                None => return None,
            };
            let then = match numbers_where(then, &condition, true, scope, count, alloc) {
                Some(then) => then,
                None => return None,
            };
            match numbers_where(otherwise, &condition, false, scope, count, alloc) {
                Some(otherwise) => chosen(&condition, &then, &otherwise, count, alloc),
                None => None,
            }
        }
        _ => unreachable!(),
    }
}

/// The numbers of a `select`. Both arms are worked out, so neither may fault on a row.
#[cycle(columns)]
#[tactic(auto, using(crate::proofs::ColumnLemmas::choice_numbers))]
pub(super) fn of_choice(e: &Expr, scope: &Scope, count: usize, alloc: Global) -> Option<Numbers>
    requires { Chooses e.now }
    ensures { MayBeNumbers e.now (scope_env scope.now) result count }
{
    match &e.form {
        Form::Three(_, condition, then, otherwise) => {
            let condition = match numbers(condition, scope, count, alloc) {
                Some(condition) => condition,
                None => return None,
            };
            let then = match numbers(then, scope, count, alloc) {
                Some(then) => then,
                None => return None,
            };
            let otherwise = match numbers(otherwise, scope, count, alloc) {
                Some(otherwise) => otherwise,
                None => return None,
            };
            chosen(&condition, &then, &otherwise, count, alloc)
        }
        _ => unreachable!(),
    }
}

/// One of two numbers, as truth values say.
pub fn chosen(
    condition: &Numbers,
    then: &Numbers,
    otherwise: &Numbers,
    count: usize,
    alloc: Global,
) -> Option<Numbers>
    ensures { MayGive (λ place v. IsChosen (number_at condition.now place)
        (number_at then.now place) (number_at otherwise.now place) v) result count }
{
    if condition.kind != Kind::Bool || !is_same(then.kind, otherwise.kind) {
        return None;
    }
    choose(condition, then, otherwise, count, alloc)
}
