//! Structs of two numbers that a name stands for, and what is bound.

ghost use Rattle.std.specs.Prelude.{◌≡◌, ◌+◌, ◌∷◌, [], Some, IfSome};
ghost use Rattle.weld_data.specs.View.{view_column};
ghost use Rattle.weld_meaning.specs.Environment.{look_for};
ghost use Rattle.weld_meaning.specs.Thing.{plain};
ghost use Rattle.weld_eval.specs.LegsView.{lists_of};
ghost use Rattle.weld_eval.specs.RowLists.{row_in};
ghost use Rattle.weld_deeds.specs.Deeds.{MayBePair};
ghost use Rattle.weld_blocks.specs.Numbers.{MayGive};
ghost use Rattle.weld_blocks.specs.Scope.{bound_at, scope_env};

use crate::deed::Deed;
use std::alloc::Global;
use weld_blocks::leaves::{elements_of, first_of, only_column};
use weld_blocks::numbers::Numbers;
use weld_blocks::scope::{Bound, Scope};
use weld_data::Column;
use weld_eval::legs::Legs;
use weld_tree::Sym;

/// The columns of two legs.
#[tactic(auto, using(weld_blocks::proofs::LeafLemmas::two_legs))]
fn two_columns<'a>(legs: &'a Legs<'a>) -> Option<(&'a Column, &'a Column)>
    ensures { IfSome result (λ p. lists_of legs.now ≡ view_column p.0.now ∷ view_column p.1.now
        ∷ []) }
{
    match legs {
        Legs::And(column, rest) => match only_column(rest) {
            Some(second) => Some((column, second)),
            None => None,
        },
        Legs::End => None,
    }
}

/// The two numbers of which a name is a struct on so many rows, where it is the row of two legs or was bound to such a struct.
#[tactic(auto, using(crate::proofs::PairLemmas::pair_here, crate::proofs::PairLemmas::pair_below, crate::proofs::PairLemmas::pair_of_rows))]
pub fn pair_named(scope: &Scope, name: Sym, count: usize, alloc: Global) -> Option<Deed>
    ensures { MayBePair (λ place v. look_for name.0 (scope_env scope.now place) ≡ Some (plain v))
        result count }
{
    match scope {
        Scope::Let(newest, bound, rest) => {
            if newest.0 == name.0 {
                pair_of_bound(bound, count, alloc)
            } else {
                pair_named(rest, name, count, alloc)
            }
        }
        Scope::Rows(rows) => {
            if rows.row_name.0 == name.0 {
                pair_of_row(rows.legs, rows.from, count, alloc)
            } else {
                None
            }
        }
        Scope::Picked(_, _, _) => None,
    }
}

/// The numbers that are bound, where no structs are.
#[tactic(auto, using(weld_blocks::proofs::LeafLemmas::number_bound))]
pub(crate) fn number_of_bound(bound: &Bound, count: usize, alloc: Global) -> Option<Numbers>
    ensures { MayGive (λ place v. v ≡ bound_at bound.now place) result count }
{
    match bound {
        Bound::Number(numbers) => first_of(numbers, count, alloc),
        Bound::Fields(_) => None,
    }
}

/// The two numbers of the structs that are bound.
#[tactic(auto, using(crate::proofs::PairLemmas::pair_bound))]
pub(crate) fn pair_of_bound(bound: &Bound, count: usize, alloc: Global) -> Option<Deed>
    ensures { MayBePair (λ place v. bound_at bound.now place ≡ v) result count }
{
    match bound {
        Bound::Number(_) => None,
        Bound::Fields(columns) => {
            if columns.len() != 2 {
                return None;
            }
            let keys = match first_of(&columns[0], count, alloc) {
                Some(keys) => keys,
                None => return None,
            };
            match first_of(&columns[1], count, alloc) {
                Some(numbers) => Some(Deed::Pair(keys, numbers)),
                None => None,
            }
        }
    }
}

/// The two numbers of the rows of two legs.
#[tactic(auto, using(crate::proofs::PairLemmas::pair_given))]
fn pair_of_row(legs: &Legs, from: usize, count: usize, alloc: Global) -> Option<Deed>
    ensures { MayBePair (λ place v. row_in (lists_of legs.now) (from + place) ≡ v) result count }
{
    match two_columns(legs) {
        Some(columns) => {
            let keys = match elements_of(columns.0, from, count, alloc) {
                Some(keys) => keys,
                None => return None,
            };
            match elements_of(columns.1, from, count, alloc) {
                Some(numbers) => Some(Deed::Pair(keys, numbers)),
                None => None,
            }
        }
        None => None,
    }
}
