//! Structs of numbers that a name stands for, field by field.

ghost use Rattle.std.specs.Prelude.{◌≡◌, ◌+◌, true, map, Some};
ghost use Rattle.weld_meaning.specs.Environment.{look_for};
ghost use Rattle.weld_meaning.specs.Thing.{plain};
ghost use Rattle.weld_eval.specs.LegsView.{lists_of};
ghost use Rattle.weld_eval.specs.RowLists.{row_in, elements_at};
ghost use Rattle.weld_blocks.specs.Numbers.{number_at};
ghost use Rattle.weld_blocks.specs.Scope.{bound_at, scope_env};
ghost use Rattle.weld_deeds.specs.Named.{HaveGrown, MayBeStructs};

use std::alloc::Global;
use weld_blocks::leaves::{elements_of, first_of};
use weld_blocks::numbers::Numbers;
use weld_blocks::scope::{Bound, Scope};
use weld_eval::legs::Legs;
use weld_tree::Sym;

/// The numbers of each field of the structs that a name stands for on so many rows, where it is the row of several legs or was
/// bound to such a struct.
#[tactic(auto, using(crate::proofs::NamedLemmas::structs_here, crate::proofs::NamedLemmas::structs_below, crate::proofs::NamedLemmas::structs_of_rows))]
pub(crate) fn columns_named(
    scope: &Scope,
    name: Sym,
    count: usize,
    alloc: Global,
) -> Option<Vec<Numbers>>
    ensures { MayBeStructs (λ place v. look_for name.0 (scope_env scope.now place)
        ≡ Some (plain v)) result count }
{
    match scope {
        Scope::Let(newest, bound, rest) => {
            if newest.0 == name.0 {
                columns_of_bound(bound, count, alloc)
            } else {
                columns_named(rest, name, count, alloc)
            }
        }
        Scope::Rows(rows) => {
            if rows.row_name.0 == name.0 {
                columns_of_row(rows.legs, rows.from, count, alloc)
            } else {
                None
            }
        }
        Scope::Picked(_, _, _) => None,
    }
}

/// The numbers of each field of the structs that are bound.
#[tactic(auto, using(crate::proofs::NamedLemmas::bound_given))]
fn columns_of_bound(bound: &Bound, count: usize, alloc: Global) -> Option<Vec<Numbers>>
    ensures { MayBeStructs (λ place v. bound_at bound.now place ≡ v) result count }
{
    match bound {
        Bound::Number(_) => None,
        Bound::Fields(columns) => {
            let mut copies = Vec::new(alloc);
            if push_firsts(columns, count, alloc, &mut copies) {
                Some(copies)
            } else {
                None
            }
        }
    }
}

/// Appends copies of the first numbers of each field, so many; tells whether it did.
#[tactic(auto, using(crate::proofs::NamedLemmas::grown_none, crate::proofs::NamedLemmas::grown_copy))]
fn push_firsts(columns: &[Numbers], count: usize, alloc: Global, copies: &mut Vec<Numbers>) -> bool
    ensures { result ≡ true → HaveGrown copies.old.items copies.new.items count
        (λ place. map (λ c. number_at c place) columns.now) }
{
    match columns.split_first() {
        None => true,
        Some((first, rest)) => match first_of(first, count, alloc) {
            Some(copy) => match copies.push(copy) {
                Ok(()) => push_firsts(rest, count, alloc, copies),
                Err(_) => false,
            },
            None => false,
        },
    }
}

/// The numbers of each field of the rows of several legs.
#[tactic(auto, using(crate::proofs::NamedLemmas::rows_given))]
fn columns_of_row(legs: &Legs, from: usize, count: usize, alloc: Global) -> Option<Vec<Numbers>>
    ensures { MayBeStructs (λ place v. row_in (lists_of legs.now) (from + place) ≡ v) result count }
{
    match legs {
        Legs::And(_, rest) => match rest {
            Legs::And(_, _) => {
                let mut columns = Vec::new(alloc);
                if push_legs(legs, from, count, alloc, &mut columns) {
                    Some(columns)
                } else {
                    None
                }
            }
            Legs::End => None,
        },
        Legs::End => None,
    }
}

/// Appends the elements of each leg, so many from one on; tells whether it did.
#[tactic(auto, using(crate::proofs::NamedLemmas::grown_end, crate::proofs::NamedLemmas::grown_leg))]
fn push_legs(
    legs: &Legs,
    from: usize,
    count: usize,
    alloc: Global,
    columns: &mut Vec<Numbers>,
) -> bool
    ensures { result ≡ true → HaveGrown columns.old.items columns.new.items count
        (λ place. elements_at (from + place) (lists_of legs.now)) }
{
    match legs {
        Legs::End => true,
        Legs::And(column, rest) => {
            let numbers = match elements_of(column, from, count, alloc) {
                Some(numbers) => numbers,
                None => return false,
            };
            match columns.push(numbers) {
                Ok(()) => {}
                Err(_) => return false,
            }
            push_legs(rest, from, count, alloc, columns)
        }
    }
}
