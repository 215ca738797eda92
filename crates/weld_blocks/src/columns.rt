//! The numbers that an expression comes to on the rows of a block.

ghost use Rattle.std.specs.Prelude.{◌≡◌, IfSome};
ghost use Rattle.weld_builders.specs.Outcome.{done};
ghost use Rattle.weld_meaning.specs.Evaluation.{eval as eval_of, leaf_thing, one_thing, looked_up as looked_up_value, operated as operated_value};
ghost use Rattle.weld_meaning.specs.Thing.{plain};
ghost use Rattle.weld_data.specs.Value.{list, number, values};
ghost use Rattle.weld_data.specs.View.{view_column, view_val};
ghost use Rattle.weld_eval.specs.ShortView.{view_short};
ghost use Rattle.weld_tree.specs.ExprView.{view_leaf, view_one};
ghost use Rattle.weld_blocks.specs.Numbers.{number_at, MayGive, MayBeNumbers, IsName};
ghost use Rattle.weld_blocks.specs.Lent.{MayHaveLengths, MayHaveLooked};
ghost use Rattle.weld_blocks.specs.Outer.{IsEverywhere};
ghost use Rattle.weld_blocks.specs.Scope.{scope_env, MayBeBound};
ghost use Rattle.weld_blocks.specs.Structs.{AreStructs, IsStructTree};
ghost use Rattle.weld_blocks.specs.Turned.{AreEnds};

mod arms;

use crate::arithmetic::{arithmetic, compared};
use crate::dictionaries::{has_keys, values_of};
use crate::gather::gather;
use crate::leaves::{constant, field_named, named};
use crate::lent::{lent_elements, lent_lengths, lent_numbers};
use crate::numbers::{Numbers, is_same};
use crate::operations::{Altered, is_integer, takes};
use crate::outer::{Looked, outer_value};
use crate::scalar::whole_number;
use crate::scope::{Bound, Scope, with_bound};
use crate::turning::{Asked, States, bound_states, ends_of, numbers_of_field, single_numbers};
pub use arms::{chosen, numbers_where};
use arms::{of_and, of_choice, of_if, of_or};
use std::alloc::Global;
use weld_data::{BinOp, Column, Kind, Num, Val, wrap};
use weld_eval::number::number_of;
use weld_eval::short::Short;
use weld_tree::{Expr, Form, LeafForm, ManyForm, OneForm, Sym, ThreeForm, TwoForm};

/// The numbers that an expression comes to on so many rows, where it is made of literals, names, fields, operators, `if`, `select`,
/// `let`, `iterate`s that go by instructions, lengths and elements of vectors that stand outside or in the rows, no row of it faults,
/// and there is memory for them.
#[cycle(columns)]
#[tactic(auto, using(crate::proofs::ColumnLemmas::leaf_numbers))]
pub fn numbers(e: &Expr, scope: &Scope, count: usize, alloc: Global) -> Option<Numbers>
    ensures { MayBeNumbers e.now (scope_env scope.now) result count }
{
    match &e.form {
        Form::Leaf(form) => of_leaf(form, scope, count, alloc),
        Form::One(OneForm::Field(_), _) => of_field(e, scope, count, alloc),
        Form::One(OneForm::Len, _) => of_length(e, scope, count, alloc),
        Form::One(_, _) => of_one(e, scope, count, alloc),
        Form::Two(TwoForm::Binary(_), _, _) => of_binary(e, scope, count, alloc),
        Form::Two(TwoForm::LookUp, _, _) => of_look_up(e, scope, count, alloc),
        Form::Two(TwoForm::KeyExists, _, _) => of_key_exists(e, scope, count, alloc),
        Form::Two(TwoForm::And, _, _) => of_and(e, scope, count, alloc),
        Form::Two(TwoForm::Or, _, _) => of_or(e, scope, count, alloc),
        Form::Three(ThreeForm::If, _, _, _) => of_if(e, scope, count, alloc),
        Form::Three(ThreeForm::Select, _, _, _) => of_choice(e, scope, count, alloc),
        Form::Let(_, _, _) => of_let(e, scope, count, alloc),
        Form::Iterate(_, _, _) => of_iterate(e, scope, count, alloc),
        _ => None,
    }
}

/// The numbers of a literal or a name.
#[tactic(auto, using(crate::proofs::ColumnLemmas::constant_gives, crate::proofs::ColumnLemmas::name_gives))]
fn of_leaf(form: &LeafForm, scope: &Scope, count: usize, alloc: Global) -> Option<Numbers>
    ensures { MayGive (λ place v. leaf_thing (view_leaf form.now) (scope_env scope.now place)
        ≡ done (plain v)) result count }
{
    match form {
        LeafForm::Int(kind, value) => match literal(*kind, *value) {
            Some(number) => constant(number, count, alloc),
            None => None,
        },
        LeafForm::Truth(truth) => constant(Short::of_truth(*truth), count, alloc),
        LeafForm::Name(name) => named(scope, *name, count, alloc),
        LeafForm::Chars(_) => None,
        LeafForm::Builder(_) => None,
    }
}

/// The number of a literal, where it is one of its kind, which every program keeps.
fn literal(kind: Kind, value: i128) -> Option<Short>
    ensures { IfSome result (λ n. view_short n ≡ number kind value) }
{
    if !is_integer(kind) {
        return None;
    }
    let wrapped = wrap(kind, value);
    if wrapped != value {
        return None;
    }
    Some(Short::of_num(Num {
        kind,
        value: wrapped,
    }))
}

/// The numbers of a field: of what a name stands for in columns, of a value that stands outside, of the value of each row, or of
/// the state with which turns end.
#[cycle(columns)]
fn of_field(e: &Expr, scope: &Scope, count: usize, alloc: Global) -> Option<Numbers>
    ensures { MayBeNumbers e.now (scope_env scope.now) result count }
{
    match in_columns(e, scope, count, alloc) {
        Some(numbers) => Some(numbers),
        None => match outer_value(e, &*scope) {
            Some(v) => everywhere(v, count, alloc),
            None => match lent_numbers(e, scope, count, alloc) {
                Some(numbers) => Some(numbers),
                None => of_state(e, scope, count, alloc),
            },
        },
    }
}

/// The numbers of a field of the states with which the turns of an `iterate` end.
#[cycle(columns)]
#[tactic(auto, using(crate::proofs::TurnLemmas::field_of_ends))]
fn of_state(e: &Expr, scope: &Scope, count: usize, alloc: Global) -> Option<Numbers>
    ensures { MayBeNumbers e.now (scope_env scope.now) result count }
{
    match &e.form {
        Form::One(OneForm::Field(field), part) => match ends(
            part,
            Asked::Pair,
            scope,
            count,
            alloc,
        ) {
            Some(states) => numbers_of_field(*field, &states, count, alloc),
            None => None,
        },
        _ => None,
    }
}

/// The numbers of an `iterate` over single numbers.
#[cycle(columns)]
fn of_iterate(e: &Expr, scope: &Scope, count: usize, alloc: Global) -> Option<Numbers>
    ensures { MayBeNumbers e.now (scope_env scope.now) result count }
{
    match ends(e, Asked::One, scope, count, alloc) {
        Some(states) => single_numbers(&states, count, alloc),
        None => None,
    }
}

/// The states with which the turns of an `iterate` end, where such are asked for.
#[cycle(columns)]
#[tactic(auto, using(crate::proofs::TurnLemmas::iterate_ends))]
fn ends(e: &Expr, asked: Asked, scope: &Scope, count: usize, alloc: Global) -> Option<States>
    ensures { IfSome result (λ ss. AreEnds e.now (scope_env scope.now) ss.shape ss.items.items
        count) }
{
    match &e.form {
        Form::Iterate(first, binder, body) => {
            let start = match bound_of(first, &*scope, count, alloc) {
                Some(start) => start,
                None => return None,
            };
            match ends_of(binder.sym, body, &start, asked, &*scope, count, alloc) {
                Some(states) => Some(states),
                None => None,
            }
        }
        _ => None,
    }
}

/// The number that a value is, on every row.
#[tactic(auto, using(crate::proofs::OuterLemmas::same_everywhere))]
fn everywhere(v: &Val, count: usize, alloc: Global) -> Option<Numbers>
    ensures { MayGive (λ place w. w ≡ view_val v.now) result count }
{
    match number_of(v) {
        Some(number) => constant(number, count, alloc),
        None => None,
    }
}

/// The numbers of a field of a name that stands for rows or structs in columns.
#[tactic(auto, using(crate::proofs::ColumnLemmas::field_numbers))]
fn in_columns(e: &Expr, scope: &Scope, count: usize, alloc: Global) -> Option<Numbers>
    ensures { MayBeNumbers e.now (scope_env scope.now) result count }
{
    match &e.form {
        Form::One(OneForm::Field(field), part) => match name_of(part) {
            Some(name) => field_named(*field, scope, name, count, alloc),
            None => None,
        },
        _ => None,
    }
}

/// The name that an expression is.
pub fn name_of(e: &Expr) -> Option<Sym>
    ensures { IfSome result (λ name. IsName e.now name.0) }
{
    match &e.form {
        Form::Leaf(LeafForm::Name(name)) => Some(*name),
        _ => None,
    }
}

/// The numbers of a form of one part.
#[cycle(columns)]
#[tactic(auto, using(crate::proofs::ColumnLemmas::altered_numbers))]
fn of_one(e: &Expr, scope: &Scope, count: usize, alloc: Global) -> Option<Numbers>
    ensures { MayBeNumbers e.now (scope_env scope.now) result count }
{
    match &e.form {
        Form::One(form, part) => {
            let part = match numbers(part, scope, count, alloc) {
                Some(part) => part,
                None => return None,
            };
            altered(form, &part, count, alloc)
        }
        _ => None,
    }
}

/// The length of a vector at each place.
#[tactic(auto, using(crate::proofs::LentLemmas::lengths_lent))]
fn of_length(e: &Expr, scope: &Scope, count: usize, alloc: Global) -> Option<Numbers>
    ensures { MayBeNumbers e.now (scope_env scope.now) result count }
{
    match &e.form {
        Form::One(OneForm::Len, part) => lengths_of(part, scope, count, alloc),
        _ => None,
    }
}

/// The lengths of a vector that stands outside, or of the vector of each row.
#[tactic(auto, using(crate::proofs::LentLemmas::length_outside))]
fn lengths_of(e: &Expr, scope: &Scope, count: usize, alloc: Global) -> Option<Numbers>
    ensures { MayHaveLengths e.now (scope_env scope.now) result count }
{
    match outer_value(e, &*scope) {
        Some(Val::List(column)) => constant(whole_number(column.len()), count, alloc),
        Some(_) => None,
        None => lent_lengths(e, scope, count, alloc),
    }
}

/// The elements of a vector or a dictionary that stands outside, at places that are worked out for each row, or of the vector of
/// each row.
#[cycle(columns)]
#[tactic(auto, using(crate::proofs::LentLemmas::looked_numbers))]
fn of_look_up(e: &Expr, scope: &Scope, count: usize, alloc: Global) -> Option<Numbers>
    ensures { MayBeNumbers e.now (scope_env scope.now) result count }
{
    match &e.form {
        Form::Two(TwoForm::LookUp, first, second) => {
            match numbers(second, scope, count, alloc) {
                Some(places) => looked_in(first, scope, &places, count, alloc),
                None => None,
            }
        }
        _ => None,
    }
}

/// The elements of what an expression is, at places that are numbers.
#[tactic(auto, using(crate::proofs::LentLemmas::looked_in_list, crate::proofs::LentLemmas::looked_in_dict))]
fn looked_in(
    e: &Expr,
    scope: &Scope,
    places: &Numbers,
    count: usize,
    alloc: Global,
) -> Option<Numbers>
    ensures { MayHaveLooked e.now (scope_env scope.now) places.now result count }
{
    match outer_value(e, &*scope) {
        Some(Val::List(column)) => looked_up(column, places, count, alloc),
        Some(Val::Dict(pairs)) => values_of(pairs, places, count, alloc),
        Some(_) => None,
        None => lent_elements(e, scope, places, count, alloc),
    }
}

/// Whether a dictionary that stands outside has the keys that are worked out for each row.
#[cycle(columns)]
#[tactic(auto, using(crate::proofs::KeyLemmas::keys_told))]
fn of_key_exists(e: &Expr, scope: &Scope, count: usize, alloc: Global) -> Option<Numbers>
    ensures { MayBeNumbers e.now (scope_env scope.now) result count }
{
    match &e.form {
        Form::Two(TwoForm::KeyExists, first, second) => {
            let pairs = match outer_value(first, &*scope) {
                Some(Val::Dict(pairs)) => pairs,
                _ => return None,
            };
            match numbers(second, scope, count, alloc) {
                Some(keys) => has_keys(pairs, &keys, count, alloc),
                None => None,
            }
        }
        _ => None,
    }
}

/// The elements of a column at places that are numbers.
fn looked_up(column: &Column, places: &Numbers, count: usize, alloc: Global) -> Option<Numbers>
    ensures { MayGive (λ place v. looked_up_value (list (values (view_column column.now)))
        (number_at places.now place) ≡ done v) result count }
{
    let of = Looked { column, places };
    gather(alloc, count, &of)
}

/// What a form of one part makes of numbers.
fn altered(form: &OneForm, part: &Numbers, count: usize, alloc: Global) -> Option<Numbers>
    ensures { MayGive (λ place v. one_thing (view_one form.now) (plain (number_at part.now place))
        ≡ done (plain v)) result count }
{
    let of = Altered { form, part };
    gather(alloc, count, &of)
}

/// The numbers of an operator between two parts.
#[cycle(columns)]
#[tactic(auto, using(crate::proofs::ColumnLemmas::operated_numbers))]
fn of_binary(e: &Expr, scope: &Scope, count: usize, alloc: Global) -> Option<Numbers>
    ensures { MayBeNumbers e.now (scope_env scope.now) result count }
{
    match &e.form {
        Form::Two(TwoForm::Binary(op), first, second) => {
            let left = match numbers(first, scope, count, alloc) {
                Some(left) => left,
                None => return None,
            };
            let right = match numbers(second, scope, count, alloc) {
                Some(right) => right,
                None => return None,
            };
            operated(*op, &left, &right, count, alloc)
        }
        _ => None,
    }
}

/// What an operator makes of numbers.
fn operated(
    op: BinOp,
    left: &Numbers,
    right: &Numbers,
    count: usize,
    alloc: Global,
) -> Option<Numbers>
    ensures { MayGive (λ place v. operated_value op (number_at left.now place)
        (number_at right.now place) ≡ done v) result count }
{
    if !is_same(left.kind, right.kind) || !takes(op, left.kind) {
        return None;
    }
    match op {
        BinOp::Add | BinOp::Sub | BinOp::Mul | BinOp::Div | BinOp::Rem => arithmetic(
            op, left, right, count, alloc,
        ),
        _ => compared(op, left, right, count, alloc),
    }
}

/// The numbers of a `let` of numbers or of a struct of such.
#[cycle(columns)]
#[tactic(auto, using(crate::proofs::ColumnLemmas::let_numbers))]
fn of_let(e: &Expr, scope: &Scope, count: usize, alloc: Global) -> Option<Numbers>
    ensures { MayBeNumbers e.now (scope_env scope.now) result count }
{
    match &e.form {
        Form::Let(binder, first, body) => {
            let bound = match bound_of(first, &*scope, count, alloc) {
                Some(bound) => bound,
                None => return None,
            };
            let inner = with_bound(binder.sym, &bound, &*scope);
            numbers(body, &inner, count, alloc)
        }
        _ => None,
    }
}

/// What a `let` binds: the numbers that an expression comes to, or of a struct those of each of its parts.
#[cycle(columns)]
pub fn bound_of(e: &Expr, scope: &Scope, count: usize, alloc: Global) -> Option<Bound>
    ensures { MayBeBound e.now (scope_env scope.now) result count }
{
    match &e.form {
        Form::Many(ManyForm::Struct, _) => match fields_of(e, scope, count, alloc) {
            Some(columns) => Some(Bound::Fields(columns)),
            None => None,
        },
        Form::Iterate(_, _, _) => bound_ends(e, scope, count, alloc),
        _ => match numbers(e, scope, count, alloc) {
            Some(numbers) => Some(Bound::Number(numbers)),
            None => None,
        },
    }
}

/// What a `let` binds that binds the state with which turns end.
#[cycle(columns)]
#[tactic(auto, using(crate::proofs::TurnLemmas::ends_bound))]
fn bound_ends(e: &Expr, scope: &Scope, count: usize, alloc: Global) -> Option<Bound>
    ensures { MayBeBound e.now (scope_env scope.now) result count }
{
    match ends(e, Asked::Any, scope, count, alloc) {
        Some(states) => match bound_states(&states, count, alloc) {
            Some(bound) => Some(bound),
            None => None,
        },
        None => None,
    }
}

/// The numbers of each part of a struct.
#[cycle(columns)]
pub fn fields_of(e: &Expr, scope: &Scope, count: usize, alloc: Global) -> Option<Vec<Numbers>>
    requires { IsStructTree e.now }
    ensures { IfSome result (λ cs. AreStructs (λ place v. eval_of e.now (scope_env scope.now place)
        ≡ done (plain v)) cs.items count) }
{
    match &e.form {
        Form::Many(_, parts) => {
            let mut columns = Vec::new(alloc);
            for place in 0..parts.len() {
                let column = match numbers(&parts.as_slice()[place], scope, count, alloc) {
                    Some(column) => column,
                    None => return None,
                };
                match columns.push(column) {
                    Ok(()) => {}
                    Err(_) => return None,
                }
            }
            Some(columns)
        }
        _ => unreachable!(),
    }
}
