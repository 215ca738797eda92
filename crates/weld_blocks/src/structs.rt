//! Structs of numbers field by field.

ghost use Rattle.std.specs.Prelude.{◌≡◌, IfSome};
ghost use Rattle.weld_builders.specs.Outcome.{done};
ghost use Rattle.weld_meaning.specs.Evaluation.{eval as eval_of};
ghost use Rattle.weld_meaning.specs.Thing.{plain};
ghost use Rattle.weld_blocks.specs.Numbers.{number_at, Chooses, IsChosen};
ghost use Rattle.weld_blocks.specs.Scope.{scope_env, struct_at};
ghost use Rattle.weld_blocks.specs.Structs.{AreStructs};

use crate::columns::{chosen, fields_of, numbers};
use crate::numbers::Numbers;
use crate::scope::Scope;
use std::alloc::Global;
use weld_tree::{Expr, Form, ManyForm, ThreeForm};

/// The numbers of each field of a struct: one that is written out, or one of two such.
#[cycle(structs)]
pub fn columns_of(item: &Expr, scope: &Scope, count: usize, alloc: Global) -> Option<Vec<Numbers>>
    ensures { IfSome result (λ cs. AreStructs (λ place v. eval_of item.now
        (scope_env scope.now place) ≡ done (plain v)) cs.items count) }
{
    match &item.form {
        Form::Many(ManyForm::Struct, _) => fields_of(item, scope, count, alloc),
        Form::Three(ThreeForm::If | ThreeForm::Select, _, _, _) => chosen_columns(
            item, scope, count, alloc,
        ),
        _ => None,
    }
}

/// The numbers of each field of one of two structs, as an `if` or a `select` says. Both are worked out, so neither may fault on a
/// row.
#[cycle(structs)]
fn chosen_columns(item: &Expr, scope: &Scope, count: usize, alloc: Global) -> Option<Vec<Numbers>>
    requires { Chooses item.now }
    ensures { IfSome result (λ cs. AreStructs (λ place v. eval_of item.now
        (scope_env scope.now place) ≡ done (plain v)) cs.items count) }
{
    match &item.form {
        Form::Three(_, condition, then, otherwise) => {
            let condition = match numbers(condition, scope, count, alloc) {
                Some(condition) => condition,
                None => return None,
            };
            let then = match columns_of(then, scope, count, alloc) {
                Some(then) => then,
                None => return None,
            };
            match columns_of(otherwise, scope, count, alloc) {
                Some(otherwise) => choose_columns(&condition, &then, &otherwise, count, alloc),
                None => None,
            }
        }
        _ => unreachable!(),
    }
}

/// One of two structs at each place, field by field, as truth values say.
#[tactic(auto, using(crate::proofs::StructLemmas::next_chosen, crate::proofs::StructLemmas::all_chosen))]
fn choose_columns(
    condition: &Numbers,
    then: &Vec<Numbers>,
    otherwise: &Vec<Numbers>,
    count: usize,
    alloc: Global,
) -> Option<Vec<Numbers>>
    ensures { IfSome result (λ cs. AreStructs (λ place v. IsChosen (number_at condition.now place)
        (struct_at then.now.items place) (struct_at otherwise.now.items place) v) cs.items count) }
{
    if then.len() != otherwise.len() || then.is_empty() {
        return None;
    }
    let mut columns = Vec::new(alloc);
    for field in 0..then.len() {
        let column = match chosen(condition, &then[field], &otherwise[field], count, alloc) {
            Some(column) => column,
            None => return None,
        };
        match columns.push(column) {
            Ok(()) => {}
            Err(_) => return None,
        }
    }
    Some(columns)
}
