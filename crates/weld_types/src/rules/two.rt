//! The rules of nodes of two parts.
ghost use Rattle.std.specs.Prelude.{◌≡◌};
ghost use Rattle.weld_data.specs.Operation.{answer_kind};
ghost use Rattle.weld_tree.specs.ExprTree.{binary};
ghost use Rattle.weld_tree.specs.ExprView.{view_two};
ghost use Rattle.weld_types.specs.Says.{Says};
ghost use Rattle.weld_types.specs.Tests.{is_integer_kind, takes_kind};
ghost use Rattle.weld_types.specs.Walk.{at_node, two_type, look_up_type, key_exists_type, merge_type, rule_of};

use super::{built, copied, sized};
use crate::tests::{is_place, is_truth, same};
use std::alloc::Global;
use weld_data::{BinOp, Kind};
use weld_tree::{Code, Place, Refusal, TwoForm, Ty, TyForm};

/// The type of a node of two parts, by the types of its parts.
pub fn two_type(
    two: TwoForm,
    first: &Ty,
    second: &Ty,
    place: Place,
    alloc: Global,
) -> Result<Ty, Refusal>
    ensures { Says result (at_node place (two_type (view_two two) first.now second.now)) }
{
    match two {
        TwoForm::Binary(op) => binary_type(op, first, second, place),
        TwoForm::And | TwoForm::Or => {
            if is_truth(first) && is_truth(second) {
                sized(Ty::scalar(Kind::Bool), place)
            } else {
                Err(Refusal::At(Code::Y10, place))
            }
        }
        TwoForm::LookUp => look_up_type(first, second, place, alloc),
        TwoForm::KeyExists => key_exists_type(first, second, place),
        TwoForm::Merge => merge_type(first, second, place, alloc),
    }
}

fn binary_type(op: BinOp, first: &Ty, second: &Ty, place: Place) -> Result<Ty, Refusal>
    ensures { Says result (at_node place (two_type (binary op) first.now second.now)) }
{
    match &first.form {
        TyForm::Scalar(kind) => {
            if takes_kind(op, *kind) && same(second, first) {
                sized(Ty::scalar(answer_kind(op, *kind)), place)
            } else {
                Err(Refusal::At(rule_of(op), place))
            }
        }
        TyForm::Vec(_) | TyForm::Struct(_) | TyForm::Dict(_, _) | TyForm::Build(_) => {
            Err(Refusal::At(rule_of(op), place))
        }
    }
}

/// Whether the operator takes numbers of the kind.
fn takes_kind(op: BinOp, kind: Kind) -> bool
    ensures { result ≡ takes_kind op kind }
{
    match op {
        BinOp::Eq | BinOp::Ne => true,
        _ => is_integer_kind(kind),
    }
}

fn is_integer_kind(kind: Kind) -> bool
    ensures { result ≡ is_integer_kind kind }
{
    match kind {
        Kind::Bool => false,
        _ => true,
    }
}

/// The kind of the operator's answer.
fn answer_kind(op: BinOp, kind: Kind) -> Kind
    ensures { result ≡ answer_kind op kind }
{
    match op {
        BinOp::Add | BinOp::Sub | BinOp::Mul | BinOp::Div | BinOp::Rem => kind,
        BinOp::Eq | BinOp::Ne | BinOp::Lt | BinOp::Le | BinOp::Gt | BinOp::Ge => Kind::Bool,
    }
}

/// The rule of the operator.
fn rule_of(op: BinOp) -> Code
    ensures { result ≡ rule_of op }
{
    match op {
        BinOp::Add | BinOp::Sub | BinOp::Mul | BinOp::Div | BinOp::Rem => Code::Y7,
        BinOp::Eq | BinOp::Ne => Code::Y8,
        BinOp::Lt | BinOp::Le | BinOp::Gt | BinOp::Ge => Code::Y9,
    }
}

fn look_up_type(first: &Ty, second: &Ty, place: Place, alloc: Global) -> Result<Ty, Refusal>
    ensures { Says result (at_node place (look_up_type first.now second.now)) }
{
    match &first.form {
        TyForm::Vec(item) => {
            if is_place(second) {
                copied(item, place, alloc)
            } else {
                Err(Refusal::At(Code::Y16, place))
            }
        }
        TyForm::Dict(keys, value) => {
            if same(second, keys) {
                copied(value, place, alloc)
            } else {
                Err(Refusal::At(Code::Y16, place))
            }
        }
        TyForm::Scalar(_) | TyForm::Struct(_) | TyForm::Build(_) => {
            Err(Refusal::At(Code::Y16, place))
        }
    }
}

fn key_exists_type(first: &Ty, second: &Ty, place: Place) -> Result<Ty, Refusal>
    ensures { Says result (at_node place (key_exists_type first.now second.now)) }
{
    match &first.form {
        TyForm::Dict(key, _) => {
            if same(second, key) {
                sized(Ty::scalar(Kind::Bool), place)
            } else {
                Err(Refusal::At(Code::Y17, place))
            }
        }
        TyForm::Scalar(_) | TyForm::Vec(_) | TyForm::Struct(_) | TyForm::Build(_) => {
            Err(Refusal::At(Code::Y17, place))
        }
    }
}

fn merge_type(first: &Ty, second: &Ty, place: Place, alloc: Global) -> Result<Ty, Refusal>
    ensures { Says result (at_node place (merge_type first.now second.now)) }
{
    match &first.form {
        TyForm::Build(builder) => match builder.takes(alloc) {
            Ok(taken) => {
                if same(second, &taken) {
                    built(builder, place, alloc)
                } else {
                    Err(Refusal::At(Code::Y29, place))
                }
            }
            Err(_) => Err(Refusal::Memory),
        },
        TyForm::Scalar(_) | TyForm::Vec(_) | TyForm::Struct(_) | TyForm::Dict(_, _) => {
            Err(Refusal::At(Code::Y29, place))
        }
    }
}
