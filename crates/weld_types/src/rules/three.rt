//! The rules of nodes of three parts.
ghost use Rattle.weld_tree.specs.ExprView.{view_three};
ghost use Rattle.weld_tree.specs.ExprTree.{if_else, select};
ghost use Rattle.weld_types.specs.Says.{Says};
ghost use Rattle.weld_types.specs.Walk.{at_node, three_type, slice_type};

use super::copied;
use crate::tests::{is_builder_free, is_place, is_truth, same};
use std::alloc::Global;
use weld_tree::{Code, Place, Refusal, ThreeForm, Ty, TyForm};

/// The type of a node of three parts, by the types of its parts.
pub fn three_type(
    three: ThreeForm,
    first: &Ty,
    second: &Ty,
    third: &Ty,
    place: Place,
    alloc: Global,
) -> Result<Ty, Refusal>
    ensures { Says result (at_node place (three_type (view_three three) first.now second.now
        third.now)) }
{
    match three {
        ThreeForm::If => if_type(first, second, third, place, alloc),
        ThreeForm::Select => select_type(first, second, third, place, alloc),
        ThreeForm::Slice => slice_type(first, second, third, place, alloc),
    }
}

fn if_type(
    condition: &Ty,
    then: &Ty,
    other: &Ty,
    place: Place,
    alloc: Global,
) -> Result<Ty, Refusal>
    ensures { Says result (at_node place (three_type if_else condition.now then.now other.now)) }
{
    if !is_truth(condition) {
        return Err(Refusal::At(Code::Y12, place));
    }
    if same(other, then) {
        copied(then, place, alloc)
    } else {
        Err(Refusal::At(Code::Y13, place))
    }
}

fn select_type(
    condition: &Ty,
    then: &Ty,
    other: &Ty,
    place: Place,
    alloc: Global,
) -> Result<Ty, Refusal>
    ensures { Says result (at_node place (three_type select condition.now then.now other.now)) }
{
    if !is_truth(condition) {
        return Err(Refusal::At(Code::Y12, place));
    }
    if same(other, then) && is_builder_free(then) {
        copied(then, place, alloc)
    } else {
        Err(Refusal::At(Code::Y15, place))
    }
}

fn slice_type(vector: &Ty, from: &Ty, len: &Ty, place: Place, alloc: Global) -> Result<Ty, Refusal>
    ensures { Says result (at_node place (slice_type vector.now from.now len.now)) }
{
    match &vector.form {
        TyForm::Vec(_) => {
            if is_place(from) && is_place(len) {
                copied(vector, place, alloc)
            } else {
                Err(Refusal::At(Code::Y19, place))
            }
        }
        TyForm::Scalar(_) | TyForm::Struct(_) | TyForm::Dict(_, _) | TyForm::Build(_) => {
            Err(Refusal::At(Code::Y19, place))
        }
    }
}
