//! The rules of the forms that bind names: loops and turns.
ghost use Rattle.std.specs.Prelude.{◌≡◌, ◌+◌, IfOk, MatchOption, length};
ghost use Rattle.weld_meaning.specs.Typing.{place_type, truth_type};
ghost use Rattle.weld_tree.specs.TypeTree.{TypeTree, pack, struct, vec};
ghost use Rattle.weld_tree.specs.Types.{pair_of};
ghost use Rattle.weld_tree.specs.declared.code.Code.TheVariants.{Y3, Y23, Y26, Y27};
ghost use Rattle.weld_types.specs.Says.{Says, Allows};
ghost use Rattle.weld_types.specs.Tests.{are_all, is_builder_free, same_type};
ghost use Rattle.weld_types.specs.Walk.{Found, Judged, fits, breaks, at_node, demand_at, elements, noted, row_by, row_of, with_element};

use super::many::are_all;
use super::notes::check_note;
use super::{copied, sized};
use crate::tests::{is_builder, is_builder_free, is_truth, same};
use std::alloc::{AllocError, Global};
use weld_data::Kind;
use weld_tree::{Binder, Code, Place, Refusal, Ty, TyForm, Tys};

/// The type of the rows of a loop, by the types of its legs' vectors, of its legs' bounds and of its builder.
pub fn row_type(
    vectors: &Tys,
    bounds: &Tys,
    builder: &Ty,
    place: Place,
    alloc: Global,
) -> Result<Ty, Refusal>
    ensures { Says result (at_node place (row_by (elements (pack vectors.now)) (pack bounds.now)
        builder.now)) }
{
    let elements = match elements(vectors.as_slice(), alloc) {
        Ok(Some(elements)) => elements,
        Ok(None) => return Err(Refusal::At(Code::Y23, place)),
        Err(_) => return Err(Refusal::Memory),
    };
    if !are_places(bounds) {
        return Err(Refusal::At(Code::Y24, place));
    }
    if !is_builder(builder) {
        return Err(Refusal::At(Code::Y25, place));
    }
    row_of(elements, place, alloc)
}

/// The types of the elements of these vectors, if each is one.
#[tactic(auto, using(crate::proofs::Elements::element_left, crate::proofs::Elements::no_element_left, crate::proofs::Elements::element_missing))]
fn elements(vectors: &[Ty], alloc: Global) -> Result<Option<Tys>, AllocError>
    ensures { IfOk result (λ found. MatchOption found (elements (pack vectors.now) ≡ breaks Y23)
        (λ ts. elements (pack vectors.now) ≡ fits (pack ts))) }
{
    let mut items = Tys::new(alloc);
    for vector in vectors {
        let Some(item) = element(vector) else {
            return Ok(None);
        };
        items.push(item.copy(alloc)?)?;
    }
    Ok(Some(items))
}

/// The type of the vector's elements, if it is a vector.
fn element(ty: &Ty) -> Option<&Ty>
    ensures { MatchOption result ((later : Judged _) → with_element ty.now later ≡ breaks Y23)
        (λ t. ty.now ≡ vec t.now) }
{
    match &ty.form {
        TyForm::Vec(item) => Some(item),
        TyForm::Scalar(_) | TyForm::Struct(_) | TyForm::Dict(_, _) | TyForm::Build(_) => None,
    }
}

/// Whether each of these types is that of numbers of places.
fn are_places(bounds: &Tys) -> bool
    ensures { result ≡ are_all (pack bounds.now) place_type }
{
    let number = Ty::scalar(Kind::I64);
    are_all(bounds.as_slice(), &number)
}

/// A row of such elements: the one, or the struct of more.
#[tactic(auto, using(crate::proofs::Elements::row_of_one, crate::proofs::Elements::row_of_more))]
fn row_of(elements: Tys, place: Place, alloc: Global) -> Result<Ty, Refusal>
    ensures { Says result (at_node place (row_of (pack elements))) }
{
    match elements.len() {
        0 => Err(Refusal::At(Code::Y23, place)),
        1 => copied(&elements.as_slice()[0], place, alloc),
        _ => sized(Ty::struct_of(elements), place),
    }
}

/// The written types at the binders of a loop fit those of its builder, its row number and its rows.
pub fn check_loop_notes(
    builder: &Binder,
    number: &Binder,
    row: &Binder,
    builder_type: &Ty,
    row_type: &Ty,
) -> Result<(), Refusal>
    ensures { (later : Found TypeTree) → Allows result (noted builder.now.note builder.now
        builder_type.now (noted number.now.note number.now place_type
        (noted row.now.note row.now row_type.now later))) later }
{
    check_note(builder, builder_type)?;
    let place_type = Ty::scalar(Kind::I64);
    check_note(number, &place_type)?;
    check_note(row, row_type)
}

/// The body of a loop has the type of its builder.
pub fn check_loop_body(body: &Ty, builder: &Ty, place: Place) -> Result<(), Refusal>
    ensures { (later : Found TypeTree) → Allows result (demand_at (same_type body.now builder.now)
        Y26 place later) later }
{
    if same(body, builder) {
        Ok(())
    } else {
        Err(Refusal::At(Code::Y26, place))
    }
}

/// The state of turns is builder-free.
pub fn check_state(state: &Ty, place: Place) -> Result<(), Refusal>
    ensures { (later : Found TypeTree) → Allows result (demand_at (is_builder_free state.now) Y27
        place later) later }
{
    if is_builder_free(state) {
        Ok(())
    } else {
        Err(Refusal::At(Code::Y27, place))
    }
}

/// The body of turns has the type of the state and a truth value.
pub fn check_turn(turn: &Ty, state: &Ty, place: Place) -> Result<(), Refusal>
    ensures { (later : Found TypeTree) → Allows result (demand_at
        (same_type turn.now (pair_of state.now truth_type)) Y27 place later) later }
{
    if is_turn(turn, state) {
        Ok(())
    } else {
        Err(Refusal::At(Code::Y27, place))
    }
}

/// Whether the type is that of the state and a truth value.
fn is_turn(turn: &Ty, state: &Ty) -> bool
    ensures { result ≡ same_type turn.now (pair_of state.now truth_type) }
{
    match &turn.form {
        TyForm::Struct(fields) => are_of_turn(fields.as_slice(), state),
        TyForm::Scalar(_) | TyForm::Vec(_) | TyForm::Dict(_, _) | TyForm::Build(_) => false,
    }
}

/// Whether the fields are the state's and a truth value's.
#[tactic(auto, using(crate::proofs::Elements::turn_of_two, crate::proofs::Elements::turn_of_others))]
fn are_of_turn(fields: &[Ty], state: &Ty) -> bool
    ensures { result ≡ same_type (struct (pack fields.now)) (pair_of state.now truth_type) }
{
    if fields.len() != 2 {
        return false;
    }
    if same(&fields[0], state) {
        is_truth(&fields[1])
    } else {
        false
    }
}

/// The type of a program's body is builder-free.
pub fn check_answer(ty: &Ty, place: Place) -> Result<(), Refusal>
    ensures { (later : Found TypeTree) → Allows result (demand_at (is_builder_free ty.now) Y3 place
        later) later }
{
    if is_builder_free(ty) {
        Ok(())
    } else {
        Err(Refusal::At(Code::Y3, place))
    }
}
