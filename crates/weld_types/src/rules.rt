//! The rules of nodes, by their number of parts.
ghost use Rattle.weld_types.specs.Walk.{fits, breaks, field_type, at_node, leaf_type, one_type, len_type, field_of_type, result_type, may_start};
ghost use Rattle.weld_types.specs.Says.{Says};
ghost use Rattle.weld_tree.specs.ExprView.{view_leaf, view_one};
ghost use Rattle.weld_tree.specs.ExprTree.{started};
ghost use Rattle.weld_types.specs.Tests.{same_type};
ghost use Rattle.std.specs.Prelude.{◌≡◌, MatchOption};
ghost use Rattle.weld_tree.specs.declared.code.Code.TheVariants.{Y20};
ghost use Rattle.weld_tree.specs.TypeTree.{build, vec, pack};
ghost use Rattle.weld_tree.specs.TypeView.{view_build};

use crate::scope::Scope;
use crate::tests::{is_integer, is_scalar, is_truth, is_well_formed_build, is_within_limits, same};
use std::alloc::Global;
use weld_data::Kind;
use weld_tree::{BuildTy, Code, LeafForm, OneForm, Place, Refusal, Ty, TyForm, Tys};

mod binding;
mod many;
mod notes;
mod three;
mod two;

pub use binding::{
    check_answer, check_loop_body, check_loop_notes, check_state, check_turn, row_type,
};
pub use many::many_type;
pub use notes::{check_note, check_param};
pub use three::three_type;
pub use two::two_type;

/// The type of a node, unless it is too large.
pub(crate) fn sized(ty: Ty, place: Place) -> Result<Ty, Refusal>
    ensures { Says result (at_node place (fits ty)) }
{
    if is_within_limits(&ty) {
        Ok(ty)
    } else {
        Err(Refusal::At(Code::Y14, place))
    }
}

/// The type of a node without parts.
pub fn leaf_type(leaf: &LeafForm, scope: &Scope, place: Place, alloc: Global) -> Result<Ty, Refusal>
    ensures { Says result (at_node place (leaf_type (view_leaf leaf.now) scope.now)) }
{
    match leaf {
        LeafForm::Int(kind, _) => sized(Ty::scalar(*kind), place),
        LeafForm::Truth(_) => sized(Ty::scalar(Kind::Bool), place),
        LeafForm::Chars(_) => match Ty::vec_of(alloc, Ty::scalar(Kind::I8)) {
            Ok(ty) => sized(ty, place),
            Err(_) => Err(Refusal::Memory),
        },
        LeafForm::Name(name) => match scope.type_of(*name) {
            Some(ty) => copied(ty, place, alloc),
            None => Err(Refusal::At(Code::N1, place)),
        },
        LeafForm::Builder(builder) => {
            if is_well_formed_build(builder) {
                built(builder, place, alloc)
            } else {
                Err(Refusal::At(Code::Y1, place))
            }
        }
    }
}

/// The type as that of a node.
pub(crate) fn copied(ty: &Ty, place: Place, alloc: Global) -> Result<Ty, Refusal>
    ensures { Says result (at_node place (fits ty.now)) }
{
    match ty.copy(alloc) {
        Ok(ty) => sized(ty, place),
        Err(_) => Err(Refusal::Memory),
    }
}

/// The builder's type as that of a node.
pub(crate) fn built(builder: &BuildTy, place: Place, alloc: Global) -> Result<Ty, Refusal>
    ensures { Says result (at_node place (fits (build (view_build builder.now)))) }
{
    match builder.copy(alloc) {
        Ok(copy) => sized(Ty::builder(copy), place),
        Err(_) => Err(Refusal::Memory),
    }
}

/// The type of a node of one part, by its part's type.
pub fn one_type(one: &OneForm, part: &Ty, place: Place, alloc: Global) -> Result<Ty, Refusal>
    ensures { Says result (at_node place (one_type (view_one one.now) part.now)) }
{
    match one {
        OneForm::Neg => {
            if is_integer(part) {
                copied(part, place, alloc)
            } else {
                Err(Refusal::At(Code::Y5, place))
            }
        }
        OneForm::Not => {
            if is_truth(part) {
                sized(Ty::scalar(Kind::Bool), place)
            } else {
                Err(Refusal::At(Code::Y6, place))
            }
        }
        OneForm::Cast(kind) => {
            if is_scalar(part) {
                sized(Ty::scalar(*kind), place)
            } else {
                Err(Refusal::At(Code::Y11, place))
            }
        }
        OneForm::Len => len_type(part, place),
        OneForm::Field(number) => field_type(part, *number, place, alloc),
        OneForm::Finish => result_type(part, place, alloc),
        OneForm::Builder(builder) => started_type(builder, part, place, alloc),
    }
}

fn len_type(part: &Ty, place: Place) -> Result<Ty, Refusal>
    ensures { Says result (at_node place (len_type part.now)) }
{
    match &part.form {
        TyForm::Vec(_) => sized(Ty::scalar(Kind::I64), place),
        TyForm::Scalar(_) | TyForm::Struct(_) | TyForm::Dict(_, _) | TyForm::Build(_) => {
            Err(Refusal::At(Code::Y18, place))
        }
    }
}

fn field_type(part: &Ty, number: u32, place: Place, alloc: Global) -> Result<Ty, Refusal>
    ensures { Says result (at_node place (field_of_type number part.now)) }
{
    match &part.form {
        TyForm::Struct(fields) => match nth(fields, number) {
            Some(field) => copied(field, place, alloc),
            None => Err(Refusal::At(Code::Y20, place)),
        },
        TyForm::Scalar(_) | TyForm::Vec(_) | TyForm::Dict(_, _) | TyForm::Build(_) => {
            Err(Refusal::At(Code::Y20, place))
        }
    }
}

/// The type of the field of that number, from 0.
fn nth(fields: &Tys, number: u32) -> Option<&Ty>
    ensures { MatchOption result (field_type number (pack fields.now) ≡ breaks Y20)
        (λ t. field_type number (pack fields.now) ≡ fits t.now) }
{
    fields.as_slice().get(number as usize)
}

fn result_type(part: &Ty, place: Place, alloc: Global) -> Result<Ty, Refusal>
    ensures { Says result (at_node place (result_type part.now)) }
{
    match &part.form {
        TyForm::Build(builder) => match builder.gives(alloc) {
            Ok(ty) => sized(ty, place),
            Err(_) => Err(Refusal::Memory),
        },
        TyForm::Scalar(_) | TyForm::Vec(_) | TyForm::Struct(_) | TyForm::Dict(_, _) => {
            Err(Refusal::At(Code::Y30, place))
        }
    }
}

fn started_type(builder: &BuildTy, start: &Ty, place: Place, alloc: Global) -> Result<Ty, Refusal>
    ensures { Says result (at_node place (one_type (started (view_build builder.now)) start.now)) }
{
    if !is_well_formed_build(builder) {
        return Err(Refusal::At(Code::Y1, place));
    }
    if may_start(builder, start) {
        built(builder, place, alloc)
    } else {
        Err(Refusal::At(Code::Y28, place))
    }
}

/// Whether a value of the type may be the builder's starting value.
fn may_start(builder: &BuildTy, start: &Ty) -> bool
    ensures { result ≡ may_start (view_build builder.now) start.now }
{
    match builder {
        BuildTy::Total(item, _) => same(start, item),
        BuildTy::Cells(item, _) => is_vec_of(start, item),
        BuildTy::List(_) | BuildTy::Keyed(_, _, _) | BuildTy::Groups(_, _) => false,
    }
}

/// Whether the type is that of vectors of such items.
fn is_vec_of(ty: &Ty, item: &Ty) -> bool
    ensures { result ≡ same_type ty.now (vec item.now) }
{
    match &ty.form {
        TyForm::Vec(other) => same(other, item),
        TyForm::Scalar(_) | TyForm::Struct(_) | TyForm::Dict(_, _) | TyForm::Build(_) => false,
    }
}
