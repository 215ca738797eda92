//! The rules of nodes of any number of parts.
ghost use Rattle.std.specs.Prelude.{◌≡◌, ◌<◌, length};
ghost use Rattle.weld_tree.specs.ExprView.{view_many};
ghost use Rattle.weld_tree.specs.TypeTree.{pack, vec};
ghost use Rattle.weld_types.specs.Says.{Says};
ghost use Rattle.weld_types.specs.Tests.{are_all};
ghost use Rattle.weld_types.specs.Walk.{fits, at_node, many_type, vec_type, struct_type};

use super::sized;
use crate::tests::{is_builder, is_builder_free, same};
use std::alloc::Global;
use weld_tree::{Code, ManyForm, Place, Refusal, Ty, Tys};

/// The type of a node of any number of parts, by the types of its parts.
pub fn many_type(many: ManyForm, parts: Tys, place: Place, alloc: Global) -> Result<Ty, Refusal>
    ensures { Says result (at_node place (many_type (view_many many) (pack parts))) }
{
    match many {
        ManyForm::Vec => vec_type(parts.as_slice(), place, alloc),
        ManyForm::Struct => struct_type(parts, place),
    }
}

fn vec_type(items: &[Ty], place: Place, alloc: Global) -> Result<Ty, Refusal>
    ensures { Says result (at_node place (vec_type (pack items.now))) }
{
    match items.split_first() {
        None => Err(Refusal::At(Code::Y21, place)),
        Some((first, rest)) => {
            if are_all(rest, first) && is_builder_free(first) {
                vec_of(first, place, alloc)
            } else {
                Err(Refusal::At(Code::Y21, place))
            }
        }
    }
}

/// The type of the vectors of such items, as that of a node.
fn vec_of(item: &Ty, place: Place, alloc: Global) -> Result<Ty, Refusal>
    ensures { Says result (at_node place (fits (vec item.now))) }
{
    let Ok(item) = item.copy(alloc) else {
        return Err(Refusal::Memory);
    };
    match Ty::vec_of(alloc, item) {
        Ok(ty) => sized(ty, place),
        Err(_) => Err(Refusal::Memory),
    }
}

/// Whether each of these types is that one.
#[tactic(auto, using(crate::proofs::CodeTests::all_left, crate::proofs::CodeTests::no_all_left))]
pub(crate) fn are_all(types: &[Ty], ty: &Ty) -> bool
    ensures { result ≡ are_all (pack types.now) ty.now }
{
    for other in types {
        if !same(other, ty) {
            return false;
        }
    }
    true
}

fn struct_type(fields: Tys, place: Place) -> Result<Ty, Refusal>
    ensures { Says result (at_node place (struct_type (pack fields))) }
{
    if fields.is_empty() {
        return Err(Refusal::At(Code::Y22, place));
    }
    struct_of(fields, place)
}

/// The type of the structs of such fields, of which there is one.
#[tactic(auto, using(crate::proofs::CodeTests::some_struct))]
fn struct_of(fields: Tys, place: Place) -> Result<Ty, Refusal>
    requires { 0 < length fields }
    ensures { Says result (at_node place (struct_type (pack fields))) }
{
    let ty = Ty::struct_of(fields);
    if is_builder_free(&ty) || is_builder(&ty) {
        sized(ty, place)
    } else {
        Err(Refusal::At(Code::Y22, place))
    }
}
