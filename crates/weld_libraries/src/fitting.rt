//! The types of a call's arguments, and whether they fit it.
ghost use Rattle.std.specs.Prelude.{◌≡◌, ◌<◌, ◌++◌, ◌∷◌, [], length, OnOk};
ghost use Rattle.weld_lazy.specs.View.{view_ids};
ghost use Rattle.weld_libraries.specs.Answers.{TypesAre, Unfits, UnfitIs};

use std::alloc::{AllocError, Global};
use weld_calls::{Call, first_misfit};
use weld_lazy::{Graph, LibFault, ObjectId};
use weld_tree::{Ty, Tys};

/// The types of the objects, in order, or the first id that isn't in the graph.
pub(crate) fn types_of(alloc: Global, graph: &Graph, ids: &[ObjectId]) -> Result<Tys, LibFault>
    ensures { TypesAre result graph.now (view_ids ids.now) }
{
    let mut types = Tys::new(alloc);
    for id in ids {
        let Some(ty) = graph.ty_of(*id) else {
            return Err(LibFault::Unknown(*id));
        };
        match push_copy(alloc, &mut types, ty) {
            Ok(()) => {}
            Err(_) => return Err(LibFault::Memory),
        }
    }
    Ok(types)
}

/// One type more.
fn push_copy(alloc: Global, types: &mut Tys, ty: &Ty) -> Result<(), AllocError>
    ensures { OnOk result (types.new ≡ types.old ++ ty.now ∷ []) }
{
    types.push(ty.copy(alloc)?)
}

/// Whether the types fit the call.
pub(crate) fn check_fit(alloc: Global, call: Call, types: &[Ty]) -> Result<(), LibFault>
    requires { length types.now < 4294967295 }
    ensures { Unfits result call types.now }
{
    match first_misfit(call, types) {
        None => Ok(()),
        Some((place, ty)) => Err(unfit(alloc, place, ty)),
    }
}

/// An argument that doesn't fit, with its type.
fn unfit(alloc: Global, place: u32, ty: &Ty) -> LibFault
    ensures { UnfitIs result place ty.now }
{
    match ty.copy(alloc) {
        Ok(found) => LibFault::Unfit { place, found },
        Err(_) => LibFault::Memory,
    }
}
