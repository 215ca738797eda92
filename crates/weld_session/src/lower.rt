//! The shown objects of a graph as one program.
ghost use Rattle.std.specs.Prelude.{◌≡◌, ◌<◌, List, length, map, IfOk};
ghost use Rattle.weld_tree.specs.TypeTree.{struct, pack};
ghost use Rattle.weld_script.specs.Script.{AreBelow};
ghost use Rattle.weld_objects.specs.Lowered.{names_of, shown_type};
ghost use Rattle.weld_lazy.specs.View.{view_ids};
ghost use Rattle.weld_lazy.specs.IsLowered.{IsLowered};
ghost use Rattle.weld_session.specs.Gathering.{LowersMemory};

use std::alloc::{AllocError, Global};
use weld_lazy::{Graph, LazyFault, Lowered, ObjectId};
use weld_tree::{Ty, Tys};

/// The ids are there, so the graph is lowered unless memory is wanting.
fn only_memory(fault: LazyFault) -> AllocError
    requires { LowersMemory fault }
{
    match fault {
        LazyFault::Memory => AllocError,
        _ => unreachable!(),
    }
}

/// The program of the objects, which are there.
pub(crate) fn lower_shown(
    alloc: Global,
    graph: &Graph,
    shown: &[ObjectId],
) -> Result<Lowered, AllocError>
    requires some { 0 < length shown.now }
    requires few { names_of graph.now < 4294967295 }
    requires there { AreBelow (length graph.now) (view_ids shown.now) }
    ensures { IfOk result (λ l. IsLowered l.program l.inputs graph.now (view_ids shown.now)) }
{
    match graph.lower(alloc, shown) {
        Ok(lowered) => Ok(lowered),
        Err(fault) => Err(only_memory(fault)),
    }
}

/// The struct of the objects' types, which are there.
pub(crate) fn type_of_shown(
    alloc: Global,
    graph: &Graph,
    shown: &[ObjectId],
) -> Result<Ty, AllocError>
    requires { AreBelow (length graph.now) (view_ids shown.now) }
    ensures { IfOk result (λ ty. ty ≡ shown_type graph.now (view_ids shown.now)) }
{
    let mut types = Tys::new(alloc);
    for id in shown {
        let Some(ty) = graph.ty_of(*id) else {
            unreachable!()
        };
        types.push(ty.copy(alloc)?)?;
    }
    Ok(Ty::struct_of(types))
}
