//! The one way in which every call is added.
ghost use Rattle.std.specs.Prelude.{◌≡◌, ◌<◌, length};
ghost use Rattle.weld_calls.specs.CallTypes.{row, HasItsOperator};
ghost use Rattle.weld_lazy.specs.View.{view_ids};
ghost use Rattle.weld_lazy.specs.declared.fault.LibFault.TheVariants as lib_faults;
ghost use Rattle.weld_libraries.specs.Answers.{Answers, IsMemory};

use crate::fitting::{check_fit, types_of};
use crate::fragments::fragment;
use crate::fragments::laws::fragments_are_accepted;
use std::alloc::Global;
use weld_calls::Call;
use weld_calls::laws::rows_are_short;
use weld_lazy::{Fragment, Graph, LazyFault, LibFault, ObjectId};
use weld_meaning::laws::{types_are_unique, types_are_well_formed};
use weld_objects::laws::a_call_has_one_answer;

/// Adds a call to the graph, made on these objects, as many as the call takes, and answers its id.
///
/// `Unknown` names the first id that isn't in the graph; then `Unfit` tells the first argument, from 1,
/// whose type doesn't fit the call with those before it, and that type; for a column past the last of
/// its struct this is argument 2, with the struct's type. Where the call isn't added, the graph stays as
/// it was.
pub fn add_library_call(
    alloc: Global,
    graph: &mut Graph,
    call: Call,
    ids: &[ObjectId],
) -> Result<ObjectId, LibFault>
    requires room { length graph.old < 4294967295 }
    requires operator { HasItsOperator call }
    requires count { length ids.now ≡ length (row call) }
    ensures { Answers result graph.old graph.new call (view_ids ids.now) }
{
    rows_are_short();
    fragments_are_accepted();
    types_are_unique();
    types_are_well_formed();
    a_call_has_one_answer();
    graph.keeps_its_rules();
    let types = match types_of(alloc, &*graph, ids) {
        Ok(types) => types,
        Err(fault) => return Err(fault),
    };
    match check_fit(alloc, call, types.as_slice()) {
        Ok(()) => {}
        Err(fault) => return Err(fault),
    }
    let Ok(program) = fragment(alloc, call, types.as_slice()) else {
        return Err(LibFault::Memory);
    };
    match graph.add_call(alloc, ids, Fragment { program }) {
        Ok(id) => Ok(id),
        Err(fault) => Err(only_memory(fault)),
    }
}

/// The program's parameters are of the objects' types, so the graph takes the call unless memory is
/// wanting.
fn only_memory(fault: LazyFault) -> LibFault
    requires { IsMemory fault }
    ensures { result ≡ lib_faults.Memory }
{
    match fault {
        LazyFault::Memory => LibFault::Memory,
        _ => unreachable!(),
    }
}
