//! One object of a script, added to a graph.
ghost use Rattle.std.specs.Prelude.{◌≡◌, ◌<◌, ◌++◌, ◌∷◌, [], length, IfOk, OnOk};
ghost use Rattle.weld_data.specs.Kind.{InRange};
ghost use Rattle.weld_calls.specs.declared.call.Call.{Call};
ghost use Rattle.weld_lazy.specs.View.{view_ids};
ghost use Rattle.weld_script.specs.declared.made.Made.TheVariants as makes;
ghost use Rattle.weld_script.specs.Script.{IsDeclared, IsCall, IsMade};
ghost use Rattle.weld_session.specs.Answer.{left_after};
ghost use Rattle.weld_session.specs.Gathering.{object_of, types_of, Hands, IsMemory};

use crate::waiting::Waiting;
use std::alloc::{AllocError, Global};
use weld_calls::Call;
use weld_data::{Kind, Num, Val};
use weld_lazy::{Graph, LibFault, ObjectId};
use weld_libraries::add_library_call;
use weld_script::laws::declarations_have_types_of_values;
use weld_script::{Declared, Ids, Made};
use weld_tree::Ty;

/// The numbers as ids of a graph.
pub(crate) fn object_ids(alloc: Global, ids: &Ids) -> Result<Vec<ObjectId>, AllocError>
    ensures { IfOk result (λ list. view_ids list.items ≡ ids.now) }
{
    let mut list = Vec::new(alloc);
    for id in ids.as_slice() {
        list.push(ObjectId(*id))?;
    }
    Ok(list)
}

/// A declaration, with the next of the values that wait.
fn add_declared(
    alloc: Global,
    graph: &mut Graph,
    declared: &Declared,
    waiting: &mut Waiting,
) -> Result<(), AllocError>
    requires room { length graph.old < 4294967295 }
    requires may { IsDeclared declared.now }
    requires hands { Hands (makes.Declared declared.now) waiting.old }
    ensures added { OnOk result (graph.new ≡ graph.old ++ object_of (types_of graph.old) waiting.old
        (makes.Declared declared.now) ∷ []) }
    ensures left { OnOk result (waiting.new ≡ left_after (makes.Declared declared.now)
        waiting.old) }
{
    declarations_have_types_of_values();
    let Some(value) = waiting.next() else {
        unreachable!()
    };
    let ty = declared.ty(alloc)?;
    graph.add_value(value, ty)?;
    Ok(())
}

/// A number.
fn add_literal(graph: &mut Graph, kind: Kind, value: i128) -> Result<(), AllocError>
    requires room { length graph.old < 4294967295 }
    requires range { InRange kind value }
    ensures { OnOk result (graph.new ≡ graph.old ++ object_of (types_of graph.old) []
        (makes.Literal kind value) ∷ []) }
{
    graph.add_value(Val::Num(Num { kind, value }), Ty::scalar(kind))?;
    Ok(())
}

/// A call.
fn add_call(alloc: Global, graph: &mut Graph, call: Call, ids: &Ids) -> Result<(), AllocError>
    requires room { length graph.old < 4294967295 }
    requires may { IsCall (types_of graph.old) call ids.now }
    ensures { OnOk result (graph.new ≡ graph.old ++ object_of (types_of graph.old) []
        (makes.Call call ids.now) ∷ []) }
{
    let ids = object_ids(alloc, ids)?;
    match add_library_call(alloc, graph, call, ids.as_slice()) {
        Ok(_) => Ok(()),
        Err(fault) => Err(only_memory(fault)),
    }
}

/// The objects are there and fit the call, so the graph takes it unless memory is wanting.
fn only_memory(fault: LibFault) -> AllocError
    requires { IsMemory fault }
{
    match fault {
        LibFault::Memory => AllocError,
        _ => unreachable!(),
    }
}

/// The object, behind those before it.
pub(crate) fn add_made(
    alloc: Global,
    graph: &mut Graph,
    made: &Made,
    waiting: &mut Waiting,
) -> Result<(), AllocError>
    requires room { length graph.old < 4294967295 }
    requires may { IsMade (types_of graph.old) made.now }
    requires hands { Hands made.now waiting.old }
    ensures added { OnOk result (graph.new ≡ graph.old ++ object_of (types_of graph.old) waiting.old
        made.now ∷ []) }
    ensures left { OnOk result (waiting.new ≡ left_after made.now waiting.old) }
{
    match made {
        Made::Declared(declared) => add_declared(alloc, graph, declared, waiting),
        Made::Literal(kind, value) => add_literal(graph, *kind, *value),
        Made::Call(call, ids) => add_call(alloc, graph, *call, ids),
    }
}
