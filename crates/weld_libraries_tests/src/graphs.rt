//! Graphs with vectors, and what is expected of calls.
ghost use Rattle.std.specs.Prelude.{◌≡◌, ◌<◌, length, IfOk, OnOk};
ghost use Rattle.weld_tree.specs.TypeTree.{vec, scalar};

use std::alloc::Global;
use std::test::Fail;
use weld_data::{Bools, Column, I64s, Kind, Num, Val, Vals};
use weld_lazy::{Graph, LibFault, ObjectId};
use weld_tree::{Ty, Tys};

/// That there is room for one object more.
pub(crate) fn room(graph: &Graph) -> Result<(), Fail>
    ensures { OnOk result (length graph.now < 4294967295) }
{
    if graph.len() < 4_294_967_295 {
        Ok(())
    } else {
        Err(Fail::from("the graph is full"))
    }
}

/// The type of vectors of that kind.
pub(crate) fn vector_type(alloc: Global, kind: Kind) -> Result<Ty, Fail>
    ensures { IfOk result (λ ty. ty ≡ vec (scalar kind)) }
{
    match Ty::vec_of(alloc, Ty::scalar(kind)) {
        Ok(ty) => Ok(ty),
        Err(_) => Err(Fail::from("memory is wanting")),
    }
}

/// The call was added.
pub(crate) fn added(answer: Result<ObjectId, LibFault>) -> Result<ObjectId, Fail> {
    match answer {
        Ok(id) => Ok(id),
        Err(_) => Err(Fail::from("the call is refused")),
    }
}

/// Adds the number 7 as an i64.
pub(crate) fn add_seven(graph: &mut Graph) -> Result<ObjectId, Fail> {
    room(&*graph)?;
    let seven = Val::Num(Num {
        kind: Kind::I64,
        value: 7,
    });
    match graph.add_value(seven, Ty::scalar(Kind::I64)) {
        Ok(id) => Ok(id),
        Err(_) => Err(Fail::from("memory is wanting")),
    }
}

/// The table whose two columns, of numbers and of truth values, are empty.
pub(crate) fn add_table(alloc: Global, graph: &mut Graph) -> Result<ObjectId, Fail> {
    let mut columns = Vals::new(alloc);
    columns.push(Val::List(Column::I64(I64s::new(alloc))))?;
    columns.push(Val::List(Column::Bool(Bools::new(alloc))))?;
    let mut types = Tys::new(alloc);
    types.push(vector_type(alloc, Kind::I64)?)?;
    types.push(vector_type(alloc, Kind::Bool)?)?;
    room(&*graph)?;
    match graph.add_value(Val::Struct(columns), Ty::struct_of(types)) {
        Ok(id) => Ok(id),
        Err(_) => Err(Fail::from("memory is wanting")),
    }
}

/// The empty vector of vectors of numbers.
pub(crate) fn add_rows(alloc: Global, graph: &mut Graph) -> Result<ObjectId, Fail> {
    room(&*graph)?;
    let rows = Val::List(Column::Nest(Vals::new(alloc)));
    let item = vector_type(alloc, Kind::I64)?;
    match Ty::vec_of(alloc, item) {
        Err(_) => Err(Fail::from("memory is wanting")),
        Ok(ty) => match graph.add_value(rows, ty) {
            Ok(id) => Ok(id),
            Err(_) => Err(Fail::from("memory is wanting")),
        },
    }
}
