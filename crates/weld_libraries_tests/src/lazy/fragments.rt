//! Fragments from texts, and graphs with numbers.
use std::alloc::Global;
use std::test::Fail;
use weld_check_types::check_types;
use weld_data::{Kind, Num, Val};
use weld_lazy::{Fragment, Graph, Lowered, ObjectId};
use weld_parse::parse;
use weld_tree::Ty;
use weld_uses::accept;

/// The fragment that the text spells.
pub(crate) fn fragment(alloc: Global, text: &str) -> Result<Fragment, Fail> {
    let Ok(program) = parse(alloc, text.as_bytes()) else {
        return Err(Fail::from("the text is refused"));
    };
    let Ok(typed) = check_types(alloc, program) else {
        return Err(Fail::from("the types are refused"));
    };
    match accept(alloc, typed.program) {
        Ok(program) => Ok(Fragment { program }),
        Err(_) => Err(Fail::from("the use of builders is refused")),
    }
}

/// Adds the number 7 as an i64.
pub(crate) fn add_seven(graph: &mut Graph) -> Result<ObjectId, Fail> {
    if graph.len() >= 4_294_967_295 {
        return Err(Fail::from("the graph is full"));
    }
    let seven = Val::Num(Num {
        kind: Kind::I64,
        value: 7,
    });
    match graph.add_value(seven, Ty::scalar(Kind::I64)) {
        Ok(id) => Ok(id),
        Err(_) => Err(Fail::from("memory is wanting")),
    }
}

/// Adds a call that must not be refused.
pub(crate) fn add(
    alloc: Global,
    graph: &mut Graph,
    deps: &[ObjectId],
    text: &str,
) -> Result<ObjectId, Fail> {
    if graph.len() >= 4_294_967_295 || deps.len() > 4_294_967_295 {
        return Err(Fail::from("the graph is full"));
    }
    let f = fragment(alloc, text)?;
    match graph.add_call(alloc, deps, f) {
        Ok(id) => Ok(id),
        Err(_) => Err(Fail::from("the call is refused")),
    }
}

/// Lowers objects that are there.
pub(crate) fn lower(alloc: Global, graph: &Graph, shown: &[ObjectId]) -> Result<Lowered, Fail> {
    if graph.names() >= 4_294_967_295 || shown.is_empty() {
        return Err(Fail::from("there are too many names"));
    }
    match graph.lower(alloc, shown) {
        Ok(lowered) => Ok(lowered),
        Err(_) => Err(Fail::from("the objects aren't lowered")),
    }
}
