use crate::graphs::{add_rows, add_seven, add_table, added, room, vector_type};
use std::test::Fail;
use weld_columns as columns;
use weld_data::{BinOp, Kind};
use weld_lazy::{Graph, LibFault, ObjectId};
use weld_tree::Ty;
use weld_vectors as vectors;

#[test]
fn maps_are_added(rt: HostRuntime) -> Result<(), Fail> {
    let alloc = rt.alloc();
    let mut graph = Graph::new(alloc);
    let t = add_table(alloc, &mut graph)?;
    room(&graph)?;
    let v = added(columns::column(alloc, &mut graph, t, 0))?;
    room(&graph)?;
    let m = added(columns::column(alloc, &mut graph, t, 1))?;
    room(&graph)?;
    let sums = added(vectors::add(alloc, &mut graph, v, v))?;
    room(&graph)?;
    let differences = added(vectors::sub(alloc, &mut graph, sums, v))?;
    room(&graph)?;
    let products = added(vectors::mul(alloc, &mut graph, differences, v))?;
    room(&graph)?;
    let chosen = added(vectors::where_(alloc, &mut graph, m, products, v))?;
    room(&graph)?;
    let taken = added(vectors::take(alloc, &mut graph, chosen, v))?;
    room(&graph)?;
    let kept = added(columns::filter(alloc, &mut graph, taken, m))?;
    room(&graph)?;
    let last = added(columns::arith(alloc, &mut graph, kept, BinOp::Rem, v))?;
    assert_eq!(rt; last, ObjectId(9));
    Ok(())
}

#[test]
fn numbers_are_added(rt: HostRuntime) -> Result<(), Fail> {
    let alloc = rt.alloc();
    let mut graph = Graph::new(alloc);
    let t = add_table(alloc, &mut graph)?;
    room(&graph)?;
    let v = added(columns::column(alloc, &mut graph, t, 0))?;
    room(&graph)?;
    let sum = added(vectors::sum(alloc, &mut graph, v))?;
    room(&graph)?;
    let least = added(vectors::min(alloc, &mut graph, v))?;
    room(&graph)?;
    added(vectors::max(alloc, &mut graph, v))?;
    room(&graph)?;
    added(columns::sum(alloc, &mut graph, v))?;
    room(&graph)?;
    added(columns::min(alloc, &mut graph, v))?;
    room(&graph)?;
    added(columns::max(alloc, &mut graph, v))?;
    room(&graph)?;
    let scaled = added(vectors::scale(alloc, &mut graph, v, sum))?;
    room(&graph)?;
    let dot = added(vectors::dot(alloc, &mut graph, scaled, v))?;
    room(&graph)?;
    let last = added(vectors::slice(alloc, &mut graph, v, dot, least))?;
    assert_eq!(rt; last, ObjectId(10));
    Ok(())
}

#[test]
fn groups_are_added(rt: HostRuntime) -> Result<(), Fail> {
    let alloc = rt.alloc();
    let mut graph = Graph::new(alloc);
    let t = add_table(alloc, &mut graph)?;
    room(&graph)?;
    let v = added(columns::column(alloc, &mut graph, t, 0))?;
    room(&graph)?;
    let m = added(columns::column(alloc, &mut graph, t, 1))?;
    room(&graph)?;
    let count = added(columns::count(alloc, &mut graph, m))?;
    room(&graph)?;
    added(columns::compare(alloc, &mut graph, v, BinOp::Lt, count))?;
    room(&graph)?;
    added(columns::group_sum(alloc, &mut graph, m, v))?;
    room(&graph)?;
    added(columns::group_list(alloc, &mut graph, v, m))?;
    room(&graph)?;
    added(columns::group_count(alloc, &mut graph, v))?;
    room(&graph)?;
    let cells = added(vectors::histogram(alloc, &mut graph, v, v))?;
    assert_eq!(rt; cells, ObjectId(8));
    let rows = add_rows(alloc, &mut graph)?;
    room(&graph)?;
    added(vectors::rows_dot(alloc, &mut graph, rows, cells))?;
    match graph.ty_of(cells) {
        Some(ty) => {
            assert!(rt; ty.same(&vector_type(alloc, Kind::I64)?));
            Ok(())
        }
        None => Err(Fail::from("the object isn't there")),
    }
}

#[test]
fn an_argument_that_does_not_fit_is_told(rt: HostRuntime) -> Result<(), Fail> {
    let alloc = rt.alloc();
    let mut graph = Graph::new(alloc);
    let seven = add_seven(&mut graph)?;
    let t = add_table(alloc, &mut graph)?;
    room(&graph)?;
    match vectors::sum(alloc, &mut graph, seven) {
        Err(LibFault::Unfit { place, found }) => {
            assert_eq!(rt; place, 1);
            assert!(rt; found.same(&Ty::scalar(Kind::I64)));
        }
        _ => return Err(Fail::from("another answer")),
    }
    room(&graph)?;
    let v = added(columns::column(alloc, &mut graph, t, 0))?;
    room(&graph)?;
    match columns::compare(alloc, &mut graph, v, BinOp::Lt, v) {
        Err(LibFault::Unfit { place, found }) => {
            assert_eq!(rt; place, 3);
            assert!(rt; found.same(&vector_type(alloc, Kind::I64)?));
        }
        _ => return Err(Fail::from("another answer")),
    }
    room(&graph)?;
    match columns::column(alloc, &mut graph, t, 2) {
        Err(LibFault::Unfit { place, found: _ }) => {
            assert_eq!(rt; place, 2);
            Ok(())
        }
        _ => Err(Fail::from("another answer")),
    }
}

#[test]
fn an_object_that_is_not_there_is_told_first(rt: HostRuntime) -> Result<(), Fail> {
    let alloc = rt.alloc();
    let mut graph = Graph::new(alloc);
    let seven = add_seven(&mut graph)?;
    room(&graph)?;
    match vectors::rows_dot(alloc, &mut graph, seven, ObjectId(3)) {
        Err(LibFault::Unknown(id)) => {
            assert_eq!(rt; id, ObjectId(3));
            assert_eq!(rt; graph.len(), 1);
            Ok(())
        }
        _ => Err(Fail::from("another answer")),
    }
}
