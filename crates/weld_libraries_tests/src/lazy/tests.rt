use crate::lazy::fragments::{add, add_seven, fragment, lower};
use std::test::Fail;
use weld_data::Kind;
use weld_lazy::{Graph, LazyFault, ObjectId};
use weld_tree::{Ty, loops_of};

static DOUBLE: &str = "|x:i64|x+x";

static SUM: &str = "|x:i64,y:i64|x+result(for([y],merger[i64,+],|b,i,e|merge(b,e)))";

#[test]
fn a_wrong_number_of_objects_is_told(rt: HostRuntime) -> Result<(), Fail> {
    let alloc = rt.alloc();
    let mut graph = Graph::new(alloc);
    let v = add_seven(&mut graph)?;
    if graph.len() >= 4_294_967_295 {
        return Err(Fail::from("the graph is full"));
    }
    match graph.add_call(alloc, &[v], fragment(alloc, SUM)?) {
        Err(LazyFault::Count { wanted, given }) => {
            assert_eq!(rt; (wanted, given), (2, 1));
            assert_eq!(rt; graph.len(), 1);
            Ok(())
        }
        _ => Err(Fail::from("another answer")),
    }
}

#[test]
fn a_wrong_type_is_told(rt: HostRuntime) -> Result<(), Fail> {
    let alloc = rt.alloc();
    let mut graph = Graph::new(alloc);
    let v = add_seven(&mut graph)?;
    if graph.len() >= 4_294_967_295 {
        return Err(Fail::from("the graph is full"));
    }
    match graph.add_call(alloc, &[v], fragment(alloc, "|x:vec[i64]|len(x)")?) {
        Err(
            LazyFault::Mismatch {
                place,
                expected,
                found,
            },
        ) => {
            assert_eq!(rt; place, 0);
            assert!(rt; found.same(&Ty::scalar(Kind::I64)));
            assert!(rt; !expected.same(&Ty::scalar(Kind::I64)));
            Ok(())
        }
        _ => Err(Fail::from("another answer")),
    }
}

#[test]
fn an_object_that_is_not_there_is_told(rt: HostRuntime) -> Result<(), Fail> {
    let alloc = rt.alloc();
    let mut graph = Graph::new(alloc);
    let v = add_seven(&mut graph)?;
    if graph.names() >= 4_294_967_295 {
        return Err(Fail::from("there are too many names"));
    }
    match graph.lower(alloc, &[v, ObjectId(5)]) {
        Err(LazyFault::Unknown(id)) => {
            assert_eq!(rt; id, ObjectId(5));
            Ok(())
        }
        _ => Err(Fail::from("another answer")),
    }
}

#[test]
fn two_calls_share_an_object(rt: HostRuntime) -> Result<(), Fail> {
    let alloc = rt.alloc();
    let mut graph = Graph::new(alloc);
    let v = add_seven(&mut graph)?;
    let unused = add_seven(&mut graph)?;
    let double = add(alloc, &mut graph, &[v], DOUBLE)?;
    let sum = add(alloc, &mut graph, &[double, v], SUM)?;
    assert_eq!(rt; unused, ObjectId(1));
    let lowered = lower(alloc, &graph, &[sum, double])?;
    assert_eq!(rt; lowered.inputs.len(), 1);
    assert_eq!(rt; lowered.program.program().params.len(), 1);
    assert_eq!(rt; loops_of(lowered.program.program()), 1);
    let inputs = graph.into_inputs(alloc, &lowered.inputs)?;
    assert_eq!(rt; inputs.len(), 1);
    Ok(())
}

#[test]
fn a_fragment_is_used_twice(rt: HostRuntime) -> Result<(), Fail> {
    let alloc = rt.alloc();
    let mut graph = Graph::new(alloc);
    let v = add_seven(&mut graph)?;
    let first = add(alloc, &mut graph, &[v, v], SUM)?;
    let second = add(alloc, &mut graph, &[first, v], SUM)?;
    let lowered = lower(alloc, &graph, &[second])?;
    assert_eq!(rt; loops_of(lowered.program.program()), 2);
    assert_eq!(rt; lowered.program.program().params.len(), 1);
    Ok(())
}
