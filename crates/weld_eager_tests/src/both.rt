//! Calls in both ways: by plain loops, and as the one program that they are lowered to.

ghost use Rattle.std.specs.Prelude.{IfOk};
ghost use Rattle.weld_data.specs.View.{view_val};
ghost use Rattle.weld_tree.specs.HasValue.{HasValue};
ghost use Rattle.weld_calls.specs.CallTypes.{AreValueTypes, FitsCall, HasItsOperator};
ghost use Rattle.weld_eager.specs.Fitting.{AreOf};
ghost use Rattle.weld_meaning.specs.Meaning.{ArgumentsFit};
ghost use Rattle.weld_objects.specs.Objects.{IsGiven};

use crate::given::{Given, check, count_of, read_given};
use std::alloc::Global;
use std::test::Fail;
use weld_calls::Call;
use weld_calls::call_laws::each_call_means_its_list;
use weld_data::{Stop, Text, Val, Vals};
use weld_eager::eager::eager;
use weld_lazy::laws::inputs_are_given_up;
use weld_lazy::{Graph, Lowered, ObjectId};
use weld_libraries::add_library_call;
use weld_libraries::fragments::fragment;
use weld_meaning::Accepted;
use weld_meaning::laws::typed_programs_are_never_stuck;
use weld_objects::answer_type::answer_type;
use weld_rows::eval_plain;
use weld_tree::Ty;
use weld_values::write_value;

/// What a run came to, as it is written; `None` where it faulted.
fn written(alloc: Global, outcome: Result<Val, Stop>, ty: &Ty) -> Result<Option<Text>, Fail>
    requires { IfOk outcome (λ v. HasValue ty.now (view_val v)) }
{
    match outcome {
        Ok(value) => Ok(Some(write_value(alloc, &value, ty)?)),
        Err(Stop::Fault) => Ok(None),
        Err(Stop::Memory) => Err(Fail::from("memory was wanting")),
    }
}

/// What the call comes to by plain loops.
fn by_loops(alloc: Global, call: Call, given: &Given) -> Result<Option<Text>, Fail>
    requires operator { HasItsOperator call }
    requires fits { FitsCall call given.now.types }
    requires fit { AreOf given.now.types given.now.values }
    requires formed { AreValueTypes given.now.types }
{
    each_call_means_its_list();
    typed_programs_are_never_stuck();
    let program = fragment(alloc, call, given.types.as_slice())?;
    let ty = answer_type(alloc, &program)?;
    let outcome = eager(alloc, call, &given.values, &given.types);
    written(alloc, outcome, &ty)
}

/// What a program comes to, one element after another.
fn by_program(alloc: Global, program: &Accepted, inputs: &Vals) -> Result<Option<Text>, Fail>
    requires { ArgumentsFit program.now.params inputs.now }
{
    typed_programs_are_never_stuck();
    let ty = answer_type(alloc, program)?;
    let outcome = eval_plain(alloc, program.program(), inputs);
    written(alloc, outcome, &ty)
}

/// Adds a value of the type to the graph.
fn add_value(alloc: Global, graph: &mut Graph, ty: &Ty, value: &Val) -> Result<ObjectId, Fail>
    requires { IsGiven ty.now (view_val value.now) }
{
    if graph.len() >= 4_294_967_295 {
        return Err(Fail::from("the graph is full"));
    }
    let value = value.copy(alloc)?;
    let ty = ty.copy(alloc)?;
    Ok(graph.add_value(value, ty)?)
}

/// Adds the arguments to the graph, and answers their ids.
fn add_values(alloc: Global, graph: &mut Graph, given: &Given) -> Result<Vec<ObjectId>, Fail>
    requires fit { AreOf given.now.types given.now.values }
    requires formed { AreValueTypes given.now.types }
{
    let types = given.types.as_slice();
    let mut ids = Vec::new(alloc);
    for i in 0..types.len() {
        ids.push(add_value(alloc, graph, &types[i], given.values.at(i))?)?;
    }
    Ok(ids)
}

/// Adds the call to the graph, on these objects.
fn add(alloc: Global, graph: &mut Graph, call: Call, ids: &[ObjectId]) -> Result<ObjectId, Fail>
    requires { HasItsOperator call }
{
    if graph.len() >= 4_294_967_295 || ids.len() != count_of(call) {
        return Err(Fail::from("the graph is full"));
    }
    match add_library_call(alloc, graph, call, ids) {
        Ok(id) => Ok(id),
        Err(_) => Err(Fail::from("the call is refused")),
    }
}

/// What the object comes to as a struct of its own, by the program that it is lowered to.
fn by_lowering(alloc: Global, graph: Graph, id: ObjectId) -> Result<Option<Text>, Fail> {
    inputs_are_given_up();
    if graph.names() >= 4_294_967_295 {
        return Err(Fail::from("there are too many names"));
    }
    let Ok(lowered) = graph.lower(alloc, &[id]) else {
        return Err(Fail::from("the object isn't lowered"));
    };
    let Lowered {
        program,
        inputs: ids,
    } = lowered;
    let inputs = graph.into_inputs(alloc, &ids)?;
    by_program(alloc, &program, &inputs)
}

/// What the call on these arguments comes to as a struct of its own, in a graph of its own.
fn by_graph(alloc: Global, call: Call, given: &Given) -> Result<Option<Text>, Fail>
    requires operator { HasItsOperator call }
    requires fit { AreOf given.now.types given.now.values }
    requires formed { AreValueTypes given.now.types }
{
    let mut graph = Graph::new(alloc);
    let ids = add_values(alloc, &mut graph, given)?;
    let id = add(alloc, &mut graph, call, ids.as_slice())?;
    by_lowering(alloc, graph, id)
}

/// What the call on arguments of these texts comes to in both ways.
fn in_both_ways(
    alloc: Global,
    call: Call,
    texts: &[(&str, &str)],
) -> Result<(Option<Text>, Option<Text>), Fail> {
    let given = read_given(alloc, texts)?;
    check(call, given.types.as_slice())?;
    let first = by_loops(alloc, call, &given)?;
    let second = by_graph(alloc, call, &given)?;
    Ok((first, second))
}

/// Whether the text is the wanted one, in a struct of its own where `held`; none where a fault is wanted.
fn is_wanted(alloc: Global, text: &Option<Text>, wanted: &str, held: bool) -> Result<bool, Fail> {
    match text {
        None => Ok(wanted == "fault"),
        Some(text) => {
            if held {
                let held = format!(in alloc; "{{{wanted}}}")?;
                Ok(text.as_slice() == held.as_bytes())
            } else {
                Ok(text.as_slice() == wanted.as_bytes())
            }
        }
    }
}

/// Whether the call on arguments of these texts comes to what is wanted in both ways.
pub(crate) fn holds(
    alloc: Global,
    call: Call,
    texts: &[(&str, &str)],
    wanted: &str,
) -> Result<bool, Fail> {
    let (first, second) = in_both_ways(alloc, call, texts)?;
    Ok(is_wanted(alloc, &first, wanted, false)? && is_wanted(alloc, &second, wanted, true)?)
}
