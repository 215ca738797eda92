//! The objects of a script as a graph.
ghost use Rattle.std.specs.Prelude.{◌≡◌, ◌≤◌, [], length, IfOk};
ghost use Rattle.weld_script.specs.Script.{AreMade, AreInputs, declared_of};
ghost use Rattle.weld_session.specs.Gathering.{objects_from};

use crate::add::add_made;
use crate::waiting::Waiting;
use std::alloc::{AllocError, Global};
use weld_data::Vals;
use weld_lazy::Graph;
use weld_script::Made;

/// The graph of the objects, in their order, where these are the values of the declarations.
pub(crate) fn graph_of(alloc: Global, made: &[Made], inputs: Vals) -> Result<Graph, AllocError>
    requires may { AreMade [] made.now }
    requires few { length made.now ≤ 864 }
    requires fit { AreInputs (declared_of made.now) inputs }
    ensures { IfOk result (λ graph. graph ≡ objects_from [] inputs made.now) }
{
    let mut graph = Graph::new(alloc);
    let mut waiting = Waiting::of(inputs);
    for object in made {
        add_made(alloc, &mut graph, object, &mut waiting)?;
    }
    Ok(graph)
}
