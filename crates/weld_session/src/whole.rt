//! A script and the values of its declarations as one program with its inputs.
ghost use Rattle.std.specs.Prelude.{◌≡◌, IfOk};
ghost use Rattle.weld_script.specs.Script.{AreInputs, declared_of};
ghost use Rattle.weld_session.specs.Answer.{IsGathered};

use crate::add::object_ids;
use crate::call_objects::library_objects_mean_their_lists;
use crate::graph::graph_of;
use crate::lower::{lower_shown, type_of_shown};
use std::alloc::{AllocError, Global};
use weld_calls::laws::rows_are_short;
use weld_data::Vals;
use weld_lazy::Lowered;
use weld_lazy::laws::inputs_are_given_up;
use weld_libraries::fragments::laws::fragments_are_small;
use weld_meaning::Accepted;
use weld_script::Script;
use weld_tree::Ty;

/// What a script is gathered to: an accepted program, its inputs, and its type.
#[derive(Drop)]
pub struct Gathered {
    pub program: Accepted,
    pub inputs: Vals,
    pub ty: Ty,
}

/// The one program of the script's shown objects, and its inputs: the values of the declarations and
/// literals that they reach, unchanged, in the order in which the script makes them. The program means
/// the struct of the shown objects, call by call, or a fault exactly where a reached object faults; what
/// isn't reached plays no part. It has as many loops as the reached calls together. There is a value for
/// each declaration, of its type; no value is copied.
pub fn gather(alloc: Global, script: &Script, inputs: Vals) -> Result<Gathered, AllocError>
    requires { AreInputs (declared_of script.now.made) inputs }
    ensures { IfOk result (λ g. IsGathered g.program g.inputs g.ty script.now.made script.now.shown
        inputs) }
{
    script.keeps_its_rules();
    library_objects_mean_their_lists();
    rows_are_short();
    fragments_are_small();
    inputs_are_given_up();
    let graph = graph_of(alloc, script.made.as_slice(), inputs)?;
    graph.keeps_its_rules();
    let shown = object_ids(alloc, &script.shown)?;
    let Lowered {
        program,
        inputs: ids,
    } = lower_shown(alloc, &graph, shown.as_slice())?;
    let ty = type_of_shown(alloc, &graph, shown.as_slice())?;
    let inputs = graph.into_inputs(alloc, &ids)?;
    Ok(Gathered {
        program,
        inputs,
        ty,
    })
}
