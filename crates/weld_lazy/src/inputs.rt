//! The values of a graph, given up as the inputs of a program.
ghost use Rattle.std.specs.Prelude.{◌≡◌, ◌<◌, ◌≤◌, ◌++◌, ◌∷◌, suc, List, length, drop, IfOk};
ghost use Rattle.weld_objects.specs.Objects.{Object as PlainObject};
ghost use Rattle.weld_lazy.specs.View.{view_object};
ghost use Rattle.weld_lazy.specs.Inputs.{picked};

use crate::graph::Graph;
use crate::ids::Ids;
use crate::object::Object;
use std::alloc::{AllocError, Global};
use weld_data::Vals;

impl Graph {
    /// Gives up the values of these ids, which rise, in their order; all else is dropped.
    pub fn into_inputs(self, alloc: Global, ids: &Ids) -> Result<Vals, AllocError>
        ensures { IfOk result (λ values. values ≡ picked 0 self ids.now) }
    {
        let Graph { objects, names: _ } = self;
        let mut values = Vals::new(alloc);
        let mut place = 0;
        let mut id = 0;
        for object in objects {
            place = pick(object, id, ids, place, &mut values)?;
            id += 1;
        }
        Ok(values)
    }
}

/// Past the object of that id: its value is appended where it is the next of the ids.
fn pick(
    object: Object,
    id: usize,
    ids: &Ids,
    place: usize,
    values: &mut Vals,
) -> Result<usize, AllocError>
    requires { place ≤ length ids.now }
    ensures picked { IfOk result (λ next. (os : List PlainObject)
        → values.old ++ picked id (view_object object ∷ os) (drop place ids.now)
        ≡ values.new ++ picked (suc id) os (drop next ids.now)) }
    ensures within { IfOk result (λ next. next ≤ length ids.now) }
{
    match object {
        Object::Call(_, _, _) => Ok(place),
        Object::Given(_, value) => {
            if place < ids.len() && ids.at(place).0 as usize == id {
                values.push(value)?;
                Ok(place + 1)
            } else {
                Ok(place)
            }
        }
    }
}
