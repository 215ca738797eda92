//! Which objects are reached from those that are shown.
ghost use Rattle.std.specs.Prelude.{◌≡◌, ◌==◌, ◌||◌, ◌<◌, ◌≤◌, ℕ, [], length, map, OnOk, IfOk};
ghost use Rattle.weld_objects.specs.Reached.{is_one_of, with_used, reached_from};
ghost use Rattle.weld_lazy.specs.View.{view_object};
ghost use Rattle.weld_lazy.specs.Lowering.{marks_of};

use crate::ids::{Ids, ObjectId};
use crate::object::Object;
use std::alloc::{AllocError, Global};
use std::collections::BTreeMap;
use std::marker::Model;

/// Objects that are marked. Contracts see a list in which each of them is looked for.
#[derive(Drop)]
pub(crate) struct Marks {
    marked: BTreeMap<u32, bool>,
}

impl Model for Marks {
    ghost use Rattle.std.specs.Prelude.{ℕ, Bool, List};
    ghost use Rattle.std.specs.Coded.{coded_list, coded×, coded_ℕ, coded_bool};

    ghost Value = { List (ℕ × Bool) };

    ghost coded = { coded_list (coded× coded_ℕ coded_bool) };

    ghost view = { λ m. m.marked.entries };
}

impl Marks {
    /// No object is marked. It takes no memory.
    pub fn new(alloc: Global) -> Marks
        ensures { result ≡ [] }
    {
        Marks {
            marked: BTreeMap::new(alloc),
        }
    }

    /// Whether the object is marked. It takes no memory.
    #[tactic(auto, using(crate::proofs::Marking::looked_up))]
    pub fn has(&self, id: ObjectId) -> bool
        ensures { result ≡ marks_of self.now id.0 }
    {
        self.marked.get(&id.0).is_some()
    }

    /// Marks the object too.
    fn mark(&mut self, id: ObjectId) -> Result<(), AllocError>
        ensures { OnOk result ((k : ℕ) → marks_of self.new k
            ≡ ((k == id.0) || marks_of self.old k)) }
    {
        self.marked.insert(id.0, true)?;
        Ok(())
    }

    /// Marks these objects too.
    fn mark_all(&mut self, ids: &Ids) -> Result<(), AllocError>
        ensures { OnOk result ((k : ℕ) → marks_of self.new k
            ≡ (is_one_of ids.now k || marks_of self.old k)) }
    {
        let mut place = ids.len();
        while place > 0 {
            place -= 1;
            self.mark(ids.at(place))?;
        }
        Ok(())
    }
}

/// Where the object is a call that is marked, marks those that it is made on too.
fn mark_used(marks: &mut Marks, id: ObjectId, object: &Object) -> Result<(), AllocError>
    ensures { OnOk result ((k : ℕ) → marks_of marks.new k
        ≡ with_used id.0 (view_object object.now) (marks_of marks.old) k) }
{
    match object {
        Object::Given(_, _) => Ok(()),
        Object::Call(_, deps, _) => {
            if marks.has(id) {
                marks.mark_all(deps)
            } else {
                Ok(())
            }
        }
    }
}

/// Marks the objects that are reached from those that are shown: the last object first, since calls
/// are made on objects before them.
pub(crate) fn reach(alloc: Global, objects: &[Object], shown: &Ids) -> Result<Marks, AllocError>
    requires { length objects.now ≤ 4294967295 }
    ensures { IfOk result (λ marks. (k : ℕ) → marks_of marks k
        ≡ reached_from 0 (map view_object objects.now) (is_one_of shown.now) k) }
{
    let mut marks = Marks::new(alloc);
    marks.mark_all(shown)?;
    let mut id = objects.len();
    while id > 0 {
        id -= 1;
        mark_used(&mut marks, ObjectId(id as u32), &objects[id])?;
    }
    Ok(marks)
}
