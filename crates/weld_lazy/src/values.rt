//! The values that are reached, numbered as the parameters of a program.
ghost use Rattle.std.specs.Prelude.{◌≡◌, ◌+◌, ◌<◌, ◌≤◌, ◌++◌, ◌∷◌, suc, ℕ, List, [], Some, length, map, OnOk, IfOk};
ghost use Rattle.weld_objects.specs.Numbering.{number_in};
ghost use Rattle.weld_objects.specs.Objects.{Object as PlainObject, with_one};
ghost use Rattle.weld_objects.specs.Lowered.{new_binder};
ghost use Rattle.weld_lazy.specs.View.{view_object};
ghost use Rattle.weld_lazy.specs.Lowering.{marks_of, numbered};

use crate::ids::{Ids, ObjectId};
use crate::marks::Marks;
use crate::object::Object;
use std::alloc::{AllocError, Global};
use weld_objects::renaming::Numbering;
use weld_tree::{Binder, Binders, Place, Sym, Ty};

/// Which number each object has in the program, the program's parameters, and the values that are
/// its inputs.
#[derive(Drop)]
pub(crate) struct Numbered {
    pub numbers: Numbering,
    pub params: Binders,
    pub inputs: Ids,
}

/// A binder of the program, which stands in no text.
pub(crate) fn new_binder(number: u32, note: Option<Ty>) -> Binder
    ensures { result ≡ new_binder number note }
{
    let place = Place { line: 0, column: 0 };
    Binder {
        sym: Sym(number),
        place,
        note,
        note_place: place,
    }
}

impl Numbered {
    /// The next parameter is for the value of that id.
    fn push(&mut self, alloc: Global, id: ObjectId, ty: &Ty) -> Result<(), AllocError>
        requires { length self.old.inputs < 4294967295 }
        ensures params { OnOk result (self.new.params ≡ self.old.params
            ++ new_binder (length self.old.inputs) (Some ty.now) ∷ []) }
        ensures inputs { OnOk result (self.new.inputs ≡ self.old.inputs ++ id.0 ∷ []) }
        ensures numbers { OnOk result ((k : ℕ) → number_in self.new.numbers k
            ≡ with_one id.0 (length self.old.inputs) (number_in self.old.numbers) k) }
    {
        let number = self.inputs.len() as u32;
        let ty = ty.copy(alloc)?;
        self.params.push(new_binder(number, Some(ty)))?;
        self.inputs.push(id)?;
        self.numbers.put(Sym(id.0), Sym(number))
    }

    /// Past the object of that id: a value that is reached has the next parameter.
    fn pass(
        &mut self,
        alloc: Global,
        id: ObjectId,
        object: &Object,
        marks: &Marks,
    ) -> Result<(), AllocError>
        requires { length self.old.inputs < 4294967295 }
        ensures passed { OnOk result ((os : List PlainObject)
            → numbered (marks_of marks.now) id.0 (view_object object.now ∷ os)
            (number_in self.old.numbers) self.old.params self.old.inputs
            ≡ numbered (marks_of marks.now) (suc id.0) os (number_in self.new.numbers)
            self.new.params self.new.inputs) }
        ensures count { OnOk result (length self.new.inputs ≤ length self.old.inputs + 1) }
    {
        match object {
            Object::Call(_, _, _) => Ok(()),
            Object::Given(ty, _) => {
                if marks.has(id) {
                    self.push(alloc, id, ty)
                } else {
                    Ok(())
                }
            }
        }
    }
}

/// The values that are reached as parameters, in the order of their ids.
pub(crate) fn number_values(
    alloc: Global,
    objects: &[Object],
    marks: &Marks,
) -> Result<Numbered, AllocError>
    requires { length objects.now ≤ 4294967295 }
    ensures { IfOk result (λ values. numbered (marks_of marks.now) 0 (map view_object objects.now)
        (λ id. id) [] []
        ≡ (number_in values.numbers, (values.params, values.inputs))) }
{
    let mut values = Numbered {
        numbers: Numbering::new(alloc),
        params: Binders::new(alloc),
        inputs: Ids::new(alloc),
    };
    for id in 0..objects.len() {
        values.pass(alloc, ObjectId(id as u32), &objects[id], marks)?;
    }
    Ok(values)
}
