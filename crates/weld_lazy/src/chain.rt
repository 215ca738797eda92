//! The lets of a program around the struct of what is shown.
ghost use Rattle.std.specs.Prelude.{◌≡◌, ◌+◌, ◌<◌, ◌≤◌, ◌++◌, ◌∷◌, suc, ℕ, List, [], length, map, OnOk, IfOk};
ghost use Rattle.weld_tree.specs.Program.{bound};
ghost use Rattle.weld_objects.specs.Numbering.{number_in};
ghost use Rattle.weld_objects.specs.Objects.{Object as PlainObject, with_one};
ghost use Rattle.weld_objects.specs.Lowered.{placed_body, lets, shown_struct};
ghost use Rattle.weld_lazy.specs.View.{view_object};
ghost use Rattle.weld_lazy.specs.Lowering.{marks_of, chained, binders_at, binders_from, HasCount, HaveCounts};

use crate::calls::{LetPart, Lets, place_body};
use crate::ids::{Ids, ObjectId};
use crate::marks::Marks;
use crate::object::Object;
use crate::values::new_binder;
use std::alloc::{AllocError, Global};
use weld_meaning::Accepted;
use weld_objects::renaming::{Numbering, binders_of};
use weld_tree::Sym;

/// The lets so far, with the number of each object and the next number.
#[derive(Drop)]
pub(crate) struct Chain {
    pub numbers: Numbering,
    pub next: u32,
    pub lets: Lets,
}

impl Chain {
    /// One `let` more, for the call of that id.
    fn place_call(
        &mut self,
        alloc: Global,
        id: ObjectId,
        deps: &Ids,
        program: &Accepted,
    ) -> Result<(), AllocError>
        requires count { length program.now.params ≡ length deps.now }
        requires room { self.old.next + suc (length (bound program.now.body)) < 4294967295 }
        ensures lets { OnOk result (self.new.lets ≡ self.old.lets
            ++ (
              self.old.next,
              placed_body (suc self.old.next)
                  (map (number_in self.old.numbers) deps.now) program.now,
            ) ∷ []) }
        ensures next { OnOk result (self.new.next ≡ suc self.old.next + length
            (bound program.now.body)) }
        ensures numbers { OnOk result ((k : ℕ) → number_in self.new.numbers k
            ≡ with_one id.0 self.old.next (number_in self.old.numbers) k) }
    {
        let binders = binders_of(alloc, &program.program().body)?;
        let number = self.next;
        let body = place_body(alloc, program, deps, &self.numbers, &binders, number + 1)?;
        self.lets.push(LetPart { number, body })?;
        self.numbers.put(Sym(id.0), Sym(number))?;
        self.next = number + 1 + binders.len() as u32;
        Ok(())
    }

    /// Past the object of that id: a call that is reached has the next `let`.
    fn pass(
        &mut self,
        alloc: Global,
        id: ObjectId,
        object: &Object,
        marks: &Marks,
    ) -> Result<(), AllocError>
        requires count { HasCount (view_object object.now) }
        requires room { self.old.next + binders_at (marks_of marks.now) id.0
            (view_object object.now) < 4294967295 }
        ensures passed { OnOk result ((shown : List ℕ) (os : List PlainObject)
            → chained self.new.lets (lets (marks_of marks.now) (suc id.0) self.new.next
            (number_in self.new.numbers) shown os)
            ≡ chained self.old.lets (lets (marks_of marks.now) id.0 self.old.next
            (number_in self.old.numbers) shown (view_object object.now ∷ os))) }
        ensures next { OnOk result (self.new.next ≡ self.old.next + binders_at (marks_of marks.now)
            id.0 (view_object object.now)) }
    {
        match object {
            Object::Given(_, _) => Ok(()),
            Object::Call(_, deps, program) => {
                if marks.has(id) {
                    self.place_call(alloc, id, deps, program)
                } else {
                    Ok(())
                }
            }
        }
    }
}

/// The calls that are reached as lets, in the order of their ids.
pub(crate) fn chain_calls(
    alloc: Global,
    objects: &[Object],
    marks: &Marks,
    numbers: Numbering,
    first: u32,
) -> Result<Chain, AllocError>
    requires fits { length objects.now ≤ 4294967295 }
    requires counts { HaveCounts (map view_object objects.now) }
    requires room { first + binders_from (marks_of marks.now) 0 (map view_object objects.now)
        < 4294967295 }
    ensures { IfOk result (λ chain. (shown : List ℕ)
        → chained chain.lets (shown_struct (number_in chain.numbers) shown)
        ≡ lets (marks_of marks.now) 0 first (number_in numbers) shown
        (map view_object objects.now)) }
{
    let mut chain = Chain {
        numbers,
        next: first,
        lets: Lets::new(alloc),
    };
    for id in 0..objects.len() {
        chain.pass(alloc, ObjectId(id as u32), &objects[id], marks)?;
    }
    Ok(chain)
}
