//! Calls added to a graph, and what they are refused for.
ghost use Rattle.std.specs.Prelude.{◌≡◌, ◌<◌, ◌≤◌, ◌+◌, ◌++◌, ◌∷◌, [], length, option_map, None, IfOk, IfErr, OnOk, OnErr};
ghost use Rattle.weld_tree.specs.TypeTree.{TypeTree};
ghost use Rattle.weld_tree.specs.Program.{bound, IsProgram};
ghost use Rattle.weld_meaning.specs.Accepted.{IsAccepted};
ghost use Rattle.weld_meaning.specs.Typing.{ParamsFit, ProgramHas};
ghost use Rattle.weld_objects.specs.Objects.{call, type_at, DepsFit};
ghost use Rattle.weld_objects.specs.Additions.{first_unknown, MayBeAdded};
ghost use Rattle.weld_lazy.specs.View.{view_ids, FaultSays, MismatchSays, MismatchIs};

use crate::fault::LazyFault;
use crate::graph::Graph;
use crate::ids::{ObjectId, ids_of};
use crate::object::{Fragment, Object};
use std::alloc::{AllocError, Global};
use weld_meaning::Accepted;
use weld_objects::answer_type::answer_type;
use weld_objects::laws::objects_grow;
use weld_objects::renaming::binders_of;
use weld_tree::{Binder, Ty};

impl Graph {
    /// Adds a call of the fragment on these objects, one for each of its parameters in order, and
    /// answers its id. It is of the fragment's type.
    ///
    /// `Unknown` names the first id that isn't in the graph; then `Count` tells that there are more or
    /// fewer ids than parameters; then `Mismatch` tells the first place where an object isn't of its
    /// parameter's type. Where the call isn't added, the graph stays as it was, and the fragment is
    /// dropped.
    pub fn add_call(
        &mut self,
        alloc: Global,
        deps: &[ObjectId],
        f: Fragment,
    ) -> Result<ObjectId, LazyFault>
        requires room { length self.old < 4294967295 }
        requires few { length deps.now ≤ 4294967295 }
        ensures id { IfOk result (λ id. id.0 ≡ length self.old) }
        ensures added { OnOk result ((t : TypeTree) × ProgramHas f.program t
            × (self.new ≡ self.old ++ call t (view_ids deps.now) f.program ∷ [])) }
        ensures fits { OnOk result (MayBeAdded self.old (view_ids deps.now) f.program.params) }
        ensures refused { IfErr result (λ fault. FaultSays fault self.old (view_ids deps.now)
            f.program.params) }
        ensures unchanged { OnErr result (self.new ≡ self.old) }
    {
        match self.check_call(alloc, deps, &f.program) {
            Ok(()) => {}
            Err(fault) => return Err(fault),
        }
        match self.push_call(alloc, deps, f.program) {
            Ok(id) => Ok(id),
            Err(_) => Err(LazyFault::Memory),
        }
    }

    /// What a call of the program on these objects is refused for, if it is.
    fn check_call(
        &self,
        alloc: Global,
        deps: &[ObjectId],
        program: &Accepted,
    ) -> Result<(), LazyFault>
        requires few { length deps.now ≤ 4294967295 }
        ensures fits { OnOk result (MayBeAdded self.now (view_ids deps.now) program.now.params) }
        ensures refused { IfErr result (λ fault. FaultSays fault self.now (view_ids deps.now)
            program.now.params) }
    {
        if let Some(id) = self.first_unknown(deps) {
            return Err(LazyFault::Unknown(id));
        }
        let program = program.program();
        let params = program.params.as_slice();
        if params.len() != deps.len() {
            return Err(LazyFault::Count {
                wanted: params.len() as u32,
                given: deps.len() as u32,
            });
        }
        self.check_types(alloc, deps, params)
    }

    /// The first of the ids that isn't in the graph, if there is one. It takes no memory.
    pub(crate) fn first_unknown(&self, ids: &[ObjectId]) -> Option<ObjectId>
        ensures { option_map (λ id. id.0) result ≡ first_unknown self.now (view_ids ids.now) }
    {
        for id in ids {
            if self.ty_of(*id).is_none() {
                return Some(*id);
            }
        }
        None
    }

    /// Whether each object is of its parameter's type: where one isn't, the first such place.
    fn check_types(
        &self,
        alloc: Global,
        deps: &[ObjectId],
        params: &[Binder],
    ) -> Result<(), LazyFault>
        requires known { first_unknown self.now (view_ids deps.now) ≡ None }
        requires count { length params.now ≡ length deps.now }
        requires few { length deps.now ≤ 4294967295 }
        requires noted { ParamsFit params.now }
        ensures fits { OnOk result (DepsFit (type_at self.now) (view_ids deps.now) params.now) }
        ensures refused { IfErr result (λ fault. MismatchSays fault self.now (view_ids deps.now)
            params.now) }
    {
        for place in 0..deps.len() {
            let Some(expected) = &params[place].note else {
                unreachable!()
            };
            let Some(found) = self.ty_of(deps[place]) else {
                unreachable!()
            };
            if !found.same(expected) {
                return Err(mismatch(alloc, place as u32, expected, found));
            }
        }
        Ok(())
    }

    /// Adds a call that may be added.
    fn push_call(
        &mut self,
        alloc: Global,
        deps: &[ObjectId],
        program: Accepted,
    ) -> Result<ObjectId, AllocError>
        requires room { length self.old < 4294967295 }
        requires fits { MayBeAdded self.old (view_ids deps.now) program.params }
        ensures id { IfOk result (λ id. id.0 ≡ length self.old) }
        ensures added { OnOk result ((t : TypeTree) × ProgramHas program t
            × (self.new ≡ self.old ++ call t (view_ids deps.now) program ∷ [])) }
        ensures unchanged { OnErr result (self.new ≡ self.old) }
    {
        let ty = answer_type(alloc, &program)?;
        let count = names_of_call(alloc, &program)?;
        let ids = ids_of(alloc, deps)?;
        objects_grow();
        let id = ObjectId(self.objects.len() as u32);
        self.objects.push(Object::Call(ty, ids, program))?;
        self.names += count;
        Ok(id)
    }
}

/// A place whose object isn't of its parameter's type, with both types.
fn mismatch(alloc: Global, place: u32, expected: &Ty, found: &Ty) -> LazyFault
    ensures { MismatchIs result place expected.now found.now }
{
    let Ok(expected) = expected.copy(alloc) else {
        return LazyFault::Memory;
    };
    match found.copy(alloc) {
        Ok(found) => LazyFault::Mismatch {
            place,
            expected,
            found,
        },
        Err(_) => LazyFault::Memory,
    }
}

/// How many names a call of the program adds: its own, and those of the program's binders.
fn names_of_call(alloc: Global, program: &Accepted) -> Result<u64, AllocError>
    ensures value { IfOk result (λ count. count ≡ 1 + (length program.now.params + length
        (bound program.now.body))) }
    ensures few { IfOk result (λ count. count ≤ 4294967295) }
    ensures program { IsProgram program.now.params program.now.body }
    ensures accepted { IsAccepted program.now }
{
    let program = program.program();
    let binders = binders_of(alloc, &program.body)?;
    Ok(program.params.len() as u64 + binders.len() as u64 + 1)
}
