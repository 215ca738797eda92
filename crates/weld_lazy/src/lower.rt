//! Objects lowered to one accepted program.
ghost use Rattle.std.specs.Prelude.{◌≡◌, ◌<◌, length, None, IfOk, IfErr};
ghost use Rattle.weld_objects.specs.Additions.{first_unknown};
ghost use Rattle.weld_objects.specs.Lowered.{names_of};
ghost use Rattle.weld_lazy.specs.View.{view_ids, LowerSays};
ghost use Rattle.weld_lazy.specs.IsLowered.{IsLowered};

use crate::chain::chain_calls;
use crate::close::{closed, struct_of};
use crate::fault::LazyFault;
use crate::graph::Graph;
use crate::ids::{Ids, ObjectId, ids_of};
use crate::marks::reach;
use crate::values::{Numbered, number_values};
use std::alloc::{AllocError, Global};
use weld_meaning::Accepted;
use weld_objects::laws::{objects_make_one_program, one_program_means_the_objects};
use weld_tree::Program;

/// What objects are lowered to: an accepted program, and the values that are its inputs, by their ids,
/// rising.
#[derive(Drop)]
pub struct Lowered {
    pub program: Accepted,
    pub inputs: Ids,
}

impl Graph {
    /// Lowers the objects, of which there is one at least, to one accepted program: it has a parameter
    /// for each value that they reach and a `let` for each call, both in the order of ids, and the
    /// struct of the objects as its body. `inputs` are the ids of the values. On these values the
    /// program means the struct of what the objects come to, or a fault exactly where an object that is
    /// reached faults. What isn't reached plays no part.
    ///
    /// `Unknown` names the first id that isn't in the graph.
    pub fn lower(&self, alloc: Global, shown: &[ObjectId]) -> Result<Lowered, LazyFault>
        requires some { 0 < length shown.now }
        requires few { names_of self.now < 4294967295 }
        ensures lowered { IfOk result (λ l. IsLowered l.program l.inputs self.now
            (view_ids shown.now)) }
        ensures unknown { IfErr result (λ fault. LowerSays fault self.now (view_ids shown.now)) }
    {
        if let Some(id) = self.first_unknown(shown) {
            return Err(LazyFault::Unknown(id));
        }
        match self.lower_known(alloc, shown) {
            Ok(lowered) => Ok(lowered),
            Err(_) => Err(LazyFault::Memory),
        }
    }

    fn lower_known(&self, alloc: Global, shown: &[ObjectId]) -> Result<Lowered, AllocError>
        requires some { 0 < length shown.now }
        requires few { names_of self.now < 4294967295 }
        requires known { first_unknown self.now (view_ids shown.now) ≡ None }
        ensures { IfOk result (λ l. IsLowered l.program l.inputs self.now (view_ids shown.now)) }
    {
        let shown = ids_of(alloc, shown)?;
        let marks = reach(alloc, &self.objects, &shown)?;
        let Numbered {
            numbers,
            params,
            inputs,
        } = number_values(alloc, &self.objects, &marks)?;
        let chain = chain_calls(alloc, &self.objects, &marks, numbers, inputs.len() as u32)?;
        let fields = struct_of(alloc, &chain.numbers, &shown)?;
        let body = closed(alloc, chain.lets, fields)?;
        objects_make_one_program();
        one_program_means_the_objects();
        let program = Program { params, body };
        Ok(Lowered {
            program: Accepted { program },
            inputs,
        })
    }
}
