//! Structs of numbers where they stand in a list.

ghost use Rattle.std.specs.Prelude.{◌<◌, length};

use crate::num::Num;
use crate::structs::Structs;
use crate::value::Val;
use std::alloc::{AllocError, Global};

/// A struct of numbers that stands in a list of such structs, lent, by its place there, from 0.
#[derive(Clone, Copy)]
pub struct Packed<'a> {
    pub list: &'a Structs,
    pub place: usize,
    ghost there: { place < length list.now },
}

impl<'a> Packed<'a> {
    ghost use Rattle.std.specs.Prelude.{◌≡◌, IfOk};
    ghost use Rattle.weld_data.specs.View.{view_val, view_packed};
    ghost use Rattle.weld_data.specs.Structs.{FieldAnswer};

    /// The number in a field, from 0, where there is such a field. It takes no memory.
    #[inline(always)]
    pub fn number(&self, field: usize) -> Option<Num>
        ensures { FieldAnswer result field (view_packed self.now) }
    {
        let list = self.list;
        list.number_at(self.place, field)
    }

    /// The struct as a value.
    #[tactic(auto, using(crate::proofs::StructLemmas::value_is))]
    pub fn copy(&self, alloc: Global) -> Result<Val, AllocError>
        ensures { IfOk result (λ v. view_val v ≡ view_packed self.now) }
    {
        let list = self.list;
        list.copy_at(alloc, self.place)
    }
}
