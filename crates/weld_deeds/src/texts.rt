//! Values that are the same on all rows of a block, as strings are that are written out.

ghost use Rattle.std.specs.Prelude.{◌≡◌, map, IfSome};
ghost use Rattle.weld_data.specs.Value.{list, values};
ghost use Rattle.weld_data.specs.View.{view_val};
ghost use Rattle.weld_builders.specs.Outcome.{done};
ghost use Rattle.weld_meaning.specs.Evaluation.{byte_value, merged};
ghost use Rattle.weld_meaning.specs.Thing.{plain};
ghost use Rattle.weld_acts.specs.Act.{Acts};
ghost use Rattle.weld_eval.specs.ThingView.{thing_of};
ghost use Rattle.weld_deeds.specs.Puts.{IsPut};

use crate::puts::put_value;
use std::alloc::Global;
use weld_data::{Stop, Text, Val};
use weld_eval::thing::Owned;
use weld_eval::values::bytes_of;

/// A value that is merged on each row, and what gives the memory for its copies.
#[derive(Drop)]
pub struct Same {
    pub value: Val,
    pub alloc: Global,
}

/// The string of these bytes.
pub(crate) fn same_text(text: &Text, alloc: Global) -> Option<Same>
    ensures { IfSome result (λ same. view_val same.value
        ≡ list (values (map byte_value text.now))) }
{
    match bytes_of(alloc, text) {
        Ok(value) => Some(Same { value, alloc }),
        Err(_) => None,
    }
}

/// Merges a copy of the value.
#[tactic(auto, using(crate::proofs::PutLemmas::same_put, crate::proofs::PutLemmas::same_acts))]
pub(crate) fn put_same(same: &Same, builder: &mut Owned) -> Result<(), Stop>
    requires { IsPut (thing_of builder.old) (view_val same.now.value) }
    ensures { Acts result (merged (thing_of builder.old) (done (plain (view_val same.now.value))))
        (thing_of builder.new) }
{
    match same.value.copy(same.alloc) {
        Ok(item) => put_value(builder, item),
        Err(_) => Err(Stop::Memory),
    }
}
