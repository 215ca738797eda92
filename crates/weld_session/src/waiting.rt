//! Values that wait to be handed out, one after another.
ghost use Rattle.std.specs.Prelude.{◌≡◌};
ghost use Rattle.weld_session.specs.Gathering.{IsTaken};

use std::marker::Model;
use std::vec::IntoIter;
use weld_data::{Val, Vals};

/// The values that are left. Contracts see the list of them.
#[derive(Drop)]
pub(crate) struct Waiting {
    left: IntoIter<Val>,
}

impl Model for Waiting {
    ghost use Rattle.std.specs.Prelude.{◌≡◌, map, length};
    ghost use Rattle.std.specs.Vec.Iter.{into_iter_items, into_iter_len};
    ghost use Rattle.weld_data.specs.Value.{ValueList};
    ghost use Rattle.weld_data.specs.ValueCode.{coded_values};
    ghost use Rattle.weld_data.specs.View.{view_val};

    ghost Value = { ValueList };

    ghost coded = { coded_values };

    ghost view = { λ w. map view_val (into_iter_items w.left) };

    ghost invariant = { λ w. into_iter_len w.left ≡ length (into_iter_items w.left) };
}

impl Waiting {
    /// These values. It takes no memory.
    pub fn of(values: Vals) -> Waiting
        ensures { result ≡ values }
    {
        Waiting {
            left: values.into_vec().into_iter(),
        }
    }

    /// The next value, which is given up. It takes no memory.
    pub fn next(&mut self) -> Option<Val>
        ensures { IsTaken result self.old self.new }
    {
        self.left.next()
    }
}
