//! Keys that are kept as values.

use crate::hash::word_of;
use std::alloc::{AllocError, Global};
use std::cmp::Ordering;
use std::hash::{Hash, Hasher};
use std::marker::Model;
use weld_data::Val;
use weld_sorted::{compare_started, start_of};

/// A value that is a key. Its start stands beside it, so that most comparisons of texts don't look at their items.
#[derive(Debug, Drop)]
pub struct Key {
    start: u128,
    value: Val,
}

impl Model for Key {
    ghost use Rattle.weld_data.specs.Value as plain;
    ghost use Rattle.weld_data.specs.ValueCode.{coded_value};

    ghost Value = { plain.Value };

    ghost coded = { coded_value };

    ghost use Rattle.weld_data.specs.View.{view_val};
    ghost use Rattle.weld_data.specs.Order.{IsKey};
    ghost use Rattle.weld_sorted.specs.Start.{HasStart};

    ghost view = { λ k. view_val k.value };

    ghost invariant = { λ k. IsKey (view_val k.value) × HasStart k.value k.start };
}

impl Key {
    ghost use Rattle.std.specs.Prelude.{◌≡◌, IfOk};
    ghost use Rattle.weld_data.specs.View.{view_val};
    ghost use Rattle.weld_builders.specs.ValueOrder.{value_cmp};
    ghost use Rattle.weld_data.specs.Order.{IsKey};

    /// The key of this value. It takes no memory.
    pub fn new(value: Val) -> Key
        requires { IsKey (view_val value) }
        ensures { result ≡ view_val value }
    {
        Key {
            start: start_of(&value),
            value,
        }
    }

    /// The value, given up. It takes no memory.
    pub fn into_value(self) -> Val
        ensures value { view_val result ≡ self }
        ensures key { IsKey self }
    {
        let Key { start: _, value } = self;
        value
    }

    /// A value that equals the key.
    pub fn to_value(&self, alloc: Global) -> Result<Val, AllocError>
        ensures value { IfOk result (λ v. view_val v ≡ self.now) }
        ensures key { IsKey self.now }
    {
        self.value.copy(alloc)
    }

    /// How this key stands to another.
    fn stands(&self, other: &Key) -> Ordering
        ensures { result ≡ value_cmp self.now other.now }
    {
        compare_started(&self.value, self.start, &other.value, other.start)
    }
}

impl PartialEq for Key {
    ghost use Rattle.std.specs.Ordering.{eq_by_cmp};
    ghost use Rattle.weld_builders.specs.ValueOrder.{value_cmp};
    ghost use Rattle.weld_pieces.specs.KeyLaws.{equal_laws};

    ghost eq = { eq_by_cmp value_cmp };

    fn eq(&self, other: &Key) -> bool {
        self.stands(other).is_eq()
    }

    ghost laws = { equal_laws };
}

impl Eq for Key {
    ghost use Rattle.weld_pieces.specs.KeyLaws.{equivalence};

    ghost laws = { equivalence };
}

impl Hash for Key {
    ghost use Rattle.weld_pieces.specs.KeyHash.{key_input};
    ghost use Rattle.weld_pieces.specs.KeyLaws.{alike};

    ghost hash_input = { key_input };

    ghost respects_eq = { alike };

    fn hash<H: Hasher>(&self, state: &mut H) {
        state.write_i64(word_of(&self.value));
    }
}

impl PartialOrd for Key {
    ghost use Rattle.std.specs.Ordering.{as_partial_cmp};
    ghost use Rattle.weld_builders.specs.ValueOrder.{value_cmp};
    ghost use Rattle.weld_pieces.specs.KeyLaws.{partial_laws};

    ghost partial_cmp = { as_partial_cmp value_cmp };

    fn partial_cmp(&self, other: &Key) -> Option<Ordering> {
        Some(self.stands(other))
    }

    ghost laws = { partial_laws };
}

impl Ord for Key {
    ghost use Rattle.weld_builders.specs.ValueOrder.{value_cmp};
    ghost use Rattle.weld_pieces.specs.KeyLaws.{total_order};
    ghost use Rattle.std.proofs.Common.{refl};

    ghost cmp = { value_cmp };

    fn cmp(&self, other: &Key) -> Ordering {
        self.stands(other)
    }

    ghost total = { total_order };

    ghost matches_partial_cmp = { λ x y. refl };

    ghost matches_eq = { λ x y. refl };
}
