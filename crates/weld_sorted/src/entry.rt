//! Entries of which the key is one, in the falling order of their keys.

use crate::compare::compare_values;
use std::cmp::Ordering;
use std::marker::Model;
use weld_data::{Pair, Val};

/// A key and its value.
#[derive(Debug, Drop)]
pub struct Entry {
    pair: Pair,
}

impl Model for Entry {
    ghost use Rattle.std.specs.Coded.{coded×};
    ghost use Rattle.weld_sorted.specs.EntryOrder as order;
    ghost use Rattle.weld_data.specs.ValueCode.{coded_value};

    ghost Value = { order.Entry };

    ghost coded = { coded× coded_value coded_value };

    ghost use Rattle.weld_data.specs.View.{view_pair, view_val};
    ghost use Rattle.weld_data.specs.Order.{IsKey};

    ghost view = { λ e. view_pair e.pair };

    ghost invariant = { λ e. IsKey (view_val e.pair.key) };
}

impl Entry {
    ghost use Rattle.std.specs.Prelude.{◌≡◌};
    ghost use Rattle.weld_data.specs.View.{view_val, view_pair};
    ghost use Rattle.weld_sorted.specs.EntryOrder.{entry_cmp};
    ghost use Rattle.weld_data.specs.Order.{IsKey};

    /// The entry of this key and value. It takes no memory.
    pub fn new(key: Val, value: Val) -> Entry
        requires { IsKey (view_val key) }
        ensures { result ≡ (view_val key, view_val value) }
    {
        Entry {
            pair: Pair { key, value },
        }
    }

    /// The key and value, given up. It takes no memory.
    pub fn into_pair(self) -> Pair
        ensures { view_pair result ≡ self }
    {
        let Entry { pair } = self;
        pair
    }

    /// How this entry stands to another: the greater key comes first.
    fn stands(&self, other: &Entry) -> Ordering
        ensures { result ≡ entry_cmp self.now other.now }
    {
        compare_values(&other.pair.key, &self.pair.key)
    }
}

impl PartialEq for Entry {
    ghost use Rattle.std.specs.Ordering.{eq_by_cmp};
    ghost use Rattle.weld_sorted.specs.EntryOrder.{entry_cmp, equal_laws};

    ghost eq = { eq_by_cmp entry_cmp };

    fn eq(&self, other: &Entry) -> bool {
        self.stands(other).is_eq()
    }

    ghost laws = { equal_laws };
}

impl Eq for Entry {
    ghost use Rattle.weld_sorted.specs.EntryOrder.{equivalence};

    ghost laws = { equivalence };
}

impl PartialOrd for Entry {
    ghost use Rattle.std.specs.Ordering.{as_partial_cmp};
    ghost use Rattle.weld_sorted.specs.EntryOrder.{entry_cmp, partial_laws};

    ghost partial_cmp = { as_partial_cmp entry_cmp };

    fn partial_cmp(&self, other: &Entry) -> Option<Ordering> {
        Some(self.stands(other))
    }

    ghost laws = { partial_laws };
}

impl Ord for Entry {
    ghost use Rattle.weld_sorted.specs.EntryOrder.{entry_cmp, total_order};
    ghost use Rattle.std.proofs.Common.{refl};

    ghost cmp = { entry_cmp };

    fn cmp(&self, other: &Entry) -> Ordering {
        self.stands(other)
    }

    ghost total = { total_order };

    ghost matches_partial_cmp = { λ x y. refl };

    ghost matches_eq = { λ x y. refl };
}
