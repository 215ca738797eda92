//! Numbers gathered place by place.

ghost use Rattle.std.specs.Prelude.{ℕ, IfSome};
ghost use Rattle.weld_data.specs.Value.{Value};
ghost use Rattle.weld_eval.specs.ShortView.{view_short};
ghost use Rattle.weld_blocks.specs.Numbers.{MayGive};

use crate::numbers::{Numbers, is_same, word_of};
use std::alloc::Global;
use weld_eval::short::Short;

/// What gives a number for each place.
pub(crate) trait Gives {
    // Holds of a place and the number that it may have.
    ghost gives: { Self → ℕ → Value → Type 0 };

    /// The number of a place, where there is one. It takes no memory.
    fn at(&self, place: usize) -> Option<Short>
        ensures { IfSome result (λ n. gives self.now place (view_short n)) };
}

/// The numbers of the places from 0 up to, not including, another, where each has one, all are of one
/// kind, and there is memory for them.
pub(crate) fn gather<T: Gives>(alloc: Global, count: usize, of: &T) -> Option<Numbers>
    ensures { MayGive (T.gives of.now) result count }
{
    if count == 0 {
        return None;
    }
    let kind = match of.at(0) {
        Some(first) => first.kind,
        None => return None,
    };
    let mut items = match vec![in alloc; 0i64; count] {
        Ok(items) => items,
        Err(_) => return None,
    };
    for place in 0..count {
        match of.at(place) {
            Some(n) => {
                if !is_same(n.kind, kind) {
                    return None;
                }
                items[place] = word_of(n);
            }
            None => return None,
        }
    }
    Some(Numbers { kind, items })
}
