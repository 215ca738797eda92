//! Operators on numbers of a block: one loop for each operator and kind, in which nothing is asked.

ghost use Rattle.std.specs.Prelude.{◌≡◌, ◌≤◌, length, pos};
ghost use Rattle.std.specs.List.{Contains};
ghost use Rattle.weld_data.specs.Operation.{Divides, TakesKind, answer_kind};
ghost use Rattle.weld_builders.specs.Outcome.{done};
ghost use Rattle.weld_meaning.specs.Evaluation.{operated as operated_value};
ghost use Rattle.weld_blocks.specs.Numbers.{number_at, MayGive};
ghost use Rattle.weld_blocks.specs.Works.{AreInRange, AreWorked};

use crate::numbers::{Numbers, word_at};
use std::alloc::Global;
use weld_data::Kind;

/// An operator on numbers of a kind that it takes, which always answers, since it never divides by 0.
pub(crate) trait Works {
    ghost use Rattle.std.specs.Prelude.{◌≡◌, ◌≢◌, Some, pos};
    ghost use Rattle.weld_data.specs.declared.kind.Kind.{Kind as GhostKind};
    ghost use Rattle.weld_data.specs.declared.op.BinOp.{BinOp as GhostOp};
    ghost use Rattle.weld_data.specs.Kind.{InRange};
    ghost use Rattle.weld_eval.specs.Word.{of_word};
    ghost use Rattle.weld_data.specs.Operation.{Divides, operation, answer_kind};

    ghost op: { Self → GhostOp };

    ghost kind: { Self → GhostKind };

    /// The word of what it makes of the numbers of two words. It takes no memory.
    fn of(&self, x: i64, y: i64) -> i64
        requires left { InRange (kind self.now) (of_word (kind self.now) x) }
        requires right { InRange (kind self.now) (of_word (kind self.now) y) }
        requires divides { Divides (op self.now) → y ≢ pos 0 }
        ensures value { Some (of_word (answer_kind (op self.now) (kind self.now)) result)
            ≡ operation (op self.now) (kind self.now) (of_word (kind self.now) x)
            (of_word (kind self.now) y) }
        ensures in_range { InRange (answer_kind (op self.now) (kind self.now))
            (of_word (answer_kind (op self.now) (kind self.now)) result) };
}

/// What the operator makes of the numbers at each place, where there are so many of both and there
/// is memory for it; the kind is that of the answers.
#[tactic(auto, using(crate::proofs::WorkLemmas::worked_given))]
pub(crate) fn worked<W: Works>(
    work: &W,
    kind: Kind,
    left: &Numbers,
    right: &Numbers,
    count: usize,
    alloc: Global,
) -> Option<Numbers>
    requires left { left.now.kind ≡ W.kind work.now }
    requires right { right.now.kind ≡ W.kind work.now }
    requires takes { TakesKind (W.op work.now) (W.kind work.now) }
    requires answer { kind ≡ answer_kind (W.op work.now) (W.kind work.now) }
    requires divides { Divides (W.op work.now) → Contains right.now.items.items (pos 0) → ⊥ }
    ensures { MayGive (λ place v. operated_value (W.op work.now) (number_at left.now place)
        (number_at right.now place) ≡ done v) result count }
{
    if left.len() < count || right.len() < count {
        return None;
    }
    let mut items = match vec![in alloc; 0i64; count] {
        Ok(items) => items,
        Err(_) => return None,
    };
    work_all(work, &mut items, &left.items, &right.items);
    Some(Numbers { kind, items })
}

/// The same into as many numbers as there are.
fn work_all<W: Works>(work: &W, items: &mut [i64], left: &[i64], right: &[i64])
    requires left_long { length items.old ≤ length left.now }
    requires right_long { length items.old ≤ length right.now }
    requires left { AreInRange (W.kind work.now) left.now }
    requires right { AreInRange (W.kind work.now) right.now }
    requires divides { Divides (W.op work.now) → Contains right.now (pos 0) → ⊥ }
    ensures { AreWorked (W.op work.now) (W.kind work.now) left.now right.now items.new
        (length items.old) }
{
    for place in 0..items.len() {
        items[place] = work.of(word_at(left, place), word_at(right, place));
    }
}
