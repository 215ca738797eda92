//! Laws of guarded merges, each the contract of a function that does nothing.

ghost use Rattle.std.specs.Prelude.{◌≡◌, true};
ghost use Rattle.weld_tree.specs.ExprTree.{ExprTree};
ghost use Rattle.weld_rewriting.specs.Rewriting.{Rewrites};
ghost use Rattle.weld_predicate.specs.Guard.{is_guard, unguarded};

use weld_builders::laws::{keys_are_ordered_alike, values_are_ordered};

/// A guarded merge may be rewritten to the merge of what the condition chooses: the value, or the
/// neutral value. The value is safe, so that nothing faults that the condition kept from running.
pub fn guarded_merges_may_always_merge()
    ensures { (e : ExprTree) → is_guard e ≡ true → Rewrites (unguarded e) e }
{
    values_are_ordered();
    keys_are_ordered_alike();
}
