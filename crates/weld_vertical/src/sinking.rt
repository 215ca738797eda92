//! Laws of a loop over what another loop made, each the contract of a function that does nothing.

ghost use Rattle.std.specs.Prelude.{◌≡◌, true, suc};
ghost use Rattle.weld_tree.specs.ExprTree.{ExprTree};
ghost use Rattle.weld_tree.specs.Program.{loops};
ghost use Rattle.weld_rewriting.specs.Within.{legs};
ghost use Rattle.weld_rewriting.specs.Tidy.{IsTidy};
ghost use Rattle.weld_rewriting.specs.Rewriting.{Rewrites};
ghost use Rattle.weld_vertical.specs.Sinking.{is_consumer, fused};

use weld_builders::laws::{keys_are_ordered_alike, values_are_ordered};

/// A tidy loop whose only leg is the list that another loop makes may be rewritten to one loop over
/// the other's legs. The other merges once a row; or once or not at all, at one place behind lets and
/// in arms of ifs, where the first doesn't use its row number. There is one loop less then, and one
/// leg.
pub fn loops_over_loops_are_one()
    ensures rewrites { (e : ExprTree) → IsTidy e → is_consumer e ≡ true → Rewrites (fused e) e }
    ensures one_loop_less { (e : ExprTree) → is_consumer e ≡ true
        → loops e ≡ suc (loops (fused e)) }
    ensures one_leg_less { (e : ExprTree) → is_consumer e ≡ true → legs e ≡ suc (legs (fused e)) }
{
    values_are_ordered();
    keys_are_ordered_alike();
}
