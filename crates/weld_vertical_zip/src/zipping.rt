//! Laws of a list that another loop makes, on a leg of a `zip`, each the contract of a function that
//! does nothing.

ghost use Rattle.std.specs.Prelude.{◌≡◌, true, suc};
ghost use Rattle.weld_tree.specs.ExprTree.{ExprTree};
ghost use Rattle.weld_tree.specs.Program.{loops};
ghost use Rattle.weld_rewriting.specs.Within.{legs};
ghost use Rattle.weld_rewriting.specs.Tidy.{IsTidy};
ghost use Rattle.weld_rewriting.specs.Rewriting.{Rewrites};
ghost use Rattle.weld_vertical_zip.specs.Zipping.{is_zipped, unzipped};

use weld_builders::laws::{keys_are_ordered_alike, values_are_ordered};

/// A tidy loop over a `zip` of which a leg is the list that another loop makes, which merges once a
/// row, may be rewritten to one loop over all legs, the other's in that leg's place. There is one
/// loop less then, and one leg.
pub fn made_legs_are_spliced()
    ensures rewrites { (e : ExprTree) → IsTidy e → is_zipped e ≡ true → Rewrites (unzipped e) e }
    ensures one_loop_less { (e : ExprTree) → is_zipped e ≡ true
        → loops e ≡ suc (loops (unzipped e)) }
    ensures one_leg_less { (e : ExprTree) → is_zipped e ≡ true → legs e ≡ suc (legs (unzipped e)) }
{
    values_are_ordered();
    keys_are_ordered_alike();
}
