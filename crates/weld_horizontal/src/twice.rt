//! Laws of a leg that stands twice, each the contract of a function that does nothing.

ghost use Rattle.weld_tree.specs.declared.binder.Binder.{Binder};
ghost use Rattle.weld_tree.specs.ExprTree.{At, ExprTree, loop, LegTrees};
ghost use Rattle.weld_rewriting.specs.Tidy.{IsTidy};
ghost use Rattle.weld_rewriting.specs.Rewriting.{Rewrites};
ghost use Rattle.weld_horizontal.specs.Twice.{Places, IsTwice, once};

use weld_builders::laws::{keys_are_ordered_alike, values_are_ordered};

/// A tidy loop in which a leg that is a name stands twice may be rewritten to the loop without the
/// second of both, its body with the row rebuilt for each use of the row.
pub fn legs_stand_once()
    ensures { (a : At) (ls : LegTrees) (e : ExprTree) (b n x : Binder) (f : ExprTree) (p : Places) →
        IsTwice ls p → IsTidy (loop a ls e b n x f) → Rewrites (once a ls e b n x f p)
        (loop a ls e b n x f) }
{
    values_are_ordered();
    keys_are_ordered_alike();
}
