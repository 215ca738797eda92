//! Laws of fields of structs that are made there, each the contract of a function that does nothing.

ghost use Rattle.std.specs.Prelude.{◌≡◌, true};
ghost use Rattle.weld_tree.specs.ExprTree.{ExprTree};
ghost use Rattle.weld_rewriting.specs.Rewriting.{Rewrites};
ghost use Rattle.weld_horizontal.specs.Picked.{is_pick, picked};

use weld_builders::laws::{keys_are_ordered_alike, values_are_ordered};

/// A field of a struct that is made there of plain expressions may be rewritten to the expression of
/// that field.
pub fn fields_are_picked()
    ensures { (e : ExprTree) → is_pick e ≡ true → Rewrites (picked e) e }
{
    values_are_ordered();
    keys_are_ordered_alike();
}
