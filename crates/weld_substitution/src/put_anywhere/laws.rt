//! Laws of lets that are put in their place, each the contract of a function that does nothing.

ghost use Rattle.std.specs.Prelude.{◌≡◌, true};
ghost use Rattle.weld_tree.specs.declared.binder.Binder.{Binder};
ghost use Rattle.weld_tree.specs.ExprTree.{At, ExprTree, let_in};
ghost use Rattle.weld_meaning.specs.Names.{put};
ghost use Rattle.weld_rewriting.specs.Tidy.{IsTidy};
ghost use Rattle.weld_rewriting.specs.Rewriting.{Rewrites};
ghost use Rattle.weld_substitution.specs.Redex.{is_plain, is_used_well};

use weld_builders::laws::{keys_are_ordered_alike, values_are_ordered};

/// A tidy `let` may be rewritten to its body with the value put for each use of the name: where the
/// value is plain, however often the name is used and wherever, so also where it isn't used; and
/// where the name is used once, on the way, in a place where the value may stand. A value that is
/// not plain stays where its name isn't used, since it may fault.
pub fn lets_are_put_in_place()
    ensures plain { (a : At) (b : Binder) (v f : ExprTree) → IsTidy (let_in a b v f)
        → is_plain v ≡ true → Rewrites (put b.sym.0 v f) (let_in a b v f) }
    ensures once { (a : At) (b : Binder) (v f : ExprTree) → IsTidy (let_in a b v f)
        → is_used_well b.sym.0 v f ≡ true → Rewrites (put b.sym.0 v f) (let_in a b v f) }
{
    values_are_ordered();
    keys_are_ordered_alike();
}
