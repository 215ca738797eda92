//! Laws of loops side by side, each the contract of a function that does nothing.

ghost use Rattle.std.specs.Prelude.{◌≡◌, ◌<◌, ℕ, true};
ghost use Rattle.weld_tree.specs.declared.binder.Binder.{Binder};
ghost use Rattle.weld_tree.specs.TypeTree.{TypeTree};
ghost use Rattle.weld_tree.specs.ExprTree.{At, ExprTree, finish, let_in, one};
ghost use Rattle.weld_meaning.specs.Names.{IsFree};
ghost use Rattle.weld_substitution.specs.Redex.{is_chain};
ghost use Rattle.weld_rewriting.specs.Tidy.{IsTidy};
ghost use Rattle.weld_rewriting.specs.Rewriting.{Rewrites};
ghost use Rattle.weld_rewriting.specs.Weight.{weight};
ghost use Rattle.weld_joining.specs.Beside.{Half, MayJoin, side_by_side, two_lets};
ghost use Rattle.weld_joining.specs.Between.{brought_up, may_come_up};

use weld_builders::laws::{keys_are_ordered_alike, values_are_ordered};
use weld_substitution::laws::uses_are_free;

/// Two tidy neighbouring lets, each of a loop over one name or of its result, may be rewritten to one
/// loop over the name from the struct of what both start from and lets of its fields or of their
/// results, where the second loop doesn't name what the first `let` binds. What takes their place is
/// lighter.
pub fn loops_may_run_side_by_side()
    ensures lighter { (a m : At) (s : ℕ) (row : TypeTree) (h k : Half) (rest : ExprTree)
        → weight (side_by_side a m s row h k rest) < weight (two_lets a m s h k rest) }
    ensures rewrites { (a m : At) (s : ℕ) (row : TypeTree) (h k : Half) (rest : ExprTree)
        → MayJoin row h k → IsTidy (two_lets a m s h k rest)
        → Rewrites (side_by_side a m s row h k rest) (two_lets a m s h k rest) }
{
    values_are_ordered();
    keys_are_ordered_alike();
}

/// A tidy `let` of the result of a name with field accesses may stand behind the next `let`,
/// whatever that binds, where its value doesn't name what the first binds.
pub fn lets_may_be_exchanged()
    ensures { (a p m : At) (x y : Binder) (c w rest : ExprTree) → is_chain c ≡ true
        → (IsFree w x.sym.0 → ⊥) → IsTidy (let_in a x (one p finish c) (let_in m y w rest))
        → Rewrites (let_in m y w (let_in a x (one p finish c) rest))
        (let_in a x (one p finish c) (let_in m y w rest)) }
{
    values_are_ordered();
    keys_are_ordered_alike();
}

/// Of tidy lets one in another's body the first that binds no result of a name with field accesses
/// may stand before the others, where its value uses none of the names that these bind. That weighs
/// the same.
pub fn lets_come_up()
    ensures weighs { (e : ExprTree) → weight (brought_up e) ≡ weight e }
    ensures rewrites { (e : ExprTree) → IsTidy e → may_come_up e ≡ true
        → Rewrites (brought_up e) e }
{
    values_are_ordered();
    keys_are_ordered_alike();
    uses_are_free();
}
