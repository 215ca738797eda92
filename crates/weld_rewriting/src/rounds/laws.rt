//! Laws of sweeps and rounds, each the contract of a function that does nothing.

ghost use Rattle.std.specs.Prelude.{◌≡◌, ◌≤◌, ◌<◌, ℕ, true, false};
ghost use Rattle.weld_tree.specs.ExprTree.{ExprTree};
ghost use Rattle.weld_rewriting.specs.Sweep.{RootRule, swept, swept_times, moves, IsStill};
ghost use Rattle.weld_rewriting.specs.Tidy.{IsTidy};
ghost use Rattle.weld_rewriting.specs.Rewriting.{Rewrites};
ghost use Rattle.weld_rewriting.specs.Weight.{weight};
ghost use Rattle.weld_rewriting.specs.Rules.{Falls, IsSound};

use crate::replacing::{
    rewriting_goes_through_every_node, rewriting_is_an_order, tidiness_is_kept,
};

/// A sweep with a rule that makes lighter never makes heavier, and makes lighter where the rule
/// matches. Where it matches at no node, the sweep changes nothing and the rule is still there.
pub fn sweeps_fall()
    ensures never_heavier { (r : RootRule) (e : ExprTree) → Falls r
        → weight (swept r e) ≤ weight e }
    ensures lighter { (r : RootRule) (e : ExprTree) → Falls r → moves r e ≡ true
        → weight (swept r e) < weight e }
    ensures same { (r : RootRule) (e : ExprTree) → moves r e ≡ false → swept r e ≡ e }
    ensures still { (r : RootRule) (e : ExprTree) → moves r e ≡ false → IsStill r e }
{}

/// Sweeps with a sound rule, as many as there are, rewrite a tidy expression.
pub fn rounds_rewrite()
    ensures { (r : RootRule) (n : ℕ) (e : ExprTree) → IsSound r → IsTidy e
        → Rewrites (swept_times n r e) e }
{
    rewriting_is_an_order();
    rewriting_goes_through_every_node();
    tidiness_is_kept();
}
