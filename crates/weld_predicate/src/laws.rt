//! The law of the rule, the contract of a function that does nothing.

ghost use Rattle.weld_tree.specs.ExprTree.{ExprTree};
ghost use Rattle.weld_rewriting.specs.Rules.{Falls, IsSound};
ghost use Rattle.weld_rewriting.specs.Sweep.{IsStill};
ghost use Rattle.weld_predicate.specs.Predicating.{guards_rule, HasNoGuard};

use crate::guarded::guarded_merges_may_always_merge;
use weld_rewriting::pass::laws::rules_are_tests;

/// What the rule answers is lighter than a guarded merge and may take its place; and where the rule is
/// still, none stands.
pub fn guards_may_be_rewritten()
    ensures falls { Falls guards_rule }
    ensures sound { IsSound guards_rule }
    ensures still { (e : ExprTree) → IsStill guards_rule e → HasNoGuard e }
{
    guarded_merges_may_always_merge();
    rules_are_tests();
}
