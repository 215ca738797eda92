//! The law of the rule, the contract of a function that does nothing.

ghost use Rattle.weld_tree.specs.ExprTree.{ExprTree};
ghost use Rattle.weld_rewriting.specs.Rules.{Falls, IsSound};
ghost use Rattle.weld_rewriting.specs.Sweep.{IsStill};
ghost use Rattle.weld_inline.specs.Inlining.{lets_rule, HasNoSuchLet};

use weld_rewriting::pass::laws::rules_are_tests;
use weld_substitution::put_anywhere::laws::lets_are_put_in_place;

/// What the rule answers is lighter than a `let` that is put in place and may take its place; and where the rule is
/// still, none stands.
pub fn lets_may_be_rewritten()
    ensures falls { Falls lets_rule }
    ensures sound { IsSound lets_rule }
    ensures still { (e : ExprTree) → IsStill lets_rule e → HasNoSuchLet e }
{
    lets_are_put_in_place();
    rules_are_tests();
}
