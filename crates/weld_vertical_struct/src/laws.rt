//! Laws of the rules, each the contract of a function that does nothing.

ghost use Rattle.weld_tree.specs.ExprTree.{ExprTree};
ghost use Rattle.weld_rewriting.specs.Rules.{Falls, IsSound};
ghost use Rattle.weld_rewriting.specs.Sweep.{RootRule, IsStill};
ghost use Rattle.weld_vertical_struct.specs.Held.{opened_rule, held_rule, HasNoHeldLoop};

use crate::parting::pairs_are_taken_apart;
use weld_inline::laws::lets_may_be_rewritten;
use weld_rewriting::pass::laws::rules_are_tests;
use weld_rewriting::replacing::{rewriting_is_an_order, tidiness_is_kept};
use weld_vertical::laws::loops_may_be_fused;

/// A rule that is tried once the pairs are taken apart makes lighter and is sound where it does and is.
pub fn rules_may_be_tried_on_parts()
    ensures falls { (r : RootRule) → Falls r → Falls (opened_rule r) }
    ensures sound { (r : RootRule) → IsSound r → IsSound (opened_rule r) }
{
    lets_may_be_rewritten();
    pairs_are_taken_apart();
    rewriting_is_an_order();
    tidiness_is_kept();
}

/// What the rule answers is lighter than a loop over what another makes that holds its builder in
/// pairs, and may take its place; and where the rule is still, none stands.
pub fn held_loops_may_be_fused()
    ensures falls { Falls held_rule }
    ensures sound { IsSound held_rule }
    ensures still { (e : ExprTree) → IsStill held_rule e → HasNoHeldLoop e }
{
    rules_may_be_tried_on_parts();
    loops_may_be_fused();
    rules_are_tests();
}
