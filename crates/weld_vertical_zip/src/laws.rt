//! The law of the rule, the contract of a function that does nothing.

ghost use Rattle.weld_tree.specs.ExprTree.{ExprTree};
ghost use Rattle.weld_rewriting.specs.Rules.{Falls, IsSound};
ghost use Rattle.weld_rewriting.specs.Sweep.{IsStill};
ghost use Rattle.weld_vertical_zip.specs.Zips.{zips_rule, HasNoMadeLeg};

use crate::zipping::made_legs_are_spliced;
use weld_horizontal::laws::fields_may_be_picked;
use weld_rewriting::pass::laws::rules_are_tests;
use weld_rewriting::replacing::{rewriting_is_an_order, tidiness_is_kept};
use weld_rewriting::rounds::laws::rounds_rewrite;

/// What the rule answers is lighter than a loop over a `zip` with a leg that another loop makes and
/// may take its place; and where the rule is still, no `zip` has such a leg.
pub fn made_legs_may_be_spliced()
    ensures falls { Falls zips_rule }
    ensures sound { IsSound zips_rule }
    ensures still { (e : ExprTree) → IsStill zips_rule e → HasNoMadeLeg e }
{
    made_legs_are_spliced();
    fields_may_be_picked();
    rules_are_tests();
    rounds_rewrite();
    rewriting_is_an_order();
    tidiness_is_kept();
}
