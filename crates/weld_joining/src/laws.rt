//! The law of the rule, the contract of a function that does nothing.

ghost use Rattle.weld_tree.specs.ExprTree.{ExprTree};
ghost use Rattle.weld_rewriting.specs.Rules.{Falls, IsSound};
ghost use Rattle.weld_rewriting.specs.Sweep.{IsStill};
ghost use Rattle.weld_joining.specs.Joining.{beside_rule, HasNoPair};

use crate::beside::{lets_come_up, loops_may_run_side_by_side};
use weld_rewriting::pass::laws::rules_are_tests;
use weld_rewriting::replacing::rewriting_goes_through_every_node;
use weld_substitution::laws::uses_are_free;

/// What the rule answers is lighter than two lets of loops over one name or of their results, with
/// none but lets of results of names with field accesses between them, and may take their place;
/// and where the rule is still, no two such lets stand.
pub fn loops_may_be_joined()
    ensures falls { Falls beside_rule }
    ensures sound { IsSound beside_rule }
    ensures still { (e : ExprTree) → IsStill beside_rule e → HasNoPair e }
{
    loops_may_run_side_by_side();
    lets_come_up();
    rewriting_goes_through_every_node();
    uses_are_free();
    rules_are_tests();
}
