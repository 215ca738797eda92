//! The law of the rule, the contract of a function that does nothing.

ghost use Rattle.weld_tree.specs.ExprTree.{ExprTree};
ghost use Rattle.weld_rewriting.specs.Rules.{Falls, IsSound};
ghost use Rattle.weld_rewriting.specs.Sweep.{IsStill};
ghost use Rattle.weld_vertical_held.specs.Rule.{handing_rule, HasNoListHandedOver};

use weld_builders::laws::{
    bare_is_neutral, keys_are_ordered_alike, merge_into_a_join, shapes_stay, values_are_ordered,
};
use weld_rewriting::pass::laws::rules_are_tests;

/// What the rule answers is lighter than a loop over a list that another loop makes, which may hold
/// its builder in names, structs and arms of ifs, and may take its place; and where the rule is still,
/// no such loop stands.
pub fn lists_may_be_handed_over()
    ensures falls { Falls handing_rule }
    ensures sound { IsSound handing_rule }
    ensures still { (e : ExprTree) → IsStill handing_rule e → HasNoListHandedOver e }
{
    merge_into_a_join();
    values_are_ordered();
    keys_are_ordered_alike();
    shapes_stay();
    bare_is_neutral();
    rules_are_tests();
}
