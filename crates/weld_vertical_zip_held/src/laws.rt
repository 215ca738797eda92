//! The law of the rule, the contract of a function that does nothing.

ghost use Rattle.weld_tree.specs.ExprTree.{ExprTree};
ghost use Rattle.weld_rewriting.specs.Rules.{Falls, IsSound};
ghost use Rattle.weld_rewriting.specs.Sweep.{IsStill};
ghost use Rattle.weld_vertical_zip_held.specs.Rule.{zip_handing_rule, HasNoZipHandedOver};

use weld_builders::laws::{
    bare_is_neutral, keys_are_ordered_alike, merge_into_a_join, shapes_stay, values_are_ordered,
};
use weld_horizontal::laws::fields_may_be_picked;
use weld_rewriting::pass::laws::rules_are_tests;
use weld_rewriting::replacing::{rewriting_is_an_order, tidiness_is_kept};
use weld_rewriting::rounds::laws::rounds_rewrite;

/// What the rule answers is lighter than a loop over a `zip` with a leg that another loop makes, which
/// may hold its builder in names and structs and merges once in each row, and may take its place; and
/// where the rule is still, no such loop stands.
pub fn zip_lists_may_be_handed_over()
    ensures falls { Falls zip_handing_rule }
    ensures sound { IsSound zip_handing_rule }
    ensures still { (e : ExprTree) → IsStill zip_handing_rule e → HasNoZipHandedOver e }
{
    merge_into_a_join();
    values_are_ordered();
    keys_are_ordered_alike();
    shapes_stay();
    bare_is_neutral();
    fields_may_be_picked();
    rules_are_tests();
    rounds_rewrite();
    rewriting_is_an_order();
    tidiness_is_kept();
}
