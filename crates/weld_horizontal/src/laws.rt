//! Laws of the rules, each the contract of a function that does nothing.

ghost use Rattle.std.specs.Prelude.{◌≤◌};
ghost use Rattle.weld_tree.specs.ExprTree.{ExprTree};
ghost use Rattle.weld_rewriting.specs.Rules.{Falls, IsSound};
ghost use Rattle.weld_rewriting.specs.Weight.{weight};
ghost use Rattle.weld_rewriting.specs.Sweep.{IsStill, swept};
ghost use Rattle.weld_horizontal.specs.Doubles.{doubles_rule, picks_rule, HasNoDouble};

use crate::picked::fields_are_picked;
use crate::twice::legs_stand_once;
use weld_rewriting::pass::laws::rules_are_tests;
use weld_rewriting::replacing::{rewriting_is_an_order, tidiness_is_kept};
use weld_rewriting::rounds::laws::rounds_rewrite;

/// What the rule of fields answers may take the field's place. A sweep with it makes nothing heavier
/// (nor lighter: a struct that is made of plain expressions weighs nothing, as they do).
pub fn fields_may_be_picked()
    ensures sound { IsSound picks_rule }
    ensures never_heavier { (e : ExprTree) → weight (swept picks_rule e) ≤ weight e }
{
    fields_are_picked();
    rules_are_tests();
}

/// What the rule of legs answers is lighter than a loop with a leg that stands twice and may take
/// its place; and where the rule is still, no loop has one.
pub fn legs_may_stand_once()
    ensures falls { Falls doubles_rule }
    ensures sound { IsSound doubles_rule }
    ensures still { (e : ExprTree) → IsStill doubles_rule e → HasNoDouble e }
{
    legs_stand_once();
    fields_may_be_picked();
    rules_are_tests();
    rounds_rewrite();
    rewriting_is_an_order();
    tidiness_is_kept();
}
