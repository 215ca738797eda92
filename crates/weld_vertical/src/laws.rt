//! Laws of the rule and of chains of loops, each the contract of a function that does nothing.

ghost use Rattle.std.specs.Prelude.{◌+◌, ◌≤◌, ℕ};
ghost use Rattle.weld_tree.specs.ExprTree.{ExprTree};
ghost use Rattle.weld_tree.specs.Program.{loops};
ghost use Rattle.weld_rewriting.specs.Tidy.{IsTidy};
ghost use Rattle.weld_rewriting.specs.Rewriting.{Rewrites};
ghost use Rattle.weld_rewriting.specs.Rules.{Falls, IsSound};
ghost use Rattle.weld_rewriting.specs.Sweep.{IsStill};
ghost use Rattle.weld_vertical.specs.Chains.{IsChainProgram, chain_fused};
ghost use Rattle.weld_vertical.specs.Fusing.{loops_rule, HasNoSuchLoop};

use crate::sinking::loops_over_loops_are_one;
use weld_rewriting::pass::laws::rules_are_tests;
use weld_rewriting::replacing::{
    rewriting_goes_through_every_node, rewriting_is_an_order, tidiness_is_kept,
};

/// What the rule answers is lighter than a loop over what another makes and may take its place; and
/// where the rule is still, none stands.
pub fn loops_may_be_fused()
    ensures falls { Falls loops_rule }
    ensures sound { IsSound loops_rule }
    ensures still { (e : ExprTree) → IsStill loops_rule e → HasNoSuchLoop e }
{
    loops_over_loops_are_one();
    rules_are_tests();
}

/// A tidy expression may be rewritten to what `fuse_chain` makes of it; and where it is the `result` of
/// a loop with so many before it, each over the list that the one before it makes, none of which uses
/// its row number, there are as many loops less.
pub fn chains_are_one_loop()
    ensures rewrites { (e : ExprTree) → IsTidy e → Rewrites (chain_fused e) e }
    ensures fewer { (k : ℕ) (e : ExprTree) → IsTidy e → IsChainProgram k e
        → loops (chain_fused e) + k ≤ loops e }
{
    loops_over_loops_are_one();
    rewriting_is_an_order();
    rewriting_goes_through_every_node();
    tidiness_is_kept();
}
