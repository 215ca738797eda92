//! The law of lets of pairs, the contract of a function that does nothing.

ghost use Rattle.std.specs.Prelude.{◌≡◌, ℕ, Some};
ghost use Rattle.weld_tree.specs.ExprTree.{ExprTree};
ghost use Rattle.weld_rewriting.specs.Tidy.{IsTidy};
ghost use Rattle.weld_rewriting.specs.Rewriting.{Rewrites};
ghost use Rattle.weld_vertical_struct.specs.Parting.{IsAbsent, pairs_rule, opened};
ghost use Rattle.weld_vertical_struct.specs.Held.{opened_producer};

use weld_inline::laws::lets_may_be_rewritten;
use weld_rewriting::replacing::{
    rewriting_goes_through_every_node, rewriting_is_an_order, tidiness_is_kept,
};
use weld_substitution::put_anywhere::laws::lets_are_put_in_place;

/// A tidy `let` of a pair may be rewritten to one of a part, where its body uses the pair by its parts
/// alone and the other part, in which no loop stands, may be put in its place, as the value of a `let`
/// of its own is; so may a body be, down through the bodies of lets and the arms of ifs, and the bodies
/// of the loops that make a loop's legs. The number that such a `let` would have stands nowhere, and
/// isn't bound in what takes the place.
pub fn pairs_are_taken_apart()
    ensures at_a_let { (d z : ℕ) (e f : ExprTree) → IsTidy e → IsAbsent z e
        → pairs_rule d z e ≡ Some f → Rewrites f e }
    ensures down_a_body { (d z n : ℕ) (e : ExprTree) → IsTidy e → IsAbsent z e
        → Rewrites (opened d z n e) e }
    ensures in_a_producer { (e : ExprTree) → IsTidy e → Rewrites (opened_producer e) e }
{
    lets_may_be_rewritten();
    lets_are_put_in_place();
    rewriting_is_an_order();
    rewriting_goes_through_every_node();
    tidiness_is_kept();
}
