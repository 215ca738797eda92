//! Laws of rules, each the contract of a function that does nothing.

ghost use Rattle.std.specs.Prelude.{◌≡◌, ℕ, Bool, false};
ghost use Rattle.weld_tree.specs.ExprTree.{ExprTree};
ghost use Rattle.weld_rewriting.specs.Rules.{Falls, IsSound};
ghost use Rattle.weld_rewriting.specs.Nodes.{EachNode};
ghost use Rattle.weld_rewriting.specs.Sweep.{RootRule, IsStill};
ghost use Rattle.weld_rewriting.specs.Either.{either};
ghost use Rattle.weld_rewriting.specs.Followed.{followed};
ghost use Rattle.weld_rewriting.specs.Tested.{tested, AnswersLighter, AnswersSoundly};

use crate::replacing::{rewriting_is_an_order, tidiness_is_kept};

/// A rule that is a test and an answer makes lighter and is sound where its answers are, and where
/// it is still, the test holds of no node.
pub fn rules_are_tests()
    ensures falls { (test : ExprTree → Bool) (answer : ExprTree → ExprTree)
        → AnswersLighter test answer → Falls (tested test answer) }
    ensures sound { (test : ExprTree → Bool) (answer : ExprTree → ExprTree)
        → AnswersSoundly test answer → IsSound (tested test answer) }
    ensures still { (test : ExprTree → Bool) (answer : ExprTree → ExprTree) (e : ExprTree)
        → IsStill (tested test answer) e → EachNode (λ node. test node ≡ false) e }
{}

/// Two rules as one make lighter and are sound where both do and are, and where they are still, both
/// are.
pub fn rules_may_be_joined()
    ensures falls { (r s : RootRule) → Falls r → Falls s → Falls (either r s) }
    ensures sound { (r s : RootRule) → IsSound r → IsSound s → IsSound (either r s) }
    ensures first { (r s : RootRule) (e : ExprTree) → IsStill (either r s) e → IsStill r e }
    ensures second { (r s : RootRule) (e : ExprTree) → IsStill (either r s) e → IsStill s e }
{}

/// A rule whose answer another settles makes lighter and is sound where both do and are, and where it is
/// still, the first is.
pub fn rules_may_follow()
    ensures falls { (n : ℕ) (r s : RootRule) → Falls r → Falls s → Falls (followed n r s) }
    ensures sound { (n : ℕ) (r s : RootRule) → IsSound r → IsSound s → IsSound (followed n r s) }
    ensures still { (n : ℕ) (r s : RootRule) (e : ExprTree) → IsStill (followed n r s) e
        → IsStill r e }
{
    rewriting_is_an_order();
    tidiness_is_kept();
}
