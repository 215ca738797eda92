//! Laws of linear use, each the contract of a function that does nothing.

ghost use Rattle.std.specs.Prelude.{◌≡◌, ◌↔◌, ℕ, [], None};
ghost use Rattle.weld_tree.specs.ExprTree.{ExprTree};
ghost use Rattle.weld_tree.specs.Program.{ProgramTree};
ghost use Rattle.weld_meaning.specs.Environment.{Named};
ghost use Rattle.weld_meaning.specs.Origin.{Path, Origin};
ghost use Rattle.weld_meaning.specs.Linear.{Keeps, ArmsAgree};
ghost use Rattle.weld_meaning.specs.Available.{takes, Splits};
ghost use Rattle.weld_meaning.specs.Accepted.{IsAccepted};
ghost use Rattle.weld_meaning.specs.LinearWalk.{linear_refusal};
ghost use Rattle.weld_linear.specs.Arms.{Labels, ArmsShare};
ghost use Rattle.weld_linear.specs.Uses.{ExprUses, EachOnce, times};

use weld_meaning::laws::the_walk_is_linear_use;

/// In a program that no rule of linear use refuses, each builder of each binder is used exactly once on
/// each control path of the binder's body, and the body of each loop answers, path by path, its own
/// builder. So it is in an accepted program. An expression that is linear uses a builder that it takes
/// once on each of its control paths, and no other builder on any.
pub fn each_builder_is_used_once()
    ensures expression { (e : ExprTree) (g : Named Origin) (s : ℕ) (q : Path) (n : ℕ) → Keeps e g
        → Splits e g → ExprUses e g s q n
        → n ≡ times (takes e g s q) }
    ensures program { (p : ProgramTree) → linear_refusal p ≡ None → EachOnce p.body [] }
    ensures accepted { (p : ProgramTree) → IsAccepted p → EachOnce p.body [] }
{
    the_walk_is_linear_use();
}

/// The rule on the arms of an `if`, which goes by the names of the builders before it, is the rule on
/// their origins: it is kept exactly where the arms answer builders of one origin, path by path, with
/// whatever origins the builders before the `if` are labelled; a builder that an arm makes is an origin
/// of its own, which the other arm can't answer.
pub fn arms_agree_whatever_stood_before()
    ensures { (e f : ExprTree) (g : Named Origin) → ArmsAgree e f g ↔
        ((h : Named Origin) → Labels g h → ArmsShare e f h) }
{}
