//! Laws of rewriting, each the contract of a function that does nothing.

ghost use Rattle.std.specs.Prelude.{◌≤◌, ℕ, List};
ghost use Rattle.weld_tree.specs.TypeTree.{TypeTree};
ghost use Rattle.weld_tree.specs.ExprTree.{ExprTree};
ghost use Rattle.weld_tree.specs.Program.{ProgramTree, IsProgram, loops};
ghost use Rattle.weld_tree.specs.Blank.{AreSame};
ghost use Rattle.weld_meaning.specs.Typing.{ProgramHas};
ghost use Rattle.weld_meaning.specs.Accepted.{IsAccepted};
ghost use Rattle.weld_check_types.specs.Notes.{ProgramIsNoted};
ghost use Rattle.weld_print.specs.PrintText.{program_text};
ghost use Rattle.weld_print.specs.Texts.{TextSpells, TextSpellsSoundly};
ghost use Rattle.weld_rewriting.specs.Within.{StaysWithin, legs};
ghost use Rattle.weld_rewriting.specs.Tidy.{IsTidy};
ghost use Rattle.weld_rewriting.specs.Shape.{IsCongruence, EachPart};
ghost use Rattle.weld_rewriting.specs.Rewriting.{Rewrites, RewritesProgram, SameMeaning};

use weld_builders::laws::{keys_are_ordered_alike, values_are_ordered};
use weld_print::reads_back::{printed_programs_read_back, texts_spell_the_spellable};

/// An expression rewrites itself, and where one rewrites another that rewrites a third, the first
/// rewrites the third.
pub fn rewriting_is_an_order()
    ensures itself { (e : ExprTree) → Rewrites e e }
    ensures in_turn { (c d e : ExprTree) → Rewrites c d → Rewrites d e → Rewrites c e }
{}

/// Where each part of a node is rewritten, the node is, whatever form it has: so what may take the
/// place of an expression may do so anywhere.
pub fn rewriting_goes_through_every_node()
    ensures { IsCongruence Rewrites }
{
    values_are_ordered();
    keys_are_ordered_alike();
}

/// The body of a program is tidy, so are the parts of what is tidy, and so is what stays within it.
pub fn tidiness_is_kept()
    ensures program { (p : ProgramTree) → IsProgram p.params p.body → IsTidy p.body }
    ensures parts { (e : ExprTree) → IsTidy e → EachPart IsTidy e }
    ensures within { (d e : ExprTree) → StaysWithin d e → IsTidy e → IsTidy d }
{}

/// A program whose body is rewritten keeps what counts: where it is accepted and its nodes have
/// their types noted, so it is afterwards, it has the type that it had, and it means the same on
/// all arguments that fit, a fault included. It stays a program, with no more loops and legs; and
/// where some text spelled it, its printed text spells it, up to places, noted types and binder
/// numbers.
pub fn rewritten_programs()
    ensures accepted { (q p : ProgramTree) → RewritesProgram q p → IsAccepted p → ProgramIsNoted p
        → IsAccepted q }
    ensures noted { (q p : ProgramTree) → RewritesProgram q p → IsAccepted p → ProgramIsNoted p
        → ProgramIsNoted q }
    ensures typed { (q p : ProgramTree) (t : TypeTree) → RewritesProgram q p → IsAccepted p
        → ProgramIsNoted p → ProgramHas p t → ProgramHas q t }
    ensures same_meaning { (q p : ProgramTree) → RewritesProgram q p → IsAccepted p
        → ProgramIsNoted p → SameMeaning q p }
    ensures program { (q p : ProgramTree) → RewritesProgram q p → IsProgram p.params p.body
        → IsProgram q.params q.body }
    ensures loops { (q p : ProgramTree) → RewritesProgram q p → loops q.body ≤ loops p.body }
    ensures legs { (q p : ProgramTree) → RewritesProgram q p → legs q.body ≤ legs p.body }
    ensures spelled { (text : List ℕ) (q p : ProgramTree) → RewritesProgram q p
        → IsProgram p.params p.body → TextSpells text p
        → (r : ProgramTree) × TextSpellsSoundly (program_text q) r × AreSame q r }
{
    texts_spell_the_spellable();
    printed_programs_read_back();
}
