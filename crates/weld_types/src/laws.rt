//! Laws of this crate's definitions, each the contract of a function that does nothing.

ghost use Rattle.std.specs.Prelude.{◌≡◌, ◌↔◌, None};
ghost use Rattle.weld_tree.specs.TypeTree.{TypeTree};
ghost use Rattle.weld_tree.specs.ExprTree.{ExprTree};
ghost use Rattle.weld_tree.specs.Program.{ProgramTree, IsWellMade};
ghost use Rattle.weld_meaning.specs.Typing.{Types, HasType, ProgramHas};
ghost use Rattle.weld_types.specs.Walk.{Found, found, type_of, program_type, typing_refusal};
ghost use Rattle.weld_types.specs.Sizes.{KeepsSize, ProgramKeepsSize};

use weld_meaning::laws::types_are_unique;

/// The walk finds a type of an expression exactly where the rules derive it and the sizes of types
/// are kept. So it refuses a program nowhere exactly where the program has a type by the rules and
/// keeps the sizes, and the type found is the one that the rules derive.
pub fn the_walk_is_typing()
    ensures expression { (e : ExprTree) (g : Types) (t : TypeTree) → IsWellMade e
        → (type_of e g ≡ found t) ↔ (HasType e g t × KeepsSize e g) }
    ensures program { (p : ProgramTree) (t : TypeTree) → IsWellMade p.body
        → (program_type p ≡ found t) ↔ (ProgramHas p t × ProgramKeepsSize p) }
    ensures refusal { (p : ProgramTree) → IsWellMade p.body
        → (typing_refusal p ≡ None) ↔ ((t : TypeTree) × ProgramHas p t × ProgramKeepsSize p) }
{
    types_are_unique();
}
