//! That printed text reads back. Each function's contract is the law.

ghost use Rattle.std.specs.Prelude.{ℕ, List};
ghost use Rattle.weld_tree.specs.TypeTree.{TypeTree};
ghost use Rattle.weld_tree.specs.Program.{ProgramTree, IsProgram};
ghost use Rattle.weld_tree.specs.Blank.{AreSame};
ghost use Rattle.weld_print.specs.TypeText.{type_text};
ghost use Rattle.weld_print.specs.PrintText.{program_text};
ghost use Rattle.weld_print.specs.Spellable.{HasNoEmptyStruct, IsSpellableProgram};
ghost use Rattle.weld_print.specs.Texts.{TextSpellsType, TextSpells, TextSpellsSoundly};

use weld_tokens::laws::classes_of_tokens;
use weld_tree::laws::distance_tells_binders_apart;

/// The printed text of a type spells it, where no struct in it is empty, as where some text spells the type: its
/// tokens by longest match derive the type.
#[tactic(auto, using(crate::proofs::ReadsBackTypes::type_reads_back, crate::proofs::Spelled::spelled_reads_back))]
pub fn printed_types_read_back()
    ensures made { (t : TypeTree) → HasNoEmptyStruct t → TextSpellsType (type_text t) t }
    ensures spelled { (text : List ℕ) (t : TypeTree) → TextSpellsType text t
        → TextSpellsType (type_text t) t }
{}

/// What a text spells is spellable: its number literals are of kind i32 or i64, its field numbers have nine digits at
/// most, its strings are of bytes, and no struct type in it is empty.
pub fn texts_spell_the_spellable()
    ensures { (text : List ℕ) (p : ProgramTree) → TextSpells text p → IsSpellableProgram p }
{
    classes_of_tokens();
}

/// The printed text of a program spells one that is the same up to places, noted types and binder numbers, where a
/// text can spell its parts (number literals are of kind i32 or i64, field numbers have nine digits at most, strings
/// are of bytes, and no struct type is empty), as where some text spells it. No name in the printed text is refused, and
/// no number is out of its range.
pub fn printed_programs_read_back()
    ensures made { (p : ProgramTree) → IsProgram p.params p.body → IsSpellableProgram p
        → (q : ProgramTree) × TextSpellsSoundly (program_text p) q × AreSame p q }
    ensures spelled { (text : List ℕ) (p : ProgramTree) → TextSpells text p
        → IsProgram p.params p.body → (q : ProgramTree) × TextSpellsSoundly (program_text p) q
        × AreSame p q }
{
    distance_tells_binders_apart();
    texts_spell_the_spellable();
}
