//! Laws of parsing. Each function's contract is the law.
ghost use Rattle.std.specs.Prelude.{◌≡◌, ◌⊎◌, ℕ, List};
ghost use Rattle.weld_tree.specs.declared.refusal.Refusal.{Refusal};
ghost use Rattle.weld_tree.specs.Program.{IsProgram, ProgramTree};
ghost use Rattle.weld_parse.specs.Parses.{Parses, IsRefused};

use weld_grammar::laws::one_break;
use weld_spell::laws::{one_program, one_tree_of_tokens, programs_are_derived};
use weld_spell::programs::{derived_or_broken, spelled_programs};
use weld_tokens::laws::{one_reading, some_reading};

/// A text is a program, or a rule refuses it first.
pub fn parsed_or_refused()
    ensures { (text : List ℕ) → ((p : ProgramTree) × Parses text p)
        ⊎ ((refusal : Refusal) × IsRefused text refusal) }
{
    some_reading();
    derived_or_broken();
    programs_are_derived();
}

/// A text is one program at most, one rule refuses it first at most, and never both.
pub fn one_answer()
    ensures program { (text : List ℕ) (p q : ProgramTree) → Parses text p → Parses text q → p ≡ q }
    ensures refusal { (text : List ℕ) (a b : Refusal) → IsRefused text a → IsRefused text b
        → a ≡ b }
    ensures not_both { (text : List ℕ) (p : ProgramTree) (a : Refusal) → Parses text p
        → IsRefused text a → ⊥ }
{
    one_reading();
    one_break();
    one_tree_of_tokens();
    one_program();
    programs_are_derived();
}

/// What a text is read as is a program: each binder has a number of its own and binds where it may, each
/// parameter has its type, numbers are of their kinds, and nothing is empty that may not be.
pub fn parsed_programs()
    ensures { (text : List ℕ) (p : ProgramTree) → Parses text p → IsProgram p.params p.body }
{
    spelled_programs();
    one_program();
}
