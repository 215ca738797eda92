//! That parsed programs are printed so that they parse again. Each function's contract is the law.

ghost use Rattle.std.specs.Prelude.{◌⊎◌, ℕ, List};
ghost use Rattle.weld_tree.specs.declared.refusal.Refusal.{Refusal};
ghost use Rattle.weld_tree.specs.Program.{ProgramTree};
ghost use Rattle.weld_tree.specs.Blank.{AreSame};
ghost use Rattle.weld_print.specs.PrintText.{program_text};
ghost use Rattle.weld_parse.specs.Parses.{Parses, IsRefused};
ghost use Rattle.weld_text_laws.specs.Limits.{IsLimit};

use weld_grammar::laws::one_break;
use weld_parse::laws::{parsed_or_refused, parsed_programs};
use weld_print::reads_back::printed_programs_read_back;
use weld_spell::laws::{one_program, one_tree_of_tokens, programs_are_derived};
use weld_tokens::laws::one_reading;

/// Where a text parses as a program, the printed text of that program parses as one that is the same up to places,
/// noted types and binder numbers, or it is refused by a limit; by nothing else.
pub fn parsed_programs_read_back()
    ensures { (text : List ℕ) (p : ProgramTree) → Parses text p
        → ((q : ProgramTree) × Parses (program_text p) q × AreSame p q)
        ⊎ ((refusal : Refusal) × IsRefused (program_text p) refusal × IsLimit refusal) }
{
    parsed_programs();
    printed_programs_read_back();
    parsed_or_refused();
    one_reading();
    one_program();
    programs_are_derived();
    one_break();
    one_tree_of_tokens();
}
