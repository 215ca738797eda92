ghost use Rattle.std.specs.Prelude.{◌≡◌, IfErr, IfOk};
ghost use Rattle.weld_check_types.specs.Notes.{ProgramIsNoted};
ghost use Rattle.weld_types.specs.Says.{RefusalSays};
ghost use Rattle.weld_types.specs.Walk.{found, program_type};
ghost use Rattle.weld_check_types.specs.Unnoted.{IsSameButNotes};

use crate::type_walk::note_program;
use crate::typed::Typed;
use std::alloc::Global;
use weld_meaning::laws::types_are_unique;
use weld_tree::{Program, Refusal};
use weld_types::laws::the_walk_is_typing;

/// The program with its type, if it has one by the typing rules; each node of its body has its type noted then, and
/// nothing else of the program is changed. Refusals: `At` with the first rule that it breaks in the order of the walk,
/// and the place (Y1 to Y30); want of memory. Never `Size`. A program that is refused is spent.
pub fn check_types(alloc: Global, p: Program) -> Result<Typed, Refusal>
    ensures same { IfOk result (λ typed. IsSameButNotes typed.program p) }
    ensures found { IfOk result (λ typed. program_type p ≡ found typed.ty) }
    ensures noted { IfOk result (λ typed. ProgramIsNoted typed.program) }
    ensures refused { IfErr result (λ refusal. RefusalSays refusal (program_type p)) }
{
    the_walk_is_typing();
    types_are_unique();
    let Program { params, mut body } = p;
    match note_program(alloc, params.as_slice(), &mut body) {
        Ok(ty) => {
            let program = Program { params, body };
            Ok(Typed { program, ty })
        }
        Err(refusal) => Err(refusal),
    }
}
