//! A text as a program that is accepted, and the text of what the pass makes of it.

ghost use Rattle.std.specs.Prelude.{◌≡◌, IfOk};
ghost use Rattle.weld_check_types.specs.Notes.{ProgramIsNoted};

use std::alloc::Global;
use weld_check_types::{Typed, check_types};
use weld_data::Text;
use weld_inline::inline_lets;
use weld_meaning::Accepted;
use weld_parse::parse;
use weld_print::print;
use weld_tree::Refusal;
use weld_uses::accept;

/// The program that the text spells, accepted and with the types of its nodes noted; or its first refusal.
pub fn accept_text(alloc: Global, text: &[u8]) -> Result<Accepted, Refusal>
    ensures { IfOk result (λ accepted. ProgramIsNoted accepted) }
{
    let program = match parse(alloc, text) {
        Ok(program) => program,
        Err(refusal) => return Err(refusal),
    };
    let typed = match check_types(alloc, program) {
        Ok(typed) => typed,
        Err(refusal) => return Err(refusal),
    };
    accept_typed(alloc, typed)
}

/// The typed program, accepted; or its first refusal.
pub fn accept_typed(alloc: Global, typed: Typed) -> Result<Accepted, Refusal>
    ensures { IfOk result (λ accepted. accepted ≡ typed.program) }
{
    let Typed { program, ty: _ } = typed;
    accept(alloc, program)
}

/// What is printed of the program of the text when lets have been put in their place.
pub fn inlined(alloc: Global, text: &[u8]) -> Result<Text, Refusal> {
    let accepted = accept_text(alloc, text)?;
    match inline_lets(alloc, accepted) {
        Ok(accepted) => match print(alloc, accepted.program()) {
            Ok(text) => Ok(text),
            Err(_) => Err(Refusal::Memory),
        },
        Err(_) => Err(Refusal::Memory),
    }
}
