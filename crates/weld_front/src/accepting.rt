ghost use Rattle.std.specs.Prelude.{◌≡◌, IfOk, IfErr, None};
ghost use Rattle.weld_meaning.specs.LinearWalk.{linear_refusal};
ghost use Rattle.weld_meaning.specs.Typing.{ProgramHas};
ghost use Rattle.weld_check_types.specs.Notes.{ProgramIsNoted};
ghost use Rattle.weld_uses.specs.Walks.{Fails};
ghost use Rattle.weld_front.specs.Accepting.{IsCheckedOf, RefusesOr};

use std::alloc::Global;
use weld_check_types::unnoted::notes_play_no_part;
use weld_check_types::{Typed, check_types};
use weld_meaning::Accepted;
use weld_parse::parse;
use weld_tree::{Refusal, Ty};
use weld_uses::accept;

/// A program that no rule refuses, with the type of its value.
#[derive(Drop)]
pub struct Checked {
    pub program: Accepted,
    pub ty: Ty,
}

/// A typed program, where the rules on the use of builders refuse it nowhere.
fn accept_typed(alloc: Global, typed: Typed) -> Result<Checked, Refusal>
    ensures same { IfOk result (λ c. (c.program ≡ typed.program) × (c.ty ≡ typed.ty)) }
    ensures linear { IfOk result (λ c. linear_refusal typed.program ≡ None) }
    ensures refused { IfErr result (λ refusal. Fails refusal (linear_refusal typed.program)) }
    ensures typed { ProgramHas typed.program typed.ty }
{
    let Typed { program, ty } = typed;
    let program = accept(alloc, program)?;
    Ok(Checked { program, ty })
}

/// The program that a text spells where no rule refuses it, or the first refusal.
#[tactic(auto, using(crate::proofs::Accepts::by_text, crate::proofs::Accepts::by_types, crate::proofs::Accepts::by_linear, crate::proofs::Accepts::checked))]
pub fn accept_text(alloc: Global, text: &[u8]) -> Result<Checked, Refusal>
    ensures accepted { IfOk result (λ c. IsCheckedOf text.now c.program c.ty) }
    ensures typed { IfOk result (λ c. ProgramHas c.program c.ty) }
    ensures noted { IfOk result (λ c. ProgramIsNoted c.program) }
    ensures refused { IfErr result (RefusesOr text.now) }
{
    notes_play_no_part();
    let program = match parse(alloc, text) {
        Ok(program) => program,
        Err(refusal) => return Err(refusal),
    };
    let typed = match check_types(alloc, program) {
        Ok(typed) => typed,
        Err(refusal) => return Err(refusal),
    };
    accept_typed(alloc, typed)
}
