//! The pass.

ghost use Rattle.std.specs.Prelude.{IfOk};
ghost use Rattle.weld_check_types.specs.Notes.{ProgramIsNoted};
ghost use Rattle.weld_rewriting.specs.Passed.{IsPassed};
ghost use Rattle.weld_rewriting.specs.Rules.{Falls, IsSound};
ghost use Rattle.weld_rewriting.specs.Sweep.{IsStill};

use crate::replacing::{rewritten_programs, tidiness_is_kept};
use crate::rounds::laws::rounds_rewrite;
use crate::rounds::sweep_until_still;
use crate::sweep::Rule;
use std::alloc::{AllocError, Global};
use weld_meaning::Accepted;
use weld_print::reads_back::{printed_programs_read_back, texts_spell_the_spellable};
use weld_tree::Program;

/// The program with the rule tried at each node, in rounds, until it matches nowhere: accepted and
/// noted as before, with the same meaning on all arguments that fit, faults included, no more legs
/// and loops; and where some text spelled it, noted types apart, its printed text spells it. The
/// rule's answer is lighter than the node and may take its place. It fails for want of memory
/// alone, and the program is spent then.
pub fn run_pass<R: Rule>(alloc: Global, rule: &R, p: Accepted) -> Result<Accepted, AllocError>
    requires noted { ProgramIsNoted p }
    requires falls { Falls (R.rule rule.now) }
    requires sound { IsSound (R.rule rule.now) }
    ensures passed { IfOk result (λ q. IsPassed q p) }
    ensures still { IfOk result (λ q. IsStill (R.rule rule.now) q.body) }
{
    tidiness_is_kept();
    rounds_rewrite();
    rewritten_programs();
    texts_spell_the_spellable();
    printed_programs_read_back();
    let Accepted { program } = p;
    let Program { params, body } = program;
    let mut body = body;
    sweep_until_still(alloc, rule, &mut body)?;
    let program = Program { params, body };
    Ok(Accepted { program })
}
