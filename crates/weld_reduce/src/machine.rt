//! The machine.
ghost use Rattle.std.specs.Prelude.{◌≡◌, ◌∷◌, ◌+◌, ◌<◌, Some, None, IfOk, OnOk, IfErr, List, drop};
ghost use Rattle.weld_accept.specs.declared.step.Step.{Step};
ghost use Rattle.weld_reduce.specs.declared.stop.Stop.TheVariants.{Broken};
ghost use Rattle.weld_reduce.specs.StateView.{view_state};
ghost use Rattle.weld_reduce.specs.Runs.{run};
ghost use Rattle.weld_reduce.specs.Made.{made_by, binders_made};

use crate::rules::reduce;
use crate::shift::shift;
use crate::state::State;
use crate::stop::Stop;
use std::alloc::Global;
use weld_accept::Step;
use weld_grammar::terminals::Token;

/// One step. It gives the number of the next token.
#[tactic(auto, using(crate::proofs::CodeNumbers::behind_shift))]
fn run_step<'a>(
    alloc: Global,
    tokens: &'a [Token],
    next: usize,
    step: Step,
    state: &mut State<'a>,
) -> Result<usize, Stop>
    requires room { state.old.next + made_by step < 4294967296 }
    ensures ok { IfOk result
        (λ behind. (steps : List Step) → run (step ∷ steps) (drop next tokens.now)
        (view_state state.old)
        ≡ run steps (drop behind tokens.now) (view_state state.new)) }
    ensures numbered { OnOk result (state.new.next ≡ state.old.next + made_by step) }
    ensures broken { IfErr result
        (λ stop. stop ≡ Broken → (steps : List Step) → run (step ∷ steps) (drop next tokens.now)
        (view_state state.old)
        ≡ None) }
{
    match step {
        Step::Shift(terminal) => {
            if next >= tokens.len() {
                return Err(Stop::Broken);
            }
            shift(alloc, terminal, &tokens[next], state)?;
            Ok(next + 1)
        }
        Step::Reduce(rule) => {
            reduce(alloc, rule, state)?;
            Ok(next)
        }
    }
}

/// The steps of a derivation over its tokens. No number passes what a binder may have.
pub fn run_steps<'a>(
    alloc: Global,
    tokens: &'a [Token],
    steps: &[Step],
    state: &mut State<'a>,
) -> Result<(), Stop>
    requires room { state.old.next + binders_made steps.now < 4294967296 }
    ensures ok { OnOk result
        (run steps.now tokens.now (view_state state.old) ≡ Some (view_state state.new)) }
    ensures broken { IfErr result
        (λ stop. stop ≡ Broken → run steps.now tokens.now (view_state state.old) ≡ None) }
{
    let mut next = 0;
    for step in steps {
        next = run_step(alloc, tokens, next, *step, &mut *state)?;
    }
    Ok(())
}
