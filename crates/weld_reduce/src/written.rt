//! Written types.
ghost use Rattle.std.specs.Prelude.{◌≡◌, MatchOption, IfOk};
ghost use Rattle.weld_tree.specs.Types.{IsWithinLimits};
ghost use Rattle.weld_grammar.specs.declared.rule.Rule.TheVariants as rules;
ghost use Rattle.weld_spell.specs.Types.{SpellsType, IsNoType};
ghost use Rattle.weld_reduce.specs.Programs.{IsDerivedBy};
ghost use Rattle.weld_reduce.specs.Ends.{IsEndOfType};
ghost use Rattle.weld_reduce.specs.StateView.{view_state};

use crate::laws::{binders_are_few, derivations_are_over_tokens, derivations_spell};
use crate::machine::run_steps;
use crate::state::State;
use crate::stop::Stop;
use std::alloc::{AllocError, Global};
use weld_accept::{Step, derive};
use weld_grammar::Rule;
use weld_grammar::terminals::Token;
use weld_tree::Ty;

/// The type that all these tokens derive. None where they derive no type, or one over the limits on
/// written types: depth 16 and 256 type nodes. It fails only for want of memory.
pub fn read_ty(alloc: Global, tokens: &[Token]) -> Result<Option<Ty>, AllocError>
    ensures { IfOk result (λ found. MatchOption found (IsNoType tokens.now)
        (λ ty. SpellsType tokens.now ty × IsWithinLimits ty)) }
{
    derivations_are_over_tokens();
    match derive(alloc, Rule::AnyType, tokens) {
        Err(weld_accept::Stop::Memory) => Err(AllocError),
        Err(weld_accept::Stop::Break(_)) => Ok(None),
        Ok(steps) => {
            let ty = Box::into_inner(spell_type(alloc, tokens, steps.as_slice())?);
            if ty.is_within_limits() {
                Ok(Some(ty))
            } else {
                Ok(None)
            }
        }
    }
}

/// The type of a derivation, by its steps and its tokens. It fails only for want of memory.
fn spell_type(alloc: Global, tokens: &[Token], steps: &[Step]) -> Result<Box<Ty>, AllocError>
    requires { IsDerivedBy rules.AnyType tokens.now steps.now }
    ensures { IfOk result (λ ty. SpellsType tokens.now ty.value) }
{
    derivations_spell();
    binders_are_few();
    let mut state = State::new(alloc);
    match run_steps(alloc, tokens, steps, &mut state) {
        Ok(()) => Ok(whole_type(tokens, state)),
        Err(Stop::Memory) => Err(AllocError),
        // (the steps of a derivation fit)
        Err(Stop::Broken) => unreachable!(),
    }
}

/// What is left when a type's derivation has run through.
fn whole_type(tokens: &[Token], state: State) -> Box<Ty>
    requires { IsEndOfType tokens.now (view_state state) }
    ensures { SpellsType tokens.now result.value }
{
    let State { mut values, .. } = state;
    match values.pop_type() {
        Ok((_, ty)) => ty,
        Err(_) => unreachable!(),
    }
}
