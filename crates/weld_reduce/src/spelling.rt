//! The program that a derivation spells.
ghost use Rattle.std.specs.Prelude.{◌≡◌, ◌<◌, None, IfOk, length};
ghost use Rattle.weld_tokens.specs.Order.{first_number_out_of_range as out_of_range};
ghost use Rattle.weld_grammar.specs.declared.rule.Rule.TheVariants as rules;
ghost use Rattle.weld_reduce.specs.Programs.{AreOfTheirClasses, IsDerivedBy, IsRead};
ghost use Rattle.weld_reduce.specs.Ends.{IsEndOf};
ghost use Rattle.weld_reduce.specs.StateView.{view_state};

use crate::laws::{binders_are_few, derivations_spell};
use crate::machine::run_steps;
use crate::state::State;
use crate::stop::Stop;
use std::alloc::{AllocError, Global};
use weld_accept::Step;
use weld_grammar::terminals::Token;
use weld_spell::programs::numbers_by_the_tree;
use weld_tree::{Binders, Code, Expr, Place};

/// A program as its tokens spell it: its parameters, its body, and the first of its names that is refused: with N1
/// where no binder in scope bears it, with N2 where a reserved word stands in the place of a name.
#[derive(Drop)]
pub struct Read {
    pub params: Binders,
    pub body: Box<Expr>,
    pub misnamed: Option<(Code, Place)>,
}

/// The program of a derivation, by its steps and its tokens, of which each number is in its range and each token has the
/// class of its bytes; a text has fewer tokens than binders have numbers. It fails only for want of memory.
pub fn spell(alloc: Global, tokens: &[Token], steps: &[Step]) -> Result<Read, AllocError>
    requires derived { IsDerivedBy rules.Program tokens.now steps.now }
    requires ranged { out_of_range tokens.now ≡ None }
    requires read { AreOfTheirClasses tokens.now }
    requires few { length tokens.now < 4294967296 }
    ensures { IfOk result (λ read. IsRead tokens.now read.params read.body.value read.misnamed) }
{
    derivations_spell();
    binders_are_few();
    numbers_by_the_tree();
    let mut state = State::new(alloc);
    match run_steps(alloc, tokens, steps, &mut state) {
        Ok(()) => Ok(whole(tokens, state)),
        Err(Stop::Memory) => Err(AllocError),
        // (the steps of a derivation fit)
        Err(Stop::Broken) => unreachable!(),
    }
}

/// What is left when a program's derivation has run through.
fn whole(tokens: &[Token], state: State) -> Read
    requires { IsEndOf tokens.now (view_state state) }
    ensures { IsRead tokens.now result.params result.body.value result.misnamed }
{
    let State {
        mut values,
        params,
        misnamed,
        ..
    } = state;
    match values.pop_expr() {
        Ok(body) => Read {
            params,
            body,
            misnamed,
        },
        Err(_) => unreachable!(),
    }
}
