ghost use Rattle.std.specs.Prelude.{IfOk, IfErr};
ghost use Rattle.weld_grammar.specs.Classes.{classes};
ghost use Rattle.weld_accept.specs.Derived.{IsDerivation};
ghost use Rattle.weld_accept.specs.Stops.{StopsAt};

use crate::entry::Entry;
use crate::machine::{finish, step};
use crate::stack::Stack;
use crate::steps::Steps;
use crate::stop::Stop;
use std::alloc::Global;
use weld_grammar::terminals::Token;
use weld_grammar::{Item, Rule};

/// The steps of the tree by which the rule derives the tokens, or where the tokens break the rule first. It
/// fails otherwise only for want of memory.
pub fn derive(alloc: Global, rule: Rule, tokens: &[Token]) -> Result<Steps, Stop>
    ensures derived { IfOk result (λ steps. IsDerivation rule (classes tokens.now) steps) }
    ensures broken { IfErr result (StopsAt rule (classes tokens.now)) }
{
    // (a token takes some four steps)
    let mut steps = Steps::with_room(alloc, tokens.len().saturating_mul(4))?;
    let mut stack = Stack::new(alloc);
    stack.push(Entry::Due(Item::Part(rule)))?;
    for (i, token) in tokens.iter().enumerate() {
        if !step(&mut stack, &mut steps, token.class)? {
            return Err(Stop::Break(i));
        }
    }
    if finish(stack, &mut steps)? {
        Ok(steps)
    } else {
        Err(Stop::Break(tokens.len()))
    }
}
