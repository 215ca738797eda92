//! What a line of a script says.
ghost use Rattle.std.specs.Prelude.{◌≤◌, ℕ, List, length, IfOk};
ghost use Rattle.weld_tokens.specs.Tokens.{AreTokens};
ghost use Rattle.weld_read_script.specs.Statements.{LineSays};

use crate::statements::statement::Saying;
use crate::statements::statements::read_statement;
use std::alloc::{AllocError, Global};
use weld_tokens::{Tokens, read_tokens};
use weld_tree::Refusal;

/// What the tokens of a line say.
fn read_tokens_of(alloc: Global, tokens: &Tokens) -> Result<Saying, AllocError>
    ensures { (line : List ℕ) → AreTokens line tokens.now → IfOk result (LineSays line) }
{
    if tokens.is_empty() {
        return Ok(Saying::Nothing);
    }
    match read_statement(alloc, tokens.as_slice())? {
        Some(statement) => Ok(Saying::States(statement)),
        None => Ok(Saying::NoForm),
    }
}

/// What a line of a script of library calls says, without the LF that ends it: nothing, a statement of one
/// of the four forms, or nothing that has a form. It fails only for want of memory.
pub fn read_line(alloc: Global, line: &[u8]) -> Result<Saying, AllocError>
    requires { length line.now ≤ 262144 }
    ensures { IfOk result (LineSays line.now) }
{
    match read_tokens(alloc, line) {
        Ok(tokens) => read_tokens_of(alloc, &tokens),
        Err(Refusal::Memory) => Err(AllocError),
        Err(_) => Ok(Saying::NoForm),
    }
}
