ghost use Rattle.std.specs.Prelude.{◌≡◌, ◌≤◌, length, IfOk, IfErr};
ghost use Rattle.weld_tokens.specs.Tokens.{AreTokens, IsRefused};
ghost use Rattle.weld_tokens.specs.Words.{class_of};

use crate::place::place_after;
use crate::scan::gap_len;
use crate::token_at::token_at;
use std::alloc::{AllocError, Global};
use weld_data::Items;
use weld_grammar::terminals::{Class, Token, Word};
use weld_tree::{Code, Place, Refusal};

/// A list of tokens.
pub type Tokens = Items<Token>;

/// The class of the token that these bytes are. None where they are no token, or more than one.
pub fn class_of(word: &[u8]) -> Option<Class>
    ensures { result ≡ class_of word.now }
{
    match token_at(word) {
        Some((count, class)) => {
            if count == word.len() {
                Some(class)
            } else {
                None
            }
        }
        None => None,
    }
}

/// A token of these bytes.
fn token_of(alloc: Global, class: Class, word: &[u8], place: Place) -> Result<Token, AllocError>
    ensures { IfOk result (λ token. (token.class ≡ class) × (token.word ≡ word.now)
        × (token.place ≡ place)) }
{
    let word = Word::copy_of(alloc, word)?;
    Ok(Token { class, word, place })
}

/// Reads a program's text of at most 262,144 bytes as tokens, by longest match. It is refused with X1
/// at the first byte where no token begins, and for want of memory.
pub fn read_tokens(alloc: Global, text: &[u8]) -> Result<Tokens, Refusal>
    requires { length text.now ≤ 262144 }
    ensures ok { IfOk result (AreTokens text.now) }
    ensures refused { IfErr result (IsRefused text.now) }
{
    let mut tokens = Tokens::new(alloc);
    let mut place = Place { line: 1, column: 1 };
    let mut rest = text;
    while !rest.is_empty() {
        let (gap, front) = rest.split_at(gap_len(rest));
        let here = place_after(place, gap);
        if front.is_empty() {
            return Ok(tokens);
        }
        let Some((count, class)) = token_at(front) else {
            return Err(Refusal::At(Code::X1, here));
        };
        let (word, more) = front.split_at(count);
        let Ok(token) = token_of(alloc, class, word, here) else {
            return Err(Refusal::Memory);
        };
        let Ok(()) = tokens.push(token) else {
            return Err(Refusal::Memory);
        };
        place = place_after(here, word);
        rest = more;
    }
    Ok(tokens)
}
