ghost use Rattle.std.specs.Prelude.{◌≡◌, ◌≤◌};
ghost use Rattle.weld_tokens.specs.TokenLimits as limits;

use weld_grammar::terminals::{Class, Symbol, Token};
use weld_tree::Place;

/// Whether a text has too many bytes: more than 262,144 (M2).
pub fn has_too_many_bytes(text: &[u8]) -> bool
    ensures { result ≡ limits.has_too_many_bytes text.now }
{
    text.len() > 262_144
}

/// Whether the token is a bracket that opens, of whatever shape.
pub fn is_opening(class: Class) -> bool
    ensures { result ≡ limits.is_opening class }
{
    match class {
        Class::Symbol(Symbol::LeftParen) => true,
        Class::Symbol(Symbol::LeftBracket) => true,
        Class::Symbol(Symbol::LeftBrace) => true,
        _ => false,
    }
}

/// Whether the token is a bracket that closes, of whatever shape.
pub fn is_closing(class: Class) -> bool
    ensures { result ≡ limits.is_closing class }
{
    match class {
        Class::Symbol(Symbol::RightParen) => true,
        Class::Symbol(Symbol::RightBracket) => true,
        Class::Symbol(Symbol::RightBrace) => true,
        _ => false,
    }
}

/// Whether the token is `-` or `!`.
fn is_sign(class: Class) -> bool
    ensures { result ≡ limits.is_sign class }
{
    match class {
        Class::Symbol(Symbol::Minus) => true,
        Class::Symbol(Symbol::Bang) => true,
        _ => false,
    }
}

/// How many brackets are open at a token, from how many were before it.
fn open_at(brackets: u32, class: Class) -> u32
    requires { brackets ≤ 1000 }
    ensures { result ≡ limits.open_at brackets class }
{
    if is_opening(class) {
        brackets + 1
    } else if is_closing(class) {
        brackets.saturating_sub(1)
    } else {
        brackets
    }
}

/// Whether some token nests deeper than 100.
fn nests_too_deep(tokens: &[Token]) -> bool
    ensures { result ≡ limits.nests_too_deep 0 0 tokens.now }
{
    let mut brackets = 0u32;
    let mut run = 0u32;
    for token in tokens {
        brackets = open_at(brackets, token.class);
        if is_sign(token.class) {
            run += 1;
            if brackets + run > 100 {
                return true;
            }
        } else {
            if brackets + run > 100 {
                return true;
            }
            run = 0;
        }
    }
    false
}

/// Whether there are too many tokens, more than 16,384, or some token nests deeper than 100 (M3). The nesting at a
/// token is the number of brackets that are open at it, and the length of the run of `-` and `!` that ends at it or
/// directly before it. A bracket that opens is open at its own token; one that closes isn't, and takes one off whatever
/// its shape.
pub fn has_too_many_tokens(tokens: &[Token]) -> bool
    ensures { result ≡ limits.has_too_many_tokens tokens.now }
{
    tokens.len() > 16_384 || nests_too_deep(tokens)
}

/// Whether the token is a name of more than 64 bytes.
fn is_long_name(token: &Token) -> bool
    ensures { result ≡ limits.is_long_name token.now }
{
    match token.class {
        Class::Name => token.word.len() > 64,
        _ => false,
    }
}

/// The place of the first name of more than 64 bytes, where there is one (M9).
pub fn first_long_name(tokens: &[Token]) -> Option<Place>
    ensures { result ≡ limits.first_long_name tokens.now }
{
    for token in tokens {
        if is_long_name(token) {
            return Some(token.place);
        }
    }
    None
}
