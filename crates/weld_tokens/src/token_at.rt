ghost use Rattle.std.specs.Prelude.{◌≡◌, ℕ, List, ◌∷◌, [], IfSome, IfNone};
ghost use Rattle.weld_grammar.specs.declared.terminals.class.Class.TheVariants as classes;
ghost use Rattle.weld_tokens.specs.Scanning.{IsLongest, IsOther};
ghost use Rattle.weld_tokens.specs.Tokens.{longest_token};
ghost use Rattle.weld_tokens.specs.Words.{double};

use crate::bytes::{is_digit, is_letter};
use crate::reserved::word_class;
use crate::scan::{digits_len, double, number_end, single, string_len, word_len};
use weld_grammar::terminals::{Class, Symbol};

/// The first byte of a text, and what follows it.
fn split(text: &[u8]) -> Option<(u8, &[u8])>
    ensures some { IfSome result (λ found. text.now ≡ found.0 ∷ found.1.now) }
    ensures none { IfNone result (text.now ≡ []) }
{
    let (first, rest) = text.split_first()?;
    Some((*first, rest))
}

/// The field that begins with `$` before this text: how many bytes it has, and its class.
fn field_at(rest: &[u8]) -> Option<(usize, Class)>
    ensures some { IfSome result (λ found. IsLongest (36 ∷ rest.now) found.0 found.1) }
    ensures none { IfNone result (longest_token (36 ∷ rest.now) ≡ 0) }
{
    let count = digits_len(rest).min(9);
    if count == 0 {
        return None;
    }
    Some((count + 1, Class::Field))
}

/// The string that begins with `"` before this text: how many bytes it has, and its class.
fn string_at(rest: &[u8]) -> Option<(usize, Class)>
    ensures some { IfSome result (λ found. IsLongest (34 ∷ rest.now) found.0 found.1) }
    ensures none { IfNone result (longest_token (34 ∷ rest.now) ≡ 0) }
{
    match string_len(rest) {
        Some(count) => Some((count + 1, Class::Chars)),
        None => None,
    }
}

/// The symbol of two bytes that begins with a byte before this text.
fn double_at(first: u8, rest: &[u8]) -> Option<Symbol>
    ensures some { IfSome result (λ symbol. (c : ℕ) × (cs : List ℕ) × (rest.now ≡ c ∷ cs)
        × (double first c ≡ Some symbol)) }
    ensures none { IfNone result ((c : ℕ) (cs : List ℕ) → rest.now ≡ c ∷ cs
        → double first c ≡ None) }
{
    match split(rest) {
        Some((second, _)) => double(first, second),
        None => None,
    }
}

/// The symbol that begins with a byte before this text: how many bytes it has, and its class.
fn symbol_at(first: u8, rest: &[u8]) -> Option<(usize, Class)>
    requires { IsOther first }
    ensures some { IfSome result (λ found. IsLongest (first ∷ rest.now) found.0 found.1) }
    ensures none { IfNone result (longest_token (first ∷ rest.now) ≡ 0) }
{
    match double_at(first, rest) {
        Some(symbol) => Some((2, Class::Symbol(symbol))),
        None => match single(first) {
            Some(symbol) => Some((1, Class::Symbol(symbol))),
            None => None,
        },
    }
}

/// The longest token at the front of a text: how many bytes it has, and its class. None where no token begins there.
pub(crate) fn token_at(text: &[u8]) -> Option<(usize, Class)>
    ensures some { IfSome result (λ found. IsLongest text.now found.0 found.1) }
    ensures none { IfNone result (longest_token text.now ≡ 0) }
{
    let Some((first, rest)) = split(text) else {
        return None;
    };
    if is_letter(first) {
        let count = word_len(rest) + 1;
        return Some((count, word_class(&text[..count])));
    }
    if is_digit(first) {
        let (count, class) = number_end(rest);
        return Some((count + 1, class));
    }
    if first == b'$' {
        return field_at(rest);
    }
    if first == b'"' {
        return string_at(rest);
    }
    symbol_at(first, rest)
}
