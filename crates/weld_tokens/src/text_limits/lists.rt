ghost use Rattle.std.specs.Prelude.{◌≡◌, ◌≤◌, ◌+◌, ◌||◌, length, IfSome, IfNone, ◌∷◌, []};
ghost use Rattle.weld_tokens.specs.Lists as lists;

use crate::text_limits::depth::earlier;
use crate::{is_closing, is_opening};
use weld_grammar::terminals::{Class, Reserved, Symbol, Token};
use weld_tree::Place;

/// Whether the token is `,`.
fn is_comma(class: Class) -> bool
    ensures { result ≡ lists.is_comma class }
{
    match class {
        Class::Symbol(Symbol::Comma) => true,
        _ => false,
    }
}

/// Whether the token is `|`.
fn is_bar(class: Class) -> bool
    ensures { result ≡ lists.is_bar class }
{
    match class {
        Class::Symbol(Symbol::Bar) => true,
        _ => false,
    }
}

/// Whether the token is `:`.
fn is_colon(class: Class) -> bool
    ensures { result ≡ lists.is_colon class }
{
    match class {
        Class::Symbol(Symbol::Colon) => true,
        _ => false,
    }
}

/// Whether the token is `(`.
fn is_paren(class: Class) -> bool
    ensures { result ≡ lists.is_paren class }
{
    match class {
        Class::Symbol(Symbol::LeftParen) => true,
        _ => false,
    }
}

/// Whether the token is `[`.
fn is_bracket(class: Class) -> bool
    ensures { result ≡ lists.is_bracket class }
{
    match class {
        Class::Symbol(Symbol::LeftBracket) => true,
        _ => false,
    }
}

/// Whether the token is `{`.
fn is_brace(class: Class) -> bool
    ensures { result ≡ lists.is_brace class }
{
    match class {
        Class::Symbol(Symbol::LeftBrace) => true,
        _ => false,
    }
}

/// Whether the token is `zip`.
fn is_zip(class: Class) -> bool
    ensures { result ≡ lists.is_zip class }
{
    match class {
        Class::Reserved(Reserved::Zip) => true,
        _ => false,
    }
}

/// Whether the token is the word of a scalar type.
fn is_kind(class: Class) -> bool
    ensures { result ≡ lists.is_kind class }
{
    match class {
        Class::Reserved(Reserved::Bool) => true,
        Class::Reserved(Reserved::I8) => true,
        Class::Reserved(Reserved::I16) => true,
        Class::Reserved(Reserved::I32) => true,
        Class::Reserved(Reserved::I64) => true,
        Class::Reserved(Reserved::U8) => true,
        Class::Reserved(Reserved::U16) => true,
        Class::Reserved(Reserved::U32) => true,
        Class::Reserved(Reserved::U64) => true,
        _ => false,
    }
}

/// Whether the token is the word of a builder of one type.
fn builds_one(class: Class) -> bool
    ensures { result ≡ lists.builds_one class }
{
    match class {
        Class::Reserved(Reserved::Vecbuilder) => true,
        Class::Reserved(Reserved::Appender) => true,
        Class::Reserved(Reserved::Merger) => true,
        Class::Reserved(Reserved::Vecmerger) => true,
        _ => false,
    }
}

/// Whether the token is the word of a builder of two types.
fn builds_two(class: Class) -> bool
    ensures { result ≡ lists.builds_two class }
{
    match class {
        Class::Reserved(Reserved::Dictmerger) => true,
        Class::Reserved(Reserved::Groupbuilder) => true,
        Class::Reserved(Reserved::Groupmerger) => true,
        _ => false,
    }
}

/// Whether the token is the word of a vector or a dictionary.
fn holds(class: Class) -> bool
    ensures { result ≡ lists.holds class }
{
    match class {
        Class::Reserved(Reserved::Vec) => true,
        Class::Reserved(Reserved::Dict) => true,
        _ => false,
    }
}

/// How many brackets are open behind a token.
fn open_behind(brackets: usize, class: Class) -> usize
    requires { brackets + 1 ≤ usize.MAX }
    ensures value { result ≡ lists.open_behind brackets class }
    ensures within { result ≤ brackets + 1 }
{
    if is_opening(class) {
        brackets + 1
    } else if is_closing(class) {
        brackets.saturating_sub(1)
    } else {
        brackets
    }
}

/// Whether the list ends at the token.
fn ends_list(params: bool, class: Class) -> bool
    ensures { result ≡ lists.ends_list params class }
{
    if params {
        is_bar(class)
    } else {
        is_closing(class)
    }
}

/// The first token, and those behind it.
fn split(tokens: &[Token]) -> Option<(&Token, &[Token])>
    ensures some { IfSome result (λ found. tokens.now ≡ found.0.now ∷ found.1.now) }
    ensures none { IfNone result (tokens.now ≡ []) }
{
    tokens.split_first()
}

/// What stands in a list behind so many of its commas, from its first item on; nothing where it has fewer.
fn behind_commas(tokens: &[Token], params: bool, commas: usize) -> &[Token]
    ensures { result.now ≡ lists.behind_commas params commas 0 tokens.now }
{
    let mut rest = tokens;
    let mut left = commas;
    let mut brackets = 0usize;
    while let Some((first, more)) = split(rest) {
        if left == 0 {
            return rest;
        }
        if brackets == 0 && ends_list(params, first.class) {
            return &[];
        }
        if brackets == 0 && is_comma(first.class) {
            left -= 1;
        } else {
            brackets = open_behind(brackets, first.class);
        }
        rest = more;
    }
    rest
}

/// The place of the first of some tokens.
fn first_place(tokens: &[Token]) -> Option<Place>
    ensures { result ≡ lists.first_place tokens.now }
{
    match split(tokens) {
        Some((first, _)) => Some(first.place),
        None => None,
    }
}

/// The place of the name of the 17th parameter, where there is one (M7). The tokens are those of a
/// program.
pub fn first_parameter_too_many(tokens: &[Token]) -> Option<Place>
    ensures { result ≡ lists.first_parameter_too_many tokens.now }
{
    let (first, rest) = split(tokens)?;
    if is_bar(first.class) {
        first_place(behind_commas(rest, true, 16))
    } else {
        None
    }
}

/// The place of the 17th leg of the `zip` before these tokens.
fn legs_behind(tokens: &[Token]) -> Option<Place>
    ensures { result ≡ lists.legs_behind tokens.now }
{
    let (first, rest) = split(tokens)?;
    if is_paren(first.class) {
        first_place(behind_commas(rest, false, 16))
    } else {
        None
    }
}

/// The place of the 17th item of the list that begins with the first of these tokens.
fn item_too_many(tokens: &[Token]) -> Option<Place>
    ensures { result ≡ lists.item_too_many tokens.now }
{
    let (first, rest) = split(tokens)?;
    if is_brace(first.class) {
        first_place(behind_commas(rest, false, 16))
    } else if is_zip(first.class) {
        legs_behind(rest)
    } else {
        None
    }
}

/// The place of the first token of the first field of a struct or of a struct type, or leg of a `zip`, that is the 17th
/// of its list, where there is one (M8). The tokens are those of a program.
pub fn first_field_too_many(tokens: &[Token]) -> Option<Place>
    ensures { result ≡ lists.first_field_too_many tokens.now }
{
    let mut found = None;
    let mut rest = tokens;
    while let Some((_, more)) = split(rest) {
        found = earlier(found, item_too_many(rest));
        rest = more;
    }
    found
}

/// Whether a type node begins with the token.
fn begins_type(class: Class) -> bool
    ensures { result ≡ lists.begins_type class }
{
    is_kind(class) || holds(class) || builds_one(class) || builds_two(class) || is_brace(class)
}

/// Whether a type ends with the token, where it has no open bracket.
fn ends_type(class: Class) -> bool
    ensures { result ≡ lists.ends_type class }
{
    is_kind(class) || is_closing(class)
}

/// Whether the type at the front of the tokens has more than 256 nodes or is deeper than 16.
fn is_too_large(tokens: &[Token]) -> bool
    ensures { result ≡ lists.is_too_large 0 0 tokens.now }
{
    let mut nodes = 0usize;
    let mut brackets = 0usize;
    for token in tokens {
        let begins = begins_type(token.class);
        if begins && (nodes >= 256 || brackets >= 16) {
            return true;
        }
        brackets = open_behind(brackets, token.class);
        if brackets == 0 && ends_type(token.class) {
            return false;
        }
        if begins {
            nodes += 1;
        }
    }
    false
}

/// The place of the type at the front of the tokens, where it is too large.
fn type_too_large(tokens: &[Token]) -> Option<Place>
    ensures { result ≡ lists.type_too_large tokens.now }
{
    if is_too_large(tokens) {
        first_place(tokens)
    } else {
        None
    }
}

/// The first of two places.
fn first_of(first: Option<Place>, other: Option<Place>) -> Option<Place>
    ensures { result ≡ lists.first_of first other }
{
    match first {
        Some(place) => Some(place),
        None => other,
    }
}

/// The place of the first type in a builder's brackets that is too large.
fn in_brackets(tokens: &[Token], two: bool) -> Option<Place>
    ensures { result ≡ lists.in_brackets two tokens.now }
{
    let (first, rest) = split(tokens)?;
    if !is_bracket(first.class) {
        return None;
    }
    let second = if two {
        type_too_large(behind_commas(rest, false, 1))
    } else {
        None
    };
    first_of(type_too_large(rest), second)
}

/// Whether types may be written directly behind the token.
fn leads_types(class: Class) -> bool
    ensures { result ≡ (lists.is_colon class || lists.builds_one class || lists.builds_two class) }
{
    is_colon(class) || builds_one(class) || builds_two(class)
}

/// The place of the first type that is written directly behind a token, where it is too large.
fn type_behind(class: Class, rest: &[Token]) -> Option<Place>
    ensures { result ≡ lists.type_behind class rest.now }
{
    if is_colon(class) {
        type_too_large(rest)
    } else if builds_one(class) {
        in_brackets(rest, false)
    } else if builds_two(class) {
        in_brackets(rest, true)
    } else {
        None
    }
}

/// The place of the first token of the first written type that has more than 256 nodes or is deeper than 16, where
/// there is one (M6). The tokens are those of a program; a scalar has depth 1.
pub fn first_type_too_large(tokens: &[Token]) -> Option<Place>
    ensures { result ≡ lists.first_type_too_large tokens.now }
{
    let mut rest = tokens;
    while let Some((first, more)) = split(rest) {
        if leads_types(first.class) {
            if let Some(place) = type_behind(first.class, more) {
                return Some(place);
            }
        }
        rest = more;
    }
    None
}
