//! The arguments of a call.
ghost use Rattle.std.specs.Prelude.{◌≡◌, map, IfOk};
ghost use Rattle.weld_read_script.specs.Parts.{all_read};
ghost use Rattle.weld_read_script.specs.Arguments as plain;

use crate::statements::parts::is_sign;
use crate::statements::statement::{Argument, Arguments};
use std::alloc::{AllocError, Global};
use weld_accept::is_of;
use weld_data::{Kind, Text};
use weld_grammar::Terminal;
use weld_grammar::terminals::{Class, Reserved, Symbol, Token};
use weld_tokens::{chars_of, literal_of};

/// The kind of a number of this class.
fn number_kind(class: Class) -> Kind
    ensures { result ≡ plain.number_kind class }
{
    match class {
        Class::Long => Kind::I64,
        _ => Kind::I32,
    }
}

/// A number, behind a `-` or not.
fn read_number(negative: bool, token: &Token) -> Argument
    ensures { result ≡ plain.number_read negative token.now }
{
    match literal_of(token.word.as_slice(), token.class, negative) {
        Some(value) => Argument::Literal(number_kind(token.class), i128::from(value)),
        None => Argument::OutOfRange,
    }
}

/// An argument of one token.
fn read_token(alloc: Global, token: &Token) -> Result<Option<Argument>, AllocError>
    ensures { IfOk result (λ found. found ≡ plain.one_token token.now.class token.now) }
{
    Ok(match token.class {
        Class::Name => Some(Argument::Name(Text::copy_of(alloc, token.word.as_slice())?)),
        Class::Int | Class::Long => Some(read_number(false, token)),
        Class::Reserved(Reserved::False) => Some(Argument::Literal(Kind::Bool, 0)),
        Class::Reserved(Reserved::True) => Some(Argument::Literal(Kind::Bool, 1)),
        Class::Chars => Some(Argument::Chars(chars_of(alloc, token.word.as_slice())?)),
        _ => None,
    })
}

/// An argument.
fn read_argument(alloc: Global, part: &[Token]) -> Result<Option<Argument>, AllocError>
    ensures { IfOk result (λ found. found ≡ plain.argument_of part.now) }
{
    match part {
        [token] => read_token(alloc, token),
        [minus, number] => {
            if is_sign(Symbol::Minus, minus) && is_of(Terminal::Number, number.class) {
                Ok(Some(read_number(true, number)))
            } else {
                Ok(None)
            }
        }
        _ => Ok(None),
    }
}

/// The arguments, where each part is one.
pub(crate) fn read_arguments(
    alloc: Global,
    parts: &[&[Token]],
) -> Result<Option<Arguments>, AllocError>
    ensures { IfOk result (λ found. found ≡ all_read plain.argument_of
        (map (λ x. x.now) parts.now)) }
{
    let mut arguments = Arguments::new(alloc);
    for part in parts {
        let Some(argument) = read_argument(alloc, part)? else {
            return Ok(None);
        };
        arguments.push(argument)?;
    }
    Ok(Some(arguments))
}
