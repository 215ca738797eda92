//! Statements from the tokens of a line.
ghost use Rattle.std.specs.Prelude.{◌≡◌, ◌∷◌, map, IfOk};
ghost use Rattle.weld_read_script.specs.Statements as plain;

use crate::statements::arguments::read_arguments;
use crate::statements::columns::read_columns;
use crate::statements::parts::{
    before_close, is_call_word, is_sign, names_of, parts, read_value_type,
};
use crate::statements::statement::{Arguments, Statement};
use std::alloc::{AllocError, Global};
use weld_accept::is_of;
use weld_data::Text;
use weld_grammar::Terminal;
use weld_grammar::terminals::{Symbol, Token};
use weld_tokens::first_long_name;

/// Whether the token is the text.
fn is_written(text: &[u8], token: &Token) -> bool
    ensures { result ≡ plain.is_written text.now token.now }
{
    text == token.word.as_slice()
}

/// A copy of the token's word.
fn word_of(alloc: Global, token: &Token) -> Result<Text, AllocError>
    ensures { IfOk result (λ word. word ≡ token.now.word) }
{
    Text::copy_of(alloc, token.word.as_slice())
}

/// Reads what stands behind `input`.
fn read_input(alloc: Global, name: &Token, rest: &[Token]) -> Result<Option<Statement>, AllocError>
    ensures { IfOk result (plain.SaysInput name.now rest.now) }
{
    let [colon, ty @ ..] = rest else {
        return Ok(None);
    };
    if !(is_of(Terminal::Name, name.class) && is_sign(Symbol::Colon, colon)) {
        return Ok(None);
    }
    match read_value_type(alloc, ty)? {
        Some(ty) => Ok(Some(Statement::Input(word_of(alloc, name)?, ty))),
        None => Ok(None),
    }
}

/// Reads the columns of a table, 16 at most.
fn read_table_of(
    alloc: Global,
    name: &Token,
    columns: &[&[Token]],
) -> Result<Option<Statement>, AllocError>
    ensures { IfOk result (plain.SaysColumns name.now.word (map (λ x. x.now) columns.now)) }
{
    if columns.len() > 16 {
        return Ok(None);
    }
    match read_columns(alloc, columns)? {
        Some(columns) => Ok(Some(Statement::Table(word_of(alloc, name)?, columns))),
        None => Ok(None),
    }
}

/// Reads what stands behind `table`.
fn read_table(alloc: Global, name: &Token, rest: &[Token]) -> Result<Option<Statement>, AllocError>
    ensures { IfOk result (plain.SaysTable name.now rest.now) }
{
    let [open, more @ ..] = rest else {
        return Ok(None);
    };
    if !(is_of(Terminal::Name, name.class) && is_sign(Symbol::LeftParen, open)) {
        return Ok(None);
    }
    match before_close(more) {
        Some(inner) => {
            let columns = parts(alloc, inner)?;
            read_table_of(alloc, name, columns.as_slice())
        }
        None => Ok(None),
    }
}

/// Reads arguments up to the `)` that ends the line.
fn arguments_of(alloc: Global, tokens: &[Token]) -> Result<Option<Arguments>, AllocError>
    ensures { IfOk result (λ found. found ≡ plain.arguments_of tokens.now) }
{
    match before_close(tokens) {
        Some(inner) => {
            let arguments = parts(alloc, inner)?;
            read_arguments(alloc, arguments.as_slice())
        }
        None => Ok(None),
    }
}

/// Reads what stands behind `NAME =`.
fn read_call(alloc: Global, name: &Token, rest: &[Token]) -> Result<Option<Statement>, AllocError>
    ensures { IfOk result (λ said. said ≡ plain.call_of name.now.word rest.now) }
{
    let [library, dot, call, open, tokens @ ..] = rest else {
        return Ok(None);
    };
    if !(is_of(Terminal::Name, library.class) && is_sign(Symbol::Dot, dot)) {
        return Ok(None);
    }
    if !(is_call_word(call.class) && is_sign(Symbol::LeftParen, open)) {
        return Ok(None);
    }
    match arguments_of(alloc, tokens)? {
        Some(arguments) => {
            let name = word_of(alloc, name)?;
            let library = word_of(alloc, library)?;
            let call = word_of(alloc, call)?;
            Ok(Some(Statement::Call(name, library, call, arguments)))
        }
        None => Ok(None),
    }
}

/// Reads what stands behind `show`.
fn read_show(alloc: Global, rest: &[Token]) -> Result<Option<Statement>, AllocError>
    ensures { IfOk result (λ said. said ≡ plain.show_of rest.now) }
{
    let names = parts(alloc, rest)?;
    match names_of(alloc, names.as_slice())? {
        Some(names) => Ok(Some(Statement::Show(names))),
        None => Ok(None),
    }
}

/// Reads a line by its first token, behind which these stand, the second of them being this one.
fn read_behind(
    alloc: Global,
    first: &Token,
    second: &Token,
    rest: &[Token],
    behind: &[Token],
) -> Result<Option<Statement>, AllocError>
    requires { behind.now ≡ second.now ∷ rest.now }
    ensures { IfOk result (plain.SaysBehind first.now second.now rest.now) }
{
    if is_sign(Symbol::Equals, second) {
        read_call(alloc, first, rest)
    } else if is_written(b"input", first) {
        read_input(alloc, second, rest)
    } else if is_written(b"table", first) {
        read_table(alloc, second, rest)
    } else if is_written(b"show", first) {
        read_show(alloc, behind)
    } else {
        Ok(None)
    }
}

/// Reads a line by its first two tokens.
fn read_form(alloc: Global, tokens: &[Token]) -> Result<Option<Statement>, AllocError>
    ensures { IfOk result (plain.SaysForm tokens.now) }
{
    match tokens {
        [first, second, rest @ ..] => {
            if is_of(Terminal::Name, first.class) {
                read_behind(alloc, first, second, rest, &tokens[1..])
            } else {
                Ok(None)
            }
        }
        _ => Ok(None),
    }
}

/// The statement that the tokens of a line are, of the four forms that lines of scripts have; None where they have none
/// of them: also where a word has more than 64 bytes, or a type is not as it is to be. It fails only for want of
/// memory.
pub fn read_statement(alloc: Global, tokens: &[Token]) -> Result<Option<Statement>, AllocError>
    ensures { IfOk result (plain.Says tokens.now) }
{
    match first_long_name(tokens) {
        Some(_) => Ok(None),
        None => read_form(alloc, tokens),
    }
}
