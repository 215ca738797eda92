//! The columns of a table.
ghost use Rattle.std.specs.Prelude.{◌≡◌, map, IfOk};
ghost use Rattle.weld_read_script.specs.Columns as plain;

use crate::statements::parts::{is_sign, read_cell_type};
use crate::statements::statement::{Column, Columns};
use std::alloc::{AllocError, Global};
use weld_accept::is_of;
use weld_data::{Names, Text};
use weld_grammar::Terminal;
use weld_grammar::terminals::{Symbol, Token};
use weld_tokens::chars_of;
use weld_tree::Tys;

/// The name of a column: a word, reserved or not, or a string.
fn column_name(alloc: Global, token: &Token) -> Result<Option<Text>, AllocError>
    ensures { IfOk result (λ name. name ≡ plain.column_name token.now) }
{
    if is_of(Terminal::Word, token.class) {
        Ok(Some(Text::copy_of(alloc, token.word.as_slice())?))
    } else if is_of(Terminal::Chars, token.class) {
        Ok(Some(chars_of(alloc, token.word.as_slice())?))
    } else {
        Ok(None)
    }
}

/// A column of that name, whose cells have the type that the tokens spell.
fn named_column(
    alloc: Global,
    name: Option<Text>,
    tokens: &[Token],
) -> Result<Option<Column>, AllocError>
    ensures { IfOk result (plain.NamedColumn name tokens.now) }
{
    let Some(name) = name else {
        return Ok(None);
    };
    match read_cell_type(alloc, tokens)? {
        Some(cell) => Ok(Some(Column { name, cell })),
        None => Ok(None),
    }
}

/// A column: its name, `:`, and the type of its cells.
fn read_column(alloc: Global, part: &[Token]) -> Result<Option<Column>, AllocError>
    ensures { IfOk result (plain.ColumnRead part.now) }
{
    match part {
        [name, colon, ty @ ..] => {
            if is_sign(Symbol::Colon, colon) {
                named_column(alloc, column_name(alloc, name)?, ty)
            } else {
                Ok(None)
            }
        }
        _ => Ok(None),
    }
}

/// The columns, where each part is one.
pub(crate) fn read_columns(alloc: Global, parts: &[&[Token]]) -> Result<Option<Columns>, AllocError>
    ensures { IfOk result (plain.ColumnsRead (map (λ x. x.now) parts.now)) }
{
    let mut names = Names::new(alloc);
    let mut cells = Tys::new(alloc);
    for part in parts {
        let Some(column) = read_column(alloc, part)? else {
            return Ok(None);
        };
        let Column { name, cell } = column;
        names.push(name)?;
        cells.push(cell)?;
    }
    Ok(Some(Columns { names, cells }))
}
