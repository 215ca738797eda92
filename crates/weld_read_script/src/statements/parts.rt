//! The parts of a line, by its tokens.
ghost use Rattle.std.specs.Prelude.{◌≡◌, ◌↔◌, map, option_map, IfOk, IsTrue};
ghost use Rattle.weld_grammar.specs.Grammar.{is_of as is_of_class};
ghost use Rattle.weld_grammar.specs.declared.terminal.Terminal.TheVariants.{Sign};
ghost use Rattle.weld_calls.specs.CallTypes.{IsValueType};
ghost use Rattle.weld_table.specs.Table.{IsCell};
ghost use Rattle.weld_read_script.specs.Parts as plain;

use std::alloc::{AllocError, Global};
use weld_accept::is_of;
use weld_data::{Kind, Names, Text};
use weld_grammar::Terminal;
use weld_grammar::terminals::{Class, Reserved, Symbol, Token};
use weld_reduce::read_ty;
use weld_tokens::has_too_many_tokens;
use weld_tree::{Ty, TyForm};

/// Whether the token is the symbol.
pub(crate) fn is_sign(symbol: Symbol, token: &Token) -> bool
    ensures { result ≡ is_of_class (Sign symbol) token.now.class }
{
    is_of(Terminal::Sign(symbol), token.class)
}

/// What stands between commas.
pub(crate) fn parts<'a>(alloc: Global, tokens: &'a [Token]) -> Result<Vec<&'a [Token]>, AllocError>
    ensures { IfOk result (λ v. map (λ x. x.now) v.items ≡ plain.parts tokens.now) }
{
    tokens
        .split(|token| is_sign(Symbol::Comma, token))
        .collect(alloc)
}

/// What stands before the `)` that ends the tokens.
#[tactic(auto, using(crate::proofs::Closing::closing))]
pub(crate) fn before_close(tokens: &[Token]) -> Option<&[Token]>
    ensures { option_map (λ x. x.now) result ≡ plain.before_close tokens.now }
{
    let (last, inner) = tokens.split_last()?;
    if is_sign(Symbol::RightParen, last) {
        Some(inner)
    } else {
        None
    }
}

/// Whether the class is that of a call's word: a name, `min`, `max` or `slice`.
pub(crate) fn is_call_word(class: Class) -> bool
    ensures { result ≡ plain.is_call_word class }
{
    is_of(Terminal::Name, class)
        || is_of(Terminal::Fixed(Reserved::Min), class)
        || is_of(Terminal::Fixed(Reserved::Max), class)
        || is_of(Terminal::Fixed(Reserved::Slice), class)
}

/// The one name of a part.
fn name_of(alloc: Global, part: &[Token]) -> Result<Option<Text>, AllocError>
    ensures { IfOk result (λ name. name ≡ plain.name_of part.now) }
{
    let [token] = part else {
        return Ok(None);
    };
    if is_of(Terminal::Name, token.class) {
        Ok(Some(Text::copy_of(alloc, token.word.as_slice())?))
    } else {
        Ok(None)
    }
}

/// The names of the parts, where each is one.
pub(crate) fn names_of(alloc: Global, parts: &[&[Token]]) -> Result<Option<Names>, AllocError>
    ensures { IfOk result (λ names. names ≡ plain.all_read plain.name_of
        (map (λ x. x.now) parts.now)) }
{
    let mut names = Names::new(alloc);
    for part in parts {
        let Some(name) = name_of(alloc, part)? else {
            return Ok(None);
        };
        names.push(name)?;
    }
    Ok(Some(names))
}

/// Whether the type is one of values: well formed, and without builders.
fn is_of_values(ty: &Ty) -> bool
    ensures { IsTrue result ↔ IsValueType ty.now }
{
    ty.is_well_formed() && ty.is_builder_free()
}

/// Whether the type is one of cells: a scalar, `vec[i8]` or `vec[u8]`.
fn is_cell(ty: &Ty) -> bool
    ensures { IsTrue result ↔ IsCell ty.now }
{
    match &ty.form {
        TyForm::Scalar(_) => true,
        TyForm::Vec(item) => match &item.form {
            TyForm::Scalar(Kind::I8 | Kind::U8) => true,
            _ => false,
        },
        _ => false,
    }
}

/// The type of values that the tokens spell within the limits.
pub(crate) fn read_value_type(alloc: Global, tokens: &[Token]) -> Result<Option<Ty>, AllocError>
    ensures { IfOk result (plain.TypeRead IsValueType tokens.now) }
{
    if has_too_many_tokens(tokens) {
        return Ok(None);
    }
    match read_ty(alloc, tokens)? {
        None => Ok(None),
        Some(ty) => {
            if is_of_values(&ty) {
                Ok(Some(ty))
            } else {
                Ok(None)
            }
        }
    }
}

/// The type of cells that the tokens spell.
pub(crate) fn read_cell_type(alloc: Global, tokens: &[Token]) -> Result<Option<Ty>, AllocError>
    ensures { IfOk result (plain.TypeRead IsCell tokens.now) }
{
    if has_too_many_tokens(tokens) {
        return Ok(None);
    }
    match read_ty(alloc, tokens)? {
        None => Ok(None),
        Some(ty) => { if is_cell(&ty) { Ok(Some(ty)) } else { Ok(None) } }
    }
}
