//! Lists of scalars, of lists of them or of structs of these, in pieces that are cut at commas.

ghost use Rattle.std.specs.Prelude.{◌≡◌, ◌<◌, ◌+◌, ◌++◌, ◌∷◌, [], List, ℕ, true, map, length, take, IfOk, IfSome, All};
ghost use Rattle.std.specs.List.{list_all};
ghost use Rattle.weld_tree.specs.TypeTree.{scalar, pack};
ghost use Rattle.weld_tree.specs.HasValue.{HasValue};
ghost use Rattle.weld_values.specs.Tokens as tokens;
ghost use Rattle.weld_values.specs.Grammar.{scalar_at, At, Found};
ghost use Rattle.weld_values.specs.Places.{IsPlaced};
ghost use Rattle.weld_values.specs.Pieces.{Separated, InBrackets, is_scalar, is_row};
ghost use Rattle.weld_values.specs.declared.flaw.Flaw.TheVariants as flaws;
ghost use Rattle.weld_values.specs.Judging.{IsPlain, ArePlain, IsReadable, IsReadInto};
ghost use Rattle.weld_data.specs.View.{view_val};

use crate::cell::Cell;
use crate::flaw::Flaw;
use crate::read::read_at;
use crate::tokens::{after_blanks, byte_at, is_blank};
use std::alloc::Global;
use weld_data::Val;
use weld_tree::{Ty, TyForm, Tys};

/// Puts the scalar at the front of the text in this place, and answers what follows it; none where no scalar stands there, it
/// is out of range, or there is no such place.
#[inline(always)]
fn put_cell<'a, T: Cell>(places: &mut [T], place: usize, text: &'a [u8]) -> Option<&'a [u8]>
    ensures length { length places.new ≡ length places.old }
    ensures within { IfSome result (λ rest. place < length places.old) }
    ensures found { IfSome result (λ rest. IsReadInto (Found (scalar_at T.kind)) text.now flaws.Fine
        (map T.value (take place places.old)) (map T.value (take (place + 1) places.new))
        rest.now) }
    ensures less { IfSome result (λ rest. length rest.now < length text.now) }
{
    match T::read(text) {
        Some((value, Flaw::Fine, rest)) if place < places.len() => {
            places[place] = value;
            Some(rest)
        }
        _ => None,
    }
}

/// Fills the places with the scalars of one kind that the text is, with a comma between each two; tells whether it is just so
/// many and nothing else, and all are in range.
pub fn fill_piece<T: Cell>(text: &[u8], places: &mut [T]) -> bool
    ensures separated { result ≡ true → Separated (Found (scalar_at T.kind))
        (map T.value places.new) text.now }
    ensures typed { result ≡ true → All (HasValue (scalar T.kind)) (map T.value places.new) }
{
    let mut rest = text;
    let mut place = 0;
    'scalars: loop {
        let Some(after) = put_cell(places, place, rest) else {
            return false;
        };
        place += 1;
        let Some(more) = byte_at(after, b',') else {
            return place == places.len() && after_blanks(after).is_empty();
        };
        rest = more;
    }
}

/// Whether the type is a scalar's.
fn is_scalar(ty: &Ty) -> bool
    ensures { result ≡ is_scalar ty.now }
{
    match &ty.form {
        TyForm::Scalar(_) => true,
        TyForm::Vec(_) | TyForm::Struct(_) | TyForm::Dict(_, _) | TyForm::Build(_) => false,
    }
}

/// Whether the type is a scalar's or that of a list of scalars.
fn is_row(ty: &Ty) -> bool
    ensures { result ≡ is_row ty.now }
{
    match &ty.form {
        TyForm::Scalar(_) => true,
        TyForm::Vec(item) => is_scalar(item),
        TyForm::Struct(_) | TyForm::Dict(_, _) | TyForm::Build(_) => false,
    }
}

/// Whether all types are such.
fn are_rows(types: &[Ty]) -> bool
    ensures { result ≡ list_all is_row types.now }
{
    types.iter().all(|ty| is_row(ty))
}

/// Whether all fields are of such types.
fn has_rows(fields: &Tys) -> bool
    ensures { result ≡ true → ArePlain (pack fields.now) }
{
    are_rows(fields.as_slice())
}

/// Whether the type is that of a list of scalars, or of a struct of scalars and such lists, as which `fill_shallow_piece`
/// reads.
pub fn is_shallow(ty: &Ty) -> bool
    ensures { result ≡ true → IsPlain ty.now }
{
    match &ty.form {
        TyForm::Vec(item) => is_scalar(item),
        TyForm::Struct(fields) => has_rows(fields),
        TyForm::Scalar(_) | TyForm::Dict(_, _) | TyForm::Build(_) => false,
    }
}

/// Puts the value of the type at the front of the text in this place, and answers what follows it; none where no such value
/// stands there, one of its numbers is out of range, memory is wanting, or there is no such place.
fn put_value<'a>(
    ty: &Ty,
    alloc: Global,
    places: &mut [Val],
    place: usize,
    text: &'a [u8],
) -> Option<&'a [u8]>
    requires { IsReadable ty.now }
    ensures length { length places.new ≡ length places.old }
    ensures within { IfSome result (λ rest. place < length places.old) }
    ensures found { IfSome result (λ rest. IsPlaced (At ty.now) view_val text.now place places.old
        places.new rest.now) }
{
    match read_at(ty, alloc, text) {
        Ok(Some((value, Flaw::Fine, rest))) if place < places.len() => {
            places[place] = value;
            Some(rest)
        }
        _ => None,
    }
}

/// The same as `fill_piece` with values of a type without dictionaries and builders; it is also `false` where memory is wanting.
fn fill_plain_piece(ty: &Ty, alloc: Global, text: &[u8], places: &mut [Val]) -> bool
    requires { IsPlain ty.now }
    ensures separated { result ≡ true → Separated (At ty.now) (map view_val places.new) text.now }
    ensures typed { result ≡ true → All (HasValue ty.now) (map view_val places.new) }
{
    let mut rest = text;
    let mut place = 0;
    'values: loop {
        let Some(after) = put_value(ty, alloc, places, place, rest) else {
            return false;
        };
        place += 1;
        let Some(more) = byte_at(after, b',') else {
            return place == places.len() && after_blanks(after).is_empty();
        };
        rest = more;
    }
}

/// Fills the places with the values of the type that the text is, with a comma between each two; tells whether the type
/// `is_shallow`, the values are just so many, the text is nothing else, and all numbers are in range. It is also `false` where
/// memory is wanting.
pub fn fill_shallow_piece(ty: &Ty, alloc: Global, text: &[u8], places: &mut [Val]) -> bool
    ensures separated { result ≡ true → Separated (At ty.now) (map view_val places.new) text.now }
    ensures typed { result ≡ true → All (HasValue ty.now) (map view_val places.new) }
{
    is_shallow(ty) && fill_plain_piece(ty, alloc, text, places)
}

/// What stands before the last bracket, if blanks alone stand after it.
fn before_bracket(text: &[u8]) -> Option<&[u8]>
    ensures { IfSome result (λ body. (back : List ℕ) × (text.now ≡ body.now ++ 93 ∷ back)
        × (tokens.after_blanks back ≡ [])) }
{
    let mut rest = text;
    while let Some((last, front)) = rest.split_last() {
        if *last == b']' {
            return Some(front);
        }
        if !is_blank(*last) {
            return None;
        }
        rest = front;
    }
    None
}

/// What stands between the bracket that begins the text and the one that ends it, if these do and more than blanks stands
/// there.
pub fn inside_brackets(text: &[u8]) -> Option<&[u8]>
    ensures { IfSome result (λ body. InBrackets text.now body.now) }
{
    let Some(inner) = byte_at(text, b'[') else {
        return None;
    };
    match byte_at(inner, b']') {
        Some(_) => None,
        None => before_bracket(inner),
    }
}
