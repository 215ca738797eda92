//! Pieces of lists of scalars or of structs, read side by side into the places of one list.

ghost use Rattle.std.specs.Prelude.{◌<◌, map, IfOk, IfSome};
ghost use Rattle.weld_data.specs.View.{view_val};
ghost use Rattle.weld_values.specs.Judging.{IsPlain};
ghost use Rattle.weld_text_pieces.specs.Joined.{AreValues};

use crate::reading::counting::{count_lists, count_structs};
use crate::reading::cutting::{CutAt, cut_pieces};
use crate::reading::filling::{FillsPlaces, count_pieces, fill_pieces, total};
use std::alloc::{AllocError, Global};
use std::thread::Threads;
use weld_data::{Kind, Num, Val, Vals};
use weld_tree::{Ty, TyForm};
use weld_values::fill_shallow_piece;
use weld_values::laws::plain_values_join_at_commas;

/// Lists of scalars, or structs of such and of scalars, of this type.
#[derive(Drop)]
struct Nested<'a> {
    alloc: Global,
    ty: &'a Ty,
}

impl<'a> FillsPlaces<Val> for Nested<'a> {
    ghost form = { λ n. n.ty.now };

    ghost value = { view_val };

    fn count(&self, text: &[u8]) -> usize {
        let ty = self.ty;
        match &ty.form {
            TyForm::Vec(_) => count_lists(text),
            _ => count_structs(text),
        }
    }

    fn fill(&self, text: &[u8], places: &mut [Val]) -> bool {
        fill_shallow_piece(self.ty, self.alloc, text, places)
    }
}

/// So many places for values.
fn blank(alloc: Global, count: usize) -> Result<Vec<Val>, AllocError> {
    let mut places = Vec::new(alloc);
    places.resize_with(count, || -> Val { Val::Num(Num::of_bool(false)) })?;
    Ok(places)
}

/// Behind which byte a text of values of the type may be cut: a list of them has no such comma in a value, unless a string has.
fn cut_of(ty: &Ty) -> CutAt {
    match &ty.form {
        TyForm::Vec(_) => CutAt::Bracket,
        _ => CutAt::Brace,
    }
}

/// The lists of scalars, or the structs of such and of scalars, that the text is, with a comma between each two; none where it is
/// anything else, a piece doesn't end where a value does, or memory is wanting for a value. So many pieces of it are read side by
/// side, each into its places of the one list.
pub(crate) fn read_nested(
    rt: &(impl Threads + Sync),
    alloc: Global,
    text: &[u8],
    ty: &Ty,
    workers: u32,
) -> Result<Option<Vals>, AllocError>
    requires some_worker { 0 < workers }
    requires plain { IsPlain ty.now }
    ensures { IfOk result (λ found. IfSome found (λ items. AreValues ty.now text.now items)) }
{
    plain_values_join_at_commas();
    let pieces = cut_pieces(alloc, text, text.len() / workers as usize, cut_of(ty))?;
    let fills = Nested { alloc, ty };
    let counts = count_pieces::<Val, Nested>(rt, alloc, &fills, pieces.as_slice())?;
    let mut places = blank(alloc, total(counts.as_slice()))?;
    if fill_pieces(
        rt,
        &fills,
        pieces.as_slice(),
        counts.as_slice(),
        places.as_mut_slice(),
    ) {
        Ok(Some(Vals::from_vec(places)))
    } else {
        Ok(None)
    }
}
