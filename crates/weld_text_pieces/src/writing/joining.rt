//! Pieces written side by side, and joined in their order.

ghost use Rattle.std.specs.Prelude.{◌≡◌, ◌++◌, ◌<◌, length, map, flat_map, IfOk, OnOk};
ghost use Rattle.weld_write_value.specs.Showing.{led, shown_list, shown_scalar};

use crate::writing::cell::Cell;
use crate::writing::piece::{append_first, append_piece, write_piece};
use rayon::prelude::*;
use std::alloc::{AllocError, Global};
use std::thread::Threads;
use weld_data::Text;

/// The texts of the pieces, in order, the pieces shared among the processors. Each piece but the last has so many scalars.
fn write_pieces<T: Cell + Sync>(
    rt: &(impl Threads + Sync),
    alloc: Global,
    items: &[T],
    size: usize,
) -> Result<Vec<Text>, AllocError>
    requires { 0 < size }
    ensures { IfOk result (λ texts. flat_map (λ text. text) texts.items
        ≡ led 44 shown_scalar (map T.value items.now)) }
{
    let texts: Result<Vec<Text>, AllocError> = items
        .par_chunks(size)
        .with_min_len(1)
        .map(
            |piece: &[T]| -> Result<Text, AllocError>
                ensures { IfOk result (λ text. text ≡ led 44 shown_scalar (map T.value piece.now)) }
            { write_piece::<T>(alloc, piece) },
        )
        .collect(rt, alloc)?;
    texts
}

/// Appends the texts one after another; each is let go as soon as it is appended.
fn append_texts(texts: Vec<Text>, out: &mut Text) -> Result<(), AllocError>
    ensures { OnOk result (out.new ≡ out.old ++ flat_map (λ text. text) texts.items) }
{
    'texts: for text in texts {
        out.push_all(text.as_slice())?;
    }
    Ok(())
}

/// Appends the scalars, with a comma before each. So many pieces of them are written side by side.
fn append_all<T: Cell + Sync>(
    rt: &(impl Threads + Sync),
    alloc: Global,
    items: &[T],
    workers: u32,
    out: &mut Text,
) -> Result<(), AllocError>
    requires { 0 < workers }
    ensures { OnOk result (out.new ≡ out.old ++ led 44 shown_scalar (map T.value items.now)) }
{
    if workers == 1 {
        return append_piece(items, out);
    }
    let size = (items.len() / workers as usize).max(1);
    let texts = write_pieces(rt, alloc, items, size)?;
    append_texts(texts, out)
}

/// Appends scalars in brackets, with a comma between each two.
pub(crate) fn append_list<T: Cell + Sync>(
    rt: &(impl Threads + Sync),
    alloc: Global,
    items: &[T],
    workers: u32,
    out: &mut Text,
) -> Result<(), AllocError>
    requires some_worker { 0 < workers }
    requires some_item { 0 < length items.now }
    ensures { OnOk result (out.new ≡ out.old ++ shown_list shown_scalar (map T.value items.now)) }
{
    append_first(items[0], out)?;
    append_all(rt, alloc, &items[1..], workers, out)?;
    out.push(b']')
}
