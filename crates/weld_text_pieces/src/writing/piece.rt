//! The text of a piece of a list.

ghost use Rattle.std.specs.Prelude.{◌≡◌, ◌≤◌, ◌*◌, ◌++◌, ◌∷◌, length, drop, map, IfOk, OnOk};
ghost use Rattle.weld_write_value.specs.Showing.{led, shown_scalar};

use crate::writing::cell::{Cell, LONGEST};
use std::alloc::{AllocError, Global};
use weld_data::Text;

/// So many scalars are written at once, from the last to the first.
const BLOCK: usize = 128;

/// Writes the scalars, with a comma before each, so that they end where the bytes do; answers where they begin.
fn write_block<T: Cell>(items: &[T], bytes: &mut [u8]) -> usize
    requires { 21 * length items.now ≤ length bytes.old }
    ensures within { result ≤ length bytes.new }
    ensures written { drop result bytes.new ≡ led 44 shown_scalar (map T.value items.now) }
{
    let mut at = bytes.len();
    let mut left = items.len();
    'cells: while left > 0 {
        left -= 1;
        at = items[left].write_before(bytes, at);
    }
    at
}

/// Appends the scalars, with a comma before each.
pub(crate) fn append_piece<T: Cell>(items: &[T], out: &mut Text) -> Result<(), AllocError>
    ensures { OnOk result (out.new ≡ out.old ++ led 44 shown_scalar (map T.value items.now)) }
{
    let mut bytes = [0; LONGEST * BLOCK];
    let mut rest = items;
    'blocks: while !rest.is_empty() {
        let (block, more) = rest.split_at(rest.len().min(BLOCK));
        let at = write_block(block, &mut bytes);
        out.push_all(&bytes[at..])?;
        rest = more;
    }
    Ok(())
}

/// The text of the scalars, with a comma before each.
pub(crate) fn write_piece<T: Cell>(alloc: Global, items: &[T]) -> Result<Text, AllocError>
    ensures { IfOk result (λ text. text ≡ led 44 shown_scalar (map T.value items.now)) }
{
    let mut text = Text::new(alloc);
    append_piece(items, &mut text)?;
    Ok(text)
}

/// Appends an opening bracket and the scalar.
pub(crate) fn append_first<T: Cell>(item: T, out: &mut Text) -> Result<(), AllocError>
    ensures { OnOk result (out.new ≡ out.old ++ 91 ∷ shown_scalar (T.value item)) }
{
    let mut bytes = [0; LONGEST];
    let at = item.write_before(&mut bytes, LONGEST);
    bytes[at] = b'[';
    out.push_all(&bytes[at..])
}
