//! Lists of scalars, read straight into the array of their kind.

ghost use Rattle.std.specs.Prelude.{◌≡◌, map, IfOk, IfSome, IfNone};
ghost use Rattle.weld_values.specs.Grammar.{scalar_at, Found};
ghost use Rattle.weld_values.specs.Judging.{AreListed, AreUnlisted, AreRead, AreUnread};

use crate::cell::{Cell, append_cell};
use crate::flaw::Flaw;
use crate::tokens::{NEAR, byte_at};
use std::alloc::{AllocError, Global};
use weld_data::Items;

/// How many scalars stand before the closing bracket where that is near, and else at least.
fn count_cells(text: &[u8]) -> usize {
    let mut count: usize = 1;
    for byte in &text[..text.len().min(NEAR)] {
        if *byte == b']' {
            break;
        }
        count = count.wrapping_add(usize::from(*byte == b','));
    }
    count
}

/// One scalar or more with commas between them, the closing bracket, and what follows it.
fn read_some<T: Cell>(
    alloc: Global,
    text: &[u8],
) -> Result<Option<(Items<T>, Flaw, &[u8])>, AllocError>
    ensures found { IfOk result (λ found. IfSome found (λ f. AreListed (Found (scalar_at T.kind))
        text.now f.1 (map T.value f.0) f.2.now)) }
    ensures none { IfOk result (λ found. IfNone found (AreUnlisted (Found (scalar_at T.kind))
        text.now)) }
{
    let mut items = Items::from_vec(Vec::with_capacity(alloc, count_cells(text))?);
    let mut flaw = Flaw::Fine;
    let mut rest = text;
    loop {
        let Some((here, after)) = append_cell(&mut items, rest)? else {
            return Ok(None);
        };
        flaw = flaw.and(here);
        let Some(more) = byte_at(after, b',') else {
            let Some(end) = byte_at(after, b']') else {
                return Ok(None);
            };
            return Ok(Some((items, flaw, end)));
        };
        rest = more;
    }
}

/// What stands after an opening bracket: scalars with commas between them or none, the closing bracket, and what follows it.
pub(crate) fn read_cells<T: Cell>(
    alloc: Global,
    text: &[u8],
) -> Result<Option<(Items<T>, Flaw, &[u8])>, AllocError>
    ensures found { IfOk result (λ found. IfSome found (λ f. AreRead (Found (scalar_at T.kind))
        text.now f.1 (map T.value f.0) f.2.now)) }
    ensures none { IfOk result (λ found. IfNone found (AreUnread (Found (scalar_at T.kind))
        text.now)) }
{
    if let Some(rest) = byte_at(text, b']') {
        return Ok(Some((Items::new(alloc), Flaw::Fine, rest)));
    }
    read_some(alloc, text)
}
