//! Lists of numbers of kind i8 as strings.

ghost use Rattle.std.specs.Prelude.{◌≡◌, ◌<◌, ℕ, List, pos, map, length, IfOk, IfSome, IfNone};
ghost use Rattle.std.specs.Option.{option_map};
ghost use Rattle.weld_data.specs.Wrapped.{wrapped};
ghost use Rattle.weld_data.specs.declared.kind.Kind.TheVariants as kinds;
ghost use Rattle.weld_values.specs.Tokens as tokens;
ghost use Rattle.weld_values.specs.Tokens.{item_at};
ghost use Rattle.weld_values.specs.Grammar.{AtItems};
ghost use Rattle.weld_values.specs.Judging.{AreItems, IsUnread};

use crate::tokens::{NEAR, after_byte};
use std::alloc::{AllocError, Global};
use weld_data::{I8s, Kind, wrap};

/// The value of a hexadecimal digit of either case.
fn hex_digit(byte: u8) -> Option<u8>
    ensures { result ≡ tokens.hex_digit byte }
{
    match byte {
        b'0'..=b'9' => Some(byte - b'0'),
        b'a'..=b'f' => Some(byte - b'a' + 10),
        b'A'..=b'F' => Some(byte - b'A' + 10),
        _ => None,
    }
}

/// The byte that two hexadecimal digits write, and what follows them.
fn hex(text: &[u8]) -> Option<(u8, &[u8])>
    ensures { option_map (λ found. (found.0, found.1.now)) result ≡ tokens.hex_at text.now }
{
    match text {
        [high, low, rest @ ..] => match (hex_digit(*high), hex_digit(*low)) {
            (Some(high), Some(low)) => Some((high * 16 + low, rest)),
            _ => None,
        },
        _ => None,
    }
}

/// The byte that an escape writes, after its backslash, and what follows it.
fn escape(text: &[u8]) -> Option<(u8, &[u8])>
    ensures { option_map (λ found. (found.0, found.1.now)) result ≡ tokens.escape_at text.now }
{
    match text {
        [b'"', rest @ ..] => Some((b'"', rest)),
        [b'\\', rest @ ..] => Some((b'\\', rest)),
        [b'n', rest @ ..] => Some((b'\n', rest)),
        [b't', rest @ ..] => Some((b'\t', rest)),
        [b'x', rest @ ..] => hex(rest),
        _ => None,
    }
}

/// The byte that a string's item writes, and what follows it.
#[tactic(auto, unfolding(crate::specs::Tokens::item_at))]
fn item(text: &[u8]) -> Option<(u8, &[u8])>
    ensures { option_map (λ found. (found.0, found.1.now)) result ≡ item_at text.now }
{
    match text {
        [b'\\', rest @ ..] => escape(rest),
        [b'"', ..] => None,
        [byte @ b' '..=b'~', rest @ ..] => Some((*byte, rest)),
        _ => None,
    }
}

/// The number of kind i8 that equals the byte modulo 256.
fn signed(byte: u8) -> i8
    ensures { result ≡ wrapped kinds.I8 (pos byte) }
{
    wrap(Kind::I8, i128::from(byte)) as i8
}

/// How many items a string has where it is short and has no escapes: so many bytes stand before its quote.
fn count_items(text: &[u8]) -> usize {
    let near = &text[..text.len().min(NEAR)];
    for at in 0..near.len() {
        if near[at] == b'"' || near[at] == b'\\' {
            return at;
        }
    }
    near.len()
}

/// The items of a string up to the quote that ends it, as numbers of kind i8, and what follows it.
pub(crate) fn read_items<'a>(
    alloc: Global,
    text: &'a [u8],
) -> Result<Option<(I8s, &'a [u8])>, AllocError>
    ensures found { IfOk result (λ found. IfSome found (λ f. AreItems text.now f.0 f.1.now)) }
    ensures none { IfOk result (λ found. IfNone found (IsUnread AtItems text.now)) }
{
    let mut items = I8s::with_capacity(alloc, count_items(text))?;
    let mut rest = text;
    'items: loop {
        if let Some(end) = after_byte(rest, b'"') {
            return Ok(Some((items, end)));
        }
        let Some((byte, after)) = item(rest) else {
            return Ok(None);
        };
        items.push(alloc, signed(byte))?;
        rest = after;
    }
}
