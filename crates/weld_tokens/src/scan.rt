ghost use Rattle.std.specs.Prelude.{◌≡◌, ◌≤◌, length, IfSome};
ghost use Rattle.weld_tokens.specs.Bytes as bytes;
ghost use Rattle.weld_tokens.specs.Scanning as scanning;
ghost use Rattle.weld_tokens.specs.Tokens.{gap_len};
ghost use Rattle.weld_tokens.specs.Words as words;

use crate::bytes::{is_blank, is_digit, is_escape, is_hex, is_plain, is_word_byte};
use weld_grammar::terminals::{Class, Symbol};

/// What is awaited within a string: an item or the end, or what stands behind `\`, `\x` or `\xH`.
#[derive(Clone, Copy, Debug, PartialEq, Eq)]
pub enum Part {
    Item,
    Escape,
    Hex,
    LastHex,
}

/// How many bytes of blanks and comments stand at the front of the text.
pub(crate) fn gap_len(text: &[u8]) -> usize
    ensures within { result ≤ length text.now }
    ensures value { result ≡ gap_len text.now }
{
    let mut in_comment = false;
    for (i, byte) in text.iter().enumerate() {
        if in_comment {
            in_comment = *byte != b'\n';
        } else if *byte == b'#' {
            in_comment = true;
        } else if !is_blank(*byte) {
            return i;
        }
    }
    text.len()
}

/// How many letters and digits stand at the front of the text.
pub(crate) fn word_len(text: &[u8]) -> usize
    ensures within { result ≤ length text.now }
    ensures value { result ≡ scanning.run_len bytes.is_word_byte text.now }
{
    for (i, byte) in text.iter().enumerate() {
        if !is_word_byte(*byte) {
            return i;
        }
    }
    text.len()
}

/// How many digits stand at the front of the text.
pub(crate) fn digits_len(text: &[u8]) -> usize
    ensures within { result ≤ length text.now }
    ensures value { result ≡ scanning.run_len bytes.is_digit text.now }
{
    for (i, byte) in text.iter().enumerate() {
        if !is_digit(*byte) {
            return i;
        }
    }
    text.len()
}

/// How many bytes of a number stand behind its first digit, and the number's class.
pub(crate) fn number_end(text: &[u8]) -> (usize, Class)
    ensures within { result.0 ≤ length text.now }
    ensures value { result ≡ scanning.number_end text.now }
{
    for (i, byte) in text.iter().enumerate() {
        if *byte == b'L' {
            return (i + 1, Class::Long);
        }
        if !is_digit(*byte) {
            return (i, Class::Int);
        }
    }
    (text.len(), Class::Int)
}

/// What a string awaits behind a byte, other than the `"` that ends it. None where the byte may not stand there.
fn next_part(part: Part, byte: u8) -> Option<Part>
    ensures { result ≡ scanning.next_part part byte }
{
    match part {
        Part::Item => {
            if byte == b'\\' {
                Some(Part::Escape)
            } else if is_plain(byte) {
                Some(Part::Item)
            } else {
                None
            }
        }
        Part::Escape => {
            if byte == b'x' {
                Some(Part::Hex)
            } else if is_escape(byte) {
                Some(Part::Item)
            } else {
                None
            }
        }
        Part::Hex => {
            if is_hex(byte) {
                Some(Part::LastHex)
            } else {
                None
            }
        }
        Part::LastHex => { if is_hex(byte) { Some(Part::Item) } else { None } }
    }
}

/// Whether an item or the end is awaited.
fn is_item(part: Part) -> bool
    ensures { result ≡ scanning.is_item part }
{
    match part {
        Part::Item => true,
        Part::Escape => false,
        Part::Hex => false,
        Part::LastHex => false,
    }
}

/// How many bytes there are up to the `"` that ends the string which has begun. None where it doesn't end.
pub(crate) fn string_len(text: &[u8]) -> Option<usize>
    ensures within { IfSome result (λ count. count ≤ length text.now) }
    ensures value { result ≡ scanning.end_in Part.Item text.now }
{
    let mut part = Part::Item;
    for (i, byte) in text.iter().enumerate() {
        if is_item(part) && *byte == b'"' {
            return Some(i + 1);
        }
        match next_part(part, *byte) {
            Some(next) => part = next,
            None => return None,
        }
    }
    None
}

/// The symbol of one byte.
pub(crate) fn single(byte: u8) -> Option<Symbol>
    ensures { result ≡ words.single byte }
{
    match byte {
        b'(' => Some(Symbol::LeftParen),
        b')' => Some(Symbol::RightParen),
        b'[' => Some(Symbol::LeftBracket),
        b']' => Some(Symbol::RightBracket),
        b'{' => Some(Symbol::LeftBrace),
        b'}' => Some(Symbol::RightBrace),
        b',' => Some(Symbol::Comma),
        b';' => Some(Symbol::Semicolon),
        b':' => Some(Symbol::Colon),
        b'.' => Some(Symbol::Dot),
        b'|' => Some(Symbol::Bar),
        b'!' => Some(Symbol::Bang),
        b'=' => Some(Symbol::Equals),
        b'<' => Some(Symbol::Less),
        b'>' => Some(Symbol::Greater),
        b'+' => Some(Symbol::Plus),
        b'-' => Some(Symbol::Minus),
        b'*' => Some(Symbol::Star),
        b'/' => Some(Symbol::Slash),
        b'%' => Some(Symbol::Percent),
        _ => None,
    }
}

/// The symbol of two bytes.
pub(crate) fn double(byte: u8, next: u8) -> Option<Symbol>
    ensures { result ≡ words.double byte next }
{
    match (byte, next) {
        (b'|', b'|') => Some(Symbol::BarBar),
        (b'&', b'&') => Some(Symbol::AndAnd),
        (b'=', b'=') => Some(Symbol::EqualsEquals),
        (b'!', b'=') => Some(Symbol::BangEquals),
        (b'<', b'=') => Some(Symbol::LessEquals),
        (b'>', b'=') => Some(Symbol::GreaterEquals),
        _ => None,
    }
}
