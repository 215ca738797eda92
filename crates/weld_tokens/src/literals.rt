ghost use Rattle.std.specs.Prelude.{◌≡◌, ◌≤◌, ◌<◌, ◌^◌, neg_ℤ, pos, IfSome, IfNone, IfOk, true, false};
ghost use Rattle.weld_tokens.specs.Literals as literals;
ghost use Rattle.weld_tokens.specs.Literals.{number_value};
ghost use Rattle.weld_tokens.specs.Words.{class_of};

use crate::bytes::is_digit;
use crate::scan::Part;
use std::alloc::{AllocError, Global};
use weld_data::Text;
use weld_grammar::terminals::Class;

/// The number that the digits at the front of the bytes write. None where it is greater than `most`.
fn number_up_to(bytes: &[u8], most: u64) -> Option<u64>
    requires { most ≤ 2 ^ 63 }
    ensures value { IfSome result (λ value. value ≡ number_value bytes.now) }
    ensures within { IfSome result (λ value. value ≤ most) }
    ensures none { IfNone result (most < number_value bytes.now) }
{
    let mut value = 0u64;
    for byte in bytes {
        if !is_digit(*byte) {
            return Some(value);
        }
        if value > most / 10 {
            return None;
        }
        let next = value * 10 + u64::from(*byte - b'0');
        if next > most {
            return None;
        }
        value = next;
    }
    Some(value)
}

/// The greatest number that a literal of this class may write.
fn greatest_literal(negative: bool, class: Class) -> u64
    ensures value { result ≡ literals.greatest_literal negative class }
    ensures within { result ≤ 2 ^ 63 }
{
    match class {
        Class::Long => {
            if negative {
                9_223_372_036_854_775_808
            } else {
                9_223_372_036_854_775_807
            }
        }
        _ => {
            if negative {
                2_147_483_648
            } else {
                2_147_483_647
            }
        }
    }
}

/// A number of at most 2 to the 63 with a minus before it.
fn negated(value: u64) -> i64
    requires { value ≤ 9223372036854775808 }
    ensures { result ≡ neg_ℤ (pos value) }
{
    if value > i64::MAX as u64 {
        i64::MIN
    } else {
        -(value as i64)
    }
}

/// The value of a number literal, where it is in the range of its kind: i64 for a token with `L`, i32 for one without.
/// `negative` says that the `-` of a negative literal stands before it: then it is negative, and may be greater by one.
/// None where it is out of its range, which X3 refuses.
pub fn literal_of(word: &[u8], class: Class, negative: bool) -> Option<i64>
    ensures some { IfSome result (λ value. value ≡ literals.literal_value negative word.now) }
    ensures in_range { IfSome result (λ _. literals.is_in_range negative class word.now ≡ true) }
    ensures none { IfNone result (literals.is_in_range negative class word.now ≡ false) }
{
    match number_up_to(word, greatest_literal(negative, class)) {
        Some(value) => {
            if negative {
                Some(negated(value))
            } else {
                Some(value as i64)
            }
        }
        None => None,
    }
}

/// The value of a hexadecimal digit, of either case; 0 for another byte.
fn hex_value(byte: u8) -> u8
    ensures value { result ≡ literals.hex_value byte }
    ensures small { result ≤ 15 }
{
    match byte {
        b'0'..=b'9' => byte - b'0',
        b'A'..=b'F' => byte - 55,
        b'a'..=b'f' => byte - 87,
        _ => 0,
    }
}

/// The byte that two hexadecimal digits stand for.
fn byte_of(high: u8, low: u8) -> u8
    ensures { result ≡ literals.byte_of high low }
{
    hex_value(high) * 16 + hex_value(low)
}

/// The byte that a byte behind `\` stands for.
fn escaped(byte: u8) -> u8
    ensures { result ≡ literals.escaped byte }
{
    match byte {
        b'n' => b'\n',
        b't' => b'\t',
        _ => byte,
    }
}

/// The bytes that the items of a string stand for, up to the `"` that ends it.
fn items_value(alloc: Global, items: &[u8]) -> Result<Text, AllocError>
    ensures { IfOk result (λ chars. chars ≡ literals.items_value items.now) }
{
    let mut chars = Text::new(alloc);
    let mut part = Part::Item;
    let mut high = 0u8;
    for byte in items {
        match part {
            Part::Item => {
                if *byte == b'"' {
                    return Ok(chars);
                }
                if *byte == b'\\' {
                    part = Part::Escape;
                } else {
                    chars.push(*byte)?;
                }
            }
            Part::Escape => {
                if *byte == b'x' {
                    part = Part::Hex;
                } else {
                    chars.push(escaped(*byte))?;
                    part = Part::Item;
                }
            }
            Part::Hex => {
                high = *byte;
                part = Part::LastHex;
            }
            Part::LastHex => {
                chars.push(byte_of(high, *byte))?;
                part = Part::Item;
            }
        }
    }
    Ok(chars)
}

/// The bytes that a string's token stands for. It fails for want of memory alone.
pub fn chars_of(alloc: Global, word: &[u8]) -> Result<Text, AllocError>
    ensures { IfOk result (λ chars. chars ≡ literals.string_value word.now) }
{
    match word.split_first() {
        Some((_, items)) => items_value(alloc, items),
        None => Ok(Text::new(alloc)),
    }
}

/// The number of a field, whose token this is: `$` and one to nine digits.
pub fn field_of(word: &[u8]) -> u32
    requires { class_of word.now ≡ Some Class.Field }
    ensures { result ≡ literals.field_value word.now }
{
    match word.split_first() {
        Some((_, digits)) => match number_up_to(digits, 999_999_999) {
            Some(value) => value as u32,
            None => unreachable!(),
        },
        None => unreachable!(),
    }
}
