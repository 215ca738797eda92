//! Runs of digits, read as numbers.

ghost use Rattle.std.specs.Prelude.{◌≡◌, ◌^◌, ◌≤◌, ◌+◌, ◌<◌, ◌*◌, ◌∷◌, [], List, ℕ, not, map, length, take};
ghost use Rattle.weld_values.specs.Tokens.{is_digit, value_after, digit_run, after_digits};
ghost use Rattle.weld_values.specs.Judging.{IsCapped};
ghost use Rattle.weld_values.specs.Eights.{word_of, padded, AreSmall};
ghost use Rattle.std.specs.Simd.Lanes.{mask_l};

use std::simd::prelude::*;

/// Whether the byte is a decimal digit.
#[inline(always)]
fn is_digit(byte: u8) -> bool
    ensures { result ≡ is_digit byte }
{
    b'0' <= byte && byte <= b'9'
}

/// The number that a digit more writes. In place of one that is greater than any of 64 bits it may be another such one.
fn appended(value: u128, digit: u8) -> u128
    requires { digit ≤ 9 }
    ensures exact { value ≤ 18446744073709551615 → result ≡ value * 10 + digit }
    ensures great { 18446744073709551615 < value → 2 ^ 64 ≤ result }
    ensures small { value < 2 ^ 68 → result < 2 ^ 68 }
{
    if value > u128::from(u64::MAX) {
        value
    } else {
        value * 10 + u128::from(digit)
    }
}

/// The number that the digits at the front of the text write after those of another number, and what follows them. In place
/// of one that is greater than any of 64 bits it may be another such one.
fn wide_digits(before: u128, text: &[u8]) -> (u128, &[u8])
    requires { before < 2 ^ 68 }
    ensures value { IsCapped result.0 (value_after before (digit_run text.now)) }
    ensures small { result.0 < 2 ^ 68 }
    ensures rest { result.1.now ≡ after_digits text.now }
{
    let mut value = before;
    let mut rest = text;
    while let Some((first, more)) = rest.split_first() {
        if !is_digit(*first) {
            return (value, rest);
        }
        value = appended(value, *first - b'0');
        rest = more;
    }
    (value, rest)
}

/// The same, in words of 64 bits as long as one digit more surely fits.
fn many_digits(before: u64, text: &[u8]) -> (u128, &[u8])
    ensures value { IsCapped result.0 (value_after before (digit_run text.now)) }
    ensures small { result.0 < 2 ^ 68 }
    ensures rest { result.1.now ≡ after_digits text.now }
{
    let mut value = before;
    let mut rest = text;
    while let Some((first, more)) = rest.split_first() {
        if !is_digit(*first) {
            break;
        }
        if value > u64::MAX / 10 - 1 {
            return wide_digits(u128::from(value), rest);
        }
        value = value * 10 + u64::from(*first - b'0');
        rest = more;
    }
    (u128::from(value), rest)
}

/// The digits of a word without their zeros, so that each byte is a digit's number.
const ZEROS: u64 = 0x3030_3030_3030_3030;

/// The powers of ten up to the eighth.
static POWERS: [u64; 9] = [
    1,
    10,
    100,
    1_000,
    10_000,
    100_000,
    1_000_000,
    10_000_000,
    100_000_000,
];

/// The bytes that are no digits, a bit for each, the first byte's the lowest.
#[inline(always)]
fn other_bytes(bytes: u8x8) -> u64
    ensures { result ≡ mask_l (map (λ byte. not (is_digit byte)) bytes) }
{
    (bytes - u8x8::splat(b'0'))
        .simd_ge(u8x8::splat(10))
        .to_bitmask()
}

/// How many of the first eight bytes of the text are digits before any other byte.
#[inline(always)]
fn count_digits(text: &[u8]) -> usize
    requires { 8 ≤ length text.now }
    ensures { result ≡ length (digit_run (take 8 text.now)) }
{
    let others = other_bytes(u8x8::from_slice(text));
    if others == 0 {
        8
    } else {
        others.trailing_zeros() as usize
    }
}

/// The first eight bytes of the text as a word, the first byte the lowest.
#[inline(always)]
fn first_word(text: &[u8]) -> u64
    requires { 8 ≤ length text.now }
    ensures { result ≡ word_of (take 8 text.now) }
{
    match text {
        [a, b, c, d, e, f, g, h, ..] => { u64::from_le_bytes([*a, *b, *c, *d, *e, *f, *g, *h]) }
        _ => unreachable!(),
    }
}

/// The digits of a word whose first bytes, so many, are digits: these numbers as the last bytes, and 0 before them.
#[inline(always)]
fn moved_digits(word: u64, count: usize) -> u64
    requires { count ≤ 8 }
    ensures { (bytes : List ℕ) → word ≡ word_of bytes → length (digit_run bytes) ≡ count
        → result ≡ word_of (padded bytes) }
{
    let half = 32 - 4 * count as u32;
    (word.wrapping_sub(ZEROS) << half) << half
}

/// The number that eight digits write, of which each is a byte of the word, the first the lowest.
#[inline(always)]
fn joined_digits(word: u64) -> u64
    ensures { (a b c d e f g h : ℕ) → AreSmall (a ∷ b ∷ c ∷ d ∷ e ∷ f ∷ g ∷ h ∷ [])
        → word ≡ word_of (a ∷ b ∷ c ∷ d ∷ e ∷ f ∷ g ∷ h ∷ [])
        → result ≡ a * 10000000 + b * 1000000 + c * 100000 + d * 10000 + e * 1000 + f * 100 + g * 10
        + h }
{
    let pairs = (word.wrapping_mul(10).wrapping_add(word >> 8)) & 0x00ff_00ff_00ff_00ff;
    let fours = (pairs.wrapping_mul(100).wrapping_add(pairs >> 16)) & 0x0000_ffff_0000_ffff;
    (fours.wrapping_mul(10_000).wrapping_add(fours >> 32)) & 0xffff_ffff
}

/// The number that the digits among the first eight bytes of the text write after those of another number, and how many they are.
#[inline(always)]
fn word_digits(before: u64, text: &[u8]) -> (u64, usize)
    requires long { 8 ≤ length text.now }
    requires small { before < 10 ^ 10 }
    ensures value { result.0 ≡ value_after before (digit_run (take 8 text.now)) }
    ensures count { result.1 ≡ length (digit_run (take 8 text.now)) }
    ensures small { result.0 < 10 ^ 8 * (before + 1) }
{
    let count = count_digits(text);
    let digits = moved_digits(first_word(text), count);
    (before * POWERS[count] + joined_digits(digits), count)
}

/// The same as `many_digits`, of which the first eight are taken at once.
fn sixteen_digits(before: u64, text: &[u8]) -> (u128, &[u8])
    requires { before < 10 ^ 10 }
    ensures value { IsCapped result.0 (value_after before (digit_run text.now)) }
    ensures small { result.0 < 2 ^ 68 }
    ensures rest { result.1.now ≡ after_digits text.now }
{
    if text.len() < 8 {
        return many_digits(before, text);
    }
    let (value, count) = word_digits(before, text);
    if count < 8 {
        (u128::from(value), &text[count..])
    } else {
        many_digits(value, &text[8..])
    }
}

/// The same, of which the first sixteen are taken in two words.
#[inline(always)]
fn eight_digits(before: u64, text: &[u8]) -> (u128, &[u8])
    requires { before < 10 ^ 2 }
    ensures value { IsCapped result.0 (value_after before (digit_run text.now)) }
    ensures small { result.0 < 2 ^ 68 }
    ensures rest { result.1.now ≡ after_digits text.now }
{
    if text.len() < 8 {
        return many_digits(before, text);
    }
    let (value, count) = word_digits(before, text);
    if count < 8 {
        (u128::from(value), &text[count..])
    } else {
        sixteen_digits(value, &text[8..])
    }
}

/// The same where one digit stands before.
#[inline(always)]
fn second_digit(before: u64, text: &[u8]) -> (u128, &[u8])
    requires { before < 10 }
    ensures value { IsCapped result.0 (value_after before (digit_run text.now)) }
    ensures small { result.0 < 2 ^ 68 }
    ensures rest { result.1.now ≡ after_digits text.now }
{
    match text {
        [first, rest @ ..] if is_digit(*first) => {
            eight_digits(before * 10 + u64::from(*first - b'0'), rest)
        }
        _ => (u128::from(before), text),
    }
}

/// The number that the digits at the front of the text write, 0 where there are none, and what follows them.
/// In place of one that is greater than any of 64 bits it may be another such one.
///
/// Two digits are taken one by one, and eight at once after them, since most numbers are short or long.
#[inline(always)]
pub(crate) fn leading_digits(text: &[u8]) -> (u128, &[u8])
    ensures value { IsCapped result.0 (value_after 0 (digit_run text.now)) }
    ensures small { result.0 < 2 ^ 68 }
    ensures rest { result.1.now ≡ after_digits text.now }
{
    match text {
        [first, rest @ ..] if is_digit(*first) => second_digit(u64::from(*first - b'0'), rest),
        _ => (0, text),
    }
}
