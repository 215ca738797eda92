//! The parts of a value's text that are no values themselves.

ghost use Rattle.std.specs.Prelude.{◌≡◌, ◌≤◌, ◌+◌, ◌<◌, ◌^◌, length, pos, neg_ℤ, ℤ, ℕ, Some, None, IfSome, IfNone};
ghost use Rattle.std.specs.Option.{option_copied, option_map};
ghost use Rattle.weld_values.specs.Tokens as tokens;
ghost use Rattle.weld_values.specs.Tokens.{is_blank, numeral_at, integer_at};
ghost use Rattle.weld_data.specs.Value.{number};
ghost use Rattle.weld_data.specs.Operation.{truth};
ghost use Rattle.weld_data.specs.declared.kind.Kind.TheVariants as kinds;
ghost use Rattle.weld_values.specs.Grammar.{truth_at};
ghost use Rattle.weld_values.specs.Judging.{IsCapped, IsClamped};

use crate::digits::leading_digits;

/// A list's end is looked for in so many bytes, so that the list takes just its memory where it is short. A long one grows.
pub(crate) const NEAR: usize = 4096;

/// Whether the byte is a space, a tab, a carriage return or a line feed.
#[inline(always)]
pub(crate) fn is_blank(byte: u8) -> bool
    ensures { result ≡ is_blank byte }
{
    byte == b' ' || byte == b'\t' || byte == b'\r' || byte == b'\n'
}

/// The text without the blanks at its front.
#[inline(always)]
pub(crate) fn after_blanks(text: &[u8]) -> &[u8]
    ensures value { result.now ≡ tokens.after_blanks text.now }
    ensures no_longer { length result.now ≤ length text.now }
{
    let mut rest = text;
    while let [first, more @ ..] = rest {
        if !is_blank(*first) {
            break;
        }
        rest = more;
    }
    rest
}

/// What follows this byte at the front of the text.
#[inline(always)]
pub(crate) fn after_byte(text: &[u8], byte: u8) -> Option<&[u8]>
    ensures value { option_copied result ≡ tokens.after_byte byte text.now }
    ensures less { IfSome result (λ rest. length rest.now < length text.now) }
{
    match text {
        [first, rest @ ..] if *first == byte => Some(rest),
        _ => None,
    }
}

/// What follows this byte, before which blanks may stand.
#[tactic(auto, unfolding(crate::specs::Tokens::byte_at))]
#[inline(always)]
pub(crate) fn byte_at(text: &[u8], byte: u8) -> Option<&[u8]>
    ensures value { option_copied result ≡ tokens.byte_at byte text.now }
    ensures less { IfSome result (λ rest. length rest.now < length text.now) }
{
    after_byte(after_blanks(text), byte)
}

/// The number that the digits at the front of the text write, and what follows them; none where no digit stands there.
#[inline(always)]
fn numeral(text: &[u8]) -> Option<(u128, &[u8])>
    ensures found { IfSome result (λ found. (n : ℕ) × (numeral_at text.now ≡ Some (n, found.1.now))
        × IsCapped found.0 n) }
    ensures small { IfSome result (λ found. found.0 < 2 ^ 68) }
    ensures none { IfNone result (numeral_at text.now ≡ None) }
    ensures less { IfSome result (λ found. length found.1.now < length text.now) }
{
    let (value, rest) = leading_digits(text);
    if rest.len() == text.len() {
        return None;
    }
    Some((value, rest))
}

/// The same with a minus before the digits.
#[tactic(auto, using(crate::proofs::Integers::clamped_negative))]
#[inline(always)]
fn negative(digits: &[u8]) -> Option<(i128, &[u8])>
    ensures found { IfSome result (λ found. (n : ℕ) × (numeral_at digits.now
        ≡ Some (n, found.1.now)) × IsClamped found.0 (neg_ℤ (pos n))) }
    ensures none { IfNone result (numeral_at digits.now ≡ None) }
    ensures less { IfSome result (λ found. length found.1.now < length digits.now) }
{
    match numeral(digits) {
        Some((value, rest)) => Some((negated(value), rest)),
        None => None,
    }
}

/// The same without a minus.
#[tactic(auto, using(crate::proofs::Integers::clamped_positive))]
#[inline(always)]
fn positive(digits: &[u8]) -> Option<(i128, &[u8])>
    ensures found { IfSome result (λ found. (n : ℕ) × (numeral_at digits.now
        ≡ Some (n, found.1.now)) × IsClamped found.0 (pos n)) }
    ensures none { IfNone result (numeral_at digits.now ≡ None) }
    ensures less { IfSome result (λ found. length found.1.now < length digits.now) }
{
    match numeral(digits) {
        Some((value, rest)) => Some((widened(value), rest)),
        None => None,
    }
}

/// The number with a minus before it.
#[inline(always)]
fn negated(value: u128) -> i128
    requires { value < 2 ^ 68 }
    ensures { result ≡ neg_ℤ (pos value) }
{
    -(value as i128)
}

/// The number with no sign before it.
#[inline(always)]
fn widened(value: u128) -> i128
    requires { value < 2 ^ 68 }
    ensures { result ≡ pos value }
{
    value as i128
}

/// The integer at the front of the text, and what follows it. In place of one that no kind has it may be another such one.
#[inline(always)]
pub(crate) fn integer(text: &[u8]) -> Option<(i128, &[u8])>
    ensures found { IfSome result (λ found. (z : ℤ) × (integer_at text.now ≡ Some (z, found.1.now))
        × IsClamped found.0 z) }
    ensures none { IfNone result (integer_at text.now ≡ None) }
    ensures less { IfSome result (λ found. length found.1.now < length text.now) }
{
    match after_byte(text, b'-') {
        Some(digits) => negative(digits),
        None => positive(text),
    }
}

/// What follows this word at the front of the text.
#[tactic(auto, using(crate::proofs::Words::word_step, crate::proofs::Words::word_end))]
pub(crate) fn after_word<'a>(text: &'a [u8], word: &[u8]) -> Option<&'a [u8]>
    ensures value { option_copied result ≡ tokens.after_word word.now text.now }
    ensures no_longer { IfSome result (λ rest. length rest.now + length word.now
        ≤ length text.now) }
{
    let mut rest = text;
    for byte in word {
        rest = after_byte(rest, *byte)?;
    }
    Some(rest)
}

/// `true` or `false` at the front of the text, and what follows it.
#[tactic(auto, unfolding(crate::specs::Grammar::truth_at))]
pub(crate) fn truth(text: &[u8]) -> Option<(bool, &[u8])>
    ensures value { option_map (λ found. (number kinds.Bool (truth found.0), found.1.now)) result
        ≡ truth_at text.now }
    ensures less { IfSome result (λ found. length found.1.now < length text.now) }
{
    if let Some(rest) = after_word(text, b"true") {
        return Some((true, rest));
    }
    match after_word(text, b"false") {
        Some(rest) => Some((false, rest)),
        None => None,
    }
}
