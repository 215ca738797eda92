//! Text cut at commas.

ghost use Rattle.std.specs.Prelude.{◌≡◌, ◌++◌, ◌∷◌, ◌<◌, List, ℕ, length, map, IfOk, IfSome};
ghost use Rattle.weld_text_pieces.specs.Cuts.{with_commas};

use std::alloc::{AllocError, Global};

/// At which commas a text is cut: at any, at those behind a closing brace, or at those behind a closing bracket or a quote. A
/// struct or a list of scalars has no such comma inside.
#[derive(Clone, Copy, PartialEq, Eq)]
pub(crate) enum CutAt {
    Comma,
    Brace,
    Bracket,
}

/// Whether the text may be cut at this place, if a comma stands there.
fn may_cut(text: &[u8], at: usize, cut_at: CutAt) -> bool
    requires { at < length text.now }
{
    match cut_at {
        CutAt::Comma => true,
        CutAt::Brace => 0 < at && text[at - 1] == b'}',
        CutAt::Bracket => 0 < at && (text[at - 1] == b']' || text[at - 1] == b'"'),
    }
}

/// The text before the first such comma at this place or a later one, and what follows that comma.
fn cut_from(text: &[u8], place: usize, cut_at: CutAt) -> Option<(&[u8], &[u8])>
    ensures parts { IfSome result (λ parts. text.now ≡ parts.0.now ++ 44 ∷ parts.1.now) }
    ensures less { IfSome result (λ parts. length parts.1.now < length text.now) }
{
    for at in place..text.len() {
        if text[at] == b',' && may_cut(text, at, cut_at) {
            return Some((&text[..at], &text[at + 1..]));
        }
    }
    None
}

/// The text cut at such commas into pieces, of which each but the last has at least so many bytes.
pub(crate) fn cut_pieces<'a>(
    alloc: Global,
    text: &'a [u8],
    size: usize,
    cut_at: CutAt,
) -> Result<Vec<&'a [u8]>, AllocError>
    ensures some { IfOk result (λ pieces. 0 < length pieces.items) }
    ensures pieces { IfOk result (λ pieces. text.now ≡ with_commas
        (map (λ p. p.now) pieces.items)) }
{
    let mut pieces = Vec::new(alloc);
    let mut rest = text;
    while let Some((piece, more)) = cut_from(rest, size, cut_at) {
        pieces.push(piece)?;
        rest = more;
    }
    pieces.push(rest)?;
    Ok(pieces)
}
