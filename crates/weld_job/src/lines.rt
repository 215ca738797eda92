ghost use Rattle.std.specs.Prelude.{◌≡◌, ℕ, ◌<◌, ◌≤◌, ◌∷◌, length, take, drop, slice_index, codes};
ghost use Rattle.std.specs.List.{concat, before_first, position_or_len, list_any, list_all};
ghost use Rattle.weld_job.specs.Blocks.{lines, is_space, reads_as, is_separator, is_header, form_of, text_of, is_stray};

use super::block::BlockForm;
use memchr::memchr;

/// Whether a byte is a space, a tab, a CR or an LF.
fn is_space(byte: u8) -> bool
    ensures { result ≡ is_space byte }
{
    byte == b' ' || byte == b'\t' || byte == b'\r' || byte == b'\n'
}

/// Whether some byte is no space, tab, CR or LF.
pub(crate) fn has_stray(bytes: &[u8]) -> bool
    ensures { result ≡ list_any is_stray bytes.now }
{
    bytes.iter().any(|byte| !is_space(*byte))
}

/// Whether each byte is a space, a tab, a CR or an LF.
fn is_blank(bytes: &[u8]) -> bool
    ensures { result ≡ list_all is_space bytes.now }
{
    bytes.iter().all(|byte| is_space(*byte))
}

/// Whether a line is a word, and then spaces, tabs and CR up to its end.
fn reads_as(word: &[u8], line: &[u8]) -> bool
    ensures { result ≡ reads_as word.now line.now }
{
    line.starts_with(word) && is_blank(&line[word.len()..])
}

/// What a header says of its block.
pub(crate) fn form_of(header: &[u8]) -> BlockForm
    ensures { result ≡ form_of header.now }
{
    if reads_as(b"%value", header) {
        BlockForm::Value
    } else if reads_as(b"%table", header) {
        BlockForm::Table
    } else {
        BlockForm::Other
    }
}

/// How long the first line is, its LF with it: 0 where there is no byte.
pub(crate) fn line_len(bytes: &[u8]) -> usize
    ensures within { result ≤ length bytes.now }
    ensures some { 0 < length bytes.now → 0 < result }
    ensures first { 0 < length bytes.now → lines bytes.now
        ≡ take result bytes.now ∷ lines (drop result bytes.now) }
{
    match memchr(b'\n', bytes) {
        Some(end) => end + 1,
        None => bytes.len(),
    }
}

/// How many bytes stand before the first line that parts the text from the data.
pub(crate) fn text_len(job: &[u8]) -> usize
    ensures within { result ≤ length job.now }
    ensures text { take result job.now ≡ text_of job.now }
    ensures rest { lines (drop result job.now) ≡ drop (position_or_len is_separator (lines job.now))
        (lines job.now) }
{
    let mut at = 0;
    while at < job.len() {
        let rest = &job[at..];
        let line = line_len(rest);
        if reads_as(b"%%", &rest[..line]) {
            return at;
        }
        at += line;
    }
    at
}

/// How many bytes stand before the first header.
pub(crate) fn content_len(bytes: &[u8]) -> usize
    ensures within { result ≤ length bytes.now }
    ensures content { take result bytes.now ≡ concat (before_first is_header (lines bytes.now)) }
    ensures rest { lines (drop result bytes.now) ≡ drop (position_or_len is_header
        (lines bytes.now)) (lines bytes.now) }
    ensures header { result < length bytes.now → slice_index bytes.now result ≡ 37 }
{
    let mut at = 0;
    while at < bytes.len() {
        if bytes[at] == b'%' {
            return at;
        }
        at += line_len(&bytes[at..]);
    }
    at
}
