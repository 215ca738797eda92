//! How many values a text has, by the bytes that end them.

/// Such bytes among so many are counted in one byte.
const BLOCK: usize = 128;

/// How often a block has the byte.
fn count_in_block(block: &[u8], byte: u8) -> u8 {
    let mut count: u8 = 0;
    for it in block {
        count = count.wrapping_add(u8::from(*it == byte));
    }
    count
}

/// How often the text has the byte.
pub(crate) fn count_byte(text: &[u8], byte: u8) -> usize {
    let mut count: usize = 0;
    for block in text.chunks(BLOCK) {
        count = count.wrapping_add(usize::from(count_in_block(block, byte)));
    }
    count
}

/// How many lists of scalars the text has, if it is nothing else: each ends by a bracket or is a string.
pub(crate) fn count_lists(text: &[u8]) -> usize {
    let brackets = count_byte(text, b']');
    let quotes = count_byte(text, b'"');
    if quotes == 0 {
        return brackets;
    }
    if brackets == 0 && count_byte(text, b'\\') == 0 {
        return quotes / 2;
    }
    let (closed, strings) = count_outside(text, b']');
    closed.wrapping_add(strings)
}

/// How many structs of scalars and of lists of them the text has, if it is nothing else: each ends by a brace.
pub(crate) fn count_structs(text: &[u8]) -> usize {
    if count_byte(text, b'"') == 0 {
        return count_byte(text, b'}');
    }
    let (closed, _) = count_outside(text, b'}');
    closed
}

/// Where a byte of a text stands.
#[derive(Clone, Copy, PartialEq, Eq)]
enum Place {
    Outside,
    InString,
    Escaped,
}

/// Where the byte after this one stands.
fn place_after(place: Place, byte: u8) -> Place {
    match (place, byte) {
        (Place::Outside, b'"') => Place::InString,
        (Place::InString, b'"') => Place::Outside,
        (Place::InString, b'\\') => Place::Escaped,
        (Place::Escaped, _) => Place::InString,
        _ => place,
    }
}

/// How often the text has the closing byte outside of strings, and how many strings it has.
fn count_outside(text: &[u8], close: u8) -> (usize, usize) {
    let mut closed: usize = 0;
    let mut strings: usize = 0;
    let mut place = Place::Outside;
    for byte in text {
        let next = place_after(place, *byte);
        let is_string = place == Place::InString && next == Place::Outside;
        let is_close = place == Place::Outside && *byte == close;
        strings = strings.wrapping_add(usize::from(is_string));
        closed = closed.wrapping_add(usize::from(is_close));
        place = next;
    }
    (closed, strings)
}
