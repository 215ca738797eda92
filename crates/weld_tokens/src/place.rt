ghost use Rattle.std.specs.Prelude.{◌≡◌, ◌+◌, ◌≤◌, length};
ghost use Rattle.weld_tokens.specs.Tokens.{end_of, next_place, place_after};

use weld_tree::Place;

/// The place after a byte.
fn next_place(place: Place, byte: u8) -> Place
    requires line { place.line ≤ 300000 }
    requires column { place.column ≤ 300000 }
    ensures { result ≡ next_place place byte }
{
    if byte == b'\n' {
        Place {
            line: place.line + 1,
            column: 1,
        }
    } else {
        Place {
            line: place.line,
            column: place.column + 1,
        }
    }
}

/// The place after some bytes.
pub(crate) fn place_after(place: Place, bytes: &[u8]) -> Place
    requires line { place.line + length bytes.now ≤ 300000 }
    requires column { place.column + length bytes.now ≤ 300000 }
    requires first { 1 ≤ place.column }
    ensures value { result ≡ place_after place bytes.now }
    ensures line { result.line ≤ place.line + length bytes.now }
    ensures column { result.column ≤ place.column + length bytes.now }
    ensures first { 1 ≤ result.column }
{
    let mut here = place;
    for byte in bytes {
        here = next_place(here, *byte);
    }
    here
}

/// The place behind the last byte of a text of at most 262,144 bytes.
pub fn end_of(text: &[u8]) -> Place
    requires { length text.now ≤ 262144 }
    ensures { result ≡ end_of text.now }
{
    place_after(Place { line: 1, column: 1 }, text)
}
