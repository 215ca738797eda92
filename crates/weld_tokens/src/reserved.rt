ghost use Rattle.std.specs.Prelude.{◌≡◌};
ghost use Rattle.weld_grammar.specs.ReservedWords.{reserved_text};
ghost use Rattle.weld_tokens.specs.Scanning.{led_by};
ghost use Rattle.weld_tokens.specs.Words.{all_reserved, reserved_or_name, written_so, word_class};

use weld_grammar::terminals::{Class, Reserved};

/// The reserved words that begin with the letter, in the order of all.
fn led_by(first: u8) -> &'static [Reserved]
    ensures { result.now ≡ led_by first all_reserved }
{
    match first {
        b'a' => &[Reserved::Appender],
        b'b' => &[Reserved::Bool],
        b'd' => &[Reserved::Dict, Reserved::Dictmerger],
        b'f' => &[Reserved::For, Reserved::False],
        b'g' => &[Reserved::Groupbuilder, Reserved::Groupmerger],
        b'i' => &[
            Reserved::If,
            Reserved::Iterate,
            Reserved::Iter,
            Reserved::I8,
            Reserved::I16,
            Reserved::I32,
            Reserved::I64,
        ],
        b'k' => &[Reserved::Keyexists],
        b'l' => &[Reserved::Let, Reserved::Lookup, Reserved::Len],
        b'm' => &[
            Reserved::Merge,
            Reserved::Merger,
            Reserved::Min,
            Reserved::Max,
            Reserved::Macro,
        ],
        b'r' => &[Reserved::Result],
        b's' => &[Reserved::Select, Reserved::Slice],
        b't' => &[Reserved::True],
        b'u' => &[Reserved::U8, Reserved::U16, Reserved::U32, Reserved::U64],
        b'v' => &[Reserved::Vec, Reserved::Vecbuilder, Reserved::Vecmerger],
        b'z' => &[Reserved::Zip],
        _ => &[],
    }
}

/// The letters of a reserved word.
fn text_of(word: Reserved) -> &'static str
    ensures { result.now ≡ reserved_text word }
{
    match word {
        Reserved::Let => "let",
        Reserved::If => "if",
        Reserved::Select => "select",
        Reserved::Lookup => "lookup",
        Reserved::Keyexists => "keyexists",
        Reserved::Len => "len",
        Reserved::Slice => "slice",
        Reserved::Merge => "merge",
        Reserved::Result => "result",
        Reserved::For => "for",
        Reserved::Iterate => "iterate",
        Reserved::Zip => "zip",
        Reserved::Iter => "iter",
        Reserved::Vec => "vec",
        Reserved::Dict => "dict",
        Reserved::Bool => "bool",
        Reserved::I8 => "i8",
        Reserved::I16 => "i16",
        Reserved::I32 => "i32",
        Reserved::I64 => "i64",
        Reserved::U8 => "u8",
        Reserved::U16 => "u16",
        Reserved::U32 => "u32",
        Reserved::U64 => "u64",
        Reserved::Vecbuilder => "vecbuilder",
        Reserved::Appender => "appender",
        Reserved::Merger => "merger",
        Reserved::Dictmerger => "dictmerger",
        Reserved::Vecmerger => "vecmerger",
        Reserved::Groupbuilder => "groupbuilder",
        Reserved::Groupmerger => "groupmerger",
        Reserved::True => "true",
        Reserved::False => "false",
        Reserved::Min => "min",
        Reserved::Max => "max",
        Reserved::Macro => "macro",
    }
}

/// The first of some reserved words that is written so.
fn written_so(word: &[u8], reserved: &[Reserved]) -> Option<Reserved>
    ensures { result ≡ written_so word.now reserved.now }
{
    for one in reserved {
        if text_of(*one).as_bytes() == word {
            return Some(*one);
        }
    }
    None
}

/// The class of a word that is this reserved one, if any.
fn reserved_or_name(found: Option<Reserved>) -> Class
    ensures { result ≡ reserved_or_name found }
{
    match found {
        Some(reserved) => Class::Reserved(reserved),
        None => Class::Name,
    }
}

/// The class of a word. Only the reserved words that begin as it does are looked at.
pub(crate) fn word_class(word: &[u8]) -> Class
    ensures { result ≡ word_class word.now }
{
    match word.split_first() {
        None => Class::Name,
        Some((first, _)) => reserved_or_name(written_so(word, led_by(*first))),
    }
}
