use std::alloc::Global;
use std::process::Abort;
use std::test::Fail;
use weld_grammar::terminals::{Class, Reserved, Symbol};
use weld_tokens::laws::{classes_of_tokens, one_reading, spelled_tokens};
use weld_tokens::{class_of, read_tokens};
use weld_tree::{Code, Refusal};

/// A token: its class, its bytes, its line and its column.
type Row = (Class, &'static [u8], u32, u32);

/// The first form of a program, with a tab, a comment and each kind of line end in it.
static FIRST_TEXT: &[u8] = b"|v|\tfor # a\ttab\r\n\r12L\n $3";

static FIRST: [Row; 6] = [
    (Class::Symbol(Symbol::Bar), b"|", 1, 1),
    (Class::Name, b"v", 1, 2),
    (Class::Symbol(Symbol::Bar), b"|", 1, 3),
    (Class::Reserved(Reserved::For), b"for", 1, 5),
    (Class::Long, b"12L", 2, 2),
    (Class::Field, b"$3", 3, 2),
];

/// The longest match: what could be two tokens is one.
static LONGEST_TEXT: &[u8] = b"|||&&!==<=<>=>forx 12Lx 007 $1234567890\"a\\\"\\x4f\"-1";

static LONGEST: [Row; 18] = [
    (Class::Symbol(Symbol::BarBar), b"||", 1, 1),
    (Class::Symbol(Symbol::Bar), b"|", 1, 3),
    (Class::Symbol(Symbol::AndAnd), b"&&", 1, 4),
    (Class::Symbol(Symbol::BangEquals), b"!=", 1, 6),
    (Class::Symbol(Symbol::Equals), b"=", 1, 8),
    (Class::Symbol(Symbol::LessEquals), b"<=", 1, 9),
    (Class::Symbol(Symbol::Less), b"<", 1, 11),
    (Class::Symbol(Symbol::GreaterEquals), b">=", 1, 12),
    (Class::Symbol(Symbol::Greater), b">", 1, 14),
    (Class::Name, b"forx", 1, 15),
    (Class::Long, b"12L", 1, 20),
    (Class::Name, b"x", 1, 23),
    (Class::Int, b"007", 1, 25),
    (Class::Field, b"$123456789", 1, 29),
    (Class::Int, b"0", 1, 39),
    (Class::Chars, b"\"a\\\"\\x4f\"", 1, 40),
    (Class::Symbol(Symbol::Minus), b"-", 1, 49),
    (Class::Int, b"1", 1, 50),
];

/// Reads a text, and compares its tokens with rows.
fn compare(rt: &impl Abort, alloc: Global, text: &[u8], rows: &[Row]) -> Result<(), Fail> {
    if text.len() > 262_144 {
        return Err(Fail::from("the text is too long"));
    }
    let Ok(tokens) = read_tokens(alloc, text) else {
        return Err(Fail::from("the text is refused"));
    };
    assert_eq!(rt; tokens.len(), rows.len());
    for (token, (class, word, line, column)) in tokens.as_slice().iter().zip(rows) {
        assert_eq!(rt; token.class, *class);
        assert_eq!(rt; token.word.as_slice(), *word);
        assert_eq!(rt; token.place.line, *line);
        assert_eq!(rt; token.place.column, *column);
        assert_eq!(rt; class_of(*word), Some(*class));
    }
    Ok(())
}

#[test]
fn places_count_bytes_and_skip_comments(rt: HostRuntime) -> Result<(), Fail> {
    compare(&rt, rt.alloc(), FIRST_TEXT, &FIRST)
}

#[test]
fn the_longest_match_is_taken(rt: HostRuntime) -> Result<(), Fail> {
    compare(&rt, rt.alloc(), LONGEST_TEXT, &LONGEST)
}

#[test]
fn blanks_and_comments_are_no_tokens(rt: HostRuntime) -> Result<(), Fail> {
    let alloc = rt.alloc();
    compare(&rt, alloc, b"", &[])?;
    compare(&rt, alloc, b" \t\r\n# no end", &[])?;
    compare(&rt, alloc, b"##\n#\"\n", &[])
}

/// Texts in which no token begins at some byte, with the line and the column of the first such byte.
static WRONG: [(&[u8], u32, u32); 20] = [
    (b"@", 1, 1),
    (b"a ~", 1, 3),
    (b"&", 1, 1),
    (b"a & b", 1, 3),
    (b"a\n\t& @", 2, 2),
    (b"# @\n@", 2, 1),
    (b"# a\r@", 0, 0),
    (b"$", 1, 1),
    (b"x.$x", 1, 3),
    (b"\"", 1, 1),
    (b"\"abc", 1, 1),
    (b"1\"abc\n\"", 1, 2),
    (b"\"\\\"", 1, 1),
    (b"\"\\q\"", 1, 1),
    (b"\"\\x4\"", 1, 1),
    (b"\"\\x4g\"", 1, 1),
    (b"\"\x7f\"", 1, 1),
    (b"\"\x1f\"", 1, 1),
    (b"a \x00", 1, 3),
    (b"'a'", 1, 1),
];

#[test]
fn no_token_begins_there(rt: HostRuntime) -> Result<(), Fail> {
    let alloc = rt.alloc();
    for (text, line, column) in &WRONG {
        if text.len() > 262_144 {
            return Err(Fail::from("the text is too long"));
        }
        match read_tokens(alloc, *text) {
            Ok(tokens) => {
                assert_eq!(rt; *line, 0);
                assert_eq!(rt; tokens.len(), 0);
            }
            Err(Refusal::At(code, place)) => {
                assert_eq!(rt; code, Code::X1);
                assert_eq!(rt; place.line, *line);
                assert_eq!(rt; place.column, *column);
            }
            Err(_) => return Err(Fail::from("another refusal")),
        }
    }
    Ok(())
}

#[test]
fn some_bytes_are_no_one_token(rt: HostRuntime) -> Result<(), Fail> {
    for word in [
        b"a b".as_slice(),
        b"",
        b" a",
        b"a ",
        b"1x",
        b"$",
        b"$1234567890",
        b"|||",
        b"\"\"\"",
    ] {
        assert_eq!(rt; class_of(word), None);
    }
    one_reading();
    classes_of_tokens();
    spelled_tokens();
    Ok(())
}
