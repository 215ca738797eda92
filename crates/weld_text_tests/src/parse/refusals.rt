use std::alloc::Global;
use std::test::Fail;
use weld_parse::parse;
use weld_tree::{Code, Place, Refusal};

/// A text, and the refusal by a code at a line and a column.
type Row = (&'static [u8], Code, u32, u32);

static REFUSED: [Row; 35] = [
    (b"1 & 2", Code::X1, 1, 3),
    (b"\"a", Code::X1, 1, 1),
    (b"\"a\\q\"", Code::X1, 1, 1),
    (b"1 +\n\t$", Code::X1, 2, 2),
    (b"", Code::X2, 1, 1),
    (b"# nothing", Code::X2, 1, 10),
    (b"1 +", Code::X2, 1, 4),
    (b"1 +\n", Code::X2, 2, 1),
    (b"1 + # one\n\t*2", Code::X2, 2, 2),
    (b"|x: i64| x\n%", Code::X2, 2, 2),
    (b"let x = 1; let", Code::X2, 1, 15),
    (b"macro(1)", Code::X2, 1, 1),
    (b"vecmerger[i64,+]", Code::X2, 1, 17),
    (b"{1", Code::X2, 1, 3),
    (b"(9999999999", Code::X2, 1, 12),
    (b"2147483648", Code::X3, 1, 1),
    (b"1 - 2147483648", Code::X3, 1, 5),
    (b"--2147483649", Code::X3, 1, 3),
    (b"-(2147483648)", Code::X3, 1, 3),
    (b"-9223372036854775809L", Code::X3, 1, 2),
    (b"x + 9223372036854775808L", Code::X3, 1, 5),
    (b"{1,1,1,1,1,1,1,1,1,1,1,1,1,1,1,1,x}", Code::M8, 1, 34),
    (b"x.$0 + {y}.$1", Code::N1, 1, 1),
    (b"|x: i64| y", Code::N1, 1, 10),
    (b"let x = x; x", Code::N1, 1, 9),
    (b"let x = let x = 1; x; x", Code::X2, 1, 9),
    (b"let let = 1; let", Code::X2, 1, 17),
    (b"let let = 1; 2", Code::N2, 1, 5),
    (b"let i64 = x; 2", Code::N2, 1, 5),
    (b"let y = x; let if = 1; y", Code::N1, 1, 9),
    (b"|zip: i64| 1", Code::N2, 1, 2),
    (b"iterate(1, |x| {x, false}) + x", Code::N1, 1, 30),
    (
        b"for([1], merger[i32,+], |b, i, e| merge(b, z))",
        Code::N1,
        1,
        44,
    ),
    (
        b"for([i], merger[i32,+], |b, i, e| merge(b, e))",
        Code::N1,
        1,
        6,
    ),
    (
        b"|aaaaaaaaaaaaaaaaaaaaaaaaaaaaaaaaaaaaaaaaaaaaaaaaaaaaaaaaaaaaaaaaa: i64| 1",
        Code::M9,
        1,
        2,
    ),
];

#[test]
fn the_first_refusal_has_its_place(rt: HostRuntime) -> Result<(), Fail> {
    for (text, code, line, column) in &REFUSED {
        let place = Place {
            line: *line,
            column: *column,
        };
        match parse(rt.alloc(), *text) {
            Ok(_) => return Err(Fail::from("a text isn't refused")),
            Err(refusal) => assert_eq!(rt; refusal, Refusal::At(*code, place)),
        }
    }
    Ok(())
}

static READ: [&[u8]; 40] = [
    b"1",
    b"-1",
    b"2147483647",
    b"-2147483648",
    b"1 - 2147483647",
    b"9223372036854775807L",
    b"-9223372036854775808L",
    b"-007",
    b"- 5",
    b"--5",
    b"!true",
    b"!!false",
    b"\"a\\n\\x41\"",
    b"|| 1",
    b"|x: i64| x",
    b"|x: vec[i64], y: {i8, bool}| y.$0",
    b"|x: dict[i64, vec[u8]]| lookup(x, 1L)",
    b"let x = 1; x",
    b"let x: i32 = 1; let x = x + 1; x",
    b"let x = (let x = 1; x); x",
    b"1 || 2 && 3 == 4 < 5 + 6 * 7",
    b"1 - 2 - 3",
    b"(1)",
    b"[1, 2, 3]",
    b"{1, true, \"a\"}",
    b"{1, {2, 3}}.$1.$0",
    b"if(true, 1, 2)",
    b"select(true, 1, 2)",
    b"|d: dict[i64, i64]| keyexists(d, 1L)",
    b"len(\"abc\")",
    b"slice(\"abc\", 0L, 1L)",
    b"merge(vecbuilder[i64], 1L)",
    b"result(appender[i64])",
    b"for([1, 2], merger[i32,+](5), |b, i, e| merge(b, e))",
    b"for(zip([1], [2], [3]), vecbuilder[i32], |b, i, e| merge(b, e.$2))",
    b"for(iter([1, 2], 0L, 2L, 1L), dictmerger[i32,i32,min], |b, i, e| merge(b, {e, e}))",
    b"for([1], vecmerger[i32,max]([0]), |b: vecmerger[i32,max], i: i64, e: i32| merge(b, {i, e}))",
    b"for([1], groupbuilder[i32,i32], |b, i, e| merge(b, {e, e}))",
    b"iterate(1, |x| {x + 1, false})",
    b"i64(1) + i64(u8(i8(i32(2))))",
];

#[test]
fn each_form_is_read(rt: HostRuntime) -> Result<(), Fail> {
    for text in &READ {
        match parse(rt.alloc(), *text) {
            Ok(_) => {}
            Err(_) => return Err(Fail::from("a text is refused")),
        }
    }
    Ok(())
}

/// A front, what is repeated, how often, a back.
fn repeated(
    alloc: Global,
    front: &[u8],
    bytes: &[u8],
    count: usize,
    back: &[u8],
) -> Result<Vec<u8>, Fail> {
    let mut text = Vec::new(alloc);
    text.extend_from_slice(front)?;
    for _ in 0..count {
        text.extend_from_slice(bytes)?;
    }
    text.extend_from_slice(back)?;
    Ok(text)
}

/// A front, what is repeated, how often, a back, and the refusal; none where the text is a program.
type LongRow = (
    &'static [u8],
    &'static [u8],
    usize,
    &'static [u8],
    Option<Refusal>,
);

static LONG: [LongRow; 15] = [
    (b"1", b" ", 262_143, b"", None),
    (b"1", b" ", 262_144, b"", Some(Refusal::Size(Code::M2))),
    (b"&", b" ", 262_144, b"", Some(Refusal::Size(Code::M2))),
    (
        b"1",
        b"+1",
        120,
        b"",
        Some(Refusal::At(Code::M4, Place { line: 1, column: 1 })),
    ),
    (b"1 1", b"+1", 8192, b"", Some(Refusal::Size(Code::M3))),
    (b"", b"(", 101, b"", Some(Refusal::Size(Code::M3))),
    (
        b"",
        b"(",
        100,
        b"",
        Some(Refusal::At(
            Code::X2,
            Place {
                line: 1,
                column: 101,
            },
        )),
    ),
    (b"", b"!", 99, b"true", None),
    (
        b"",
        b"!",
        100,
        b"true",
        Some(Refusal::At(
            Code::M4,
            Place {
                line: 1,
                column: 101,
            },
        )),
    ),
    (b"", b"let x=1;", 1024, b"x", None),
    (b"", b"let x=1;", 1025, b"x", Some(Refusal::Size(Code::M5))),
    // (as many as the limit of tokens lets through: the deepest trees that are read)
    (b"", b"let x=1;", 3276, b"x", Some(Refusal::Size(Code::M5))),
    (
        b"1",
        b"+1",
        8191,
        b"",
        Some(Refusal::At(Code::M4, Place { line: 1, column: 1 })),
    ),
    // (as many as may be stand in `cases/deep`, where the program has a stack of its own)
    (
        b"x",
        b".$0",
        1000,
        b"",
        Some(Refusal::At(Code::M4, Place { line: 1, column: 1 })),
    ),
    (
        b"|a: i8",
        b", a: i8",
        16,
        b"| 1",
        Some(Refusal::At(
            Code::M7,
            Place {
                line: 1,
                column: 114,
            },
        )),
    ),
];

#[test]
fn limits_are_kept(rt: HostRuntime) -> Result<(), Fail> {
    for (front, bytes, count, back, refusal) in &LONG {
        let text = repeated(rt.alloc(), *front, *bytes, *count, *back)?;
        match parse(rt.alloc(), text.as_slice()) {
            Ok(_) => assert!(rt; refusal.is_none()),
            Err(found) => assert_eq!(rt; Some(found), *refusal),
        }
    }
    Ok(())
}
