use std::alloc::Global;
use std::test::Fail;
use weld_tokens::text_limits::{
    first_field_too_many, first_parameter_too_many, first_type_too_large,
};
use weld_tokens::{Tokens, read_tokens};
use weld_tree::Place;

/// The tokens of some bytes, so many times some others, and some at the end.
fn tokens_of(
    alloc: Global,
    front: &[u8],
    bytes: &[u8],
    count: usize,
    back: &[u8],
) -> Result<Tokens, Fail> {
    let mut text = Vec::new(alloc);
    text.extend_from_slice(front)?;
    for _ in 0..count {
        text.extend_from_slice(bytes)?;
    }
    text.extend_from_slice(back)?;
    if text.len() > 262_144 {
        return Err(Fail::from("the text is too long"));
    }
    match read_tokens(alloc, text.as_slice()) {
        Ok(tokens) => Ok(tokens),
        Err(_) => Err(Fail::from("the text is refused")),
    }
}

/// A front, what is repeated, how often, a back, and the column of what is refused; 0 where nothing is.
type Row = (&'static [u8], &'static [u8], usize, &'static [u8], u32);

/// The column of a place; 0 where there is none.
fn column_of(place: Option<Place>) -> u32 {
    match place {
        Some(place) => place.column,
        None => 0,
    }
}

static PARAMETERS: [Row; 5] = [
    (b"|a: i64", b", a: {i8, i8}", 15, b"| 1", 0),
    (b"|a: i64", b", a: {i8, i8}", 16, b"| 1", 205),
    (b"|a: i64| {1", b", a", 40, b"}", 0),
    (b"{1", b", a", 40, b"}", 0),
    (b"|| [1", b", a", 40, b"]", 0),
];

#[test]
fn parameters_are_sixteen_at_most(rt: HostRuntime) -> Result<(), Fail> {
    for (front, bytes, count, back, column) in &PARAMETERS {
        let tokens = tokens_of(rt.alloc(), *front, *bytes, *count, *back)?;
        assert_eq!(rt;
            column_of(first_parameter_too_many(tokens.as_slice())),
            *column
        );
    }
    Ok(())
}

static FIELDS: [Row; 9] = [
    (b"{1", b",2", 15, b"}", 0),
    (b"{1", b",2", 16, b"}", 34),
    (b"{1", b",(2)", 16, b"}", 64),
    (b"[1", b",2", 40, b"]", 0),
    (b"{f(1,2,3)", b",[2,2]", 15, b"}", 0),
    (b"|v: {i64", b",i64", 16, b"}| 1", 70),
    (
        b"for(zip(v",
        b",iter(v,0L,1L,1L)",
        15,
        b"), b, |b,i,x| b)",
        0,
    ),
    (
        b"for(zip(v",
        b",iter(v,0L,1L,1L)",
        16,
        b"), b, |b,i,x| b)",
        266,
    ),
    (
        b"{{1",
        b",2",
        16,
        b"},1,2,3,4,5,6,7,8,9,0,1,2,3,4,5,6,7}",
        35,
    ),
];

#[test]
fn fields_and_legs_are_sixteen_at_most(rt: HostRuntime) -> Result<(), Fail> {
    for (front, bytes, count, back, column) in &FIELDS {
        let tokens = tokens_of(rt.alloc(), *front, *bytes, *count, *back)?;
        assert_eq!(rt; column_of(first_field_too_many(tokens.as_slice())), *column);
    }
    Ok(())
}

static TYPES: [Row; 7] = [
    (b"|v: ", b"vec[", 15, b"i64]]]]]]]]]]]]]]]| 1", 0),
    (b"|v: ", b"vec[", 16, b"i64]]]]]]]]]]]]]]]]| 1", 5),
    (
        b"let x: i8 = 1; vecbuilder[",
        b"vec[",
        16,
        b"i64]]]]]]]]]]]]]]]]]",
        27,
    ),
    (
        b"groupbuilder[i64, ",
        b"vec[",
        16,
        b"i64]]]]]]]]]]]]]]]]]",
        19,
    ),
    (b"|v: {i8", b",i8", 254, b"}| 1", 0),
    (b"|v: {i8", b",i8", 255, b"}| 1", 5),
    (b"[1", b", i64(1)", 300, b"]", 0),
];

#[test]
fn written_types_have_limits(rt: HostRuntime) -> Result<(), Fail> {
    for (front, bytes, count, back, column) in &TYPES {
        let tokens = tokens_of(rt.alloc(), *front, *bytes, *count, *back)?;
        assert_eq!(rt; column_of(first_type_too_large(tokens.as_slice())), *column);
    }
    Ok(())
}
