use std::test::Fail;
use weld_grammar::terminals::Class;
use weld_tokens::{chars_of, class_of, field_of, literal_of};

/// Numbers at the edges of their ranges: the token, whether it is that of a negative literal, and its value.
static NUMBERS: [(&[u8], Class, bool, Option<i64>); 14] = [
    (b"0", Class::Int, false, Some(0)),
    (b"0", Class::Int, true, Some(0)),
    (b"007", Class::Int, true, Some(-7)),
    (b"2147483647", Class::Int, false, Some(2_147_483_647)),
    (b"2147483648", Class::Int, false, None),
    (b"2147483648", Class::Int, true, Some(-2_147_483_648)),
    (b"2147483649", Class::Int, true, None),
    (b"2147483648L", Class::Long, false, Some(2_147_483_648)),
    (
        b"9223372036854775807L",
        Class::Long,
        false,
        Some(9_223_372_036_854_775_807),
    ),
    (b"9223372036854775808L", Class::Long, false, None),
    (
        b"9223372036854775808L",
        Class::Long,
        true,
        Some(-9_223_372_036_854_775_808),
    ),
    (b"9223372036854775809L", Class::Long, true, None),
    (
        b"00000000000000000000000000000000000000001L",
        Class::Long,
        false,
        Some(1),
    ),
    (
        b"99999999999999999999999999999999999999999L",
        Class::Long,
        true,
        None,
    ),
];

#[test]
fn numbers_end_at_their_ranges(rt: HostRuntime) -> Result<(), Fail> {
    for (word, class, negative, want) in &NUMBERS {
        assert_eq!(rt; literal_of(*word, *class, *negative), *want);
    }
    Ok(())
}

/// Strings, and the bytes that they stand for.
static STRINGS: [(&[u8], &[u8]); 5] = [
    (b"\"\"", b""),
    (b"\"ab\"", b"ab"),
    (b"\"\\\"\\\\\\n\\t\"", b"\"\\\n\t"),
    (b"\"\\x00\\xfF\\x4a!\"", b"\x00\xff\x4a!"),
    (b"\"\\\\x41\"", b"\\x41"),
];

#[test]
fn strings_stand_for_bytes(rt: HostRuntime) -> Result<(), Fail> {
    let alloc = rt.alloc();
    for (word, want) in &STRINGS {
        let chars = chars_of(alloc, *word)?;
        assert_eq!(rt; chars.as_slice(), *want);
    }
    Ok(())
}

/// Fields and their numbers.
static FIELDS: [(&[u8], u32); 4] = [
    (b"$0", 0),
    (b"$12", 12),
    (b"$007", 7),
    (b"$999999999", 999_999_999),
];

#[test]
fn fields_have_numbers(rt: HostRuntime) -> Result<(), Fail> {
    for (word, want) in &FIELDS {
        match class_of(*word) {
            Some(Class::Field) => assert_eq!(rt; field_of(*word), *want),
            _ => return Err(Fail::from("not a field")),
        }
    }
    Ok(())
}
