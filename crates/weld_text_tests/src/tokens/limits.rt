use std::alloc::Global;
use std::test::Fail;
use weld_tokens::{
    Findings, Tokens, first_long_name, first_number_out_of_range, first_out_of_range,
    first_refusal, has_too_many_bytes, has_too_many_tokens, read_tokens,
};
use weld_tree::{Code, Place, Refusal};

/// What a grammar finds that refuses nothing.
static NOTHING: Findings = Findings {
    ungrammatical: None,
    out_of_range: None,
    too_deep: None,
    too_many_lets: false,
    too_large_type: None,
    too_many_parameters: None,
    too_many_fields: None,
    misnamed: None,
};

/// So many times some bytes.
fn times(alloc: Global, bytes: &[u8], count: usize) -> Result<Vec<u8>, Fail> {
    let mut text = Vec::new(alloc);
    for _ in 0..count {
        text.extend_from_slice(bytes)?;
    }
    Ok(text)
}

/// The tokens of a text.
fn tokens_of(alloc: Global, text: &[u8]) -> Result<Tokens, Fail> {
    if has_too_many_bytes(text) || text.len() > 262_144 {
        return Err(Fail::from("the text is too long"));
    }
    match read_tokens(alloc, text) {
        Ok(tokens) => Ok(tokens),
        Err(_) => Err(Fail::from("the text is refused")),
    }
}

/// Some bytes so many times, and whether they have too many tokens.
static NESTED: [(&[u8], usize, bool); 10] = [
    (b"(", 100, false),
    (b"(", 101, true),
    (b"-", 100, false),
    (b"!-", 51, true),
    (b"()", 5000, false),
    (b")", 5000, false),
    (b"a ", 16_384, false),
    (b"a ", 16_385, true),
    (b"[-", 50, false),
    (b"{a-", 101, true),
];

#[test]
fn tokens_nest_up_to_a_limit(rt: HostRuntime) -> Result<(), Fail> {
    let alloc = rt.alloc();
    for (bytes, count, want) in &NESTED {
        let text = times(alloc, *bytes, *count)?;
        let tokens = tokens_of(alloc, text.as_slice())?;
        assert_eq!(rt; has_too_many_tokens(tokens.as_slice()), *want);
    }
    Ok(())
}

#[test]
fn a_token_behind_signs_is_within_their_run(rt: HostRuntime) -> Result<(), Fail> {
    let alloc = rt.alloc();
    let mut text = times(alloc, b"-", 100)?;
    text.extend_from_slice(b"a")?;
    let tokens = tokens_of(alloc, text.as_slice())?;
    assert_eq!(rt; has_too_many_tokens(tokens.as_slice()), false);
    let mut text = times(alloc, b"-", 100)?;
    text.extend_from_slice(b"(a)")?;
    let tokens = tokens_of(alloc, text.as_slice())?;
    assert_eq!(rt; has_too_many_tokens(tokens.as_slice()), true);
    Ok(())
}

#[test]
fn a_text_and_a_name_have_limits(rt: HostRuntime) -> Result<(), Fail> {
    let alloc = rt.alloc();
    assert_eq!(rt;
        has_too_many_bytes(times(alloc, b" ", 262_144)?.as_slice()),
        false
    );
    assert_eq!(rt;
        has_too_many_bytes(times(alloc, b" ", 262_145)?.as_slice()),
        true
    );
    let mut text = times(alloc, b"a", 64)?;
    text.extend_from_slice(b"\n ")?;
    text.extend_from_slice(times(alloc, b"b", 65)?.as_slice())?;
    let tokens = tokens_of(alloc, text.as_slice())?;
    assert_eq!(rt;
        first_long_name(tokens.as_slice()),
        Some(Place { line: 2, column: 2 })
    );
    Ok(())
}

#[test]
fn refusals_come_in_order(rt: HostRuntime) -> Result<(), Fail> {
    let alloc = rt.alloc();
    let tokens = tokens_of(alloc, b"1 2147483648")?;
    if tokens.len() != 2 {
        return Err(Fail::from("not two tokens"));
    }
    let at = Place { line: 1, column: 3 };
    assert_eq!(rt;
        first_out_of_range(&[false, false], tokens.as_slice()),
        Some(at)
    );
    assert_eq!(rt; first_out_of_range(&[false, true], tokens.as_slice()), None);
    assert_eq!(rt; first_refusal(tokens.as_slice(), &NOTHING), None);
    let found = Findings {
        ungrammatical: Some(at),
        out_of_range: Some(at),
        ..NOTHING
    };
    assert_eq!(rt;
        first_refusal(tokens.as_slice(), &found),
        Some(Refusal::At(Code::X2, at))
    );
    let found = Findings {
        too_many_lets: true,
        too_many_fields: Some(at),
        misnamed: Some((Code::N1, at)),
        ..NOTHING
    };
    assert_eq!(rt;
        first_refusal(tokens.as_slice(), &found),
        Some(Refusal::Size(Code::M5))
    );
    Ok(())
}

/// Texts with a number at the edge of its range, and the column of the first that is out of it; 0 for none.
static SIGNED: [(&[u8], u32); 8] = [
    (b"-2147483648", 0),
    (b"2147483648", 1),
    (b"1 - 2147483648", 5),
    (b"(1)-2147483648", 5),
    (b"{1}.$0-2147483648", 8),
    (b"- -2147483648", 0),
    (b"[-2147483648, -2147483649]", 16),
    (b"x * -9223372036854775808L - 9223372036854775808L", 29),
];

#[test]
fn a_minus_before_a_number_is_its_sign(rt: HostRuntime) -> Result<(), Fail> {
    for (text, want) in &SIGNED {
        let tokens = tokens_of(rt.alloc(), *text)?;
        let column = match first_number_out_of_range(tokens.as_slice()) {
            Some(place) => place.column,
            None => 0,
        };
        assert_eq!(rt; column, *want);
    }
    Ok(())
}
