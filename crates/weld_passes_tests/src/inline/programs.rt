use crate::inline::passing::inlined;
use std::alloc::Global;
use std::test::Fail;

/// Whether the text's program is answered so.
fn is_answered(alloc: Global, text: &str, answer: &str) -> Result<bool, Fail> {
    match inlined(alloc, text.as_bytes()) {
        Ok(printed) => Ok(printed.as_slice() == answer.as_bytes()),
        Err(_) => Err(Fail::from(text)),
    }
}

/// Whether each text's program is answered as it stands beside it.
fn are_answered(rt: &HostRuntime, pairs: &[(&str, &str)]) -> Result<(), Fail> {
    for (text, answer) in pairs {
        if !is_answered(rt.alloc(), text, answer)? {
            return Err(Fail::from(*text));
        }
    }
    Ok(())
}

/// Plain values, each put for every use; without a use the `let` goes.
static PLAIN: [(&str, &str); 8] = [
    ("let a = 5L; a + a", "5L + 5L"),
    ("|v: vec[i64]| let a = v; len(a)", "|x0: vec[i64]| len(x0)"),
    (
        "|s: {i64,i64}| let a = s.$0; a * a",
        "|x0: {i64,i64}| x0.$0 * x0.$0",
    ),
    ("let a = true; if(a, 1L, 2L)", "if(true, 1L, 2L)"),
    ("|n: i64| let a = n; 2L", "|x0: i64| 2L"),
    ("let a = 1L; let b = a; let c = b; c + a", "1L + 1L"),
    (
        "|v: vec[i64], n: i64| let a = n; result(for(v, merger[i64,+], |b, i, x| merge(b, x * a)))",
        "|x0: vec[i64], x1: i64| result(for(x0, merger[i64,+], |x2, x3, x4| merge(x2, x4 * x1)))",
    ),
    (
        "|n: i64| let a = n; if(n > 0L, a, 0L)",
        "|x0: i64| if(x0 > 0L, x0, 0L)",
    ),
];

/// Names that are used once, where the value is evaluated once and whenever the `let` is.
static ONCE: [(&str, &str); 14] = [
    (
        "|n: i64| let a = n + 1L; a * 2L",
        "|x0: i64| (x0 + 1L) * 2L",
    ),
    (
        "|n: i64| let a = 1L / n; a + 2L",
        "|x0: i64| (1L / x0) + 2L",
    ),
    (
        "|n: i64| let a = n > 0L; if(a, 1L, 0L)",
        "|x0: i64| if(x0 > 0L, 1L, 0L)",
    ),
    (
        "|n: i64| let a = n > 0L; a || n < 5L",
        "|x0: i64| (x0 > 0L) || (x0 < 5L)",
    ),
    (
        "|n: i64| let a = 1L / n; select(n > 0L, a, 0L)",
        "|x0: i64| select(x0 > 0L, 1L / x0, 0L)",
    ),
    ("let s = \"ab\"; len(s)", "len(\"ab\")"),
    (
        "|n: i64| let s = {n, n + 1L}; s.$1",
        "|x0: i64| {x0, x0 + 1L}.$1",
    ),
    (
        "|n: i64| let a = (let b = n * 2L; b + 1L); a * 3L",
        "|x0: i64| ((x0 * 2L) + 1L) * 3L",
    ),
    (
        "|v: vec[i64]| let w = result(for(v, vecbuilder[i64], |b, i, x| merge(b, x + 1L))); result(for(w, merger[i64,+], |c, j, y| merge(c, y)))",
        "|x0: vec[i64]| result(for(result(for(x0, vecbuilder[i64], |x1, x2, x3| merge(x1, x3 + 1L))), merger[i64,+], |x4, x5, x6| merge(x4, x6)))",
    ),
    (
        "|v: vec[i64]| let b = for(v, merger[i64,+], |c, i, x| merge(c, x)); result(b)",
        "|x0: vec[i64]| result(for(x0, merger[i64,+], |x1, x2, x3| merge(x1, x3)))",
    ),
    (
        "|v: vec[i64]| let n = len(v); result(for(iter(v, 0L, n, 1L), merger[i64,+], |b, i, x| merge(b, x)))",
        "|x0: vec[i64]| result(for(iter(x0, 0L, len(x0), 1L), merger[i64,+], |x1, x2, x3| merge(x1, x3)))",
    ),
    (
        "|v: vec[i64]| let w = result(for(v, vecbuilder[i64], |b, i, x| merge(b, x * x))); result(for(zip(v, w), merger[i64,+], |c, j, y| merge(c, y.$0 * y.$1)))",
        "|x0: vec[i64]| result(for(zip(x0, result(for(x0, vecbuilder[i64], |x1, x2, x3| merge(x1, x3 * x3)))), merger[i64,+], |x4, x5, x6| merge(x4, x6.$0 * x6.$1)))",
    ),
    (
        "|v: vec[i64]| result(for(v, merger[i64,+], |b, i, x| let y = x * x; merge(b, y + 1L)))",
        "|x0: vec[i64]| result(for(x0, merger[i64,+], |x1, x2, x3| merge(x1, (x3 * x3) + 1L)))",
    ),
    (
        "|n: i64| let k = n + 1L; iterate(k, |s| {s * 2L, s < 100L})",
        "|x0: i64| iterate(x0 + 1L, |x1| {x1 * 2L, x1 < 100L})",
    ),
];

/// Lets that stay: without a use, used twice, in an arm or on a right side, under a lambda, with a loop where that would be
/// run in another place, a builder under a field access.
static STAYING: [(&str, &str); 12] = [
    (
        "|n: i64| let a = 1L / n; 2L",
        "|x0: i64| let x1 = 1L / x0; 2L",
    ),
    (
        "|n: i64| let a = n + 1L; 2L",
        "|x0: i64| let x1 = x0 + 1L; 2L",
    ),
    (
        "|n: i64| let a = n + 1L; a * a",
        "|x0: i64| let x1 = x0 + 1L; x1 * x1",
    ),
    (
        "let s = \"ab\"; len(s) + len(s)",
        "let x0 = \"ab\"; len(x0) + len(x0)",
    ),
    (
        "|n: i64| let a = 1L / n; if(n > 0L, a, 0L)",
        "|x0: i64| let x1 = 1L / x0; if(x0 > 0L, x1, 0L)",
    ),
    (
        "|n: i64| let a = (1L / n) == 2L; n > 0L && a",
        "|x0: i64| let x1 = (1L / x0) == 2L; (x0 > 0L) && x1",
    ),
    (
        "|v: vec[i64]| let a = len(v); result(for(v, merger[i64,+], |b, i, x| merge(b, x * a)))",
        "|x0: vec[i64]| let x1 = len(x0); result(for(x0, merger[i64,+], |x2, x3, x4| merge(x2, x4 * x1)))",
    ),
    (
        "|v: vec[i64]| let w = result(for(v, vecbuilder[i64], |b, i, x| merge(b, x + 1L))); len(w)",
        "|x0: vec[i64]| let x1 = result(for(x0, vecbuilder[i64], |x2, x3, x4| merge(x2, x4 + 1L))); len(x1)",
    ),
    (
        "let s = {merger[i64,+]}; result(merge(s.$0, 1L))",
        "let x0 = {merger[i64,+]}; result(merge(x0.$0, 1L))",
    ),
    (
        "|v: vec[i64]| let w = result(for(v, vecbuilder[i64], |b, i, x| merge(b, x))); result(for(iter(w, 0L, 1L, 1L), merger[i64,+], |c, j, y| merge(c, y)))",
        "|x0: vec[i64]| let x1 = result(for(x0, vecbuilder[i64], |x2, x3, x4| merge(x2, x4))); result(for(iter(x1, 0L, 1L, 1L), merger[i64,+], |x5, x6, x7| merge(x5, x7)))",
    ),
    (
        "|n: i64| let k = n + 1L; iterate(1L, |s| {s + k, s < 100L})",
        "|x0: i64| let x1 = x0 + 1L; iterate(1L, |x2| {x2 + x1, x2 < 100L})",
    ),
    (
        "|n: i64| let k = iterate(n, |s| {s + 1L, s < 5L}); k * 2L",
        "|x0: i64| let x1 = iterate(x0, |x2| {x2 + 1L, x2 < 5L}); x1 * 2L",
    ),
];

#[test]
fn plain_values_are_put_everywhere(rt: HostRuntime) -> Result<(), Fail> {
    are_answered(&rt, &PLAIN)
}

#[test]
fn single_uses_become_the_value(rt: HostRuntime) -> Result<(), Fail> {
    are_answered(&rt, &ONCE)
}

#[test]
fn other_lets_stay(rt: HostRuntime) -> Result<(), Fail> {
    are_answered(&rt, &STAYING)
}
