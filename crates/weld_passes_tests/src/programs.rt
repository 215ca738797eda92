use crate::passing::{optimised, predicated};
use std::alloc::Global;
use std::test::Fail;

/// Whether the text's program is merged always as it stands beside it.
fn is_predicated(alloc: Global, text: &str, answer: &str) -> Result<bool, Fail> {
    match predicated(alloc, text.as_bytes()) {
        Ok(printed) => Ok(printed.as_slice() == answer.as_bytes()),
        Err(_) => Err(Fail::from(text)),
    }
}

/// Whether the normal form of the text's program stands beside it.
fn is_optimised(alloc: Global, text: &str, answer: &str) -> Result<bool, Fail> {
    match optimised(alloc, text.as_bytes()) {
        Ok(printed) => Ok(printed.as_slice() == answer.as_bytes()),
        Err(_) => Err(Fail::from(text)),
    }
}

/// Guarded merges: into totals of operators and kinds and of pairs, either arm; and those that stay, since the
/// value may fault or the builder is no `merger`.
static GUARDS: [(&str, &str); 8] = [
    (
        "|v: vec[i64]| result(for(v, merger[i64,+], |b, i, x| if(x > 2L, merge(b, x), b)))",
        "|x0: vec[i64]| result(for(x0, merger[i64,+], |x1, x2, x3| merge(x1, select(x3 > 2L, x3, 0L))))",
    ),
    (
        "|v: vec[i32]| result(for(v, merger[i32,min], |b, i, x| if(x > 2, b, merge(b, x * x))))",
        "|x0: vec[i32]| result(for(x0, merger[i32,min], |x1, x2, x3| merge(x1, select(x3 > 2, 2147483647, x3 * x3))))",
    ),
    (
        "|v: vec[u8]| result(for(v, merger[u8,*], |b, i, x| if(x > u8(2), merge(b, x), b)))",
        "|x0: vec[u8]| result(for(x0, merger[u8,*], |x1, x2, x3| merge(x1, select(x3 > u8(2), x3, u8(1)))))",
    ),
    (
        "|v: vec[{i64,u8}]| result(for(v, merger[{i64,u8},+], |b, i, x| if(x.$0 > 3L, merge(b, x), b)))",
        "|x0: vec[{i64,u8}]| result(for(x0, merger[{i64,u8},+], |x1, x2, x3| merge(x1, select(x3.$0 > 3L, x3, {0L, u8(0)}))))",
    ),
    (
        "|v: vec[{i32,u64}]| result(for(v, merger[{i32,u64},min], |b, i, x| if(x.$0 > 3, b, merge(b, x))))",
        "|x0: vec[{i32,u64}]| result(for(x0, merger[{i32,u64},min], |x1, x2, x3| merge(x1, select(x3.$0 > 3, {2147483647, u64(-1)}, x3))))",
    ),
    (
        "|v: vec[i64]| let r = for(v, {merger[i64,+], merger[i64,+]}, |b, i, x| {if(x > 0L, merge(b.$0, x), b.$0), merge(b.$1, 1L)}); result(r.$0) / result(r.$1)",
        "|x0: vec[i64]| let x1 = for(x0, {merger[i64,+], merger[i64,+]}, |x2, x3, x4| {merge(x2.$0, select(x4 > 0L, x4, 0L)), merge(x2.$1, 1L)}); result(x1.$0) / result(x1.$1)",
    ),
    (
        "|v: vec[i64]| result(for(v, merger[i64,+], |b, i, x| if(x > 0L, merge(b, 6L / x), b)))",
        "|x0: vec[i64]| result(for(x0, merger[i64,+], |x1, x2, x3| if(x3 > 0L, merge(x1, 6L / x3), x1)))",
    ),
    (
        "|v: vec[i64]| result(for(v, dictmerger[i64,i64,+], |b, i, x| if(x > 9L, merge(b, {x, 1L}), b)))",
        "|x0: vec[i64]| result(for(x0, dictmerger[i64,i64,+], |x1, x2, x3| if(x3 > 9L, merge(x1, {x3, 1L}), x1)))",
    ),
];

/// Programs of which one pass makes work for the other.
static NORMAL: [(&str, &str); 2] = [
    (
        "|v: vec[i64]| let t = 2L; result(for(v, merger[i64,+], |b, i, x| let y = x * x; if(x > t, merge(b, y), b)))",
        "|x0: vec[i64]| result(for(x0, merger[i64,+], |x1, x2, x3| merge(x1, select(x3 > 2L, x3 * x3, 0L))))",
    ),
    (
        "|v: vec[i64]| let n = len(v); let m = n; m + 1L / m",
        "|x0: vec[i64]| let x1 = len(x0); x1 + (1L / x1)",
    ),
];

#[test]
fn guarded_merges_are_merged_always(rt: HostRuntime) -> Result<(), Fail> {
    for (text, answer) in &GUARDS {
        if !is_predicated(rt.alloc(), text, answer)? {
            return Err(Fail::from(*text));
        }
    }
    Ok(())
}

#[test]
fn normal_forms(rt: HostRuntime) -> Result<(), Fail> {
    for (text, answer) in &NORMAL {
        if !is_optimised(rt.alloc(), text, answer)? {
            return Err(Fail::from(*text));
        }
    }
    Ok(())
}
