use std::alloc::Global;
use std::test::Fail;
use weld_check_types::check_types;
use weld_parse::parse;
use weld_safe::never_faults;

/// Whether the body of the text's program is safe.
fn is_safe(alloc: Global, text: &str) -> Result<bool, Fail> {
    let Ok(program) = parse(alloc, text.as_bytes()) else {
        return Err(Fail::from(text));
    };
    match check_types(alloc, program) {
        Ok(typed) => Ok(never_faults(&typed.program.body)),
        Err(_) => Err(Fail::from(text)),
    }
}

/// Whether it is so of each text.
fn are_all(rt: &HostRuntime, texts: &[&str], wanted: bool) -> Result<(), Fail> {
    for text in texts {
        if is_safe(rt.alloc(), text)? != wanted {
            return Err(Fail::from(*text));
        }
    }
    Ok(())
}

static SAFE: [&str; 5] = [
    "|n: i64| select(n > 0L, -n, n * 3L)",
    "|s: {i64,bool}| if(s.$1 && true, s.$0, len(\"ab\"))",
    "|d: dict[i64,i64]| let k = keyexists(d, 1L); !k || k",
    "|v: vec[i64]| result(for(v, vecbuilder[i64], |b, i, x| if(x > 3L, merge(b, x), b)))",
    "|v: vec[i64]| result(for(v, dictmerger[i64,i64,+], |b, i, x| merge(b, {x, i})))",
];

static UNSAFE: [&str; 8] = [
    "|n: i64| 1L / n",
    "|n: i64| 1L % n",
    "|v: vec[i64]| lookup(v, 0L)",
    "|v: vec[i64]| slice(v, 0L, 1L)",
    "|v: vec[i64]| result(for(iter(v, 0L, 1L, 1L), merger[i64,+], |b, i, x| merge(b, x)))",
    "|v: vec[i64]| result(for(zip(v, v), merger[i64,+], |b, i, x| merge(b, x.$0)))",
    "iterate(1L, |s| {s + 1L, s < 5L})",
    "|v: vec[i64]| result(for(v, vecmerger[i64,+](v), |b, i, x| merge(b, {i, x})))",
];

#[test]
fn what_cannot_fault_is_safe(rt: HostRuntime) -> Result<(), Fail> {
    are_all(&rt, &SAFE, true)
}

#[test]
fn what_can_fault_is_not(rt: HostRuntime) -> Result<(), Fail> {
    are_all(&rt, &UNSAFE, false)
}
