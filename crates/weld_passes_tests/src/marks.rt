//! Loops of the lane form, and their steps.

use crate::passing::accept_text;
use std::alloc::Global;
use std::test::Fail;
use weld_lane_form::mark_lanes;

/// Programs, and how many steps the mark of each of their loops has: none where the loop isn't of the form.
static MARKED: [(&str, &[usize]); 9] = [
    (
        "|v: vec[i64]| result(for(v, merger[i64,+], |b, i, x| merge(b, x * x)))",
        &[3],
    ),
    (
        "|v: vec[u8], w: vec[u8]| result(for(zip(v, w), vecbuilder[u8], |b, i, x| merge(b, x.$0 + x.$1)))",
        &[3],
    ),
    (
        "|v: vec[i64], n: i64| result(for(v, merger[i64,min], |b, i, x| merge(b, select(x > n && !(x == 9L), x - n, n * n))))",
        &[15],
    ),
    (
        "|v: vec[i32]| result(for(v, merger[i32,+], |b, i, x| let y = x * x; let z = y + 1; merge(b, y)))",
        &[7],
    ),
    (
        "|v: vec[u32]| result(for(v, merger[u32,+], |b, i, x| let t = select(x > u32(3), x < u32(9), false); merge(b, select(t, x, u32(0)))))",
        &[14],
    ),
    (
        "|v: vec[i64]| result(for(v, merger[i64,+], |b, i, x| merge(b, x * i)))",
        &[0],
    ),
    (
        "|v: vec[i64]| result(for(v, merger[i64,+], |b, i, x| merge(b, x / 2L)))",
        &[0],
    ),
    (
        "|v: vec[i64]| result(for(result(for(v, vecbuilder[i64], |b, i, x| merge(b, x))), merger[i64,+](1L), |c, j, y| merge(c, y)))",
        &[0, 1],
    ),
    ("1L + 2L", &[]),
];

/// Whether the loops of the text's program have so many steps.
fn is_marked(alloc: Global, text: &str, counts: &[usize]) -> Result<bool, Fail> {
    let accepted = match accept_text(alloc, text.as_bytes()) {
        Ok(accepted) => accepted,
        Err(_) => return Err(Fail::from(text)),
    };
    let marks = mark_lanes(alloc, &accepted)?;
    if marks.len() != counts.len() {
        return Ok(false);
    }
    for i in 0..counts.len() {
        let steps = match &marks[i] {
            Some(made) => made.program.steps.len(),
            None => 0,
        };
        if steps != counts[i] {
            return Ok(false);
        }
    }
    Ok(true)
}

#[test]
fn loops_of_the_lane_form_have_steps(rt: HostRuntime) -> Result<(), Fail> {
    for (text, counts) in &MARKED {
        assert!(rt; is_marked(rt.alloc(), text, counts)?, "{text}");
    }
    Ok(())
}
