ghost use Rattle.std.specs.Prelude.{◌≡◌, ◌<◌, length, IfOk};
ghost use Rattle.weld_data.specs.Kind.{IsInteger};

use std::alloc::{AllocError, Global};
use std::test::Fail;
use weld_data::{BinOp, Kind, MergeOp, wrap};
use weld_lanes::{Lane, LaneProgram, LaneStep, Scratch, are_steps, fold_lanes, map_lanes};

/// The product of both columns' numbers where the first is less, else the number that is the same for all rows.
static STEPS: [LaneStep; 6] = [
    LaneStep::A,
    LaneStep::B,
    LaneStep::Compare(BinOp::Lt, 0, 1),
    LaneStep::Arith(BinOp::Mul, 0, 1),
    LaneStep::Uniform(0),
    LaneStep::Select(2, 3, 4),
];

/// How many rows there are: none, and some about the lengths of vectors that a processor works on.
static LENGTHS: [usize; 9] = [0, 1, 7, 8, 9, 31, 32, 33, 65];

/// A small number as one of the kind.
fn small<L: Lane>(x: u8) -> L {
    let mut number = L::of_truth(false);
    for _ in 0..x {
        number = number.sum(L::of_truth(true));
    }
    number
}

/// So many small numbers, which come again after some.
fn column<L: Lane + Drop>(
    alloc: Global,
    count: usize,
    step: u8,
    after: u8,
) -> Result<Vec<L>, AllocError>
    requires { 0 < after }
    ensures { IfOk result (λ numbers. length numbers.items ≡ count) }
{
    let mut numbers = vec![in alloc; L::of_truth(false); count]?;
    let mut next: u8 = 0;
    for i in 0..count {
        numbers[i] = small::<L>(next);
        next = next.wrapping_add(step) % after;
    }
    Ok(numbers)
}

/// What the steps come to by themselves.
fn plain(kind: Kind, x: i128, y: i128) -> i128
    requires { IsInteger kind }
{
    if x < y {
        wrap(kind, x.wrapping_mul(y))
    } else {
        7
    }
}

/// Whether both kernels make of so many rows what a plain loop makes of them.
fn agrees<L: Lane + Drop>(alloc: Global, kind: Kind, count: usize) -> Result<bool, Fail>
    requires kind { kind ≡ L.kind }
    requires integer { IsInteger kind }
{
    let steps = Vec::from_slice(alloc, &STEPS)?;
    if steps.is_empty() || !are_steps(kind, &steps) {
        return Err(Fail::from("no steps"));
    }
    let program = LaneProgram::new(kind, steps);
    let first = column::<L>(alloc, count, 13, 50)?;
    let second = column::<L>(alloc, count, 7, 31)?;
    let uniforms = vec![in alloc; small::<L>(7); 1]?;
    let mut out = vec![in alloc; L::of_truth(false); count]?;
    let mut scratch = Scratch::new(&program, alloc)?;
    map_lanes(&program, &mut scratch, &first, &second, &uniforms, &mut out);
    let start = small::<L>(5);
    let total = fold_lanes(
        &program,
        &mut scratch,
        &first,
        &second,
        &uniforms,
        MergeOp::Add,
        start,
    );
    let mut sum: i128 = 5;
    for i in 0..count {
        let answer = plain(kind, first[i].to_wide(), second[i].to_wide());
        if out[i].to_wide() != answer {
            return Ok(false);
        }
        sum = wrap(kind, sum.wrapping_add(answer));
    }
    Ok(total.to_wide() == sum)
}

/// The same of each length.
fn agrees_at_all<L: Lane + Drop>(alloc: Global, kind: Kind) -> Result<bool, Fail>
    requires kind { kind ≡ L.kind }
    requires integer { IsInteger kind }
{
    for count in &LENGTHS {
        if !agrees::<L>(alloc, kind, *count)? {
            return Ok(false);
        }
    }
    Ok(true)
}

#[test]
fn kernels_are_plain_loops(rt: HostRuntime) -> Result<(), Fail> {
    assert!(rt; agrees_at_all::<i32>(rt.alloc(), Kind::I32)?);
    assert!(rt; agrees_at_all::<i64>(rt.alloc(), Kind::I64)?);
    assert!(rt; agrees_at_all::<u8>(rt.alloc(), Kind::U8)?);
    assert!(rt; agrees_at_all::<u32>(rt.alloc(), Kind::U32)?);
    assert!(rt; agrees_at_all::<u64>(rt.alloc(), Kind::U64)?);
    Ok(())
}
