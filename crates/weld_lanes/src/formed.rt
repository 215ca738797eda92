//! Whether steps may stand one after another.

ghost use Rattle.std.specs.Prelude.{◌≡◌, ◌+◌, ◌≤◌, nat_lt, length};
ghost use Rattle.weld_data.specs.Kind as kinds;
ghost use Rattle.weld_lanes.specs.Formed.{is_formed, are_formed, is_arithmetic, is_comparison};

use crate::steps::LaneStep;
use weld_data::{BinOp, Kind};

/// Whether each of the steps may stand in its place: it names earlier ones alone, its operator is of its sort, and a literal is
/// a number of the kind. It takes no memory.
pub fn are_steps(kind: Kind, steps: &[LaneStep]) -> bool
    ensures { result ≡ are_formed kind 0 steps.now }
{
    are_behind(kind, 0, steps)
}

/// The same behind so many others.
fn are_behind(kind: Kind, before: usize, steps: &[LaneStep]) -> bool
    requires { before + length steps.now ≤ usize.MAX }
    ensures { result ≡ are_formed kind before steps.now }
{
    match steps {
        [] => true,
        [first, rest @ ..] => {
            may_stand(kind, before, *first) && are_behind(kind, before + 1, rest)
        }
    }
}

/// Whether the step may stand behind so many others.
fn may_stand(kind: Kind, before: usize, step: LaneStep) -> bool
    ensures { result ≡ is_formed kind before step }
{
    match step {
        LaneStep::A | LaneStep::B | LaneStep::Uniform(_) | LaneStep::Truth(_) => true,
        LaneStep::Lit(x) => least(kind) <= x && x <= greatest(kind),
        LaneStep::Arith(op, i, j) => is_arithmetic(op)
            && is_below(i, before)
            && is_below(j, before),
        LaneStep::Compare(op, i, j) => is_comparison(op)
            && is_below(i, before)
            && is_below(j, before),
        LaneStep::Not(i) => is_below(i, before),
        LaneStep::And(i, j) | LaneStep::Or(i, j) => is_below(i, before) && is_below(j, before),
        LaneStep::Select(truths, i, j) => {
            is_below(truths, before) && is_below(i, before) && is_below(j, before)
        }
    }
}

fn is_below(place: u32, before: usize) -> bool
    ensures { result ≡ nat_lt place before }
{
    (place as usize) < before
}

/// Whether the operator is one of arithmetic that always answers. It takes no memory.
pub fn is_arithmetic(op: BinOp) -> bool
    ensures { result ≡ is_arithmetic op }
{
    match op {
        BinOp::Add | BinOp::Sub | BinOp::Mul => true,
        _ => false,
    }
}

/// Whether the operator compares. It takes no memory.
pub fn is_comparison(op: BinOp) -> bool
    ensures { result ≡ is_comparison op }
{
    match op {
        BinOp::Add | BinOp::Sub | BinOp::Mul | BinOp::Div | BinOp::Rem => false,
        _ => true,
    }
}

/// The least number of the kind.
fn least(kind: Kind) -> i128
    ensures { result ≡ kinds.least kind }
{
    match kind {
        Kind::I8 => i128::from(i8::MIN),
        Kind::I16 => i128::from(i16::MIN),
        Kind::I32 => i128::from(i32::MIN),
        Kind::I64 => i128::from(i64::MIN),
        Kind::Bool | Kind::U8 | Kind::U16 | Kind::U32 | Kind::U64 => 0,
    }
}

/// The greatest number of the kind.
fn greatest(kind: Kind) -> i128
    ensures { result ≡ kinds.greatest kind }
{
    match kind {
        Kind::Bool => 1,
        Kind::I8 => i128::from(i8::MAX),
        Kind::I16 => i128::from(i16::MAX),
        Kind::I32 => i128::from(i32::MAX),
        Kind::I64 => i128::from(i64::MAX),
        Kind::U8 => i128::from(u8::MAX),
        Kind::U16 => i128::from(u16::MAX),
        Kind::U32 => i128::from(u32::MAX),
        Kind::U64 => i128::from(u64::MAX),
    }
}
