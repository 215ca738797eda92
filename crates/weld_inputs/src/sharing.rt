//! Blocks read side by side: they are cut into halves, which workers share as they share the bytes.

ghost use Rattle.std.specs.Prelude.{◌≡◌, ◌<◌, ◌+◌, ◌++◌, ◌^◌, ℕ, List, length, IfOk, IfErr};
ghost use Rattle.std.specs.List.{All};
ghost use Rattle.std.specs.Thread.{IsSync};
ghost use Rattle.weld_inputs.specs.Arguments.{Tells};
ghost use Rattle.weld_inputs.specs.Claims.{MayBeRead, ClaimsGive, ClaimsFail, IsReading};
ghost use Rattle.weld_inputs.specs.declared.claim.Claim.{Claim};

use crate::arguments::DataStop;
use crate::claim::{Claim, read_in_order};
use std::alloc::Global;
use std::thread::{Threads, join_mut};
use weld_data::Vals;

/// Blocks of fewer bytes are read by the thread that is there, since starting another takes longer than reading.
const SHORT: usize = 262_144;

/// How many bytes the blocks' contents have together.
fn size_of(claims: &[Claim<'_>]) -> usize {
    let mut size: usize = 0;
    for claim in claims {
        size = size.saturating_add(claim.size());
    }
    size
}

/// Where blocks are cut: before this place stand half of the bytes or more, unless the last block has more than half.
fn middle(claims: &[Claim<'_>]) -> usize
    requires { 1 < length claims.now }
    ensures some_first { 0 < result }
    ensures some_last { result < length claims.now }
{
    let half = size_of(claims) / 2;
    let mut size: usize = 0;
    for at in 1..claims.len() - 1 {
        size = size.saturating_add(claims[at - 1].size());
        if size >= half {
            return at;
        }
    }
    claims.len() - 1
}

/// How many of the workers read the blocks of so many bytes, where the others read those of the other bytes: as large a part of
/// them, at least one, and not all.
fn part_of(workers: u32, size: usize, other: usize) -> u32
    requires { 1 < workers }
    ensures some { 0 < result }
    ensures not_all { result < workers }
{
    let most = workers as usize - 1;
    let part = (workers as usize).saturating_mul(size) / size.saturating_add(other).max(1);
    part.max(1).min(most) as u32
}

/// The first values, and behind them the others.
fn append(values: Vals, more: Vals) -> Result<Vals, DataStop>
    ensures values { IfOk result (λ all. all ≡ values ++ more) }
    ensures memory { IfErr result (λ stop. stop ≡ DataStop.Memory) }
{
    let mut all = values;
    for value in more.into_vec() {
        match all.push(value) {
            Ok(()) => {}
            Err(_) => return Err(DataStop::Memory),
        }
    }
    Ok(all)
}

/// The values of both halves, or why the first gives none, or why the second doesn't.
fn both(front: Result<Vals, DataStop>, back: Result<Vals, DataStop>) -> Result<Vals, DataStop>
    ensures { (cs ds : List Claim) (first second : ℕ) → second ≡ first + length cs
        → IsReading cs first front → IsReading ds second back → IsReading (cs ++ ds) first result }
{
    match front {
        Ok(values) => match back {
            Ok(more) => append(values, more),
            Err(stop) => Err(stop),
        },
        Err(stop) => Err(stop),
    }
}

/// The values that the blocks give, the first of which has this number. Where several are long they are read side by side, by so
/// many workers.
#[cycle(halves)]
fn read_shared<R: Threads + Sync>(
    rt: &R,
    alloc: Global,
    claims: &[Claim<'_>],
    first: u64,
    workers: u32,
) -> Result<Vals, DataStop>
    requires may { All MayBeRead claims.now }
    requires some_worker { 0 < workers }
    requires numbers { first + length claims.now < 2 ^ 64 }
    ensures values { IfOk result (ClaimsGive claims.now) }
    ensures unfit { IfErr result (Tells (ClaimsFail claims.now first)) }
{
    if workers == 1 || claims.len() < 2 || size_of(claims) < SHORT {
        return read_in_order(rt, alloc, claims, first, workers);
    }
    let (front, back) = claims.split_at(middle(claims));
    if size_of(front) < SHORT || size_of(back) < SHORT {
        read_in_turn(rt, alloc, front, back, first, workers)
    } else {
        read_halves(rt, alloc, front, back, first, workers)
    }
}

/// The values that both halves give, of which the second is read where the first gives its values.
#[cycle(halves)]
fn read_in_turn<R: Threads + Sync>(
    rt: &R,
    alloc: Global,
    front: &[Claim<'_>],
    back: &[Claim<'_>],
    first: u64,
    workers: u32,
) -> Result<Vals, DataStop>
    requires may { All MayBeRead front.now × All MayBeRead back.now }
    requires some { (0 < length front.now) × (0 < length back.now) }
    requires some_worker { 0 < workers }
    requires numbers { first + length front.now + length back.now < 2 ^ 64 }
    ensures values { IfOk result (ClaimsGive (front.now ++ back.now)) }
    ensures unfit { IfErr result (Tells (ClaimsFail (front.now ++ back.now) first)) }
{
    let values = match read_shared(rt, alloc, front, first, workers) {
        Ok(values) => values,
        Err(stop) => return Err(stop),
    };
    let second = first + front.len() as u64;
    match read_shared(rt, alloc, back, second, workers) {
        Ok(more) => append(values, more),
        Err(stop) => Err(stop),
    }
}

/// The values that both halves give, which are read side by side.
#[cycle(halves)]
fn read_halves<R: Threads + Sync>(
    rt: &R,
    alloc: Global,
    front: &[Claim<'_>],
    back: &[Claim<'_>],
    first: u64,
    workers: u32,
) -> Result<Vals, DataStop>
    requires may { All MayBeRead front.now × All MayBeRead back.now }
    requires some { (0 < length front.now) × (0 < length back.now) }
    requires two_workers { 1 < workers }
    requires numbers { first + length front.now + length back.now < 2 ^ 64 }
    ensures values { IfOk result (ClaimsGive (front.now ++ back.now)) }
    ensures unfit { IfErr result (Tells (ClaimsFail (front.now ++ back.now) first)) }
{
    let second = first + front.len() as u64;
    let front_workers = part_of(workers, size_of(front), size_of(back));
    let back_workers = workers - front_workers;
    let mut read_front = || -> Result<Vals, DataStop>
        requires { IsSync R.row × All MayBeRead front.now × (0 < front_workers)
            × (first + length front.now < 2 ^ 64) }
        ensures { IsReading front.entry.now first result }
    { read_shared(rt, alloc, front, first, front_workers) };
    let mut read_back = || -> Result<Vals, DataStop>
        requires { IsSync R.row × All MayBeRead back.now × (0 < back_workers)
            × (second + length back.now < 2 ^ 64) }
        ensures { IsReading back.entry.now second result }
    { read_shared(rt, alloc, back, second, back_workers) };
    let (values, more) = join_mut(rt, &mut read_front, &mut read_back);
    both(values, more)
}

/// The values that the blocks give, the first of which has the number 1. Long ones are read side by side, by so many workers. The
/// first block in order that gives none is told, whatever is wrong with a later one.
pub(crate) fn read_claims(
    rt: &(impl Threads + Sync),
    alloc: Global,
    claims: &[Claim<'_>],
    workers: u32,
) -> Result<Vals, DataStop>
    requires may { All MayBeRead claims.now }
    requires some_worker { 0 < workers }
    ensures values { IfOk result (ClaimsGive claims.now) }
    ensures unfit { IfErr result (Tells (ClaimsFail claims.now 1)) }
{
    read_shared(rt, alloc, claims, 1, workers)
}
