//! Turns lowered to instructions on words, where all their numbers are of kind i64. What follows a choice is lowered for each of
//! its arms, so that a turn is one way through; how much is lowered is counted, with the nodes of code, and no more than that.

ghost use Rattle.std.specs.Prelude.{◌≤◌, IfOk};
ghost use Rattle.weld_turns.specs.Lowering.{ended_at, either_then, filled_then, put_then, rest_value, settled, Lowers};

use crate::code::{Code, Filling, Shape, Turn, Unmade, room};
use crate::lower_code::{fork, put_code};
use crate::rest::{Rest, either, end, fill, of_turn, put};
use crate::slots::SLOTS;
use crate::step::Step;
use crate::words::truth_in;
use std::alloc::Global;

/// The instructions of what is still to be done of a turn on a state of that shape; at most so many more are made.
#[cycle(lower)]
pub fn lower(rest: &Rest, shape: Shape, left: &mut usize, alloc: Global) -> Result<Step, Unmade>
    ensures lowered { IfOk result (λ t. Lowers shape t (rest_value rest.now)) }
    ensures left { left.new ≤ left.old }
{
    if *left == 0 {
        return Err(Unmade::Other);
    }
    *left -= 1;
    match rest {
        Rest::Turn(turn) => lower_turn(turn, shape, left, alloc),
        Rest::Fill(filling, rest) => lower_filling(filling, rest, shape, left, alloc),
        Rest::Put(to, code, rest) => lower_put(*to, code, rest, shape, left, alloc),
        Rest::Either(test, x, y) => lower_test(test, x, y, shape, left, alloc),
        Rest::End(first, go) => lower_end(*first, *go, shape),
    }
}

/// Takes what code counts off what may still be made; tells whether that was as much.
fn spend(code: &Code, left: &mut usize) -> bool
    ensures { left.new ≤ left.old }
{
    let size = size_of(code);
    if size > *left {
        return false;
    }
    *left -= size;
    true
}

/// How many nodes code has, where all are slots, literals, operators between such and opposites of such; else there is no end to it,
/// as nothing else is lowered.
#[cycle(size_of)]
fn size_of(code: &Code) -> usize {
    match code {
        Code::Slot(_) | Code::Literal(_) => 1,
        Code::Work(_, x, y) => size_of(x).saturating_add(size_of(y)).saturating_add(1),
        Code::Opposite(x) => size_of(x).saturating_add(1),
        _ => usize::MAX,
    }
}

/// The end of a turn.
fn lower_end(first: usize, go: bool, shape: Shape) -> Result<Step, Unmade>
    ensures { IfOk result (λ t. Lowers shape t (ended_at first go)) }
{
    if first < SLOTS && first + room(shape) <= SLOTS {
        Ok(Step::End(first, go))
    } else {
        Err(Unmade::Other)
    }
}

/// A turn.
#[cycle(lower)]
fn lower_turn(turn: &Turn, shape: Shape, left: &mut usize, alloc: Global) -> Result<Step, Unmade>
    ensures lowered { IfOk result (λ t. Lowers shape t (settled turn.now)) }
    ensures left { left.new ≤ left.old }
{
    match turn {
        Turn::First(filling, rest) => {
            let after = of_turn(rest);
            let whole = fill(filling, &after);
            lower(&whole, shape, left, alloc)
        }
        Turn::Either(test, x, y) => {
            let (yes, no) = (of_turn(x), of_turn(y));
            let whole = either(test, &yes, &no);
            lower(&whole, shape, left, alloc)
        }
        Turn::End(first, test) => {
            let (yes, no) = (end(*first, true), end(*first, false));
            let whole = either(test, &yes, &no);
            lower(&whole, shape, left, alloc)
        }
    }
}

/// Slots filled, and what follows.
#[cycle(lower)]
fn lower_filling(
    filling: &Filling,
    rest: &Rest,
    shape: Shape,
    left: &mut usize,
    alloc: Global,
) -> Result<Step, Unmade>
    ensures lowered { IfOk result (λ t. Lowers shape t (filled_then filling.now
        (rest_value rest.now))) }
    ensures left { left.new ≤ left.old }
{
    match filling {
        Filling::Put(to, code) => {
            let whole = put(*to, code, &*rest);
            lower(&whole, shape, left, alloc)
        }
        Filling::Then(x, y) => {
            let after = fill(y, &*rest);
            let whole = fill(x, &after);
            lower(&whole, shape, left, alloc)
        }
        Filling::Either(test, x, y) => {
            let yes = fill(x, &*rest);
            let no = fill(y, &*rest);
            let whole = either(test, &yes, &no);
            lower(&whole, shape, left, alloc)
        }
    }
}

/// A number put into a slot, and what follows.
#[cycle(lower)]
fn lower_put(
    to: usize,
    code: &Code,
    rest: &Rest,
    shape: Shape,
    left: &mut usize,
    alloc: Global,
) -> Result<Step, Unmade>
    ensures lowered { IfOk result (λ t. Lowers shape t (put_then to code.now
        (rest_value rest.now))) }
    ensures left { left.new ≤ left.old }
{
    if to >= SLOTS || !spend(code, left) {
        return Err(Unmade::Other);
    }
    match lower(rest, shape, left, alloc) {
        Ok(after) => put_code(code, to, SLOTS, after, alloc),
        Err(unmade) => Err(unmade),
    }
}

/// By a truth value the one or the other.
#[cycle(lower)]
fn lower_test(
    test: &Code,
    x: &Rest,
    y: &Rest,
    shape: Shape,
    left: &mut usize,
    alloc: Global,
) -> Result<Step, Unmade>
    ensures lowered { IfOk result (λ t. Lowers shape t (either_then test.now (rest_value x.now)
        (rest_value y.now))) }
    ensures left { left.new ≤ left.old }
{
    match test {
        Code::Contrary(test) => {
            let whole = either(test, &*y, &*x);
            lower(&whole, shape, left, alloc)
        }
        Code::Choice(test, first, second) => {
            let yes = either(first, &*x, &*y);
            let no = either(second, &*x, &*y);
            let whole = either(test, &yes, &no);
            lower(&whole, shape, left, alloc)
        }
        Code::Literal(n) => match truth_in(n.kind, n.word) {
            Ok(true) => lower(x, shape, left, alloc),
            Ok(false) => lower(y, shape, left, alloc),
            Err(_) => Err(Unmade::Other),
        },
        _ => lower_fork(test, x, y, shape, left, alloc),
    }
}

/// The same where an operator tells the truth value.
#[cycle(lower)]
fn lower_fork(
    test: &Code,
    x: &Rest,
    y: &Rest,
    shape: Shape,
    left: &mut usize,
    alloc: Global,
) -> Result<Step, Unmade>
    ensures lowered { IfOk result (λ t. Lowers shape t (either_then test.now (rest_value x.now)
        (rest_value y.now))) }
    ensures left { left.new ≤ left.old }
{
    if !spend(test, left) {
        return Err(Unmade::Other);
    }
    let yes = match lower(x, shape, left, alloc) {
        Ok(yes) => yes,
        Err(unmade) => return Err(unmade),
    };
    match lower(y, shape, left, alloc) {
        Ok(no) => fork(test, yes, no, alloc),
        Err(unmade) => Err(unmade),
    }
}
