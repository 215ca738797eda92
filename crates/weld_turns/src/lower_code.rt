//! Numbers of kind i64 and their comparisons lowered to instructions on words, before what follows them.

ghost use Rattle.std.specs.Prelude.{◌≡◌, ◌≤◌, ℕ, pos, neg_ℤ, FitsSigned, IfOk, IfSome};
ghost use Rattle.weld_data.specs.declared.op.BinOp.TheVariants as ops;
ghost use Rattle.std.specs.Int.{w64};
ghost use Rattle.weld_data.specs.declared.kind.Kind.TheVariants as kinds;
ghost use Rattle.weld_data.specs.Value.{number};
ghost use Rattle.weld_eval.specs.ShortView.{view_short};
ghost use Rattle.weld_turns.specs.declared.code.Code as codes;
ghost use Rattle.weld_turns.specs.declared.step.Operand.TheVariants as operands;
ghost use Rattle.weld_turns.specs.Lowering.{operand_or, shared, slot_or, Brings, Forks, IsFork, IsForkOf, IsOppositePut, IsWordPut, IsWorkPut, MayBeAtHand, MayHaveSlot, Puts, Works};

use crate::code::{Code, Unmade};
use crate::run_steps::WORDS;
use crate::slots::SLOTS;
use crate::step::{Operand, Step};
use std::alloc::Global;
use weld_data::{BinOp, Kind};
use weld_eval::short::Short;

/// The instructions in a box.
fn in_box(step: Step, alloc: Global) -> Result<Box<Step>, Unmade>
    ensures { IfOk result (λ t. t.value ≡ step) }
{
    match Box::new(alloc, step) {
        Ok(step) => Ok(step),
        Err(_) => Err(Unmade::Memory),
    }
}

/// The word of a number of kind i64.
fn word_of(n: Short) -> Option<i64>
    ensures number { IfSome result (λ x. view_short n ≡ number kinds.I64 x) }
    ensures fits { IfSome result (λ x. FitsSigned w64 x) }
{
    match n.kind {
        Kind::I64 => Some(n.word),
        _ => None,
    }
}

/// The place of a slot that the code is.
fn slot_of(code: &Code) -> Option<usize>
    ensures { MayHaveSlot code.now result }
{
    match code {
        Code::Slot(i) if *i < SLOTS => Some(*i),
        _ => None,
    }
}

/// What the code is that is at hand: a slot, or a literal of kind i64.
fn at_hand(code: &Code) -> Option<Operand>
    ensures { MayBeAtHand code.now result }
{
    match code {
        Code::Literal(n) => match word_of(*n) {
            Some(x) => Some(Operand::Word(x)),
            None => None,
        },
        _ => match slot_of(code) {
            Some(i) => Some(Operand::Place(i)),
            None => None,
        },
    }
}

/// What puts the number that the code comes to into a place, before what follows; the places from one on, which are no slots,
/// are taken between.
#[cycle(put)]
pub fn put_code(
    code: &Code,
    to: usize,
    below: usize,
    rest: Step,
    alloc: Global,
) -> Result<Step, Unmade>
    requires { shared ≤ below }
    ensures { IfOk result (λ t. Puts t rest code.now to below) }
{
    match code {
        Code::Slot(i) => put_slot(*i, to, rest, alloc),
        Code::Literal(n) => put_literal(*n, to, rest, alloc),
        Code::Work(op, x, y) => put_work(*op, x, y, to, below, rest, alloc),
        Code::Opposite(x) => put_opposite(x, to, below, rest, alloc),
        _ => Err(Unmade::Other),
    }
}

/// The same of a wrapped opposite, which is the product with -1.
#[cycle(put)]
fn put_opposite(
    x: &Code,
    to: usize,
    below: usize,
    rest: Step,
    alloc: Global,
) -> Result<Step, Unmade>
    requires { shared ≤ below }
    ensures { IfOk result (λ t. IsOppositePut t rest x.now to below) }
{
    if below >= WORDS {
        return Err(Unmade::Other);
    }
    let slot = slot_of(x);
    let last = match times_minus_one(to, place_or(slot, below), rest, alloc) {
        Ok(last) => last,
        Err(unmade) => return Err(unmade),
    };
    bring_place(x, slot, below, last, alloc)
}

/// The product with -1, and what follows it.
fn times_minus_one(to: usize, left: usize, rest: Step, alloc: Global) -> Result<Step, Unmade>
    ensures { IfOk result (λ t. Works t rest ops.Mul to left (operands.Word (neg_ℤ (pos 1)))) }
{
    match in_box(rest, alloc) {
        Ok(rest) => work_word(BinOp::Mul, to, left, -1, rest),
        Err(unmade) => Err(unmade),
    }
}

/// The same of a slot.
#[tactic(auto, using(crate::proofs::LowerLemmas::slot_puts))]
fn put_slot(i: usize, to: usize, rest: Step, alloc: Global) -> Result<Step, Unmade>
    ensures { IfOk result (λ t. (below : ℕ) → Puts t rest (codes.Slot i) to below) }
{
    if i >= SLOTS {
        return Err(Unmade::Other);
    }
    match in_box(rest, alloc) {
        Ok(rest) => Ok(Step::Copy(to, i, rest)),
        Err(unmade) => Err(unmade),
    }
}

/// The same of a literal.
fn put_literal(n: Short, to: usize, rest: Step, alloc: Global) -> Result<Step, Unmade>
    ensures { IfOk result (λ t. (below : ℕ) → Puts t rest (codes.Literal n) to below) }
{
    match word_of(n) {
        Some(x) => put_word(x, to, rest, alloc),
        None => Err(Unmade::Other),
    }
}

/// What puts a word into a place.
fn put_word(x: i64, to: usize, rest: Step, alloc: Global) -> Result<Step, Unmade>
    ensures { IfOk result (λ t. IsWordPut t rest x to) }
{
    match in_box(rest, alloc) {
        Ok(rest) => Ok(Step::Put(to, x, rest)),
        Err(unmade) => Err(unmade),
    }
}

/// The same of an operator.
#[cycle(put)]
#[tactic(auto, using(crate::proofs::LowerLemmas::work_puts))]
fn put_work(
    op: BinOp,
    x: &Code,
    y: &Code,
    to: usize,
    below: usize,
    rest: Step,
    alloc: Global,
) -> Result<Step, Unmade>
    requires { shared ≤ below }
    ensures { IfOk result (λ t. IsWorkPut t rest op x.now y.now to below) }
{
    if below >= WORDS - 2 {
        return Err(Unmade::Other);
    }
    let (first, second) = (slot_of(x), at_hand(y));
    let last = match work_step(
        op,
        to,
        place_or(first, below),
        operand_for(second, below + 1),
        rest,
        alloc,
    ) {
        Ok(last) => last,
        Err(unmade) => return Err(unmade),
    };
    let next = match bring(y, second, below + 1, last, alloc) {
        Ok(next) => next,
        Err(unmade) => return Err(unmade),
    };
    bring_place(x, first, below, next, alloc)
}

/// The place of a slot, or else this one.
fn place_or(slot: Option<usize>, place: usize) -> usize
    ensures { result ≡ slot_or slot place }
{
    match slot {
        Some(i) => i,
        None => place,
    }
}

/// What is at hand, or else the word of this place.
fn operand_for(hand: Option<Operand>, place: usize) -> Operand
    ensures { result ≡ operand_or hand place }
{
    match hand {
        Some(operand) => operand,
        None => Operand::Place(place),
    }
}

/// Before what follows, what brings the number that the code comes to to a place, where it isn't at hand.
#[cycle(put)]
#[tactic(auto, using(crate::proofs::LowerLemmas::hand_brings, crate::proofs::LowerLemmas::put_brings))]
fn bring(
    code: &Code,
    hand: Option<Operand>,
    place: usize,
    rest: Step,
    alloc: Global,
) -> Result<Step, Unmade>
    requires place { shared ≤ place }
    requires hand { MayBeAtHand code.now hand }
    ensures { IfOk result (λ t. Brings t rest code.now (operand_or hand place) place) }
{
    if place >= WORDS {
        return Err(Unmade::Other);
    }
    match hand {
        Some(_) => Ok(rest),
        None => put_code(code, place, place, rest, alloc),
    }
}

/// The same where it isn't a slot.
#[cycle(put)]
#[tactic(auto, using(crate::proofs::LowerLemmas::slot_brings, crate::proofs::LowerLemmas::put_brings))]
fn bring_place(
    code: &Code,
    slot: Option<usize>,
    place: usize,
    rest: Step,
    alloc: Global,
) -> Result<Step, Unmade>
    requires place { shared ≤ place }
    requires slot { MayHaveSlot code.now slot }
    ensures { IfOk result (λ t. Brings t rest code.now (operands.Place (slot_or slot place))
        place) }
{
    if place >= WORDS {
        return Err(Unmade::Other);
    }
    match slot {
        Some(_) => Ok(rest),
        None => put_code(code, place, place, rest, alloc),
    }
}

/// An operator's instruction, and what follows it.
fn work_step(
    op: BinOp,
    to: usize,
    left: usize,
    right: Operand,
    rest: Step,
    alloc: Global,
) -> Result<Step, Unmade>
    ensures { IfOk result (λ t. Works t rest op to left right) }
{
    let rest = match in_box(rest, alloc) {
        Ok(rest) => rest,
        Err(unmade) => return Err(unmade),
    };
    match right {
        Operand::Place(j) => work_places(op, to, left, j, rest),
        Operand::Word(y) => work_word(op, to, left, y, rest),
    }
}

/// The same of two places.
fn work_places(op: BinOp, to: usize, left: usize, j: usize, rest: Box<Step>) -> Result<Step, Unmade>
    ensures { IfOk result (λ t. Works t rest.value op to left (operands.Place j)) }
{
    match op {
        BinOp::Add => Ok(Step::Sum(to, left, j, rest)),
        BinOp::Sub => Ok(Step::Difference(to, left, j, rest)),
        BinOp::Mul => Ok(Step::Product(to, left, j, rest)),
        BinOp::Div => Ok(Step::Quotient(to, left, j, rest)),
        BinOp::Rem => Ok(Step::Remainder(to, left, j, rest)),
        _ => Err(Unmade::Other),
    }
}

/// The same of a place and a word.
fn work_word(op: BinOp, to: usize, left: usize, y: i64, rest: Box<Step>) -> Result<Step, Unmade>
    ensures { IfOk result (λ t. Works t rest.value op to left (operands.Word y)) }
{
    match op {
        BinOp::Add => Ok(Step::SumWith(to, left, y, rest)),
        BinOp::Sub => Ok(Step::DifferenceWith(to, left, y, rest)),
        BinOp::Mul => Ok(Step::ProductWith(to, left, y, rest)),
        BinOp::Div => Ok(Step::QuotientWith(to, left, y, rest)),
        BinOp::Rem => Ok(Step::RemainderWith(to, left, y, rest)),
        _ => Err(Unmade::Other),
    }
}

/// By a comparison of two numbers the one or the other.
pub fn fork(test: &Code, yes: Step, no: Step, alloc: Global) -> Result<Step, Unmade>
    ensures { IfOk result (λ t. IsFork t yes no test.now) }
{
    match test {
        Code::Work(op, x, y) => fork_work(*op, x, y, yes, no, alloc),
        _ => Err(Unmade::Other),
    }
}

/// The same by the operator.
#[tactic(auto, using(crate::proofs::LowerLemmas::fork_lowers))]
fn fork_work(
    op: BinOp,
    x: &Code,
    y: &Code,
    yes: Step,
    no: Step,
    alloc: Global,
) -> Result<Step, Unmade>
    ensures { IfOk result (λ t. IsForkOf t yes no op x.now y.now) }
{
    let (first, second) = (slot_of(x), at_hand(y));
    let left = place_or(first, SLOTS);
    let right = operand_for(second, SLOTS + 1);
    let last = match fork_step(op, left, right, yes, no, alloc) {
        Ok(last) => last,
        Err(unmade) => return Err(unmade),
    };
    let next = match bring(y, second, SLOTS + 1, last, alloc) {
        Ok(next) => next,
        Err(unmade) => return Err(unmade),
    };
    bring_place(x, first, SLOTS, next, alloc)
}

/// The instruction of a comparison.
fn fork_step(
    op: BinOp,
    left: usize,
    right: Operand,
    yes: Step,
    no: Step,
    alloc: Global,
) -> Result<Step, Unmade>
    ensures { IfOk result (λ t. Forks t yes no op left right) }
{
    let yes = match in_box(yes, alloc) {
        Ok(yes) => yes,
        Err(unmade) => return Err(unmade),
    };
    let no = match in_box(no, alloc) {
        Ok(no) => no,
        Err(unmade) => return Err(unmade),
    };
    match right {
        Operand::Place(j) => fork_places(op, left, j, yes, no),
        Operand::Word(y) => fork_word(op, left, y, yes, no),
    }
}

/// The same of two places.
fn fork_places(
    op: BinOp,
    left: usize,
    j: usize,
    yes: Box<Step>,
    no: Box<Step>,
) -> Result<Step, Unmade>
    ensures { IfOk result (λ t. Forks t yes.value no.value op left (operands.Place j)) }
{
    match op {
        BinOp::Eq => Ok(Step::IfEqual(left, j, yes, no)),
        BinOp::Ne => Ok(Step::IfEqual(left, j, no, yes)),
        BinOp::Lt => Ok(Step::IfLess(left, j, yes, no)),
        BinOp::Le => Ok(Step::IfAtMost(left, j, yes, no)),
        BinOp::Gt => Ok(Step::IfLess(j, left, yes, no)),
        BinOp::Ge => Ok(Step::IfAtMost(j, left, yes, no)),
        _ => Err(Unmade::Other),
    }
}

/// The same of a place and a word.
fn fork_word(op: BinOp, left: usize, y: i64, yes: Box<Step>, no: Box<Step>) -> Result<Step, Unmade>
    ensures { IfOk result (λ t. Forks t yes.value no.value op left (operands.Word y)) }
{
    match op {
        BinOp::Eq => Ok(Step::IfEqualWith(left, y, yes, no)),
        BinOp::Ne => Ok(Step::IfEqualWith(left, y, no, yes)),
        BinOp::Lt => Ok(Step::IfLessWith(left, y, yes, no)),
        BinOp::Le => Ok(Step::IfAtMostWith(left, y, yes, no)),
        BinOp::Gt => Ok(Step::IfMoreWith(left, y, yes, no)),
        BinOp::Ge => Ok(Step::IfAtLeastWith(left, y, yes, no)),
        _ => Err(Unmade::Other),
    }
}
