//! What is put into slots that stands in other slots already, or outside.

ghost use Rattle.std.specs.Prelude.{◌≡◌, ◌+◌, ◌<◌, ◌≤◌, [], ◌∷◌, length, drop, IfOk};
ghost use Rattle.weld_data.specs.Value.{values};
ghost use Rattle.weld_eval.specs.ShortView.{view_short};
ghost use Rattle.weld_turns.specs.Fillings.{Copies, CopiesFields, IsWork, Picks, PutsFields};
ghost use Rattle.weld_turns.specs.Scopes.{room_of};
ghost use Rattle.weld_turns.specs.declared.code.Code as codes;

use crate::code::{Code, Filling, MOST_FIELDS, Shape, Unmade};
use crate::slots::SLOTS;
use std::alloc::Global;
use weld_data::{BinOp, Vals};
use weld_eval::number::number_of;
use weld_eval::short::Short;

/// A filling in a box.
pub fn in_box(filling: Filling, alloc: Global) -> Result<Box<Filling>, Unmade>
    ensures { IfOk result (λ t. t.value ≡ filling) }
{
    match Box::new(alloc, filling) {
        Ok(filling) => Ok(filling),
        Err(_) => Err(Unmade::Memory),
    }
}

/// What stands from one slot on is put into those from another on, which lie apart from these or before them.
#[tactic(auto, using(crate::proofs::Copying::one_copied, crate::proofs::Fields::copies_close))]
pub fn copied(shape: Shape, from: usize, first: usize, alloc: Global) -> Result<Filling, Unmade>
    requires { from < first → from + room_of shape ≤ first }
    ensures { IfOk result (λ t. Copies t shape from first) }
{
    match shape {
        Shape::One => Ok(Filling::Put(first, Code::Slot(from))),
        Shape::Fields(count) => copied_fields(count as usize, from, first, alloc),
    }
}

/// The same of so many slots, one after another.
#[tactic(auto, using(crate::proofs::Fields::last_copied))]
fn copied_fields(count: usize, from: usize, first: usize, alloc: Global) -> Result<Filling, Unmade>
    requires { from < first → from + count ≤ first }
    ensures { IfOk result (λ t. CopiesFields t count from first) }
{
    if count == 0 || from >= SLOTS || first >= SLOTS {
        return Err(Unmade::Other);
    }
    let one = Filling::Put(first, Code::Slot(from));
    if count == 1 {
        return Ok(one);
    }
    let x = match in_box(one, alloc) {
        Ok(x) => x,
        Err(unmade) => return Err(unmade),
    };
    let y = match copied_fields(count - 1, from + 1, first + 1, alloc) {
        Ok(y) => y,
        Err(unmade) => return Err(unmade),
    };
    match in_box(y, alloc) {
        Ok(y) => Ok(Filling::Then(x, y)),
        Err(unmade) => Err(unmade),
    }
}

/// What stands from one slot on is put into those from another on, in a box.
pub fn boxed_copy(
    shape: Shape,
    from: usize,
    first: usize,
    alloc: Global,
) -> Result<Box<Filling>, Unmade>
    requires { from < first → from + room_of shape ≤ first }
    ensures { IfOk result (λ t. Copies t.value shape from first) }
{
    match copied(shape, from, first, alloc) {
        Ok(filling) => in_box(filling, alloc),
        Err(unmade) => Err(unmade),
    }
}

/// By a truth value that stands in a slot, the one or the other of the two structs of so many that stand behind it.
#[tactic(auto, using(crate::proofs::Copying::copy_picked))]
pub fn picked(count: u8, held: usize, first: usize, alloc: Global) -> Result<Box<Filling>, Unmade>
    requires { first + count ≤ held }
    ensures { IfOk result (λ t. Picks t.value count held first) }
{
    if held >= SLOTS {
        return Err(Unmade::Other);
    }
    let shape = Shape::Fields(count);
    let x = match boxed_copy(shape, held + 1, first, alloc) {
        Ok(x) => x,
        Err(unmade) => return Err(unmade),
    };
    let y = match boxed_copy(shape, held + 1 + count as usize, first, alloc) {
        Ok(y) => y,
        Err(unmade) => return Err(unmade),
    };
    in_box(Filling::Either(Code::Slot(held), x, y), alloc)
}

/// What an operator makes of the numbers of two slots, put into the first of them.
#[tactic(auto, using(crate::proofs::Copying::work_filled))]
pub fn worked(op: BinOp, first: usize, second: usize, alloc: Global) -> Result<Box<Filling>, Unmade>
    ensures { IfOk result (λ t. IsWork t.value op first second) }
{
    let x = match boxed_slot(first, alloc) {
        Ok(x) => x,
        Err(unmade) => return Err(unmade),
    };
    match boxed_slot(second, alloc) {
        Ok(y) => in_box(Filling::Put(first, Code::Work(op, x, y)), alloc),
        Err(unmade) => Err(unmade),
    }
}

/// The number of a slot, in a box.
fn boxed_slot(i: usize, alloc: Global) -> Result<Box<Code>, Unmade>
    ensures { IfOk result (λ c. c.value ≡ codes.Slot i) }
{
    match Box::new(alloc, Code::Slot(i)) {
        Ok(code) => Ok(code),
        Err(_) => Err(Unmade::Memory),
    }
}

/// So many values, where all are numbers, put into slots from one on.
pub fn put_whole(fields: &Vals, count: u8, first: usize, alloc: Global) -> Result<Filling, Unmade>
    ensures { IfOk result (λ t. PutsFields t count (values fields.now) first) }
{
    if fields.len() != count as usize || fields.len() > MOST_FIELDS {
        return Err(Unmade::Other);
    }
    put_values(fields, 0, fields.len(), first, alloc)
}

/// The same of those from number i on.
fn put_values(
    fields: &Vals,
    i: usize,
    left: usize,
    first: usize,
    alloc: Global,
) -> Result<Filling, Unmade>
    requires count { i + left ≡ length fields.now }
    requires few { i + left ≤ 16 }
    ensures { IfOk result (λ t. PutsFields t left (values (drop i fields.now)) first) }
{
    if left == 0 || first >= SLOTS {
        return Err(Unmade::Other);
    }
    let one = match number_of(fields.at(i)) {
        Some(n) => Filling::Put(first, Code::Literal(n)),
        None => return Err(Unmade::Other),
    };
    if left == 1 {
        return Ok(one);
    }
    let x = match in_box(one, alloc) {
        Ok(x) => x,
        Err(unmade) => return Err(unmade),
    };
    let y = match put_values(fields, i + 1, left - 1, first + 1, alloc) {
        Ok(y) => y,
        Err(unmade) => return Err(unmade),
    };
    match in_box(y, alloc) {
        Ok(y) => Ok(Filling::Then(x, y)),
        Err(unmade) => Err(unmade),
    }
}

/// Two numbers put into slots from one on, where so many are asked for.
#[tactic(auto, using(crate::proofs::Fields::pair_put))]
pub fn put_pair(
    x: Short,
    y: Short,
    count: u8,
    first: usize,
    alloc: Global,
) -> Result<Filling, Unmade>
    ensures { IfOk result (λ t. PutsFields t count (values (view_short x ∷ view_short y ∷ []))
        first) }
{
    if count != 2 || first >= SLOTS {
        return Err(Unmade::Other);
    }
    let x = match in_box(Filling::Put(first, Code::Literal(x)), alloc) {
        Ok(x) => x,
        Err(unmade) => return Err(unmade),
    };
    match in_box(Filling::Put(first + 1, Code::Literal(y)), alloc) {
        Ok(y) => Ok(Filling::Then(x, y)),
        Err(unmade) => Err(unmade),
    }
}
