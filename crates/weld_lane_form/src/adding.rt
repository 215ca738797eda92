//! Steps added behind those that are made, also of the answers of earlier ones.

ghost use Rattle.std.specs.Prelude.{◌≡◌, IfOk};
ghost use Rattle.weld_tree.specs.ExprView.{view_two};
ghost use Rattle.weld_lane_form.specs.Lowering.{added, placed, is_mask_at, are_numbers, are_truths, choose_truth, lower_not, lower_binary, lower_two, lower_select, lower_last};
ghost use Rattle.weld_lane_form.specs.Made.{begun, IsPlaced};

use crate::asking::is_truth;
use crate::making::Making;
use std::alloc::AllocError;
use weld_data::BinOp;
use weld_lanes::{LaneStep, is_arithmetic, is_comparison};
use weld_tree::TwoForm;

/// Adds a step, and tells its place.
fn add(making: &mut Making, step: LaneStep) -> Result<u32, AllocError>
    ensures { IfOk result (λ place. added (begun making.old) step
        ≡ placed (begun making.new) place) }
{
    match u32::try_from(making.steps.len()) {
        Ok(place) => {
            making.steps.push(step)?;
            Ok(place)
        }
        Err(_) => Err(AllocError),
    }
}

/// The same as an option.
pub(crate) fn add_some(making: &mut Making, step: LaneStep) -> Result<Option<u32>, AllocError>
    ensures { IfOk result (λ found. IsPlaced (added (begun making.old) step) found
        (begun making.new)) }
{
    match add(making, step) {
        Ok(place) => Ok(Some(place)),
        Err(e) => Err(e),
    }
}

/// Whether the step of a place answers a truth value.
fn is_truth_at(making: &Making, place: u32) -> bool
    ensures { result ≡ is_mask_at (begun making.now) place }
{
    let place = place as usize;
    if place < making.steps.len() {
        is_truth(making.steps[place])
    } else {
        false
    }
}

/// The contrary of a truth value.
pub(crate) fn make_not(making: &mut Making, place: u32) -> Result<Option<u32>, AllocError>
    ensures { IfOk result (λ found. IsPlaced (lower_not (begun making.old) place) found
        (begun making.new)) }
{
    if is_truth_at(&*making, place) {
        add_some(making, LaneStep::Not(place))
    } else {
        Ok(None)
    }
}

/// An operator between numbers.
fn make_binary(making: &mut Making, op: BinOp, i: u32, j: u32) -> Result<Option<u32>, AllocError>
    ensures { IfOk result (λ found. IsPlaced (lower_binary op i j (begun making.old)) found
        (begun making.new)) }
{
    if is_arithmetic(op) {
        add_some(making, LaneStep::Arith(op, i, j))
    } else if is_comparison(op) {
        add_some(making, LaneStep::Compare(op, i, j))
    } else {
        Ok(None)
    }
}

/// Whether both steps answer numbers.
fn are_numbers(making: &Making, i: u32, j: u32) -> bool
    ensures { result ≡ are_numbers (begun making.now) i j }
{
    !is_truth_at(making, i) && !is_truth_at(making, j)
}

/// Whether both steps answer truth values.
fn are_truths(making: &Making, i: u32, j: u32) -> bool
    ensures { result ≡ are_truths (begun making.now) i j }
{
    is_truth_at(making, i) && is_truth_at(making, j)
}

/// A form of two parts whose steps have these places.
pub(crate) fn join_two(
    making: &mut Making,
    form: TwoForm,
    i: u32,
    j: u32,
) -> Result<Option<u32>, AllocError>
    ensures { IfOk result (λ found. IsPlaced (lower_two (view_two form) i j (begun making.old))
        found (begun making.new)) }
{
    match form {
        TwoForm::Binary(op) => {
            if are_numbers(&*making, i, j) {
                make_binary(making, op, i, j)
            } else {
                Ok(None)
            }
        }
        TwoForm::And => {
            if are_truths(&*making, i, j) {
                add_some(making, LaneStep::And(i, j))
            } else {
                Ok(None)
            }
        }
        TwoForm::Or => {
            if are_truths(&*making, i, j) {
                add_some(making, LaneStep::Or(i, j))
            } else {
                Ok(None)
            }
        }
        TwoForm::LookUp | TwoForm::KeyExists | TwoForm::Merge => Ok(None),
    }
}

/// One of two truth values, as a third says.
#[tactic(auto, using(crate::proofs::Placing::chosen_truth))]
fn choose_truths(making: &mut Making, t: u32, i: u32, j: u32) -> Result<Option<u32>, AllocError>
    ensures { IfOk result (λ found. IsPlaced (choose_truth t i j (begun making.old)) found
        (begun making.new)) }
{
    let both = add(making, LaneStep::And(t, i))?;
    let contrary = add(making, LaneStep::Not(t))?;
    let other = add(making, LaneStep::And(contrary, j))?;
    match add(making, LaneStep::Or(both, other)) {
        Ok(place) => Ok(Some(place)),
        Err(e) => Err(e),
    }
}

/// One of two values, whose steps have these places.
pub(crate) fn make_select(
    making: &mut Making,
    t: u32,
    i: u32,
    j: u32,
) -> Result<Option<u32>, AllocError>
    ensures { IfOk result (λ found. IsPlaced (lower_select t i j (begun making.old)) found
        (begun making.new)) }
{
    if !is_truth_at(&*making, t) {
        Ok(None)
    } else if are_numbers(&*making, i, j) {
        add_some(making, LaneStep::Select(t, i, j))
    } else if are_truths(&*making, i, j) {
        choose_truths(making, t, i, j)
    } else {
        Ok(None)
    }
}

/// The number of a place as that of the last step.
#[tactic(auto, using(crate::proofs::Placing::last_copied))]
pub(crate) fn make_last(making: &mut Making, place: u32) -> Result<Option<u32>, AllocError>
    ensures { IfOk result (λ found. IsPlaced (lower_last (begun making.old) place) found
        (begun making.new)) }
{
    if is_truth_at(&*making, place) {
        return Ok(None);
    }
    if place as usize + 1 == making.steps.len() {
        return Ok(Some(place));
    }
    let t = add(making, LaneStep::Truth(true))?;
    match add(making, LaneStep::Select(t, place, place)) {
        Ok(last) => Ok(Some(last)),
        Err(e) => Err(e),
    }
}
