//! The lane marks of a program's loops.

ghost use Rattle.std.specs.Prelude.{◌≡◌, ◌++◌, ◌∷◌, [], IfOk, OnOk};
ghost use Rattle.weld_tree.specs.ExprTree.{pack_exprs, pack_legs};
ghost use Rattle.weld_tree.specs.ExprView.{view_leg};
ghost use Rattle.weld_check_types.specs.Notes.{ProgramIsNoted};
ghost use Rattle.weld_lane_form.specs.Marking.{loops_in, loops_among, loops_in_leg, loops_in_legs, IsLoopTree, AreMarks, IsMark, MayBeMark, MarkOn};

use crate::making::{LaneBody, LoopNames, lower};
use std::alloc::{AllocError, Global};
use weld_meaning::Accepted;
use weld_sizes::{are_two, has_lane_form, legs_kind};
use weld_tree::{Expr, Exprs, Form, Leg, Legs};

/// One mark for each loop of the program, in the order in which the loops begin in the text: where the loop is of the lane
/// form, steps over numbers of its legs' kind that mean its body; else none. The program's nodes have their types noted. It
/// fails for want of memory alone.
#[tactic(auto, using(crate::proofs::Marked::all_marked))]
pub fn mark_lanes(alloc: Global, p: &Accepted) -> Result<Vec<Option<LaneBody>>, AllocError>
    requires { ProgramIsNoted p.now }
    ensures { IfOk result (λ marks. AreMarks IsMark (loops_in p.now.body) marks.items) }
{
    let mut marks = Vec::new(alloc);
    match mark(&p.program().body, &mut marks, alloc) {
        Ok(()) => Ok(marks),
        Err(e) => Err(e),
    }
}

/// The mark of a loop.
fn mark_of(e: &Expr, alloc: Global) -> Result<Option<LaneBody>, AllocError>
    requires { IsLoopTree e.now }
    ensures { IfOk result (MayBeMark e.now) }
{
    if !has_lane_form(e) {
        return Ok(None);
    }
    match &e.form {
        Form::For(legs, _, own, number, row, body) => {
            let names = LoopNames {
                kind: legs_kind(legs),
                is_pair: are_two(legs),
                row: row.sym,
                number: number.sym,
                own: own.sym,
            };
            lower(names, body, alloc)
        }
        _ => unreachable!(),
    }
}

/// Appends the marks of the loops of the expression.
#[cycle(mark)]
#[tactic(auto, using(crate::proofs::Marked::marks_on, crate::proofs::Marked::no_marks))]
fn mark(e: &Expr, marks: &mut Vec<Option<LaneBody>>, alloc: Global) -> Result<(), AllocError>
    ensures { OnOk result (MarkOn marks.old.items marks.new.items (loops_in e.now)) }
{
    match &e.form {
        Form::Leaf(_) => Ok(()),
        Form::One(_, part) => mark(part, marks, alloc),
        Form::Two(_, first, second)
        | Form::Let(_, first, second)
        | Form::Iterate(first, _, second) => mark_two(first, second, marks, alloc),
        Form::Three(_, first, second, third) => mark_three(first, second, third, marks, alloc),
        Form::Many(_, parts) => mark_all(parts, marks, alloc),
        Form::For(legs, builder, _, _, _, body) => match push_mark(e, marks, alloc) {
            Ok(()) => mark_within(legs, builder, body, marks, alloc),
            Err(e) => Err(e),
        },
    }
}

#[cycle(mark)]
#[tactic(auto, using(crate::proofs::Marked::marks_on))]
fn mark_two(
    first: &Expr,
    second: &Expr,
    marks: &mut Vec<Option<LaneBody>>,
    alloc: Global,
) -> Result<(), AllocError>
    ensures { OnOk result (MarkOn marks.old.items marks.new.items
        (loops_in first.now ++ loops_in second.now)) }
{
    match mark(first, marks, alloc) {
        Ok(()) => mark(second, marks, alloc),
        Err(e) => Err(e),
    }
}

#[cycle(mark)]
#[tactic(auto, using(crate::proofs::Marked::marks_on))]
fn mark_three(
    first: &Expr,
    second: &Expr,
    third: &Expr,
    marks: &mut Vec<Option<LaneBody>>,
    alloc: Global,
) -> Result<(), AllocError>
    ensures { OnOk result (MarkOn marks.old.items marks.new.items
        (loops_in first.now ++ (loops_in second.now ++ loops_in third.now))) }
{
    match mark(first, marks, alloc) {
        Ok(()) => mark_two(second, third, marks, alloc),
        Err(e) => Err(e),
    }
}

/// The marks of the loops within a loop.
#[cycle(mark)]
#[tactic(auto, using(crate::proofs::Marked::marks_on))]
fn mark_within(
    legs: &Legs,
    builder: &Expr,
    body: &Expr,
    marks: &mut Vec<Option<LaneBody>>,
    alloc: Global,
) -> Result<(), AllocError>
    ensures { OnOk result (MarkOn marks.old.items marks.new.items
        (loops_in_legs (pack_legs legs.now) ++ (loops_in builder.now ++ loops_in body.now))) }
{
    match mark_legs(legs, marks, alloc) {
        Ok(()) => mark_two(builder, body, marks, alloc),
        Err(e) => Err(e),
    }
}

/// Appends the mark of a loop.
#[tactic(auto, using(crate::proofs::Marked::one_mark))]
fn push_mark(e: &Expr, marks: &mut Vec<Option<LaneBody>>, alloc: Global) -> Result<(), AllocError>
    requires { IsLoopTree e.now }
    ensures { OnOk result (MarkOn marks.old.items marks.new.items (e.now ∷ [])) }
{
    match mark_of(e, alloc) {
        Ok(found) => match marks.push(found) {
            Ok(_) => Ok(()),
            Err(_) => Err(AllocError),
        },
        Err(e) => Err(e),
    }
}

#[cycle(mark)]
#[tactic(auto, using(crate::proofs::Marked::part_marked, crate::proofs::Marked::parts_marked))]
fn mark_all(
    parts: &Exprs,
    marks: &mut Vec<Option<LaneBody>>,
    alloc: Global,
) -> Result<(), AllocError>
    ensures { OnOk result (MarkOn marks.old.items marks.new.items
        (loops_among (pack_exprs parts.now))) }
{
    for part in parts.as_slice() {
        match mark(part, marks, alloc) {
            Ok(()) => {}
            Err(e) => return Err(e),
        }
    }
    Ok(())
}

#[cycle(mark)]
#[tactic(auto, using(crate::proofs::Marked::marks_on))]
fn mark_leg(leg: &Leg, marks: &mut Vec<Option<LaneBody>>, alloc: Global) -> Result<(), AllocError>
    ensures { OnOk result (MarkOn marks.old.items marks.new.items
        (loops_in_leg (view_leg leg.now))) }
{
    match leg {
        Leg::Whole(e) => mark(e, marks, alloc),
        Leg::Strided(e, from, to, by) => match mark(e, marks, alloc) {
            Ok(()) => mark_three(from, to, by, marks, alloc),
            Err(e) => Err(e),
        },
    }
}

#[cycle(mark)]
#[tactic(auto, using(crate::proofs::Marked::leg_marked, crate::proofs::Marked::legs_marked))]
fn mark_legs(
    legs: &Legs,
    marks: &mut Vec<Option<LaneBody>>,
    alloc: Global,
) -> Result<(), AllocError>
    ensures { OnOk result (MarkOn marks.old.items marks.new.items
        (loops_in_legs (pack_legs legs.now))) }
{
    for leg in legs.as_slice() {
        match mark_leg(leg, marks, alloc) {
            Ok(()) => {}
            Err(e) => return Err(e),
        }
    }
    Ok(())
}
