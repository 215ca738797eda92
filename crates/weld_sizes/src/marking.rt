//! The marks of a program's loops.

ghost use Rattle.std.specs.Prelude.{◌≡◌, ◌++◌, map, IfOk, OnOk};
ghost use Rattle.weld_tree.specs.ExprTree.{pack_exprs, pack_legs};
ghost use Rattle.weld_tree.specs.ExprView.{view_leg};
ghost use Rattle.weld_sizes.specs.Marks.{marks_among, marks_in_leg, marks_in_legs};
ghost use Rattle.weld_sizes.specs.Sized.{has_sized_form as sized_form, sized_marks};

use crate::form::has_sized_form;
use crate::marks::Marks;
use std::alloc::{AllocError, Global};
use weld_meaning::Accepted;
use weld_tree::{Expr, Exprs, Form, Leg, Legs};

/// One mark for each loop of the program, in the order in which the loops begin in the text: whether
/// it is of the sized form. Its builder is one `vecbuilder` then, and each row merges into it
/// exactly once: its body is a `merge` into the loop's builder, perhaps behind lets, or an `if` both
/// of whose arms are. It fails for want of memory alone.
pub fn mark_sizes(alloc: Global, p: &Accepted) -> Result<Marks, AllocError>
    ensures { IfOk result (λ marks. marks ≡ sized_marks p.now.body) }
{
    let mut marks = Marks::new(alloc);
    mark(&p.program().body, &mut marks)?;
    Ok(marks)
}

/// Appends the marks of the loops of the expression.
#[cycle(mark)]
fn mark(e: &Expr, marks: &mut Marks) -> Result<(), AllocError>
    ensures { OnOk result (marks.new ≡ marks.old ++ sized_marks e.now) }
{
    match &e.form {
        Form::Leaf(_) => Ok(()),
        Form::One(_, part) => mark(part, marks),
        Form::Two(_, first, second)
        | Form::Let(_, first, second)
        | Form::Iterate(first, _, second) => mark_two(first, second, marks),
        Form::Three(_, first, second, third) => {
            mark(first, marks)?;
            mark_two(second, third, marks)
        }
        Form::Many(_, parts) => mark_all(parts, marks),
        Form::For(legs, builder, _, _, _, body) => {
            marks.push(has_sized_form(e))?;
            mark_legs(legs, marks)?;
            mark_two(builder, body, marks)
        }
    }
}

#[cycle(mark)]
fn mark_two(first: &Expr, second: &Expr, marks: &mut Marks) -> Result<(), AllocError>
    ensures { OnOk result (marks.new ≡ marks.old ++ (sized_marks first.now
        ++ sized_marks second.now)) }
{
    mark(first, marks)?;
    mark(second, marks)
}

#[cycle(mark)]
#[tactic(auto, using(crate::proofs::Left::marks_left, crate::proofs::Left::no_marks_left, crate::proofs::Left::more_marks))]
fn mark_all(parts: &Exprs, marks: &mut Marks) -> Result<(), AllocError>
    ensures { OnOk result (marks.new ≡ marks.old ++ marks_among sized_form (pack_exprs parts.now)) }
{
    for part in parts.as_slice() {
        mark(part, marks)?;
    }
    Ok(())
}

#[cycle(mark)]
fn mark_leg(leg: &Leg, marks: &mut Marks) -> Result<(), AllocError>
    ensures { OnOk result (marks.new ≡ marks.old ++ marks_in_leg sized_form (view_leg leg.now)) }
{
    match leg {
        Leg::Whole(e) => mark(e, marks),
        Leg::Strided(e, from, to, by) => {
            mark(e, marks)?;
            mark(from, marks)?;
            mark_two(to, by, marks)
        }
    }
}

#[cycle(mark)]
#[tactic(auto, using(crate::proofs::Left::leg_marks_left, crate::proofs::Left::no_leg_marks_left, crate::proofs::Left::more_marks))]
fn mark_legs(legs: &Legs, marks: &mut Marks) -> Result<(), AllocError>
    ensures { OnOk result (marks.new ≡ marks.old ++ marks_in_legs sized_form (pack_legs legs.now)) }
{
    for leg in legs.as_slice() {
        mark_leg(leg, marks)?;
    }
    Ok(())
}
