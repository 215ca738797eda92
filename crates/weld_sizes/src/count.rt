//! How many loops are of a form.

ghost use Rattle.std.specs.Prelude.{◌≡◌, min, map};
ghost use Rattle.weld_tree.specs.ExprTree.{pack_exprs, pack_legs};
ghost use Rattle.weld_tree.specs.ExprView.{view_leg};
ghost use Rattle.weld_sizes.specs.Lanes.{lane_marks};
ghost use Rattle.weld_sizes.specs.Marks.{set_among, marks_by, marks_among, marks_in_leg, marks_in_legs};
ghost use Rattle.weld_sizes.specs.Sized.{sized_marks};

use crate::form::has_sized_form;
use crate::lanes::has_lane_form;
use weld_tree::{Expr, Exprs, Form, Leg, Legs, Program};

/// A form of loops.
trait LoopForm {
    ghost use Rattle.std.specs.Prelude.{◌≡◌, Bool};
    ghost use Rattle.weld_tree.specs.ExprTree.{ExprTree};

    ghost form: { ExprTree → Bool };

    /// Whether the expression is a loop of the form. It takes no memory.
    fn holds(e: &Expr) -> bool
        ensures { result ≡ form e.now };
}

/// Loops that append to one list once a row.
struct SizedLoops;

impl LoopForm for SizedLoops {
    ghost use Rattle.weld_sizes.specs.Sized.{has_sized_form as sized_form};

    ghost form = { sized_form };

    fn holds(e: &Expr) -> bool {
        has_sized_form(e)
    }
}

/// Loops that are plain arithmetic on numbers of one kind.
struct LaneLoops;

impl LoopForm for LaneLoops {
    ghost use Rattle.weld_sizes.specs.Lanes.{has_lane_form as lane_form};

    ghost form = { lane_form };

    fn holds(e: &Expr) -> bool {
        has_lane_form(e)
    }
}

/// How many loops of the program are of the sized form: a program has fewer than a u64 can count.
/// It takes no memory.
pub fn count_sized(p: &Program) -> u64
    ensures { result ≡ set_among (sized_marks p.now.body) }
{
    count::<SizedLoops>(&p.body)
}

/// How many loops of the program are of the lane form: a program has fewer than a u64 can count.
/// It takes no memory.
pub fn count_lanes(p: &Program) -> u64
    ensures { result ≡ set_among (lane_marks p.now.body) }
{
    count::<LaneLoops>(&p.body)
}

/// How many loops of the expression are of the form, or the greatest u64 where that is less.
#[cycle(count)]
#[tactic(auto, using(crate::proofs::Left::set_both))]
fn count<F: LoopForm>(e: &Expr) -> u64
    ensures { result ≡ min (set_among (marks_by F.form e.now)) u64.MAX }
{
    match &e.form {
        Form::Leaf(_) => 0,
        Form::One(_, part) => count::<F>(part),
        Form::Two(_, first, second)
        | Form::Let(_, first, second)
        | Form::Iterate(first, _, second) => count::<F>(first).saturating_add(count::<F>(second)),
        Form::Three(_, first, second, third) => count::<F>(first)
            .saturating_add(count::<F>(second))
            .saturating_add(count::<F>(third)),
        Form::Many(_, parts) => count_all::<F>(parts),
        Form::For(legs, builder, _, _, _, body) => {
            let inside = count::<F>(builder).saturating_add(count::<F>(body));
            let here = if F::holds(e) { 1 } else { 0 };
            count_legs::<F>(legs)
                .saturating_add(inside)
                .saturating_add(here)
        }
    }
}

#[cycle(count)]
#[tactic(auto, using(crate::proofs::Left::set_left, crate::proofs::Left::none_left))]
fn count_all<F: LoopForm>(parts: &Exprs) -> u64
    ensures { result ≡ min (set_among (marks_among F.form (pack_exprs parts.now))) u64.MAX }
{
    let mut sum = 0u64;
    for part in parts.as_slice() {
        sum = sum.saturating_add(count::<F>(part));
    }
    sum
}

#[cycle(count)]
#[tactic(auto, using(crate::proofs::Left::set_both))]
fn count_leg<F: LoopForm>(leg: &Leg) -> u64
    ensures { result ≡ min (set_among (marks_in_leg F.form (view_leg leg.now))) u64.MAX }
{
    match leg {
        Leg::Whole(e) => count::<F>(e),
        Leg::Strided(e, from, to, by) => count::<F>(e)
            .saturating_add(count::<F>(from))
            .saturating_add(count::<F>(to))
            .saturating_add(count::<F>(by)),
    }
}

#[cycle(count)]
#[tactic(auto, using(crate::proofs::Left::leg_set_left, crate::proofs::Left::no_leg_set_left))]
fn count_legs<F: LoopForm>(legs: &Legs) -> u64
    ensures { result ≡ min (set_among (marks_in_legs F.form (pack_legs legs.now))) u64.MAX }
{
    let mut sum = 0u64;
    for leg in legs.as_slice() {
        sum = sum.saturating_add(count_leg::<F>(leg));
    }
    sum
}
