//! Loops over one vector that a name stands for: it is handed on where it lies, and no list of legs is made.

ghost use Rattle.std.specs.Prelude.{◌≡◌, ◌∷◌, [], true, length as length_of};
ghost use Rattle.weld_acts.specs.Act.{Acts, AreDirect, act as act_of};
ghost use Rattle.weld_acts.specs.ActFits.{ActFits};
ghost use Rattle.weld_acts.specs.Ranges.{HoldsRange, range_over};
ghost use Rattle.weld_builders.specs.Outcome.{and_then, done};
ghost use Rattle.weld_data.specs.View.{view_column};
ghost use Rattle.weld_eval.specs.Answers.{Answers};
ghost use Rattle.weld_eval.specs.FrameView.{env_of};
ghost use Rattle.weld_eval.specs.Takes.{OneTakes};
ghost use Rattle.weld_eval.specs.ThingView.{held_of, thing_of};
ghost use Rattle.weld_eval_plain.specs.Nodes.{IsLoop};
ghost use Rattle.weld_eval_plain.specs.Rows.{LegsAre};
ghost use Rattle.weld_meaning.specs.Evaluation.{eval as eval_of, one_thing};
ghost use Rattle.weld_meaning.specs.Thing.{Thing};
ghost use Rattle.weld_rows.specs.Nodes.{IsLoopFrom};
ghost use Rattle.weld_rows.specs.Numbers.{TriesNumber};
ghost use Rattle.weld_rows.specs.Runs.{Runs};
ghost use Rattle.weld_tree.specs.ExprTree.{finish};
ghost use Rattle.weld_tree.specs.ExprView.{view_one};

use super::acts::act;
use super::rows::hand_through;
use super::values::value;
use crate::forms::{link, no_legs, number_finished};
use crate::reads::{empty_total, lent_leg};
use std::alloc::Global;
use weld_data::{Column, Stop};
use weld_eval::forms::leaf;
use weld_eval::frame::Frame;
use weld_eval::short::Short;
use weld_eval::thing::{Held, Owned, into_owned};
use weld_tree::{Expr, Form, OneForm};

/// A loop over a vector that is lent.
#[cycle(rows)]
#[tactic(auto, using(crate::proofs::Nodes::start_runs, crate::proofs::Nodes::lone_gives, crate::proofs::Nodes::lone_start_faults))]
#[inline(never)]
pub(super) fn value_on<'a>(
    e: &Expr,
    start: &Expr,
    frame: &'a Frame<'a>,
    column: &Column,
    in_place: bool,
    alloc: Global,
) -> Result<Held<'a>, Stop>
    requires runs { Runs in_place e.now (env_of frame.now) }
    requires form { IsLoopFrom e.now start.now }
    requires legs { LegsAre e.now (env_of frame.now) (view_column column.now ∷ []) }
    ensures { Answers held_of result (eval_of e.now (env_of frame.now)) }
{
    match started(start, frame, in_place, alloc) {
        Ok(builder) => fill_on(e, &*frame, column, in_place, builder, alloc),
        Err(stop) => Err(stop),
    }
}

/// The builder that a loop starts from.
#[cycle(rows)]
#[tactic(auto, using(weld_eval_plain::proofs::Nodes::leaf_takes))]
#[inline(always)]
fn started<'a>(
    e: &Expr,
    frame: &'a Frame<'a>,
    in_place: bool,
    alloc: Global,
) -> Result<Held<'a>, Stop>
    requires { Runs in_place e.now (env_of frame.now) }
    ensures { Answers held_of result (eval_of e.now (env_of frame.now)) }
{
    match &e.form {
        Form::Leaf(form) => leaf(form, frame, alloc),
        _ => value(e, frame, in_place, alloc),
    }
}

/// A builder handed through the elements of a vector.
#[cycle(rows)]
fn fill_on<'a>(
    e: &Expr,
    frame: &Frame,
    column: &Column,
    in_place: bool,
    builder: Held,
    alloc: Global,
) -> Result<Held<'a>, Stop>
    requires rows { HoldsRange e.now (env_of frame.now) (view_column column.now ∷ []) 0
        (length_of (view_column column.now)) (held_of builder) }
    requires direct { in_place ≡ true → AreDirect e.now }
    requires form { IsLoop e.now }
    ensures { Answers held_of result (range_over e.now (env_of frame.now)
        (view_column column.now ∷ []) 0 (length_of (view_column column.now))
        (held_of builder.entry)) }
{
    let mut builder = match into_owned(builder, alloc) {
        Ok(builder) => builder,
        Err(_) => return Err(Stop::Memory),
    };
    match hand_on(e, frame, column, in_place, &mut builder, alloc) {
        Ok(()) => Ok(Held::Made(builder)),
        Err(stop) => Err(stop),
    }
}

/// The number that the result of a loop over such a vector is, where it starts from a `merger` of numbers without a starting value:
/// no value is made on the way. There is none where the expression is anything else.
#[cycle(rows)]
pub(super) fn total(
    e: &Expr,
    frame: &Frame,
    in_place: bool,
    alloc: Global,
) -> Result<Option<Short>, Stop>
    requires { Runs in_place e.now (env_of frame.now) }
    ensures { TriesNumber result (eval_of e.now (env_of frame.now)) }
{
    match &e.form {
        Form::One(form, part) => total_of_part(form, part, frame, in_place, alloc),
        _ => Ok(None),
    }
}

/// The same of the form and its part.
#[cycle(rows)]
fn total_of_part(
    form: &OneForm,
    e: &Expr,
    frame: &Frame,
    in_place: bool,
    alloc: Global,
) -> Result<Option<Short>, Stop>
    requires runs { Runs in_place e.now (env_of frame.now) }
    requires takes { (x : Thing) → eval_of e.now (env_of frame.now) ≡ done x
        → OneTakes (view_one form.now) x }
    ensures { TriesNumber result (and_then (eval_of e.now (env_of frame.now))
        (one_thing (view_one form.now))) }
{
    match form {
        OneForm::Finish => total_of_loop(e, frame, in_place, alloc),
        _ => Ok(None),
    }
}

/// The same of the loop whose result it is.
#[cycle(rows)]
#[tactic(auto, using(crate::proofs::Values::legs_fit, crate::proofs::Values::start_fits, crate::proofs::Values::lone_starts, crate::proofs::Values::lone_done, crate::proofs::Values::lone_faults))]
fn total_of_loop(
    e: &Expr,
    frame: &Frame,
    in_place: bool,
    alloc: Global,
) -> Result<Option<Short>, Stop>
    requires runs { Runs in_place e.now (env_of frame.now) }
    requires takes { (x : Thing) → eval_of e.now (env_of frame.now) ≡ done x → OneTakes finish x }
    ensures { TriesNumber result (and_then (eval_of e.now (env_of frame.now))
        (one_thing finish)) }
{
    match &e.form {
        Form::For(legs, start, _, _, _, _) => match empty_total(start, frame) {
            Some(built) => match lent_leg(legs, &*frame) {
                Some(column) => {
                    let mut builder = Owned::Built(built);
                    match hand_on(e, &*frame, column, in_place, &mut builder, alloc) {
                        Ok(()) => number_finished(builder, alloc),
                        Err(stop) => Err(stop),
                    }
                }
                None => Ok(None),
            },
            None => Ok(None),
        },
        _ => Ok(None),
    }
}

/// What a loop over a vector that is lent does to the builder on which it goes on.
#[cycle(rows)]
#[tactic(auto, using(crate::proofs::Nodes::start_acts, crate::proofs::Nodes::lone_act_gives, crate::proofs::Nodes::lone_act_faults))]
pub(super) fn act_on(
    e: &Expr,
    start: &Expr,
    frame: &Frame,
    column: &Column,
    builder: &mut Owned,
    alloc: Global,
) -> Result<(), Stop>
    requires acts { ActFits e.now (env_of frame.now) (thing_of builder.old) }
    requires form { IsLoopFrom e.now start.now }
    requires legs { LegsAre e.now (env_of frame.now) (view_column column.now ∷ []) }
    ensures { Acts result (act_of e.now (env_of frame.now) (thing_of builder.old))
        (thing_of builder.new) }
{
    match act(start, frame, builder, alloc) {
        Ok(()) => hand_on(e, frame, column, true, builder, alloc),
        Err(stop) => Err(stop),
    }
}

/// A builder handed through the elements of a vector, in place or by what each appends.
#[cycle(rows)]
fn hand_on(
    e: &Expr,
    frame: &Frame,
    column: &Column,
    in_place: bool,
    builder: &mut Owned,
    alloc: Global,
) -> Result<(), Stop>
    requires rows { HoldsRange e.now (env_of frame.now) (view_column column.now ∷ []) 0
        (length_of (view_column column.now)) (thing_of builder.old) }
    requires direct { in_place ≡ true → AreDirect e.now }
    requires form { IsLoop e.now }
    ensures { Acts result (range_over e.now (env_of frame.now) (view_column column.now ∷ []) 0
        (length_of (view_column column.now)) (thing_of builder.old)) (thing_of builder.new) }
{
    let end = no_legs();
    let legs = link(column, &end);
    hand_through(e, frame, &legs, 0, column.len(), in_place, builder, alloc)
}
