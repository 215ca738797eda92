//! Expressions that are values, or builders that were made.

ghost use Rattle.std.specs.Prelude.{◌≡◌, ◌≤◌, true, length as length_of, drop as drop_items};
ghost use Rattle.weld_acts.specs.Act.{Acts, AreDirect};
ghost use Rattle.weld_acts.specs.Ranges.{HoldsRange, range_over};
ghost use Rattle.weld_eval.specs.FrameView.{env_of};
ghost use Rattle.weld_eval.specs.LegsView.{lists_of};
ghost use Rattle.weld_eval.specs.ThingView.{thing_of, held_of};
ghost use Rattle.weld_eval.specs.Takes.{IsStrict};
ghost use Rattle.weld_eval_forms.specs.FormTakes.{all_of, pack_things, AreAllEvaluated};
ghost use Rattle.weld_eval_forms.specs.Legs.{leg_lists, AreVectors};
ghost use Rattle.weld_eval_plain.specs.Nodes.{IsEitherForm, IsLoop};
ghost use Rattle.weld_eval_plain.specs.Rows.{LegsAre};
ghost use Rattle.weld_eval.specs.Answers.{Answers};
ghost use Rattle.weld_meaning.specs.Evaluation.{eval as eval_of, eval_all};
ghost use Rattle.weld_rows.specs.Nodes.{anywhere, IsLoopFrom, IsLoopOf};
ghost use Rattle.weld_rows.specs.RowActs.{legs_count};
ghost use Rattle.weld_rows.specs.Runs.{Runs, RunsNumber, AllRun};
ghost use Rattle.weld_tree.specs.ExprTree as tree;
ghost use Rattle.weld_tree.specs.ExprTree.{pack_exprs, pack_legs};
ghost use Rattle.weld_tree.specs.ExprView.{view_many, view_one, view_three, view_two};

use super::legs::eval_legs;
use super::lent::value_on;
use super::numbers::{either, number, unread};
use super::rows::hand_through;
use super::turns::value_of_iterate;
use crate::forms::{column_of, discard, is_either, is_numeric, link, made, no_legs};
use crate::reads::{lent_field, lent_leg};
use std::alloc::Global;
use weld_blocks::scalar::truth_of;
use weld_data::Stop;
use weld_eval::forms::{leaf, number as number_held};
use weld_eval::frame::{Frame, bind};
use weld_eval::legs::Legs;
use weld_eval::thing::{Held, Owned, into_owned};
use weld_eval_forms::legs::count_rows;
use weld_eval_forms::several::{many, push_thing};
use weld_eval_forms::triple::three;
use weld_eval_forms::twofold::two;
use weld_eval_forms::unary::one;
use weld_tree::{
    Binder, Expr, Exprs, Form, Legs as LegForms, ManyForm, OneForm, ThreeForm, TwoForm,
};

/// What an expression comes to that isn't a builder in place.
#[cycle(rows)]
#[tactic(auto, using(crate::proofs::Numbers::numeric_runs))]
pub fn value<'a>(
    e: &Expr,
    frame: &'a Frame<'a>,
    in_place: bool,
    alloc: Global,
) -> Result<Held<'a>, Stop>
    requires { Runs in_place e.now (env_of frame.now) }
    ensures { Answers held_of result (eval_of e.now (env_of frame.now)) }
{
    if is_numeric(e) {
        numeral(e, frame, in_place, alloc)
    } else {
        other(e, frame, in_place, alloc)
    }
}

/// A number as a value.
#[cycle(rows)]
fn numeral<'a>(
    e: &Expr,
    frame: &'a Frame<'a>,
    in_place: bool,
    alloc: Global,
) -> Result<Held<'a>, Stop>
    requires { RunsNumber in_place e.now (env_of frame.now) }
    ensures { Answers held_of result (eval_of e.now (env_of frame.now)) }
{
    match unread(e, &*frame, in_place, alloc) {
        Ok(n) => Ok(number_held(n.to_num())),
        Err(stop) => Err(stop),
    }
}

/// What isn't a number by its looks. Forms but lets and ifs are worked out by calls that stay calls: a frame of this walk stands
/// once for each of a thousand lets, and theirs are large.
#[cycle(rows)]
#[tactic(auto, using(weld_eval_plain::proofs::Nodes::leaf_takes))]
pub(super) fn other<'a>(
    e: &Expr,
    frame: &'a Frame<'a>,
    in_place: bool,
    alloc: Global,
) -> Result<Held<'a>, Stop>
    requires { Runs in_place e.now (env_of frame.now) }
    ensures { Answers held_of result (eval_of e.now (env_of frame.now)) }
{
    match &e.form {
        Form::Leaf(form) => leaf(form, frame, alloc),
        Form::One(form, part) => value_of_one(form, part, frame, in_place, alloc),
        Form::Two(form, first, second) => {
            value_of_two(*form, first, second, frame, in_place, alloc)
        }
        Form::Three(form, first, second, third) => {
            value_of_three(*form, first, second, third, frame, in_place, alloc)
        }
        Form::Many(form, parts) => value_of_many(*form, parts, frame, in_place, alloc),
        Form::Let(binder, first, body) => value_of_let(binder, first, body, frame, in_place, alloc),
        Form::For(legs, start, _, _, _, _) => value_of_loop(e, legs, start, frame, in_place, alloc),
        Form::Iterate(start, _, _) => value_of_iterate(e, start, frame, in_place, alloc),
    }
}

/// A form of one part.
#[cycle(rows)]
#[tactic(auto, using(crate::proofs::Values::part_runs, crate::proofs::Values::part_run_takes))]
#[inline(never)]
fn value_of_one<'a>(
    form: &OneForm,
    part: &Expr,
    frame: &'a Frame<'a>,
    in_place: bool,
    alloc: Global,
) -> Result<Held<'a>, Stop>
    requires { Runs in_place (tree.one anywhere (view_one form.now) part.now) (env_of frame.now) }
    ensures { Answers held_of result (eval_of (tree.one anywhere (view_one form.now) part.now)
        (env_of frame.now)) }
{
    match lent_field(form, part, frame) {
        Some(x) => Ok(x),
        None => match part_value(part, frame, in_place, alloc) {
            Ok(x) => one(form, x, alloc),
            Err(stop) => Err(stop),
        },
    }
}

/// The part of such a form: a loop, whose result is wanted most often, is looked for first.
#[cycle(rows)]
#[tactic(auto, using(crate::proofs::Nodes::loop_is_of))]
#[inline(always)]
fn part_value<'a>(
    e: &Expr,
    frame: &'a Frame<'a>,
    in_place: bool,
    alloc: Global,
) -> Result<Held<'a>, Stop>
    requires { Runs in_place e.now (env_of frame.now) }
    ensures { Answers held_of result (eval_of e.now (env_of frame.now)) }
{
    match &e.form {
        Form::For(legs, start, _, _, _, _) => value_of_loop(e, legs, start, frame, in_place, alloc),
        _ => value(e, frame, in_place, alloc),
    }
}

/// A form of two parts.
#[cycle(rows)]
#[tactic(auto, using(crate::proofs::Nodes::is_either_form, crate::proofs::Nodes::is_strict_form))]
#[inline(always)]
fn value_of_two<'a>(
    form: TwoForm,
    first: &Expr,
    second: &Expr,
    frame: &'a Frame<'a>,
    in_place: bool,
    alloc: Global,
) -> Result<Held<'a>, Stop>
    requires { Runs in_place (tree.two anywhere (view_two form) first.now second.now)
        (env_of frame.now) }
    ensures { Answers held_of result (eval_of (tree.two anywhere (view_two form) first.now
        second.now) (env_of frame.now)) }
{
    if is_either(form) {
        value_of_either(form, first, second, frame, in_place, alloc)
    } else {
        value_of_both(form, first, second, frame, in_place, alloc)
    }
}

/// `&&` and `||`.
#[cycle(rows)]
#[tactic(auto, using(crate::proofs::Numbers::either_runs))]
fn value_of_either<'a>(
    form: TwoForm,
    first: &Expr,
    second: &Expr,
    frame: &'a Frame<'a>,
    in_place: bool,
    alloc: Global,
) -> Result<Held<'a>, Stop>
    requires runs { Runs in_place (tree.two anywhere (view_two form) first.now second.now)
        (env_of frame.now) }
    requires form { IsEitherForm (view_two form) }
    ensures { Answers held_of result (eval_of (tree.two anywhere (view_two form) first.now
        second.now) (env_of frame.now)) }
{
    match either(form, first, second, &*frame, in_place, alloc) {
        Ok(n) => Ok(number_held(n.to_num())),
        Err(stop) => Err(stop),
    }
}

/// A form of two parts that evaluates both.
#[cycle(rows)]
#[tactic(auto, using(crate::proofs::Parts::first_runs, crate::proofs::Parts::second_runs, crate::proofs::Parts::both_take))]
#[inline(never)]
fn value_of_both<'a>(
    form: TwoForm,
    first: &Expr,
    second: &Expr,
    frame: &'a Frame<'a>,
    in_place: bool,
    alloc: Global,
) -> Result<Held<'a>, Stop>
    requires runs { Runs in_place (tree.two anywhere (view_two form) first.now second.now)
        (env_of frame.now) }
    requires form { IsStrict (view_two form) }
    ensures { Answers held_of result (eval_of (tree.two anywhere (view_two form) first.now
        second.now) (env_of frame.now)) }
{
    let x = match value(first, frame, in_place, alloc) {
        Ok(x) => x,
        Err(stop) => return Err(stop),
    };
    match value(second, frame, in_place, alloc) {
        Ok(y) => two(form, x, y, alloc),
        Err(stop) => {
            discard(x);
            Err(stop)
        }
    }
}

/// A form of three parts.
#[cycle(rows)]
#[inline(always)]
fn value_of_three<'a>(
    form: ThreeForm,
    first: &Expr,
    second: &Expr,
    third: &Expr,
    frame: &'a Frame<'a>,
    in_place: bool,
    alloc: Global,
) -> Result<Held<'a>, Stop>
    requires { Runs in_place (tree.three anywhere (view_three form) first.now second.now third.now)
        (env_of frame.now) }
    ensures { Answers held_of result (eval_of (tree.three anywhere (view_three form) first.now
        second.now third.now) (env_of frame.now)) }
{
    match form {
        ThreeForm::If => value_of_if(first, second, third, frame, in_place, alloc),
        ThreeForm::Select => value_of_all(form, first, second, third, frame, in_place, alloc),
        ThreeForm::Slice => value_of_all(form, first, second, third, frame, in_place, alloc),
    }
}

/// An `if`: only the arm that is chosen is evaluated.
#[cycle(rows)]
#[tactic(auto, using(crate::proofs::Numbers::value_condition_runs, crate::proofs::Numbers::value_is_truth, crate::proofs::Values::then_run, crate::proofs::Values::otherwise_run, crate::proofs::Numbers::if_is_then, crate::proofs::Numbers::if_is_otherwise))]
fn value_of_if<'a>(
    condition: &Expr,
    then: &Expr,
    otherwise: &Expr,
    frame: &'a Frame<'a>,
    in_place: bool,
    alloc: Global,
) -> Result<Held<'a>, Stop>
    requires { Runs in_place (tree.three anywhere tree.if_else condition.now then.now otherwise.now)
        (env_of frame.now) }
    ensures { Answers held_of result (eval_of (tree.three anywhere tree.if_else condition.now
        then.now otherwise.now) (env_of frame.now)) }
{
    let chosen = match number(condition, &*frame, in_place, alloc) {
        Ok(x) => truth_of(x),
        Err(stop) => return Err(stop),
    };
    if chosen {
        value(then, frame, in_place, alloc)
    } else {
        value(otherwise, frame, in_place, alloc)
    }
}

/// A form of three parts that evaluates all of them.
#[cycle(rows)]
#[tactic(auto, using(crate::proofs::Parts::condition_runs, crate::proofs::Values::then_run, crate::proofs::Values::otherwise_run, crate::proofs::Parts::all_take))]
#[inline(never)]
fn value_of_all<'a>(
    form: ThreeForm,
    first: &Expr,
    second: &Expr,
    third: &Expr,
    frame: &'a Frame<'a>,
    in_place: bool,
    alloc: Global,
) -> Result<Held<'a>, Stop>
    requires runs { Runs in_place (tree.three anywhere (view_three form) first.now second.now
        third.now) (env_of frame.now) }
    requires form { AreAllEvaluated (view_three form) }
    ensures { Answers held_of result (eval_of (tree.three anywhere (view_three form) first.now
        second.now third.now) (env_of frame.now)) }
{
    let x = match value(first, frame, in_place, alloc) {
        Ok(x) => x,
        Err(stop) => return Err(stop),
    };
    let y = match value(second, frame, in_place, alloc) {
        Ok(y) => y,
        Err(stop) => {
            discard(x);
            return Err(stop);
        }
    };
    match value(third, frame, in_place, alloc) {
        Ok(z) => three(form, x, y, z, alloc),
        Err(stop) => {
            discard(x);
            discard(y);
            Err(stop)
        }
    }
}

/// A vector or a struct.
#[cycle(rows)]
#[tactic(auto, using(crate::proofs::Parts::parts_run, crate::proofs::Parts::parts_take))]
#[inline(never)]
fn value_of_many<'a>(
    form: ManyForm,
    parts: &Exprs,
    frame: &'a Frame<'a>,
    in_place: bool,
    alloc: Global,
) -> Result<Held<'a>, Stop>
    requires { Runs in_place (tree.many anywhere (view_many form) (pack_exprs parts.now))
        (env_of frame.now) }
    ensures { Answers held_of result (eval_of (tree.many anywhere (view_many form)
        (pack_exprs parts.now)) (env_of frame.now)) }
{
    match things(parts, &*frame, in_place, alloc) {
        Ok(things) => many(form, things, alloc),
        Err(stop) => Err(stop),
    }
}

/// The things of the parts of a vector or a struct.
#[cycle(rows)]
#[tactic(auto, using(crate::proofs::Parts::part_runs_at, crate::proofs::Parts::rest_runs, weld_eval_plain::proofs::Parts::part_done, weld_eval_plain::proofs::Parts::part_faults, weld_eval_plain::proofs::Parts::no_part_left))]
fn things(parts: &Exprs, frame: &Frame, in_place: bool, alloc: Global) -> Result<Vec<Owned>, Stop>
    requires { AllRun in_place (pack_exprs parts.now) (env_of frame.now) }
    ensures { Answers (λ things. pack_things (all_of things.items)) result
        (eval_all (pack_exprs parts.now) (env_of frame.now)) }
{
    let mut things = Vec::new(alloc);
    for part in parts.as_slice() {
        match value(part, &*frame, in_place, alloc) {
            Ok(x) => match push_thing(&mut things, x, alloc) {
                Ok(()) => {}
                Err(_) => return Err(Stop::Memory),
            },
            Err(stop) => return Err(stop),
        }
    }
    Ok(things)
}

/// A `let`.
#[cycle(rows)]
#[tactic(auto, using(crate::proofs::Values::let_value_runs, crate::proofs::Values::let_body_runs))]
fn value_of_let<'a>(
    binder: &Binder,
    first: &Expr,
    body: &Expr,
    frame: &'a Frame<'a>,
    in_place: bool,
    alloc: Global,
) -> Result<Held<'a>, Stop>
    requires { Runs in_place (tree.let_in anywhere binder.now first.now body.now)
        (env_of frame.now) }
    ensures { Answers held_of result (eval_of (tree.let_in anywhere binder.now first.now body.now)
        (env_of frame.now)) }
{
    let x = match value(first, frame, in_place, alloc) {
        Ok(x) => x,
        Err(stop) => return Err(stop),
    };
    let inner = bind(binder.sym, &x, &*frame);
    match value(body, &inner, in_place, alloc) {
        Ok(y) => made(y, alloc),
        Err(stop) => Err(stop),
    }
}

/// A loop: over a vector that is lent, or over legs that are evaluated.
#[cycle(rows)]
#[tactic(auto, using(crate::proofs::Nodes::legs_fit, crate::proofs::Nodes::legs_are, crate::proofs::Nodes::of_is_from))]
fn value_of_loop<'a>(
    e: &Expr,
    legs: &LegForms,
    start: &Expr,
    frame: &'a Frame<'a>,
    in_place: bool,
    alloc: Global,
) -> Result<Held<'a>, Stop>
    requires runs { Runs in_place e.now (env_of frame.now) }
    requires form { IsLoopOf e.now (pack_legs legs.now) start.now }
    ensures { Answers held_of result (eval_of e.now (env_of frame.now)) }
{
    match lent_leg(legs, frame) {
        Some(column) => value_on(e, start, frame, column, in_place, alloc),
        None => value_of_legs(e, legs, start, frame, in_place, alloc),
    }
}

/// A loop: its legs, then its builder, then its rows.
#[cycle(rows)]
#[tactic(auto, using(crate::proofs::Nodes::legs_run, crate::proofs::Nodes::legs_are, crate::proofs::Nodes::legs_fault, crate::proofs::Nodes::of_is_from))]
#[inline(never)]
fn value_of_legs<'a>(
    e: &Expr,
    legs: &LegForms,
    start: &Expr,
    frame: &'a Frame<'a>,
    in_place: bool,
    alloc: Global,
) -> Result<Held<'a>, Stop>
    requires runs { Runs in_place e.now (env_of frame.now) }
    requires form { IsLoopOf e.now (pack_legs legs.now) start.now }
    ensures { Answers held_of result (eval_of e.now (env_of frame.now)) }
{
    match eval_legs(legs, frame, in_place, alloc) {
        Ok(vectors) => value_over(e, start, frame, &vectors, in_place, alloc),
        Err(stop) => Err(stop),
    }
}

/// A loop over legs that are evaluated.
#[cycle(rows)]
#[tactic(auto, using(crate::proofs::Nodes::start_runs, crate::proofs::Nodes::over_count, crate::proofs::Nodes::over_gives, crate::proofs::Nodes::over_rows_fault, crate::proofs::Nodes::over_start_faults))]
fn value_over<'a>(
    e: &Expr,
    start: &Expr,
    frame: &'a Frame<'a>,
    vectors: &[Held],
    in_place: bool,
    alloc: Global,
) -> Result<Held<'a>, Stop>
    requires runs { Runs in_place e.now (env_of frame.now) }
    requires form { IsLoopFrom e.now start.now }
    requires legs { LegsAre e.now (env_of frame.now) (leg_lists vectors.now) }
    requires vectors { AreVectors vectors.now }
    ensures { Answers held_of result (eval_of e.now (env_of frame.now)) }
{
    let count = match count_rows(vectors) {
        Ok(count) => count,
        Err(stop) => return Err(stop),
    };
    match value(start, frame, in_place, alloc) {
        Ok(builder) => fill(e, &*frame, vectors, count, in_place, builder, alloc),
        Err(stop) => Err(stop),
    }
}

/// A builder handed through the rows of a loop.
#[cycle(rows)]
fn fill<'a>(
    e: &Expr,
    frame: &Frame,
    vectors: &[Held],
    count: usize,
    in_place: bool,
    builder: Held,
    alloc: Global,
) -> Result<Held<'a>, Stop>
    requires rows { HoldsRange e.now (env_of frame.now) (leg_lists vectors.now) 0 count
        (held_of builder) }
    requires direct { in_place ≡ true → AreDirect e.now }
    requires form { IsLoop e.now }
    requires legs { length_of vectors.now ≤ legs_count e.now }
    requires vectors { AreVectors vectors.now }
    ensures { Answers held_of result (range_over e.now (env_of frame.now) (leg_lists vectors.now) 0
        count (held_of builder.entry)) }
{
    let mut builder = match into_owned(builder, alloc) {
        Ok(builder) => builder,
        Err(_) => return Err(Stop::Memory),
    };
    let end = no_legs();
    match reach(
        e,
        frame,
        vectors,
        vectors.len(),
        &end,
        count,
        in_place,
        &mut builder,
        alloc,
    ) {
        Ok(()) => Ok(Held::Made(builder)),
        Err(stop) => Err(stop),
    }
}

/// Links the legs of a loop, the last one first, and hands the builder through its rows.
#[cycle(rows)]
pub(super) fn reach(
    e: &Expr,
    frame: &Frame,
    vectors: &[Held],
    left: usize,
    legs: &Legs,
    count: usize,
    in_place: bool,
    builder: &mut Owned,
    alloc: Global,
) -> Result<(), Stop>
    requires rows { HoldsRange e.now (env_of frame.now) (leg_lists vectors.now) 0 count
        (thing_of builder.old) }
    requires direct { in_place ≡ true → AreDirect e.now }
    requires form { IsLoop e.now }
    requires left { left ≤ length_of vectors.now }
    requires legs { lists_of legs.now ≡ drop_items left (leg_lists vectors.now) }
    requires vectors { AreVectors vectors.now }
    ensures { Acts result (range_over e.now (env_of frame.now) (leg_lists vectors.now) 0 count
        (thing_of builder.old)) (thing_of builder.new) }
{
    if left == 0 {
        hand_through(e, frame, legs, 0, count, in_place, builder, alloc)
    } else {
        let more = link(column_of(&vectors[left - 1]), &*legs);
        reach(
            e,
            frame,
            vectors,
            left - 1,
            &more,
            count,
            in_place,
            builder,
            alloc,
        )
    }
}
