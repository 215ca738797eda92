//! What expressions of builder type do to the builder that they act on.

ghost use Rattle.std.specs.Prelude.{true, drop as drop_items};
ghost use Rattle.weld_acts.specs.Act.{Acts, act as act_of, act_all};
ghost use Rattle.weld_acts.specs.ActFits.{ActFits, ActsFit};
ghost use Rattle.weld_deeds.specs.Puts.{PutFits};
ghost use Rattle.weld_eval.specs.FrameView.{env_of};
ghost use Rattle.weld_eval.specs.ThingView.{thing_of, things_of};
ghost use Rattle.weld_eval_forms.specs.Legs.{leg_lists, AreVectors};
ghost use Rattle.weld_eval_plain.specs.Rows.{LegsAre};
ghost use Rattle.weld_meaning.specs.Evaluation.{eval as eval_of, merged};
ghost use Rattle.weld_rows.specs.Nodes.{anywhere, IsLoopFrom, IsLoopOf, IsPairOf};
ghost use Rattle.weld_rows.specs.Numbers.{TriesNumber};
ghost use Rattle.weld_rows.specs.RowActs.{ActAll};
ghost use Rattle.weld_rows.specs.Runs.{Runs};
ghost use Rattle.weld_tree.specs.ExprTree as tree;
ghost use Rattle.weld_tree.specs.ExprTree.{pack_exprs, pack_legs};

use super::legs::eval_legs;
use super::lent::{act_on, total};
use super::numbers::{number, unread};
use super::values::{reach, value};
use crate::forms::{discard, is_numeric, no_legs, pair_parts, with_number};
use crate::reads::{leaf_number, leaf_pair, lent_leg};
use std::alloc::Global;
use weld_blocks::scalar::truth_of;
use weld_data::Stop;
use weld_deeds::puts::{put_held, put_number, put_two};
use weld_eval::frame::{Frame, bind};
use weld_eval::short::Short;
use weld_eval::thing::{Fields, Held, Owned};
use weld_eval_forms::legs::count_rows;
use weld_tree::{Binder, Expr, Exprs, Form, Legs};

/// What an expression of builder type does to the builder that it acts on.
#[cycle(rows)]
#[tactic(auto, using(crate::proofs::ActLemmas::no_turns))]
pub fn act(e: &Expr, frame: &Frame, builder: &mut Owned, alloc: Global) -> Result<(), Stop>
    requires { ActFits e.now (env_of frame.now) (thing_of builder.old) }
    ensures { Acts result (act_of e.now (env_of frame.now) (thing_of builder.old))
        (thing_of builder.new) }
{
    match &e.form {
        Form::Leaf(_) => Ok(()),
        Form::One(_, _) => Ok(()),
        Form::Two(_, first, item) => act_merge(first, item, frame, builder, alloc),
        Form::Three(_, condition, then, otherwise) => {
            act_if(condition, then, otherwise, frame, builder, alloc)
        }
        Form::Many(_, parts) => act_struct(parts, frame, builder, alloc),
        Form::Let(binder, first, body) => act_let(binder, first, body, frame, builder, alloc),
        Form::For(legs, start, _, _, _, _) => act_loop(e, legs, start, frame, builder, alloc),
        Form::Iterate(_, _, _) => unreachable!(),
    }
}

/// A merge: what its builder does, then the item.
#[cycle(rows)]
#[tactic(auto, using(crate::proofs::ActLemmas::merge_part_acts, crate::proofs::ActLemmas::merge_part_faults, crate::proofs::ActLemmas::item_runs, crate::proofs::ActLemmas::item_puts, crate::proofs::ActLemmas::merge_by_item))]
fn act_merge(
    first: &Expr,
    item: &Expr,
    frame: &Frame,
    builder: &mut Owned,
    alloc: Global,
) -> Result<(), Stop>
    requires { ActFits (tree.two anywhere tree.merge first.now item.now) (env_of frame.now)
        (thing_of builder.old) }
    ensures { Acts result (act_of (tree.two anywhere tree.merge first.now item.now)
        (env_of frame.now) (thing_of builder.old)) (thing_of builder.new) }
{
    match act_first(first, frame, builder, alloc) {
        Ok(()) => put(item, frame, builder, alloc),
        Err(stop) => Err(stop),
    }
}

/// What the builder does into which is merged: mostly it is the name alone, which does nothing.
#[cycle(rows)]
#[inline(always)]
fn act_first(e: &Expr, frame: &Frame, builder: &mut Owned, alloc: Global) -> Result<(), Stop>
    requires { ActFits e.now (env_of frame.now) (thing_of builder.old) }
    ensures { Acts result (act_of e.now (env_of frame.now) (thing_of builder.old))
        (thing_of builder.new) }
{
    match &e.form {
        Form::Leaf(_) => Ok(()),
        _ => act(e, frame, builder, alloc),
    }
}

/// Merges an item: a number without a value made.
#[cycle(rows)]
#[tactic(auto, using(weld_deeds::proofs::Merges::put_number_item, weld_deeds::proofs::Merges::put_is, crate::proofs::ActLemmas::put_stops))]
fn put(item: &Expr, frame: &Frame, builder: &mut Owned, alloc: Global) -> Result<(), Stop>
    requires runs { Runs true item.now (env_of frame.now) }
    requires fits { PutFits item.now (env_of frame.now) (thing_of builder.old) }
    ensures { Acts result (merged (thing_of builder.old) (eval_of item.now (env_of frame.now)))
        (thing_of builder.new) }
{
    match tried(item, frame, alloc) {
        Ok(Some(n)) => put_number(builder, n),
        Ok(None) => put_other(item, frame, builder, alloc),
        Err(stop) => Err(stop),
    }
}

/// The number that an expression comes to, where it is one by its looks, is read at once, or is a sum over a vector that is lent.
#[cycle(rows)]
#[tactic(auto, using(crate::proofs::Numbers::numeric_runs))]
#[inline(always)]
pub(super) fn tried(e: &Expr, frame: &Frame, alloc: Global) -> Result<Option<Short>, Stop>
    requires { Runs true e.now (env_of frame.now) }
    ensures { TriesNumber result (eval_of e.now (env_of frame.now)) }
{
    match leaf_number(e, frame) {
        Some(n) => Ok(Some(n)),
        None => {
            if is_numeric(e) {
                match unread(e, frame, true, alloc) {
                    Ok(n) => Ok(Some(n)),
                    Err(stop) => Err(stop),
                }
            } else {
                total(e, frame, true, alloc)
            }
        }
    }
}

/// Merges an item that isn't a number by its looks.
#[cycle(rows)]
#[tactic(auto, using(weld_deeds::proofs::Merges::put_number_item, weld_deeds::proofs::Merges::put_is))]
fn put_other(item: &Expr, frame: &Frame, builder: &mut Owned, alloc: Global) -> Result<(), Stop>
    requires runs { Runs true item.now (env_of frame.now) }
    requires fits { PutFits item.now (env_of frame.now) (thing_of builder.old) }
    ensures { Acts result (merged (thing_of builder.old) (eval_of item.now (env_of frame.now)))
        (thing_of builder.new) }
{
    match leaf_pair(item, frame) {
        Some(found) => put_two(builder, found.0, found.1, alloc),
        None => put_compound(item, frame, builder, alloc),
    }
}

/// The same of what isn't read at once.
#[cycle(rows)]
fn put_compound(item: &Expr, frame: &Frame, builder: &mut Owned, alloc: Global) -> Result<(), Stop>
    requires runs { Runs true item.now (env_of frame.now) }
    requires fits { PutFits item.now (env_of frame.now) (thing_of builder.old) }
    ensures { Acts result (merged (thing_of builder.old) (eval_of item.now (env_of frame.now)))
        (thing_of builder.new) }
{
    match pair_parts(item) {
        Some(parts) => put_written(item, parts, frame, builder, alloc),
        None => put_made(item, frame, builder, alloc),
    }
}

/// Merges the value that an item comes to.
#[cycle(rows)]
#[tactic(auto, using(weld_deeds::proofs::Merges::put_plain, weld_deeds::proofs::Merges::put_thing, weld_deeds::proofs::Merges::put_is, crate::proofs::ActLemmas::put_made_stops))]
fn put_made(item: &Expr, frame: &Frame, builder: &mut Owned, alloc: Global) -> Result<(), Stop>
    requires runs { Runs true item.now (env_of frame.now) }
    requires fits { PutFits item.now (env_of frame.now) (thing_of builder.old) }
    ensures { Acts result (merged (thing_of builder.old) (eval_of item.now (env_of frame.now)))
        (thing_of builder.new) }
{
    match value(item, &*frame, true, alloc) {
        Ok(x) => put_held(builder, x, alloc),
        Err(stop) => Err(stop),
    }
}

/// Merges a key and its item that are written as a struct.
#[cycle(rows)]
#[tactic(auto, using(crate::proofs::ActLemmas::pair_length, crate::proofs::ActLemmas::pair_key_runs, crate::proofs::ActLemmas::pair_item_runs, crate::proofs::ActLemmas::pair_is, crate::proofs::ActLemmas::pair_key_stops, crate::proofs::ActLemmas::pair_item_stops, weld_deeds::proofs::Merges::put_number_item, weld_deeds::proofs::Merges::put_is))]
fn put_written(
    item: &Expr,
    parts: &Exprs,
    frame: &Frame,
    builder: &mut Owned,
    alloc: Global,
) -> Result<(), Stop>
    requires runs { Runs true item.now (env_of frame.now) }
    requires fits { PutFits item.now (env_of frame.now) (thing_of builder.old) }
    requires form { IsPairOf item.now parts.now }
    ensures { Acts result (merged (thing_of builder.old) (eval_of item.now (env_of frame.now)))
        (thing_of builder.new) }
{
    let parts = parts.as_slice();
    let key = match tried(&parts[0], frame, alloc) {
        Ok(key) => key,
        Err(stop) => return Err(stop),
    };
    let x = match tried(&parts[1], frame, alloc) {
        Ok(x) => x,
        Err(stop) => return Err(stop),
    };
    match (key, x) {
        (Some(key), Some(x)) => put_two(builder, key, x, alloc),
        _ => put_made(item, frame, builder, alloc),
    }
}

/// An `if`: only the arm that is chosen acts.
#[cycle(rows)]
#[tactic(auto, using(crate::proofs::ActLemmas::choice_runs, crate::proofs::ActLemmas::choice_truth, crate::proofs::ActLemmas::then_acts, crate::proofs::ActLemmas::otherwise_acts, crate::proofs::ActLemmas::acts_then, crate::proofs::ActLemmas::acts_otherwise, crate::proofs::ActLemmas::choice_faults))]
fn act_if(
    condition: &Expr,
    then: &Expr,
    otherwise: &Expr,
    frame: &Frame,
    builder: &mut Owned,
    alloc: Global,
) -> Result<(), Stop>
    requires { ActFits (tree.three anywhere tree.if_else condition.now then.now otherwise.now)
        (env_of frame.now) (thing_of builder.old) }
    ensures { Acts result (act_of (tree.three anywhere tree.if_else condition.now then.now
        otherwise.now) (env_of frame.now) (thing_of builder.old)) (thing_of builder.new) }
{
    let chosen = match number(condition, frame, true, alloc) {
        Ok(x) => truth_of(x),
        Err(stop) => return Err(stop),
    };
    if chosen {
        act(then, frame, builder, alloc)
    } else {
        act(otherwise, frame, builder, alloc)
    }
}

/// A `let`: a number is bound as it is.
#[cycle(rows)]
#[tactic(auto, using(crate::proofs::ActLemmas::let_first_runs, crate::proofs::ActLemmas::acts_let, crate::proofs::ActLemmas::let_faults))]
fn act_let(
    binder: &Binder,
    first: &Expr,
    body: &Expr,
    frame: &Frame,
    builder: &mut Owned,
    alloc: Global,
) -> Result<(), Stop>
    requires { ActFits (tree.let_in anywhere binder.now first.now body.now) (env_of frame.now)
        (thing_of builder.old) }
    ensures { Acts result (act_of (tree.let_in anywhere binder.now first.now body.now)
        (env_of frame.now) (thing_of builder.old)) (thing_of builder.new) }
{
    match tried(first, frame, alloc) {
        Ok(Some(n)) => {
            let inner = with_number(binder.sym, n, &*frame);
            act(body, &inner, builder, alloc)
        }
        Ok(None) => act_let_value(binder, first, body, frame, builder, alloc),
        Err(stop) => Err(stop),
    }
}

/// A `let` of another value.
#[cycle(rows)]
#[tactic(auto, using(crate::proofs::ActLemmas::let_first_runs, crate::proofs::ActLemmas::acts_let, crate::proofs::ActLemmas::let_faults))]
fn act_let_value(
    binder: &Binder,
    first: &Expr,
    body: &Expr,
    frame: &Frame,
    builder: &mut Owned,
    alloc: Global,
) -> Result<(), Stop>
    requires { ActFits (tree.let_in anywhere binder.now first.now body.now) (env_of frame.now)
        (thing_of builder.old) }
    ensures { Acts result (act_of (tree.let_in anywhere binder.now first.now body.now)
        (env_of frame.now) (thing_of builder.old)) (thing_of builder.new) }
{
    let x = match value(first, &*frame, true, alloc) {
        Ok(x) => x,
        Err(stop) => return Err(stop),
    };
    let inner = bind(binder.sym, &x, &*frame);
    let answer = act(body, &inner, builder, alloc);
    discard(x);
    answer
}

/// A loop over the same builder, which goes on in it: over a vector that is lent, or over legs that are evaluated.
#[cycle(rows)]
#[tactic(auto, using(crate::proofs::Nodes::legs_act_fit, crate::proofs::Nodes::legs_are, crate::proofs::Nodes::of_is_from))]
fn act_loop(
    e: &Expr,
    legs: &Legs,
    start: &Expr,
    frame: &Frame,
    builder: &mut Owned,
    alloc: Global,
) -> Result<(), Stop>
    requires acts { ActFits e.now (env_of frame.now) (thing_of builder.old) }
    requires form { IsLoopOf e.now (pack_legs legs.now) start.now }
    ensures { Acts result (act_of e.now (env_of frame.now) (thing_of builder.old))
        (thing_of builder.new) }
{
    match lent_leg(legs, &*frame) {
        Some(column) => act_on(e, start, frame, column, builder, alloc),
        None => act_legs(e, legs, start, frame, builder, alloc),
    }
}

/// A loop over the same builder: its legs, then its rows.
#[cycle(rows)]
#[tactic(auto, using(crate::proofs::Nodes::legs_run_acts, crate::proofs::Nodes::legs_are, crate::proofs::Nodes::legs_fault_acts, crate::proofs::Nodes::of_is_from))]
fn act_legs(
    e: &Expr,
    legs: &Legs,
    start: &Expr,
    frame: &Frame,
    builder: &mut Owned,
    alloc: Global,
) -> Result<(), Stop>
    requires acts { ActFits e.now (env_of frame.now) (thing_of builder.old) }
    requires form { IsLoopOf e.now (pack_legs legs.now) start.now }
    ensures { Acts result (act_of e.now (env_of frame.now) (thing_of builder.old))
        (thing_of builder.new) }
{
    match eval_legs(legs, &*frame, true, alloc) {
        Ok(vectors) => act_over(e, start, frame, &vectors, builder, alloc),
        Err(stop) => Err(stop),
    }
}

/// The same over legs that are evaluated.
#[cycle(rows)]
#[tactic(auto, using(crate::proofs::Nodes::act_over_count, crate::proofs::Nodes::start_acts, crate::proofs::Nodes::act_gives, crate::proofs::Nodes::act_rows_fault, crate::proofs::Nodes::act_start_faults))]
fn act_over(
    e: &Expr,
    start: &Expr,
    frame: &Frame,
    vectors: &[Held],
    builder: &mut Owned,
    alloc: Global,
) -> Result<(), Stop>
    requires acts { ActFits e.now (env_of frame.now) (thing_of builder.old) }
    requires form { IsLoopFrom e.now start.now }
    requires legs { LegsAre e.now (env_of frame.now) (leg_lists vectors.now) }
    requires vectors { AreVectors vectors.now }
    ensures { Acts result (act_of e.now (env_of frame.now) (thing_of builder.old))
        (thing_of builder.new) }
{
    let count = match count_rows(vectors) {
        Ok(count) => count,
        Err(stop) => return Err(stop),
    };
    let end = no_legs();
    match act(start, frame, builder, alloc) {
        Ok(()) => reach(
            e,
            frame,
            vectors,
            vectors.len(),
            &end,
            count,
            true,
            builder,
            alloc,
        ),
        Err(stop) => Err(stop),
    }
}

/// A struct of builders, field by field.
#[cycle(rows)]
fn act_struct(parts: &Exprs, frame: &Frame, builder: &mut Owned, alloc: Global) -> Result<(), Stop>
    requires { ActFits (tree.many anywhere tree.make_struct (pack_exprs parts.now))
        (env_of frame.now) (thing_of builder.old) }
    ensures { Acts result (act_of (tree.many anywhere tree.make_struct (pack_exprs parts.now))
        (env_of frame.now) (thing_of builder.old)) (thing_of builder.new) }
{
    match builder {
        Owned::Several(fields) => act_fields(parts, 0, frame, fields, alloc),
        _ => unreachable!(),
    }
}

/// The fields from a number on.
#[cycle(rows)]
#[tactic(auto, using(weld_acts::proofs::Children::acts_at, weld_acts::proofs::Children::acts_after))]
fn act_fields(
    parts: &Exprs,
    number: usize,
    frame: &Frame,
    fields: &mut Fields,
    alloc: Global,
) -> Result<(), Stop>
    requires { ActsFit (pack_exprs (drop_items number parts.now)) (env_of frame.now)
        (things_of fields.old) }
    ensures { ActAll result (act_all (pack_exprs (drop_items number parts.now)) (env_of frame.now)
        (things_of fields.old)) (things_of fields.new) }
{
    match fields {
        Fields::End => Ok(()),
        Fields::And(first, rest) => match act(&parts.as_slice()[number], frame, first, alloc) {
            Ok(()) => act_fields(parts, number + 1, frame, rest, alloc),
            Err(stop) => Err(stop),
        },
    }
}
