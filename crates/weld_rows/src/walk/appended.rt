//! The rows of a loop, each evaluated on a builder that has nothing merged, and appended.

ghost use Rattle.std.specs.Prelude.{◌<◌, false, length as length_of};
ghost use Rattle.weld_acts.specs.Act.{Acts};
ghost use Rattle.weld_acts.specs.Ranges.{HoldsRange, range_over};
ghost use Rattle.weld_eval.specs.FrameView.{env_of};
ghost use Rattle.weld_eval.specs.LegsView.{lists_of};
ghost use Rattle.weld_eval.specs.RowLists.{rows_in, row_in};
ghost use Rattle.weld_eval.specs.ThingView.{thing_of};
ghost use Rattle.weld_eval_plain.specs.Nodes.{IsLoop};
ghost use Rattle.weld_eval_plain.specs.Rows.{BodyAnswer, Joins, HoldsRow, RowAnswer};
ghost use Rattle.weld_rows.specs.Runs.{Runs};

use super::values::value;
use crate::forms::{let_go, with_builder, with_number, with_row};
use std::alloc::Global;
use weld_blocks::scalar::whole_number;
use weld_data::Stop;
use weld_eval::frame::Frame;
use weld_eval::legs::Legs;
use weld_eval::row::RowAt;
use weld_eval::thing::{Owned, bare_thing};
use weld_eval_forms::several::append;
use weld_tree::{Expr, Form};

/// The rows of a loop from a number up to, not including, another, each appended.
#[cycle(rows)]
#[tactic(auto, using(crate::proofs::RangeSteps::range_end))]
pub(super) fn append_rows(
    e: &Expr,
    frame: &Frame,
    legs: &Legs,
    from: usize,
    to: usize,
    builder: &mut Owned,
    alloc: Global,
) -> Result<(), Stop>
    requires rows { HoldsRange e.now (env_of frame.now) (lists_of legs.now) from to
        (thing_of builder.old) }
    requires form { IsLoop e.now }
    ensures { Acts result (range_over e.now (env_of frame.now) (lists_of legs.now) from to
        (thing_of builder.old)) (thing_of builder.new) }
{
    for number in from..to {
        match append_row(e, &*frame, &*legs, number, builder, alloc) {
            Ok(()) => {}
            Err(stop) => return Err(stop),
        }
    }
    Ok(())
}

/// One row of a loop: what the body makes of the builder that has nothing merged is appended. So a
/// row costs what it merges, and not what was merged before.
#[cycle(rows)]
fn append_row(
    e: &Expr,
    frame: &Frame,
    legs: &Legs,
    number: usize,
    builder: &mut Owned,
    alloc: Global,
) -> Result<(), Stop>
    requires there { number < length_of (rows_in (lists_of legs.now)) }
    requires holds { HoldsRow e.now (env_of frame.now) (thing_of builder.old)
        (row_in (lists_of legs.now) number) }
    requires form { IsLoop e.now }
    ensures { RowAnswer result e.now (env_of frame.now) (number, row_in (lists_of legs.now) number)
        (thing_of builder.old) (thing_of builder.new) }
{
    match &e.form {
        Form::For(_, _, own_binder, count_binder, row_binder, body) => {
            let own = match bare_thing(builder, alloc) {
                Ok(own) => own,
                Err(_) => return Err(Stop::Memory),
            };
            let row = RowAt::new(&*legs, number);
            let outer = with_builder(own_binder.sym, &own, &*frame);
            let middle = with_number(count_binder.sym, whole_number(number), &outer);
            let inner = with_row(row_binder.sym, &row, &middle);
            let answer = append_body(body, &inner, builder, alloc);
            let_go(own);
            answer
        }
        _ => unreachable!(),
    }
}

/// The body of a loop on a row: what it makes of the builder that has nothing merged is appended.
#[cycle(rows)]
fn append_body(body: &Expr, frame: &Frame, builder: &mut Owned, alloc: Global) -> Result<(), Stop>
    requires runs { Runs false body.now (env_of frame.now) }
    requires joins { Joins body.now (env_of frame.now) (thing_of builder.old) }
    ensures { BodyAnswer result body.now (env_of frame.now) (thing_of builder.old)
        (thing_of builder.new) }
{
    match value(body, &*frame, false, alloc) {
        Ok(merged) => append(builder, merged, alloc),
        Err(stop) => Err(stop),
    }
}
