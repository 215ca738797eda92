//! The rows of a range, by lanes where the loop's body allows it.

ghost use Rattle.std.specs.Prelude.{◌≡◌, ◌≤◌, length, map};
ghost use Rattle.weld_acts.specs.Ranges.{HoldsRange};
ghost use Rattle.weld_eval.specs.FrameView.{env_of};
ghost use Rattle.weld_eval.specs.LegsView.{lists_of};
ghost use Rattle.weld_eval.specs.ThingView.{thing_of};
ghost use Rattle.weld_lane_rows.specs.Answers.{LanesAnswer};
ghost use Rattle.weld_lane_rows.specs.Columns.{AreRows};
ghost use Rattle.weld_lane_rows.specs.Outside.{IsLoopOf};

use crate::columns::{Columns, columns_of};
use crate::outside::{is_own_apart, is_same, numbers_outside};
use crate::pieces::{Lanes, run_pieces};
use crate::words::Word;
use std::alloc::{AllocError, Global};
use weld_data::Column;
use weld_eval::frame::Frame;
use weld_eval::legs::Legs;
use weld_eval::thing::Owned;
use weld_lane_form::{LaneBody, LoopNames, lower};
use weld_tree::{Expr, Form};

/// Fewer rows aren't worth the steps that would be made for them.
const FEW: usize = 64;

/// Hands a builder through the rows of a loop from a number up to, not including, another, where its body is plain arithmetic
/// on numbers of one kind and there are rows enough: what the body merges is worked out by lanes for 512 rows at once, and
/// merged as one list. Tells whether it did; where it didn't, the builder is as it was. After want of memory the
/// builder is only good to be dropped.
pub fn run_lanes(
    node: &Expr,
    frame: &Frame,
    legs: &Legs,
    from: usize,
    to: usize,
    builder: &mut Owned,
    alloc: Global,
) -> Result<bool, AllocError>
    requires rows { HoldsRange node.now (env_of frame.now) (lists_of legs.now) from to
        (thing_of builder.old) }
    ensures { LanesAnswer result (record {
      node = node.now;
      names = env_of frame.now;
      lists = lists_of legs.now;
      start = thing_of builder.old;
    }) from to (thing_of builder.old)
        (thing_of builder.new) }
{
    if to - from < FEW {
        return Ok(false);
    }
    match legs {
        Legs::And(Column::I64(_), _) => run_kind::<i64>(
            node, frame, legs, from, to, builder, alloc,
        ),
        Legs::And(Column::I32(_), _) => run_kind::<i32>(
            node, frame, legs, from, to, builder, alloc,
        ),
        Legs::And(Column::U8(_), _) => run_kind::<u8>(node, frame, legs, from, to, builder, alloc),
        Legs::And(Column::U32(_), _) => run_kind::<u32>(
            node, frame, legs, from, to, builder, alloc,
        ),
        _ => Ok(false),
    }
}

/// The same where the numbers of the first leg are of this kind.
fn run_kind<L: Word>(
    node: &Expr,
    frame: &Frame,
    legs: &Legs,
    from: usize,
    to: usize,
    builder: &mut Owned,
    alloc: Global,
) -> Result<bool, AllocError>
    requires rows { HoldsRange node.now (env_of frame.now) (lists_of legs.now) from to
        (thing_of builder.old) }
    ensures { LanesAnswer result (record {
      node = node.now;
      names = env_of frame.now;
      lists = lists_of legs.now;
      start = thing_of builder.old;
    }) from to (thing_of builder.old)
        (thing_of builder.new) }
{
    let columns = match columns_of::<L>(legs, to) {
        Some(columns) => columns,
        None => return Ok(false),
    };
    match &node.form {
        Form::For(_, _, own, number, row, body) => {
            let names = LoopNames {
                kind: L::kind_of(),
                is_pair: columns.is_pair,
                row: row.sym,
                number: number.sym,
                own: own.sym,
            };
            run_columns(
                node, body, &names, frame, legs, &columns, from, to, builder, alloc,
            )
        }
        _ => Ok(false),
    }
}

/// The same over these columns, by the steps of the body.
fn run_columns<L: Word>(
    node: &Expr,
    body: &Expr,
    names: &LoopNames,
    frame: &Frame,
    legs: &Legs,
    columns: &Columns<L>,
    from: usize,
    to: usize,
    builder: &mut Owned,
    alloc: Global,
) -> Result<bool, AllocError>
    requires rows { HoldsRange node.now (env_of frame.now) (lists_of legs.now) from to
        (thing_of builder.old) }
    requires named { IsLoopOf node.now names.now body.now }
    requires kind { names.now.kind ≡ L.kind }
    requires columns { AreRows L.kind names.now.is_pair (lists_of legs.now)
        (map L.number columns.now.first.now) (map L.number columns.now.second.now) to }
    ensures { LanesAnswer result (record {
      node = node.now;
      names = env_of frame.now;
      lists = lists_of legs.now;
      start = thing_of builder.old;
    }) from to (thing_of builder.old)
        (thing_of builder.new) }
{
    let made = match lower(*names, body, alloc)? {
        Some(made) => made,
        None => return Ok(false),
    };
    if !is_same(made.program.kind, names.kind) || !is_own_apart(names) {
        return Ok(false);
    }
    match numbers_outside::<L>(names, &made.uniforms, frame, alloc)? {
        Some(uniforms) => {
            let lanes = Lanes {
                program: &made.program,
                uniforms: &uniforms,
                first: columns.first,
                second: columns.second,
            };
            run_pieces(node, frame, legs, &lanes, from, to, builder, alloc)?;
            Ok(true)
        }
        None => Ok(false),
    }
}
