//! Every call by one function.

ghost use Rattle.weld_data.specs.View.{view_val};
ghost use Rattle.weld_calls.specs.CallTypes.{FitsCall, HasItsOperator};
ghost use Rattle.weld_eval.specs.Answers.{Answers};
ghost use Rattle.weld_calls.specs.CallMeaning.{call_meaning};
ghost use Rattle.weld_eager.specs.Fitting.{AreOf};

mod elements;
mod vectors;

use self::elements::{
    counted_by_keys, filtered, listed_by_keys, picked, sliced, summed_by_keys, taken,
};
use self::vectors::{
    chosen, combined, compared, counted, dotted, dotted_rows, operated, scaled, tallied,
};
use std::alloc::Global;
use weld_calls::Call;
use weld_calls::laws::rows_are_a_table;
use weld_data::{BinOp, MergeOp, Stop, Val, Vals};
use weld_tree::Tys;

/// What a call comes to on arguments of these types, which fit it, by plain loops over columns. `Fault`
/// comes exactly where the call's plain lists fault: where vectors that go side by side are of different
/// lengths, at a zero divisor, and where a place that is asked for isn't there. `Memory` comes where
/// memory is wanting.
pub fn eager(alloc: Global, call: Call, arguments: &Vals, types: &Tys) -> Result<Val, Stop>
    requires operator { HasItsOperator call }
    requires fits { FitsCall call types.now }
    requires values { AreOf types.now arguments.now }
    ensures { Answers view_val result (call_meaning call types.now arguments.now) }
{
    rows_are_a_table();
    match call {
        Call::Add => operated(alloc, BinOp::Add, arguments, types),
        Call::Sub => operated(alloc, BinOp::Sub, arguments, types),
        Call::Mul => operated(alloc, BinOp::Mul, arguments, types),
        Call::Scale => scaled(alloc, arguments, types),
        Call::Where => chosen(alloc, arguments, types),
        Call::Dot => dotted(alloc, arguments, types),
        Call::Sum => combined(alloc, MergeOp::Add, arguments, types),
        Call::Min => combined(alloc, MergeOp::Min, arguments, types),
        Call::Max => combined(alloc, MergeOp::Max, arguments, types),
        Call::Slice => sliced(alloc, arguments, types),
        Call::Take => taken(alloc, arguments, types),
        Call::Histogram => tallied(alloc, arguments, types),
        Call::RowsDot => dotted_rows(alloc, arguments, types),
        Call::Column(field) => picked(alloc, field, arguments, types),
        Call::Filter => filtered(alloc, arguments, types),
        Call::Compare(op) => compared(alloc, op, arguments, types),
        Call::Arith(op) => operated(alloc, op, arguments, types),
        Call::Count => counted(alloc, arguments, types),
        Call::GroupSum => summed_by_keys(alloc, arguments, types),
        Call::GroupList => listed_by_keys(alloc, arguments, types),
        Call::GroupCount => counted_by_keys(alloc, arguments, types),
    }
}
