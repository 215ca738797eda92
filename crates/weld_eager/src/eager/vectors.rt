//! The calls on vectors of numbers and of truths, by the types of their arguments.

ghost use Rattle.weld_data.specs.Value.{number};
ghost use Rattle.weld_data.specs.Operation.{start_of};
ghost use Rattle.weld_data.specs.View.{view_val};
ghost use Rattle.weld_builders.specs.Outcome.{done};
ghost use Rattle.weld_calls.specs.Folds.{combined_all};
ghost use Rattle.weld_calls.specs.declared.call.Call.TheVariants as calls;
ghost use Rattle.weld_calls.specs.CallRows.{IsRow, OneVector, TwoVectors, VectorAndNumber};
ghost use Rattle.weld_calls.specs.CallTypes.{IsArithmetic};
ghost use Rattle.weld_eval.specs.Answers.{Answers};
ghost use Rattle.weld_calls.specs.Lists.{numbers};
ghost use Rattle.weld_calls.specs.CallMeaning.{call_meaning, kind_at as plain_kind_at, value_at};
ghost use Rattle.weld_eager.specs.Fitting.{AreOf};

use crate::answer::{always, or_fault};
use crate::arguments::{argument, kind_at};
use crate::calls::{arithmetic, compare, count, dot, reduce, scale, where_};
use crate::histogram::histogram;
use crate::rows::rows_dot;
use std::alloc::Global;
use weld_data::{BinOp, MergeOp, Stop, Val, Vals};
use weld_tree::Tys;

/// The operator's answers, place by place.
pub fn operated(alloc: Global, op: BinOp, arguments: &Vals, types: &Tys) -> Result<Val, Stop>
    requires operator { IsArithmetic op }
    requires row { TwoVectors types.now }
    requires values { AreOf types.now arguments.now }
    ensures { Answers view_val result (call_meaning (calls.Arith op) types.now arguments.now) }
{
    let kind = kind_at(types, 0);
    let v = argument(arguments, 0);
    let w = argument(arguments, 1);
    or_fault(arithmetic(alloc, op, kind, v, w))
}

/// Each number of a vector times another.
pub fn scaled(alloc: Global, arguments: &Vals, types: &Tys) -> Result<Val, Stop>
    requires row { VectorAndNumber types.now }
    requires values { AreOf types.now arguments.now }
    ensures { Answers view_val result (call_meaning calls.Scale types.now arguments.now) }
{
    let kind = kind_at(types, 0);
    let v = argument(arguments, 0);
    let s = argument(arguments, 1);
    always(scale(alloc, kind, v, s))
}

/// Whether each number of a vector compares so with another.
pub fn compared(alloc: Global, op: BinOp, arguments: &Vals, types: &Tys) -> Result<Val, Stop>
    requires row { VectorAndNumber types.now }
    requires values { AreOf types.now arguments.now }
    ensures { Answers view_val result (call_meaning (calls.Compare op) types.now arguments.now) }
{
    let kind = kind_at(types, 0);
    let v = argument(arguments, 0);
    let s = argument(arguments, 1);
    always(compare(alloc, op, kind, v, s))
}

/// At each place the first of two numbers where the mark is true, else the second.
pub fn chosen(alloc: Global, arguments: &Vals, types: &Tys) -> Result<Val, Stop>
    requires row { IsRow calls.Where types.now }
    requires values { AreOf types.now arguments.now }
    ensures { Answers view_val result (call_meaning calls.Where types.now arguments.now) }
{
    let kind = kind_at(types, 1);
    let m = argument(arguments, 0);
    let v = argument(arguments, 1);
    let w = argument(arguments, 2);
    or_fault(where_(alloc, kind, m, v, w))
}

/// The wrapped sum of the products, place by place.
pub fn dotted(alloc: Global, arguments: &Vals, types: &Tys) -> Result<Val, Stop>
    requires row { TwoVectors types.now }
    requires values { AreOf types.now arguments.now }
    ensures { Answers view_val result (call_meaning calls.Dot types.now arguments.now) }
{
    let kind = kind_at(types, 0);
    let v = argument(arguments, 0);
    let w = argument(arguments, 1);
    or_fault(dot(alloc, kind, v, w))
}

/// All numbers of a vector combined, from the number that a builder of the operator starts with.
pub fn combined(alloc: Global, op: MergeOp, arguments: &Vals, types: &Tys) -> Result<Val, Stop>
    requires row { OneVector types.now }
    requires values { AreOf types.now arguments.now }
    ensures { Answers view_val result (done (number (plain_kind_at 0 types.now)
        (combined_all op (plain_kind_at 0 types.now) (start_of op (plain_kind_at 0 types.now))
        (numbers (value_at 0 arguments.now))))) }
{
    let kind = kind_at(types, 0);
    let v = argument(arguments, 0);
    always(reduce(alloc, op, kind, v))
}

/// How many are true.
pub fn counted(alloc: Global, arguments: &Vals, types: &Tys) -> Result<Val, Stop>
    requires row { IsRow calls.Count types.now }
    requires values { AreOf types.now arguments.now }
    ensures { Answers view_val result (call_meaning calls.Count types.now arguments.now) }
{
    let m = argument(arguments, 0);
    always(count(alloc, m))
}

/// How often the places of the second vector stand in the first, added to the second.
pub fn tallied(alloc: Global, arguments: &Vals, types: &Tys) -> Result<Val, Stop>
    requires row { IsRow calls.Histogram types.now }
    requires values { AreOf types.now arguments.now }
    ensures { Answers view_val result (call_meaning calls.Histogram types.now arguments.now) }
{
    let v = argument(arguments, 0);
    let starts = argument(arguments, 1);
    or_fault(histogram(alloc, v, starts))
}

/// The dot of each row with a vector.
pub fn dotted_rows(alloc: Global, arguments: &Vals, types: &Tys) -> Result<Val, Stop>
    requires row { IsRow calls.RowsDot types.now }
    requires values { AreOf types.now arguments.now }
    ensures { Answers view_val result (call_meaning calls.RowsDot types.now arguments.now) }
{
    let kind = kind_at(types, 1);
    let m = argument(arguments, 0);
    let w = argument(arguments, 1);
    or_fault(rows_dot(alloc, kind, m, w))
}
