//! The calls on vectors of any elements, on keys and on columns, by the types of their arguments.

ghost use Rattle.weld_data.specs.View.{view_val};
ghost use Rattle.weld_calls.specs.declared.call.Call.TheVariants as calls;
ghost use Rattle.weld_calls.specs.CallRows.{IsRow};
ghost use Rattle.weld_eval.specs.Answers.{Answers};
ghost use Rattle.weld_calls.specs.CallMeaning.{call_meaning};
ghost use Rattle.weld_eager.specs.Fitting.{AreOf};

use crate::answer::{always, or_fault};
use crate::arguments::{argument, kept_kind_at, kind_at};
use crate::filter::filter;
use crate::groups::{group_count, group_list, group_sum};
use crate::places::{column, slice, take};
use std::alloc::Global;
use weld_data::{Stop, Val, Vals};
use weld_tree::Tys;

/// So many elements of a vector from a place on.
pub fn sliced(alloc: Global, arguments: &Vals, types: &Tys) -> Result<Val, Stop>
    requires row { IsRow calls.Slice types.now }
    requires values { AreOf types.now arguments.now }
    ensures { Answers view_val result (call_meaning calls.Slice types.now arguments.now) }
{
    let v = argument(arguments, 0);
    let start = argument(arguments, 1);
    let count = argument(arguments, 2);
    slice(alloc, v, start, count)
}

/// The elements at the places that the second vector lists.
pub fn taken(alloc: Global, arguments: &Vals, types: &Tys) -> Result<Val, Stop>
    requires row { IsRow calls.Take types.now }
    requires values { AreOf types.now arguments.now }
    ensures { Answers view_val result (call_meaning calls.Take types.now arguments.now) }
{
    let kind = kept_kind_at(types, 0);
    let v = argument(arguments, 0);
    let places = argument(arguments, 1);
    or_fault(take(alloc, kind, v, places))
}

/// The column of that number, from 0.
pub fn picked(alloc: Global, field: u32, arguments: &Vals, types: &Tys) -> Result<Val, Stop>
    requires row { IsRow (calls.Column field) types.now }
    requires values { AreOf types.now arguments.now }
    ensures { Answers view_val result (call_meaning (calls.Column field) types.now arguments.now) }
{
    let table = argument(arguments, 0);
    always(column(alloc, table, field))
}

/// The elements where the second vector is true.
pub fn filtered(alloc: Global, arguments: &Vals, types: &Tys) -> Result<Val, Stop>
    requires row { IsRow calls.Filter types.now }
    requires values { AreOf types.now arguments.now }
    ensures { Answers view_val result (call_meaning calls.Filter types.now arguments.now) }
{
    let kind = kept_kind_at(types, 0);
    let c = argument(arguments, 0);
    let m = argument(arguments, 1);
    or_fault(filter(alloc, kind, c, m))
}

/// Each key and the wrapped sum of the numbers at its places.
pub fn summed_by_keys(alloc: Global, arguments: &Vals, types: &Tys) -> Result<Val, Stop>
    requires row { IsRow calls.GroupSum types.now }
    requires values { AreOf types.now arguments.now }
    ensures { Answers view_val result (call_meaning calls.GroupSum types.now arguments.now) }
{
    let kind = kind_at(types, 1);
    let keys = argument(arguments, 0);
    let v = argument(arguments, 1);
    or_fault(group_sum(alloc, kind, keys, v))
}

/// Each key and the vector of the elements at its places.
pub fn listed_by_keys(alloc: Global, arguments: &Vals, types: &Tys) -> Result<Val, Stop>
    requires row { IsRow calls.GroupList types.now }
    requires values { AreOf types.now arguments.now }
    ensures { Answers view_val result (call_meaning calls.GroupList types.now arguments.now) }
{
    let kind = kept_kind_at(types, 1);
    let keys = argument(arguments, 0);
    let v = argument(arguments, 1);
    or_fault(group_list(alloc, kind, keys, v))
}

/// Each key and how often it stands there.
pub fn counted_by_keys(alloc: Global, arguments: &Vals, types: &Tys) -> Result<Val, Stop>
    requires row { IsRow calls.GroupCount types.now }
    requires values { AreOf types.now arguments.now }
    ensures { Answers view_val result (call_meaning calls.GroupCount types.now arguments.now) }
{
    let keys = argument(arguments, 0);
    always(group_count(alloc, keys))
}
