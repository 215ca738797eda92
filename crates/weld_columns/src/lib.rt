//! The column library: calls on the columns of tables, added to a graph of objects that wait.
//!
//! Each call adds one object to the graph and answers its id; nothing is computed until objects are
//! lowered. `Unknown` names the first id that isn't in the graph; then `Unfit` tells the first argument,
//! from 1, whose type doesn't fit the call with those before it; where a call isn't added, the graph
//! stays as it was. K stands for one integer kind, T for any type of elements, Q for any type of keys.
#![tactic(auto)]

ghost use Rattle.std.specs.Prelude.{◌<◌, ◌∷◌, [], length};
ghost use Rattle.weld_calls.specs.declared.call.Call.TheVariants as calls;
ghost use Rattle.weld_calls.specs.CallTypes.{IsComparison, IsArithmetic};
ghost use Rattle.weld_libraries.specs.Answers.{Answers};

use std::alloc::Global;
use weld_calls::Call;
use weld_data::BinOp;
use weld_lazy::{Graph, LibFault, ObjectId};
use weld_libraries::add_library_call;

/// The column of that number, from 0, of a table: of a struct of vectors, one of these. A place past the
/// last is `Unfit` at 2 with the struct's type.
pub fn column(
    alloc: Global,
    graph: &mut Graph,
    t: ObjectId,
    place: u32,
) -> Result<ObjectId, LibFault>
    requires room { length graph.old < 4294967295 }
    ensures { Answers result graph.old graph.new (calls.Column place) (t.0 ∷ []) }
{
    add_library_call(alloc, graph, Call::Column(place), &[t])
}

/// The elements of `c` where `m` is true, in order: of `vec[T]` and `vec[bool]`, a `vec[T]`. It faults where
/// their lengths differ.
pub fn filter(
    alloc: Global,
    graph: &mut Graph,
    c: ObjectId,
    m: ObjectId,
) -> Result<ObjectId, LibFault>
    requires room { length graph.old < 4294967295 }
    ensures { Answers result graph.old graph.new calls.Filter (c.0 ∷ m.0 ∷ []) }
{
    add_library_call(alloc, graph, Call::Filter, &[c, m])
}

/// Whether each element compares so with a number, the element on the left: of `vec[K]` and K, a
/// `vec[bool]`. The operator is a comparison. It is the second argument, so `s` is the third.
pub fn compare(
    alloc: Global,
    graph: &mut Graph,
    c: ObjectId,
    op: BinOp,
    s: ObjectId,
) -> Result<ObjectId, LibFault>
    requires room { length graph.old < 4294967295 }
    requires operator { IsComparison op }
    ensures { Answers result graph.old graph.new (calls.Compare op) (c.0 ∷ s.0 ∷ []) }
{
    add_library_call(alloc, graph, Call::Compare(op), &[c, s])
}

/// The operator's answers on two vectors, place by place: of `vec[K]` and `vec[K]`, a `vec[K]`. It faults
/// where their lengths differ, or a divisor is 0. The operator is an arithmetic one. It is the second argument, so `d` is
/// the third.
pub fn arith(
    alloc: Global,
    graph: &mut Graph,
    c: ObjectId,
    op: BinOp,
    d: ObjectId,
) -> Result<ObjectId, LibFault>
    requires room { length graph.old < 4294967295 }
    requires operator { IsArithmetic op }
    ensures { Answers result graph.old graph.new (calls.Arith op) (c.0 ∷ d.0 ∷ []) }
{
    add_library_call(alloc, graph, Call::Arith(op), &[c, d])
}

/// The sum of a vector's elements: of `vec[K]`, a K.
pub fn sum(alloc: Global, graph: &mut Graph, c: ObjectId) -> Result<ObjectId, LibFault>
    requires room { length graph.old < 4294967295 }
    ensures { Answers result graph.old graph.new calls.Sum (c.0 ∷ []) }
{
    add_library_call(alloc, graph, Call::Sum, &[c])
}

/// The least of a vector's elements, of none the greatest number of the kind: of `vec[K]`, a K.
pub fn min(alloc: Global, graph: &mut Graph, c: ObjectId) -> Result<ObjectId, LibFault>
    requires room { length graph.old < 4294967295 }
    ensures { Answers result graph.old graph.new calls.Min (c.0 ∷ []) }
{
    add_library_call(alloc, graph, Call::Min, &[c])
}

/// The greatest of a vector's elements, of none the least number of the kind: of `vec[K]`, a K.
pub fn max(alloc: Global, graph: &mut Graph, c: ObjectId) -> Result<ObjectId, LibFault>
    requires room { length graph.old < 4294967295 }
    ensures { Answers result graph.old graph.new calls.Max (c.0 ∷ []) }
{
    add_library_call(alloc, graph, Call::Max, &[c])
}

/// How many elements are true: of `vec[bool]`, an `i64`.
pub fn count(alloc: Global, graph: &mut Graph, m: ObjectId) -> Result<ObjectId, LibFault>
    requires room { length graph.old < 4294967295 }
    ensures { Answers result graph.old graph.new calls.Count (m.0 ∷ []) }
{
    add_library_call(alloc, graph, Call::Count, &[m])
}

/// For each key in `k` the sum of the numbers of `v` beside it: of `vec[Q]` and `vec[K]`, a `dict[Q,K]`. It
/// faults where their lengths differ.
pub fn group_sum(
    alloc: Global,
    graph: &mut Graph,
    k: ObjectId,
    v: ObjectId,
) -> Result<ObjectId, LibFault>
    requires room { length graph.old < 4294967295 }
    ensures { Answers result graph.old graph.new calls.GroupSum (k.0 ∷ v.0 ∷ []) }
{
    add_library_call(alloc, graph, Call::GroupSum, &[k, v])
}

/// For each key in `k` the list of the elements of `v` beside it, in order: of `vec[Q]` and `vec[T]`, a
/// `dict[Q,vec[T]]`. It faults where their lengths differ.
pub fn group_list(
    alloc: Global,
    graph: &mut Graph,
    k: ObjectId,
    v: ObjectId,
) -> Result<ObjectId, LibFault>
    requires room { length graph.old < 4294967295 }
    ensures { Answers result graph.old graph.new calls.GroupList (k.0 ∷ v.0 ∷ []) }
{
    add_library_call(alloc, graph, Call::GroupList, &[k, v])
}

/// For each key in `k` the number of its places: of `vec[Q]`, a `dict[Q,i64]`.
pub fn group_count(alloc: Global, graph: &mut Graph, k: ObjectId) -> Result<ObjectId, LibFault>
    requires room { length graph.old < 4294967295 }
    ensures { Answers result graph.old graph.new calls.GroupCount (k.0 ∷ []) }
{
    add_library_call(alloc, graph, Call::GroupCount, &[k])
}
