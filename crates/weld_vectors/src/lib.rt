//! The vector library: calls on vectors and numbers, added to a graph of objects that wait.
//!
//! Each call adds one object to the graph and answers its id; nothing is computed until objects are
//! lowered. `Unknown` names the first id that isn't in the graph; then `Unfit` tells the first argument,
//! from 1, whose type doesn't fit the call with those before it; where a call isn't added, the graph
//! stays as it was. K stands for one integer kind, T for any type of elements.
#![tactic(auto)]

ghost use Rattle.std.specs.Prelude.{◌<◌, ◌∷◌, [], length};
ghost use Rattle.weld_calls.specs.declared.call.Call.TheVariants as calls;
ghost use Rattle.weld_libraries.specs.Answers.{Answers};

use std::alloc::Global;
use weld_calls::Call;
use weld_lazy::{Graph, LibFault, ObjectId};
use weld_libraries::add_library_call;

/// The sums of two vectors, place by place: of `vec[K]` and `vec[K]`, a `vec[K]`. It faults where their
/// lengths differ.
pub fn add(alloc: Global, graph: &mut Graph, v: ObjectId, w: ObjectId) -> Result<ObjectId, LibFault>
    requires room { length graph.old < 4294967295 }
    ensures { Answers result graph.old graph.new calls.Add (v.0 ∷ w.0 ∷ []) }
{
    add_library_call(alloc, graph, Call::Add, &[v, w])
}

/// The differences of two vectors, place by place: of `vec[K]` and `vec[K]`, a `vec[K]`. It faults where
/// their lengths differ.
pub fn sub(alloc: Global, graph: &mut Graph, v: ObjectId, w: ObjectId) -> Result<ObjectId, LibFault>
    requires room { length graph.old < 4294967295 }
    ensures { Answers result graph.old graph.new calls.Sub (v.0 ∷ w.0 ∷ []) }
{
    add_library_call(alloc, graph, Call::Sub, &[v, w])
}

/// The products of two vectors, place by place: of `vec[K]` and `vec[K]`, a `vec[K]`. It faults where
/// their lengths differ.
pub fn mul(alloc: Global, graph: &mut Graph, v: ObjectId, w: ObjectId) -> Result<ObjectId, LibFault>
    requires room { length graph.old < 4294967295 }
    ensures { Answers result graph.old graph.new calls.Mul (v.0 ∷ w.0 ∷ []) }
{
    add_library_call(alloc, graph, Call::Mul, &[v, w])
}

/// The elements of a vector times a number: of `vec[K]` and K, a `vec[K]`.
pub fn scale(
    alloc: Global,
    graph: &mut Graph,
    v: ObjectId,
    s: ObjectId,
) -> Result<ObjectId, LibFault>
    requires room { length graph.old < 4294967295 }
    ensures { Answers result graph.old graph.new calls.Scale (v.0 ∷ s.0 ∷ []) }
{
    add_library_call(alloc, graph, Call::Scale, &[v, s])
}

/// The elements of `v` where `m` is true, and of `w` where it is false: of `vec[bool]`, `vec[K]` and
/// `vec[K]`, a `vec[K]`. It faults where the three lengths aren't equal.
pub fn where_(
    alloc: Global,
    graph: &mut Graph,
    m: ObjectId,
    v: ObjectId,
    w: ObjectId,
) -> Result<ObjectId, LibFault>
    requires room { length graph.old < 4294967295 }
    ensures { Answers result graph.old graph.new calls.Where (m.0 ∷ v.0 ∷ w.0 ∷ []) }
{
    add_library_call(alloc, graph, Call::Where, &[m, v, w])
}

/// The sum of the products of the elements of two vectors: of `vec[K]` and `vec[K]`, a K. It faults where
/// their lengths differ.
pub fn dot(alloc: Global, graph: &mut Graph, v: ObjectId, w: ObjectId) -> Result<ObjectId, LibFault>
    requires room { length graph.old < 4294967295 }
    ensures { Answers result graph.old graph.new calls.Dot (v.0 ∷ w.0 ∷ []) }
{
    add_library_call(alloc, graph, Call::Dot, &[v, w])
}

/// The sum of a vector's elements: of `vec[K]`, a K.
pub fn sum(alloc: Global, graph: &mut Graph, v: ObjectId) -> Result<ObjectId, LibFault>
    requires room { length graph.old < 4294967295 }
    ensures { Answers result graph.old graph.new calls.Sum (v.0 ∷ []) }
{
    add_library_call(alloc, graph, Call::Sum, &[v])
}

/// The least of a vector's elements, of none the greatest number of the kind: of `vec[K]`, a K.
pub fn min(alloc: Global, graph: &mut Graph, v: ObjectId) -> Result<ObjectId, LibFault>
    requires room { length graph.old < 4294967295 }
    ensures { Answers result graph.old graph.new calls.Min (v.0 ∷ []) }
{
    add_library_call(alloc, graph, Call::Min, &[v])
}

/// The greatest of a vector's elements, of none the least number of the kind: of `vec[K]`, a K.
pub fn max(alloc: Global, graph: &mut Graph, v: ObjectId) -> Result<ObjectId, LibFault>
    requires room { length graph.old < 4294967295 }
    ensures { Answers result graph.old graph.new calls.Max (v.0 ∷ []) }
{
    add_library_call(alloc, graph, Call::Max, &[v])
}

/// The `n` elements of a vector from the place `i` on, from 0: of `vec[T]`, `i64` and `i64`, a `vec[T]`. It
/// faults where they aren't all there.
pub fn slice(
    alloc: Global,
    graph: &mut Graph,
    v: ObjectId,
    i: ObjectId,
    n: ObjectId,
) -> Result<ObjectId, LibFault>
    requires room { length graph.old < 4294967295 }
    ensures { Answers result graph.old graph.new calls.Slice (v.0 ∷ i.0 ∷ n.0 ∷ []) }
{
    add_library_call(alloc, graph, Call::Slice, &[v, i, n])
}

/// The elements of a vector at these places, from 0: of `vec[T]` and `vec[i64]`, a `vec[T]`. It faults where
/// one isn't there.
pub fn take(
    alloc: Global,
    graph: &mut Graph,
    v: ObjectId,
    places: ObjectId,
) -> Result<ObjectId, LibFault>
    requires room { length graph.old < 4294967295 }
    ensures { Answers result graph.old graph.new calls.Take (v.0 ∷ places.0 ∷ []) }
{
    add_library_call(alloc, graph, Call::Take, &[v, places])
}

/// How often each place of `start`, from 0, stands in `v`, added to the number there: of `vec[i64]` and
/// `vec[i64]`, a `vec[i64]`. It faults where an element of `v` is no place of `start`.
pub fn histogram(
    alloc: Global,
    graph: &mut Graph,
    v: ObjectId,
    start: ObjectId,
) -> Result<ObjectId, LibFault>
    requires room { length graph.old < 4294967295 }
    ensures { Answers result graph.old graph.new calls.Histogram (v.0 ∷ start.0 ∷ []) }
{
    add_library_call(alloc, graph, Call::Histogram, &[v, start])
}

/// The dot of each row with a vector: of `vec[vec[K]]` and `vec[K]`, a `vec[K]`. It faults where a row has
/// another length.
pub fn rows_dot(
    alloc: Global,
    graph: &mut Graph,
    m: ObjectId,
    w: ObjectId,
) -> Result<ObjectId, LibFault>
    requires room { length graph.old < 4294967295 }
    ensures { Answers result graph.old graph.new calls.RowsDot (m.0 ∷ w.0 ∷ []) }
{
    add_library_call(alloc, graph, Call::RowsDot, &[m, w])
}
