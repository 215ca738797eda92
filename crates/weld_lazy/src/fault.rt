use crate::ids::ObjectId;
use std::alloc::AllocError;
use weld_tree::Ty;

/// Why a call isn't added to a graph, or objects aren't lowered.
#[derive(Drop)]
pub enum LazyFault {
    /// The first id that isn't in the graph.
    Unknown(ObjectId),
    /// The fragment has so many parameters, and so many ids are given.
    Count { wanted: u32, given: u32 },
    /// The first place, from 0, where an object isn't of its parameter's type.
    Mismatch { place: u32, expected: Ty, found: Ty },
    /// Memory is wanting.
    Memory,
}

/// Why a library doesn't add a call.
#[derive(Drop)]
pub enum LibFault {
    /// The first id that isn't in the graph.
    Unknown(ObjectId),
    /// The first argument, from 1, whose type doesn't fit the call with those before it.
    Unfit { place: u32, found: Ty },
    /// Memory is wanting.
    Memory,
}

impl From<AllocError> for LazyFault {
    fn from(_: AllocError) -> LazyFault {
        LazyFault::Memory
    }
}
