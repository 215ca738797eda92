//! What a seat knows.

use std::collections::LinkedList;

/// A seat's share: its number, and what it drew, hands and places in the order of the draws. It stands in proofs alone; no value
/// of it is made.
#[derive(Drop)]
pub struct Share {
    pub seat: u32,
    pub draws: LinkedList<(u32, u64)>,
}
