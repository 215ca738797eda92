//! A seat's parts.

use crate::dealt::Dealt;
use crate::rule::View;

/// A worker's seat at a board. It draws on its own hand until that is empty, then on the next, and so on: `passed` says how
/// many hands, from its own on, it has found empty.
#[derive(Drop)]
pub struct Seat {
    pub(crate) place: atomic_table::Seat<u8, View>,
    pub(crate) dealt: Dealt,
    pub(crate) number: u32,
    pub(crate) passed: u32,
}
