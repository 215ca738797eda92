//! A worker's parts.

use crate::Seat;
use crate::workers::span::Span;
use weld_data::Stop;

/// A worker: its seat, what it has made, in the order in which it took the jobs, and what has stopped it, if anything has.
#[derive(Drop)]
pub struct Worker<P> {
    pub(crate) seat: Seat,
    pub(crate) spans: Vec<Span<P>>,
    pub(crate) stop: Option<Stop>,
}
