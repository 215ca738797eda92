//! Tiles shared by seats at one board. A seat takes a tile by one atomic step, from its own hand first, then from those of the
//! others.
#![tactic(auto)]

pub mod board;
pub mod closing;
pub mod dealing;
pub mod dealt;
pub mod hands;
pub mod laws;
pub mod rule;
pub mod seat;
pub mod seats;
pub mod share;
pub mod take;
pub mod workers;

pub use board::Board;
pub use closing::{Taken, close};
pub use dealing::deal;
pub use seat::Seat;
pub use seats::Seats;
