//! What the tiles of a loop make of a builder that has nothing merged, and the builder to which they are joined in order.
#![tactic(auto)]

pub mod joined;
mod mark;
pub mod piece;

pub use joined::Joined;
pub use piece::{Piece, TilePart};
