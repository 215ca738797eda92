//! The programs of the calls of the two libraries: accepted by proof, whatever the types that they are
//! made for.

mod bodies;
pub mod laws;
mod loops;
mod make;
mod shapes;
mod trees;

pub use make::fragment;
