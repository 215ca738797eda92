//! The body of a loop that makes a list, with another loop's builder in the place of its own: the walk that makes it, and
//! what is asked of a body before.
#![tactic(auto)]

mod body;
pub mod hand;
mod merging;
mod noting;
mod settling;
mod source;
mod starts;

pub use body::{hand_body, own_source};
pub use merging::{always_merges, list_merges};
pub use settling::{Consumer, forget_note};
pub use starts::starts_none;
