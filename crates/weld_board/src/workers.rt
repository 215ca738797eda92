//! Jobs done by workers that share them at a board: neighbouring jobs go into one part.

mod gathering;
pub mod jobs;
pub mod sharing;
pub mod span;
pub mod worker;
mod working;

pub use jobs::Jobs;
pub use sharing::share_jobs;
pub use span::Span;
