//! The top call of the program: from the words and the bytes of a job to the bytes of its answer.
#![tactic(auto)]

mod accepting;
mod answer;
mod answering;
mod asked;
mod deliver;
mod front;
pub mod laws;
mod report;
mod running;
mod scripting;
mod showing;
mod status;
mod sure;
mod words;

pub use front::weld_main;
pub use status::Status;
pub use sure::weld_surely;
