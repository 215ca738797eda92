//! The turns of an `iterate` over numbers, in slots.
#![tactic(auto)]

pub mod code;
mod copies;
mod fill;
mod lower;
mod lower_code;
mod make;
mod make_turn;
mod on_rows;
mod outer;
mod rest;
mod run;
mod run_steps;
mod scope;
mod slots;
mod step;
mod turns;
mod words;

pub use on_rows::{MOST_WORDS, end_of_turns, made_turn};
pub use step::Step;
pub use turns::turns_in_slots;
