//! Tokens of program texts: how a text is read as tokens, and what can be said of a text by its tokens alone.
#![tactic(auto)]

mod bytes;
pub mod laws;
pub mod limits;
pub mod literals;
pub mod order;
pub mod place;
pub mod read;
mod reserved;
pub mod scan;
pub mod text_limits;
mod token_at;

pub use limits::{
    first_long_name, has_too_many_bytes, has_too_many_tokens, is_closing, is_opening,
};
pub use literals::{chars_of, field_of, literal_of};
pub use order::{
    Findings, first_number_out_of_range, first_out_of_range, first_refusal, first_refusal_within,
};
pub use place::end_of;
pub use read::{Tokens, class_of, read_tokens};
