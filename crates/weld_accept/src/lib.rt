//! Whether the tokens of a text are a program, with the steps of their derivation, and the first token that
//! breaks the grammar.
#![tactic(auto)]

pub mod derivation;
pub mod entry;
pub mod lead;
pub mod machine;
pub mod operand;
pub mod stack;
pub mod starts;
pub mod step;
pub mod steps;
pub mod stop;
pub mod table;

pub use derivation::derive;
pub use lead::is_of;
pub use step::Step;
pub use steps::Steps;
pub use stop::Stop;
