//! Programs from derivations: a machine that reduces tokens and what they stand for.
#![tactic(auto)]

pub mod binding;
pub mod builders;
pub mod calls;
pub mod laws;
pub mod legs;
pub mod machine;
pub mod nodes;
pub mod numbers;
pub mod operators;
pub mod rules;
pub mod scope;
pub mod shift;
pub mod spelling;
pub mod state;
pub mod stop;
pub mod types;
pub mod value;
pub mod values;
pub mod way;
pub mod way_of;
pub mod written;

pub use spelling::{Read, spell};
pub use stop::Stop;
pub use written::read_ty;
