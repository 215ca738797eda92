//! The library calls in code, by plain loops over columns: each answers exactly what it means by lists.
#![tactic(auto)]

pub mod answer;
pub mod arguments;
pub mod calls;
pub mod eager;
pub mod filter;
pub mod groups;
pub mod histogram;
pub mod make;
pub mod numbers;
pub mod places;
pub mod read;
pub mod rows;
