//! Tests of the parts of builders.
#![tactic(auto)]

#[cfg(test)]
mod groups;
#[cfg(test)]
mod keyed;
#[cfg(test)]
mod tests;
