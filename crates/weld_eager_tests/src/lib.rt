//! Tests of `weld_eager`: each call by its plain loops and as the one program that it is lowered to, once over
//! each kind of type that it takes, and once with each fault that it has.
//!
//! They stand in a crate of their own, since a crate with tests is proved twice.
#![tactic(auto)]

#[cfg(test)]
mod both;
#[cfg(test)]
mod cases;
#[cfg(test)]
mod given;
#[cfg(test)]
mod tests;
