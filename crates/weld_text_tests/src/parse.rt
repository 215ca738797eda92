//! Tests of `weld_parse`: for each code that it answers texts with the place of the refusal, texts at each limit and one
//! past it, and each form once, read from a text and written out node by node.
//!
//! They stand in a crate of their own, since a crate with tests is proved twice.

#[cfg(test)]
mod forms;
#[cfg(test)]
mod refusals;
#[cfg(test)]
mod written;
