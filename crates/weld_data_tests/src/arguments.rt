//! Tests of weld_inputs and weld_table: what the data of jobs give two parameters, and tables whose columns are named.
//!
//! They stand in a crate of their own, since a crate with tests is proved twice.

#[cfg(test)]
mod jobs;
#[cfg(test)]
mod tables;
