//! Tests of weld_text_pieces: long lists, read in pieces.
//!
//! They stand in a crate of their own, since a crate with tests is proved twice.

#[cfg(test)]
mod nested;
#[cfg(test)]
mod texts;
