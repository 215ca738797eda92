//! Values of Weld programs, and the operations on their numbers.
//!
//! Contracts see a value as plain data, `Value` of specs/: a number with its kind, a list, a struct
//! or a dictionary. `view_val` says what a `Val` stands for, `view_column` what a `Column` does: a
//! typed column and a nested one show alike, as a list of values. `Vals` and `Pairs` are seen as
//! lists themselves, and `Pairs` keeps that its keys rise.
#![tactic(auto)]

pub mod i8s;
pub mod items;
pub mod kind;
pub mod laws;
pub mod num;
pub mod op;
pub mod packed;
pub mod scalar;
pub mod stop;
pub mod structs;
pub mod text;
pub mod value;

pub use i8s::I8s;
pub use items::{Bools, I16s, I32s, I64s, Items, Names, U8s, U16s, U32s, U64s};
pub use kind::Kind;
pub use num::Num;
pub use op::{BinOp, MergeOp};
pub use packed::Packed;
pub use scalar::{binary, combine, neutral, wrap};
pub use stop::Stop;
pub use structs::Structs;
pub use text::Text;
pub use value::{Column, Pair, Pairs, Val, Vals, compare_keys};
