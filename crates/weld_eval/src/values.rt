//! What the forms of Weld do with values, one value at a time: numbers, places in vectors and keys.
//! A vector is never copied where a part of it is asked for; what it has is lent.

pub mod element;
pub mod scalar;
pub mod vector;

pub use element::{Element, element_of, field_of, field_of_packed, has_key, look_up, place_of};
pub use scalar::{
    cast, cast_number, contrary, length, negated, negated_number, operated, truth_of, whole_number,
};
pub use vector::{bytes_of, part_of, strided_part};
