//! The marks of loops: which append to one list once a row, so that the list has as many items as
//! there are rows; and which are plain arithmetic on numbers of one kind, worked out side by side.
#![tactic(auto)]

mod count;
mod form;
mod lanes;
mod marking;
mod marks;

pub use count::{count_lanes, count_sized};
pub use form::has_sized_form;
pub use lanes::{are_two, has_lane_form, legs_kind};
pub use marking::mark_sizes;
pub use marks::Marks;
