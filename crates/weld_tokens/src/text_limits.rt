//! Limits on programs: how deep nodes stand, how many `let` nodes there are, and how many parameters, fields and
//! types.

pub mod depth;
pub mod lets;
pub mod lists;
pub mod nodes;

pub use depth::first_deep_node;
pub use lets::has_too_many_lets;
pub use lists::{first_field_too_many, first_parameter_too_many, first_type_too_large};
pub use nodes::node_limits;
