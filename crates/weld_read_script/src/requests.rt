//! What a line of a call in a script asks for: the call by its words, its arguments with objects in the
//! place of names, and the operator or the column's name among them.

pub mod answer;
pub mod callee;
pub mod laws;
pub mod names;
pub mod request;

pub use answer::answer_type;
pub use callee::{Callee, callee_of};
pub use names::{Bindings, Bound, Object, Resolved, ResolvedList, object_of, objects_of, resolve};
pub use request::{Objects, Request, Wish, request_of};
