//! Linear use of builders: laws of the rules, and what a walk over a program is made of: where builders come from, the
//! names in scope with their origins, the builders that are available.
#![tactic(auto)]

pub mod available;
pub mod laws;
pub mod path;
pub mod scope;
pub mod seen;
pub mod source;

pub use available::{Available, Builder};
pub use path::Path;
pub use scope::Scope;
pub use seen::Seen;
pub use source::{Label, Source, SourceForm, Sources};
