//! Trees of Weld programs and their types, places in a text, and codes of refusals.
#![tactic(auto)]

pub mod binder;
pub mod code;
pub mod expr;
pub mod fits;
pub mod known;
pub mod laws;
pub mod place;
pub mod program;
pub mod refusal;
pub mod sym;
pub mod ty;

pub use binder::{Binder, Binders};
pub use code::Code;
pub use expr::{
    Expr, Exprs, Form, LeafForm, Leg, Legs, ManyForm, OneForm, ThreeForm, TwoForm, loops_of,
};
pub use known::Known;
pub use place::Place;
pub use program::Program;
pub use refusal::Refusal;
pub use sym::Sym;
pub use ty::{BuildTy, Ty, TyForm, Tys};
