//! The steps of a plan.

use weld_meaning::LoopId;
use weld_tree::{Expr, ManyForm, OneForm, Sym, ThreeForm, TwoForm};

/// A step takes what it needs from a stack of things and leaves its answer there. Jumps go forward, by numbers of
/// steps that are left out.
#[derive(Clone, Copy)]
pub enum Step<'a> {
    /// An expression without shared loops.
    Compute(&'a Expr),
    /// The forms on what their parts came to; the parts of a vector or a struct by their number.
    One(&'a OneForm),
    Two(TwoForm),
    Three(ThreeForm),
    Many(ManyForm, usize),
    /// `&&` and `||`: leaves out so many steps where the first part decides alone.
    Decide(TwoForm, usize),
    /// Leaves out so many steps where the condition is false.
    Unless(usize),
    /// Leaves out so many steps.
    Skip(usize),
    /// From here on a name stands for the newest thing.
    Bind(Sym),
    /// The newest name goes.
    Unbind,
    /// A vector, a start, an end and a stride become the vector of a leg.
    Stride,
    /// A shared loop, the whole node, over its legs' vectors and its builder.
    Loop(&'a Expr, LoopId),
    /// The turns of an `iterate`, the whole node, from its state.
    Turns(&'a Expr),
}
