//! What is worked out of a row: steps, one after another.

ghost use Rattle.std.specs.Prelude.{◌≡◌, ◌<◌, IsTrue, length};
ghost use Rattle.weld_lanes.specs.Formed.{are_formed};

use weld_data::{BinOp, Kind};

/// A step: the row's number of the first or of the second column, a literal, the number that stands at a place of those that
/// are the same for all rows, or what an operator makes of the answers of earlier steps, which are named by their places. A
/// truth value is 0 or 1.
#[derive(Clone, Copy, Debug)]
pub enum LaneStep {
    A,
    B,
    Lit(i128),
    Uniform(u32),
    Arith(BinOp, u32, u32),
    Compare(BinOp, u32, u32),
    Truth(bool),
    Not(u32),
    And(u32, u32),
    Or(u32, u32),
    Select(u32, u32, u32),
}

/// Steps over numbers of one kind, at least one, of which each names earlier ones alone; the last one's answer is the row's.
#[derive(Debug, Drop)]
pub struct LaneProgram {
    pub kind: Kind,
    pub steps: Vec<LaneStep>,
    ghost formed: { IsTrue (are_formed kind 0 steps.items) },
    ghost some: { 0 < length steps.items },
}

impl LaneProgram {
    ghost use Rattle.std.specs.Prelude.{◌≡◌, ◌<◌, IsTrue, length};
    ghost use Rattle.weld_lanes.specs.Formed.{are_formed};

    /// The program of these steps. It takes no memory.
    pub fn new(kind: Kind, steps: Vec<LaneStep>) -> LaneProgram
        requires formed { IsTrue (are_formed kind 0 steps.items) }
        requires some { 0 < length steps.items }
        ensures kind { result.kind ≡ kind }
        ensures steps { result.steps.items ≡ steps.items }
    {
        LaneProgram { kind, steps }
    }
}
