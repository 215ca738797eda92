//! Room for the answers of steps on a block of rows.

ghost use Rattle.std.specs.Prelude.{◌≡◌, ◌≤◌, length, IfOk};
ghost use Rattle.weld_lanes.specs.Answers.{room_of};

use crate::kinds::Lane;
use crate::steps::LaneProgram;
use std::alloc::{AllocError, Global};
use std::marker::Model;

/// How many rows a block has at most: few enough for the answers of some steps to stay in the nearest cache.
pub const BLOCK: usize = 512;

/// Room for the answers of a program's steps on a block of rows.
pub fn room_for<L: Lane>(program: &LaneProgram, alloc: Global) -> Result<Vec<L>, AllocError>
    ensures { IfOk result (λ room. length room.items ≡ room_of (length program.now.steps.items)) }
{
    match program.steps.len().checked_mul(BLOCK) {
        Some(count) => vec![in alloc; L::of_truth(false); count],
        None => Err(AllocError),
    }
}

/// Room for the answers of steps and for their constants. Contracts see how many numbers it has room for.
#[derive(Drop)]
pub struct Scratch<L> {
    pub(crate) items: Vec<L>,
    pub(crate) constants: Vec<L>,
    ghost same: { length constants.items ≡ length items.items },
}

impl<L> Model for Scratch<L> {
    ghost use Rattle.std.specs.Prelude.{ℕ, length};

    ghost Value = { ℕ };

    ghost view = { λ s. length s.items.items };
}

impl<L: Lane> Scratch<L> {
    ghost use Rattle.std.specs.Prelude.{◌≤◌, length, IfOk};
    ghost use Rattle.weld_lanes.specs.Answers.{room_of};

    /// Room for the steps of a program.
    pub fn new(program: &LaneProgram, alloc: Global) -> Result<Scratch<L>, AllocError>
        ensures { IfOk result (λ scratch. room_of (length program.now.steps.items) ≤ scratch) }
    {
        let constants = room_for(program, alloc)?;
        let items = room_for(program, alloc)?;
        Ok(Scratch { items, constants })
    }
}
