//! A program as steps.

ghost use Rattle.std.specs.Prelude.{◌≡◌, IfOk};
ghost use Rattle.weld_plan.specs.PlanView.{IsPlan};

use crate::emit::add;
use crate::step::Step;
use std::alloc::{AllocError, Global};
use weld_meaning::Accepted;
use weld_tree::Program;

/// A program with its steps, in the order in which they are taken.
#[derive(Drop)]
pub struct Plan<'a> {
    pub program: &'a Program,
    pub steps: Vec<Step<'a>>,
}

/// The plan of an accepted program. It fails for want of memory alone.
pub fn make_plan<'a>(alloc: Global, accepted: &'a Accepted) -> Result<Plan<'a>, AllocError>
    ensures plan { IfOk result (λ plan. IsPlan plan) }
    ensures program { IfOk result (λ plan. plan.program.now ≡ accepted.now) }
{
    let program = &accepted.program;
    let mut steps = Vec::new(alloc);
    add(&program.body, 0, &mut steps, alloc)?;
    Ok(Plan { program, steps })
}
