ghost use Rattle.std.specs.Prelude.{◌≡◌, ◌∷◌, [], ◌++◌, IfOk, OnOk};

use crate::step::Step;
use std::alloc::{AllocError, Global};
use std::marker::Model;

/// The steps of a derivation so far. Contracts see them as a list.
#[derive(Drop)]
pub struct Steps {
    steps: Vec<Step>,
}

impl Model for Steps {
    ghost use Rattle.std.specs.Prelude.{List};
    ghost use Rattle.weld_accept.specs.declared.step.Step.{Step};

    ghost Value = { List Step };

    ghost view = { λ s. s.steps.items };
}

impl Steps {
    /// No steps. It takes no memory.
    pub fn new(alloc: Global) -> Steps
        ensures { result ≡ [] }
    {
        Steps {
            steps: Vec::new(alloc),
        }
    }

    /// No steps, with room for so many.
    pub fn with_room(alloc: Global, count: usize) -> Result<Steps, AllocError>
        ensures { IfOk result (λ steps. steps ≡ []) }
    {
        Ok(Steps {
            steps: Vec::with_capacity(alloc, count)?,
        })
    }

    /// Puts a step behind the others.
    #[inline(always)]
    pub fn push(&mut self, step: Step) -> Result<(), AllocError>
        ensures { OnOk result (self.new ≡ self.old ++ step ∷ []) }
    {
        if self.steps.len() == self.steps.capacity() {
            self.steps.reserve(1)?;
        }
        self.steps.push_reserved(step);
        Ok(())
    }

    /// All steps, in the order of the text.
    pub fn as_slice(&self) -> &[Step]
        ensures { result.now ≡ self.now }
    {
        self.steps.as_slice()
    }
}
