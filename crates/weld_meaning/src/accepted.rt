ghost use Rattle.std.specs.Prelude.{◌≡◌};
ghost use Rattle.weld_meaning.specs.Accepted.{IsAccepted};

use std::marker::Model;
use weld_tree::Program;

/// A program that is accepted: it has a type by the typing rules, and uses builders linearly.
/// Contracts see it as its program, and whoever makes one shows that `IsAccepted` holds of it.
#[derive(Drop)]
pub struct Accepted {
    pub program: Program,
}

impl Model for Accepted {
    ghost use Rattle.weld_tree.specs.Program.{ProgramTree, coded_program};
    ghost use Rattle.weld_meaning.specs.Accepted.{IsAccepted};

    ghost Value = { ProgramTree };

    ghost coded = { coded_program };

    ghost view = { λ a. a.program };

    ghost invariant = { λ a. IsAccepted a.program };
}

impl Accepted {
    /// The program, which is accepted. It takes no memory.
    pub fn program(&self) -> &Program
        ensures same { result.now ≡ self.now }
        ensures accepted { IsAccepted self.now }
    {
        &self.program
    }
}
