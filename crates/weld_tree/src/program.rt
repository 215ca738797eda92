ghost use Rattle.std.specs.Prelude.{◌≡◌, IfOk};

use crate::binder::Binders;
use crate::expr::Expr;
use std::alloc::{AllocError, Global};
use std::marker::Model;

/// A program: its parameters and its body. Contracts see it as a `ProgramTree`, and every program
/// keeps `IsProgram`: each binder has a number of its own, each name is used only where its binder
/// binds it, there are fewer than 4,294,967,295 binders, each parameter has its type, numbers are of
/// their kinds, builders start as they may, and no vector, struct or list of legs is empty.
#[derive(Drop)]
pub struct Program {
    pub params: Binders,
    pub body: Box<Expr>,
}

impl Model for Program {
    ghost use Rattle.weld_tree.specs.Program.{ProgramTree, coded_program, IsProgram};

    ghost Value = { ProgramTree };

    ghost coded = { coded_program };

    ghost view = { λ p. record { params = p.params; body = p.body.value } };

    ghost invariant = { λ p. IsProgram p.params p.body.value };
}

impl Program {
    /// A copy of the program.
    pub fn copy(&self, alloc: Global) -> Result<Program, AllocError>
        ensures { IfOk result (λ copy. copy ≡ self.now) }
    {
        let params = self.params.copy(alloc)?;
        Ok(Program {
            params,
            body: self.body.boxed_copy(alloc)?,
        })
    }
}
