ghost use Rattle.std.specs.Prelude.{◌≡◌};
ghost use Rattle.weld_check_types.specs.Typed.{IsTyped};

use std::marker::Model;
use weld_tree::{Program, Ty};

/// A program that has a type by the typing rules, with that type. Contracts see both, and whoever makes one shows that
/// `IsTyped` holds of them.
#[derive(Drop)]
pub struct Typed {
    pub program: Program,
    pub ty: Ty,
}

impl Model for Typed {
    ghost use Rattle.weld_check_types.specs.Typed.{TypedTree, coded_typed, IsTyped};

    ghost Value = { TypedTree };

    ghost coded = { coded_typed };

    ghost view = { λ t. record { program = t.program; ty = t.ty } };

    ghost invariant = { λ t. IsTyped t.program t.ty };
}

impl Typed {
    /// The program, which has the type. It takes no memory.
    pub fn program(&self) -> &Program
        ensures same { result.now ≡ self.now.program }
        ensures typed { IsTyped self.now.program self.now.ty }
    {
        &self.program
    }
}
