ghost use Rattle.std.specs.Prelude.{◌≡◌};
ghost use Rattle.weld_passes.specs.Normal.{IsNormal};

use std::marker::Model;
use weld_meaning::Accepted;

/// An accepted program in normal form: nothing stands in it that a pass would rewrite (as far as this
/// project goes). Contracts see it as its program, and whoever makes one shows that `IsNormal` holds of
/// it. Its marks, which loops are of the sized form and which of the lane form, are questions about
/// each loop's node (`weld_sizes`), and so nothing that it has to keep.
#[derive(Drop)]
pub struct Normal {
    pub program: Accepted,
}

impl Model for Normal {
    ghost use Rattle.weld_tree.specs.Program.{ProgramTree, coded_program};
    ghost use Rattle.weld_passes.specs.Normal.{IsNormal};

    ghost Value = { ProgramTree };

    ghost coded = { coded_program };

    ghost view = { λ n. n.program };

    ghost invariant = { λ n. IsNormal n.program };
}

impl Normal {
    /// The program, which is accepted and in normal form. It takes no memory.
    pub fn accepted(&self) -> &Accepted
        ensures same { result.now ≡ self.now }
        ensures normal { IsNormal self.now }
    {
        &self.program
    }
}
