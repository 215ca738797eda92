//! The evaluation of a loop to which a tile's part belongs, which exists in proofs alone.

ghost use Rattle.std.specs.Prelude.{◌≡◌};
ghost use Rattle.std.specs.Borrow.{ftrue};
ghost use Rattle.weld_acts.specs.Ranges.{Evaluation};
ghost use Rattle.weld_tile_parts.specs.EvaluationCode.{coded_evaluation};

use std::marker::Model;

/// The evaluation of a loop: its node, the things of the names outside, the elements of its legs and
/// its starting builder. It takes no bytes.
#[derive(Drop)]
pub(crate) struct Mark {
    pub(crate) ghost evaluation: { Evaluation } by { coded_evaluation },
}

impl Model for Mark {
    ghost also_owns = { λ _. ftrue };
}

// It owns nothing.
unsafe impl Send for Mark {}

impl Mark {
    pub(crate) fn new() -> Mark
        ghost at: { Evaluation }
        ensures { result.evaluation ≡ at }
    {
        Mark {}
    }
}
