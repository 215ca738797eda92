//! Stretches of tiles mapped over the processors.

ghost use Rattle.std.specs.Prelude.{IfOk, All};
ghost use Rattle.std.specs.List.{AllZip};
ghost use Rattle.std.specs.declared.result.Result.{Result};
ghost use Rattle.weld_data.specs.declared.stop.Stop.{Stop};
ghost use Rattle.weld_tile_parts.specs.declared.piece.TilePart.{TilePart};
ghost use Rattle.weld_share.specs.declared.stretch.Stretch.{Stretch};

use crate::stretch::Stretch;
use rayon::prelude::*;
use std::alloc::{AllocError, Global};
use std::thread::Threads;
use weld_data::Stop;
use weld_tile_parts::TilePart;

/// What can run stretches, in any thread.
pub(crate) trait RunsStretches: Sync {
    // Holds of a stretch that it can run.
    ghost takes: { Self → Stretch → Type 0 };

    // Holds of a stretch and what it may answer.
    ghost answers: { Self → Stretch → Result TilePart Stop → Type 0 };

    /// What the rows of the stretch make.
    fn run(&self, stretch: &Stretch) -> Result<TilePart, Stop>
        requires { takes self.now stretch.now }
        ensures { answers self.now stretch.now result };
}

/// What each stretch makes, in order, the stretches mapped over the processors. Where there is one alone, no thread is started.
pub(crate) fn map_stretches<T: RunsStretches>(
    rt: &(impl Threads + Sync),
    alloc: Global,
    runs: &T,
    stretches: &[Stretch],
) -> Result<Vec<Result<TilePart, Stop>>, AllocError>
    requires { All (T.takes runs.now) stretches.now }
    ensures { IfOk result (λ answers. AllZip (T.answers runs.now) stretches.now answers.items) }
{
    stretches
        .par_iter()
        .with_min_len(1)
        .map(
            |stretch: &Stretch| -> Result<TilePart, Stop>
                requires { T.takes runs.now stretch.now }
                ensures { T.answers runs.entry.now stretch.now result }
            { runs.run(stretch) },
        )
        .collect(rt, alloc)
}
