//! Jobs that can be done in any thread.

ghost use Rattle.std.specs.Prelude.{◌+◌, ◌<◌, ℕ, IfOk, OnOk};
ghost use Rattle.weld_board.specs.Spans.{OnFault};

use weld_data::Stop;

/// Jobs, numbered from 0, that can be done in any thread. Neighbouring ones can go into one part.
pub trait Jobs<P>: Sync {
    // What lets them be done.
    ghost ready: { Self → Type 0 };

    // How many there are.
    ghost count: { Self → ℕ };

    // Holds of what the jobs from a number up to, not including, another have made.
    ghost made: { Self → ℕ → ℕ → P → Type 0 };

    // Holds where one of them is a fault.
    ghost faults: { Self → Type 0 };

    /// The part before the first of its jobs, which is this one.
    fn begin(&self, job: u64) -> Result<P, Stop>
        requires ready { ready self.now }
        requires job { job < count self.now }
        ensures made { IfOk result (λ p. made self.now job job p) }
        ensures fault { OnFault result (faults self.now) };

    /// Does the next job of a part whose first is given. After a stop the part is only good to be dropped.
    fn run(&self, first: u64, job: u64, part: &mut P) -> Result<(), Stop>
        requires ready { ready self.now }
        requires job { job < count self.now }
        requires made { made self.now first job part.old }
        ensures made { OnOk result (made self.now first (job + 1) part.new) }
        ensures fault { OnFault result (faults self.now) };
}
