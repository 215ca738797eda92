//! Runs whose reads and writes never fail.
ghost use Rattle.std.specs.Prelude.{◌≡◌, ◌≢◌, ◌⊎◌, Some, map, string_bytes};
ghost use Rattle.weld_front.specs.Asking.{AreServed};
ghost use Rattle.weld_front.specs.Answer.{CompletesFor};

use crate::front::weld_main;
use crate::status::Status;
use std::alloc::Global;
use std::thread::Threads;
use weld_ports::{Gate, SureSink, SureSource};

/// Runs the program over a source and a sink that never fail. Where the words are in form, the status is that of the
/// job's answer, for every command, or memory was wanting; where they aren't, it is `Words`, or memory was wanting.
#[tactic(auto, using(crate::proofs::Counts::never_rises))]
pub fn weld_surely<R: Threads + Sync, G: Gate>(
    rt: &R,
    alloc: Global,
    words: &[String],
    input: &mut SureSource,
    output: &mut SureSink,
    gate: &G,
) -> Status
    ensures complete { AreServed (map string_bytes words.now)
        → CompletesFor (map string_bytes words.now) (Some input.old.left) result }
    ensures words { (AreServed (map string_bytes words.now) → ⊥)
        → (result ≡ Status.Words) ⊎ (result ≡ Status.Memory) }
    ensures no_read { result ≢ Status.Read }
    ensures no_write { result ≢ Status.Write }
{
    weld_main(rt, alloc, words, input, output, gate)
}
