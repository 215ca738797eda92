ghost use Rattle.std.specs.Prelude.{◌≡◌, ◌≢◌, ◌≤◌, ◌⊎◌, length, map, string_bytes, IfSome};
ghost use Rattle.std.specs.Io.KnownBytes.{Appends};
ghost use Rattle.weld_ports.specs.Faults.{Rises, IsSettled};
ghost use Rattle.weld_job.specs.Reading.{Takes};
ghost use Rattle.weld_front.specs.Asking.{AreServed, AskForAJob};
ghost use Rattle.weld_front.specs.Answer.{DeliversFor, DeliversFrontFor, AppendsFront, IsWritten, IsSilent, IsFound, IsOfJob, Extent, CompletesFor};
ghost use Rattle.weld_front.specs.Texts.{usage_text};

use crate::answer::NoAnswer;
use crate::answering::find_answer;
use crate::deliver::deliver;
use crate::status::Status;
use crate::words::{USAGE, read_asked};
use std::alloc::Global;
use std::thread::Threads;
use weld_ports::{Gate, Sink, Source};
use weld_words::laws::one_reading;

/// Runs the program once: reads a job from the input and writes its answer to the output.
///
/// The words are those after the program's name. The whole answer is built before the first write; then it
/// is written, each write being handed all of it that isn't taken yet, and flushed once. `run`, `session` and
/// `soak` optimise the program, share the tiles of its loops among threads, and tell the gate of each tile
/// before it is run; neither the workers nor the gate have any part in the answer, nor the cut but for the
/// report's tiles.
#[tactic(auto, using(crate::proofs::Asking::asked_job, crate::proofs::Asking::unasked_job))]
pub fn weld_main<R: Threads + Sync, S: Source, K: Sink, G: Gate>(
    rt: &R,
    alloc: Global,
    words: &[String],
    input: &mut S,
    output: &mut K,
    gate: &G,
) -> Status
    // The answer of the job, where the source tells its bytes: its status, and its text in the sink.
    ensures done { result ≡ Status.Done → DeliversFor (map string_bytes words.now)
        (S.left input.old) (K.held output.old) (K.held output.new) Status.Done }
    ensures fault { result ≡ Status.Fault → DeliversFor (map string_bytes words.now)
        (S.left input.old) (K.held output.old) (K.held output.new) Status.Fault }
    ensures refused { result ≡ Status.Refused → DeliversFor (map string_bytes words.now)
        (S.left input.old) (K.held output.old) (K.held output.new) Status.Refused }
    ensures unfit { result ≡ Status.Unfit → DeliversFor (map string_bytes words.now)
        (S.left input.old) (K.held output.old) (K.held output.new) Status.Unfit }

    // Where the words are in form and no call failed, the status is that of the job, or memory was wanting.
    ensures complete { AreServed (map string_bytes words.now)
        → (Rises (S.faults input.old) (S.faults input.new) → ⊥)
        → (Rises (K.faults output.old) (K.faults output.new) → ⊥)
        → CompletesFor (map string_bytes words.now) (S.left input.old) result }

    // Words that aren't in form: the usage line is written. Nothing is read there, nor for `soak`.
    ensures words { result ≡ Status.Words → Appends (K.held output.old) (K.held output.new)
        usage_text }
    ensures words_only { result ≡ Status.Words → AreServed (map string_bytes words.now) → ⊥ }
    ensures words_always { (AreServed (map string_bytes words.now) → ⊥)
        → (result ≡ Status.Words) ⊎ ((result ≡ Status.Write) ⊎ (result ≡ Status.Memory)) }
    ensures unread { (AskForAJob (map string_bytes words.now) → ⊥)
        → (S.left input.new ≡ S.left input.old) × (S.faults input.new ≡ S.faults input.old) }

    // Failures have their cause in a count, and leave a front of the answer or nothing.
    ensures read { result ≡ Status.Read → Rises (S.faults input.old) (S.faults input.new) }
    ensures write { result ≡ Status.Write → Rises (K.faults output.old) (K.faults output.new) }
    ensures write_front { result ≡ Status.Write → AreServed (map string_bytes words.now)
        → DeliversFrontFor (map string_bytes words.now) (S.left input.old) (K.held output.old)
        (K.held output.new) }
    ensures usage_front { result ≡ Status.Write → (AreServed (map string_bytes words.now) → ⊥)
        → AppendsFront (K.held output.old) (K.held output.new) usage_text }
    ensures silent { IsSilent result → (K.held output.new ≡ K.held output.old)
        × (K.settled output.new ≡ K.settled output.old) × (K.faults output.new
        ≡ K.faults output.old) }

    // What a call leaves.
    ensures unsettled { result ≡ Status.Write → K.settled output.new ≡ K.settled output.old }
    ensures settled { IsWritten result → IsSettled (K.held output.new) (K.settled output.new) }
    ensures extent { AskForAJob (map string_bytes words.now) → IsFound result
        → Extent (S.left input.old) (S.left input.new) }
    ensures taken { Takes (S.left input.old) (S.left input.new) }
    ensures source_never_falls { S.faults input.old ≤ S.faults input.new }
    ensures sink_never_falls { K.faults output.old ≤ K.faults output.new }
{
    one_reading();
    let asked = match read_asked(alloc, words) {
        Ok(Some(asked)) => asked,
        Ok(None) => return conclude(output, Status::Words, USAGE),
        Err(_) => return Status::Memory,
    };
    match find_answer(rt, alloc, asked, input, gate) {
        Ok(answer) => conclude(output, answer.status, answer.text.as_slice()),
        Err(NoAnswer::Read) => Status::Read,
        Err(NoAnswer::Memory) => Status::Memory,
    }
}

/// Writes the text of an answer, and answers its status, or Write where a write or the flush failed.
fn conclude<K: Sink>(output: &mut K, status: Status, text: &[u8]) -> Status
    ensures status { (result ≡ status) ⊎ (result ≡ Status.Write) }
    ensures written { (result ≡ Status.Write → ⊥) → Appends (K.held output.old) (K.held output.new)
        text.now × IsSettled (K.held output.new) (K.settled output.new) }
    ensures write { status ≢ Status.Write → result ≡ Status.Write
        → Rises (K.faults output.old) (K.faults output.new)
        × AppendsFront (K.held output.old) (K.held output.new) text.now }
    ensures unsettled { status ≢ Status.Write → result ≡ Status.Write
        → K.settled output.new ≡ K.settled output.old }
    ensures never_falls { K.faults output.old ≤ K.faults output.new }
{
    match deliver(output, text) {
        Ok(()) => status,
        Err(_) => Status::Write,
    }
}
