ghost use Rattle.std.specs.Prelude.{◌≡◌, ℕ, ◌-◌, ◌==◌, ◌||◌, [], ◌++◌, ◌≤◌, ◌<◌, Some, length, take, is_err, if◌then◌else◌, IfOk, OnOk, OnErr};
ghost use Rattle.std.specs.Io.KnownBytes.{Appends, Keeps};
ghost use Rattle.weld_ports.specs.Faults.{Rises, IsSettled};
ghost use Rattle.weld_ports.specs.Memory.{passed, count_up, is_failing};

use super::count::{count_up, is_failing};
use super::sink::{Sink, WriteFailed};
use std::alloc::{AllocError, Global};
use std::marker::Model;

/// A sink over memory with room for a number of bytes, whose writes and flushes fail where it is told.
#[derive(Debug, Drop)]
pub struct MemorySink {
    space: Vec<u8>,
    used: usize,
    settled: usize,
    step: usize,
    failing: Vec<u64>,
    calls: u64,
    faults: u64,
}

impl Model for MemorySink {
    ghost use Rattle.std.specs.Prelude.{take, length, ◌≤◌};
    ghost use Rattle.weld_ports.specs.Memory.{MemoryOutput};

    ghost Value = { MemoryOutput };

    ghost view = { λ s. record {
      held = take s.used s.space.items;
      settled = s.settled;
      room = length s.space.items;
      step = s.step;
      failing = s.failing.items;
      calls = s.calls;
      faults = s.faults;
    } };

    ghost invariant = { λ s. (s.used ≤ length s.space.items) × (1 ≤ s.step) };
}

impl MemorySink {
    /// A sink with room for `room` bytes, which it takes now. Each write takes at most `step` bytes. The
    /// calls whose numbers, from 1, stand in `failing` fail; writes and flushes are counted together.
    pub fn new(
        alloc: Global,
        room: usize,
        step: usize,
        failing: Vec<u64>,
    ) -> Result<MemorySink, AllocError>
        requires { 1 ≤ step }
        ensures held { IfOk result (λ sink. sink.held ≡ []) }
        ensures settled { IfOk result (λ sink. sink.settled ≡ 0) }
        ensures room { IfOk result (λ sink. sink.room ≡ room) }
        ensures step { IfOk result (λ sink. sink.step ≡ step) }
        ensures failing { IfOk result (λ sink. sink.failing ≡ failing.items) }
        ensures calls { IfOk result (λ sink. sink.calls ≡ 0) }
        ensures faults { IfOk result (λ sink. sink.faults ≡ 0) }
    {
        Ok(MemorySink {
            space: vec![in alloc; 0; room]?,
            used: 0,
            settled: 0,
            step,
            failing,
            calls: 0,
            faults: 0,
        })
    }

    /// The bytes that the sink took.
    pub fn held(&self) -> &[u8]
        ensures { result.now ≡ self.now.held }
    {
        &self.space[..self.used]
    }

    /// How many of them the last flush found.
    pub fn settled(&self) -> usize
        ensures { result ≡ self.now.settled }
    {
        self.settled
    }

    /// How many writes and flushes have failed.
    pub fn faults(&self) -> u64
        ensures { result ≡ self.now.faults }
    {
        self.faults
    }
}

impl Sink for MemorySink {
    ghost held = { λ s. Some s.held };

    ghost settled = { λ s. Some s.settled };

    ghost faults = { λ s. s.faults };

    fn write(&mut self, from: &[u8]) -> Result<usize, WriteFailed>
        requires { 0 < length from.now }

        // What each sink says.
        ensures some { IfOk result (λ count. 0 < count) }
        ensures fits { IfOk result (λ count. count ≤ length from.now) }
        ensures bytes { IfOk result (λ count.
            Appends (Some self.old.held) (Some self.new.held) (take count from.now)) }
        ensures unchanged { OnErr result (Keeps (Some self.old.held) (Some self.new.held)) }
        ensures settled_stays { Some self.new.settled ≡ Some self.old.settled }
        ensures cause { OnErr result (Rises self.old.faults self.new.faults) }
        ensures never_falls { self.old.faults ≤ self.new.faults }

        // When this one fails, and what else it says.
        ensures calls { self.new.calls ≡ count_up self.old.calls }
        ensures fails { is_err result ≡ (is_failing self.old.failing self.new.calls
            || length self.old.held == self.old.room) }
        ensures faults { self.new.faults
            ≡ (if is_err result then count_up self.old.faults else self.old.faults) }
        ensures count { IfOk result (λ count.
            count ≡ passed self.old.step (length from.now) (self.old.room - length self.old.held)) }
        ensures room { self.new.room ≡ self.old.room }
        ensures step { self.new.step ≡ self.old.step }
        ensures failing { self.new.failing ≡ self.old.failing }
    {
        self.calls = count_up(self.calls);
        let at = self.used;
        if is_failing(&self.failing, self.calls) || at == self.space.len() {
            self.faults = count_up(self.faults);
            return Err(WriteFailed);
        }
        let count = self.step.min(from.len()).min(self.space.len() - at);
        self.space[at..at + count].copy_from_slice(&from[..count]);
        self.used = at + count;
        Ok(count)
    }

    fn flush(&mut self) -> Result<(), WriteFailed>
        // What each sink says.
        ensures held_stays { Keeps (Some self.old.held) (Some self.new.held) }
        ensures settles { OnOk result (IsSettled (Some self.new.held) (Some self.new.settled)) }
        ensures unchanged { OnErr result (Some self.new.settled ≡ Some self.old.settled) }
        ensures cause { OnErr result (Rises self.old.faults self.new.faults) }
        ensures never_falls { self.old.faults ≤ self.new.faults }

        // When this one fails, and what else it says.
        ensures calls { self.new.calls ≡ count_up self.old.calls }
        ensures fails { is_err result ≡ is_failing self.old.failing self.new.calls }
        ensures faults { self.new.faults
            ≡ (if is_err result then count_up self.old.faults else self.old.faults) }
        ensures room { self.new.room ≡ self.old.room }
        ensures step { self.new.step ≡ self.old.step }
        ensures failing { self.new.failing ≡ self.old.failing }
    {
        self.calls = count_up(self.calls);
        if is_failing(&self.failing, self.calls) {
            self.faults = count_up(self.faults);
            return Err(WriteFailed);
        }
        self.settled = self.used;
        Ok(())
    }
}
