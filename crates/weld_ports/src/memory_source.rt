ghost use Rattle.std.specs.Prelude.{◌≡◌, ℕ, ◌++◌, ◌≤◌, ◌<◌, Some, Ok, length, take, drop, is_err, if◌then◌else◌, IfOk, OnErr};
ghost use Rattle.std.specs.Io.KnownBytes.{Consumes, IsAtEnd, Keeps};
ghost use Rattle.weld_ports.specs.Faults.{Rises};
ghost use Rattle.weld_ports.specs.Memory.{passed, count_up, is_failing};

use super::count::{count_up, is_failing};
use super::source::{ReadFailed, Source};
use super::sure::SureSource;
use std::marker::Model;

/// A source over memory, whose reads fail where it is told.
#[derive(Debug, Drop)]
pub struct MemorySource {
    input: SureSource,
    failing: Vec<u64>,
    calls: u64,
    faults: u64,
}

impl Model for MemorySource {
    ghost use Rattle.weld_ports.specs.Memory.{MemoryInput};

    ghost Value = { MemoryInput };

    ghost view = { λ s. record {
      left = s.input.left;
      step = s.input.step;
      failing = s.failing.items;
      calls = s.calls;
      faults = s.faults;
    } };
}

impl MemorySource {
    /// A source of these bytes, of which each read gives at most `step`. The reads whose numbers, from 1,
    /// stand in `failing` fail.
    pub fn new(bytes: Vec<u8>, step: usize, failing: Vec<u64>) -> MemorySource
        requires { 1 ≤ step }
        ensures bytes { result.left ≡ bytes.items }
        ensures step { result.step ≡ step }
        ensures failing { result.failing ≡ failing.items }
        ensures calls { result.calls ≡ 0 }
        ensures faults { result.faults ≡ 0 }
    {
        MemorySource {
            input: SureSource::new(bytes, step),
            failing,
            calls: 0,
            faults: 0,
        }
    }

    /// The bytes still to come.
    pub fn left(&self) -> &[u8]
        ensures { result.now ≡ self.now.left }
    {
        self.input.left()
    }

    /// How many reads have failed.
    pub fn faults(&self) -> u64
        ensures { result ≡ self.now.faults }
    {
        self.faults
    }
}

impl Source for MemorySource {
    ghost left = { λ s. Some s.left };

    ghost faults = { λ s. s.faults };

    fn read(&mut self, into: &mut [u8]) -> Result<usize, ReadFailed>
        requires { 0 < length into.old }

        // What each source says.
        ensures fits { IfOk result (λ count. count ≤ length into.new) }
        ensures bytes { IfOk result (λ count.
            Consumes (Some self.old.left) (Some self.new.left) (take count into.new)) }
        ensures end { result ≡ Ok 0 → IsAtEnd (Some self.old.left) }
        ensures unchanged { OnErr result (Keeps (Some self.old.left) (Some self.new.left)) }
        ensures cause { OnErr result (Rises self.old.faults self.new.faults) }
        ensures never_falls { self.old.faults ≤ self.new.faults }

        // When this one fails, and what else it says.
        ensures calls { self.new.calls ≡ count_up self.old.calls }
        ensures fails { is_err result ≡ is_failing self.old.failing self.new.calls }
        ensures faults { self.new.faults
            ≡ (if is_err result then count_up self.old.faults else self.old.faults) }
        ensures count { IfOk result (λ count.
            count ≡ passed self.old.step (length into.old) (length self.old.left)) }
        ensures given { IfOk result (λ count.
            into.new ≡ take count self.old.left ++ drop count into.old) }
        ensures rest { IfOk result (λ count. self.new.left ≡ drop count self.old.left) }
        ensures step { self.new.step ≡ self.old.step }
        ensures failing { self.new.failing ≡ self.old.failing }
    {
        self.calls = count_up(self.calls);
        if is_failing(&self.failing, self.calls) {
            self.faults = count_up(self.faults);
            return Err(ReadFailed);
        }
        self.input.read(into)
    }
}
