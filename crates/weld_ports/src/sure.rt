ghost use Rattle.std.specs.Prelude.{◌≡◌, ℕ, ◌++◌, ◌≤◌, ◌<◌, None, Some, Ok, length, take, drop, IsOk, IfOk, OnOk, OnErr};
ghost use Rattle.std.specs.Io.KnownBytes.{Consumes, IsAtEnd, Keeps, Appends};
ghost use Rattle.weld_ports.specs.Faults.{Rises, IsSettled};
ghost use Rattle.weld_ports.specs.Memory.{passed};

use super::sink::{Sink, WriteFailed};
use super::source::{ReadFailed, Source};
use std::marker::Model;

/// A source over memory that never fails.
#[derive(Debug, Drop)]
pub struct SureSource {
    bytes: Vec<u8>,
    at: usize,
    step: usize,
}

impl Model for SureSource {
    ghost use Rattle.std.specs.Prelude.{drop, length, ◌≤◌};
    ghost use Rattle.weld_ports.specs.Memory.{SureInput};

    ghost Value = { SureInput };

    ghost view = { λ s. record { left = drop s.at s.bytes.items; step = s.step } };

    ghost invariant = { λ s. (s.at ≤ length s.bytes.items) × (1 ≤ s.step) };
}

impl SureSource {
    /// A source of these bytes, of which each read gives at most `step`.
    pub fn new(bytes: Vec<u8>, step: usize) -> SureSource
        requires { 1 ≤ step }
        ensures bytes { result.left ≡ bytes.items }
        ensures step { result.step ≡ step }
    {
        SureSource { bytes, at: 0, step }
    }

    /// The bytes still to come.
    pub fn left(&self) -> &[u8]
        ensures { result.now ≡ self.now.left }
    {
        &self.bytes[self.at..]
    }
}

impl Source for SureSource {
    ghost left = { λ s. Some s.left };

    ghost faults = { λ _. 0 };

    fn read(&mut self, into: &mut [u8]) -> Result<usize, ReadFailed>
        requires { 0 < length into.old }

        // What each source says.
        ensures fits { IfOk result (λ count. count ≤ length into.new) }
        ensures bytes { IfOk result (λ count.
            Consumes (Some self.old.left) (Some self.new.left) (take count into.new)) }
        ensures end { result ≡ Ok 0 → IsAtEnd (Some self.old.left) }
        ensures unchanged { OnErr result (Keeps (Some self.old.left) (Some self.new.left)) }
        ensures cause { OnErr result (Rises 0 0) }
        ensures never_falls { 0 ≤ 0 }

        // What this one says beside it.
        ensures sure { IsOk result }
        ensures count { IfOk result (λ count.
            count ≡ passed self.old.step (length into.old) (length self.old.left)) }
        ensures given { IfOk result (λ count.
            into.new ≡ take count self.old.left ++ drop count into.old) }
        ensures rest { IfOk result (λ count. self.new.left ≡ drop count self.old.left) }
        ensures step { self.new.step ≡ self.old.step }
    {
        let count = copy_front(&self.bytes[self.at..], into, self.step);
        self.at += count;
        Ok(count)
    }
}

/// Copies the front of one slice to another, at most `step` bytes, and answers how many.
fn copy_front(from: &[u8], into: &mut [u8], step: usize) -> usize
    ensures count { result ≡ passed step (length into.old) (length from.now) }
    ensures given { into.new ≡ take result from.now ++ drop result into.old }
    ensures taken { from.now ≡ take result into.new ++ drop result from.now }
{
    let count = step.min(into.len()).min(from.len());
    into[..count].copy_from_slice(&from[..count]);
    count
}

/// A sink that takes every piece whole, keeps nothing and never fails.
#[derive(Clone, Copy, Debug)]
pub struct SureSink;

impl SureSink {
    /// The sink.
    pub fn new() -> SureSink {
        SureSink
    }
}

impl Sink for SureSink {
    ghost held = { λ _. None };

    ghost settled = { λ _. None };

    ghost faults = { λ _. 0 };

    fn write(&mut self, from: &[u8]) -> Result<usize, WriteFailed>
        requires { 0 < length from.now }

        // What each sink says.
        ensures some { IfOk result (λ count. 0 < count) }
        ensures fits { IfOk result (λ count. count ≤ length from.now) }
        ensures bytes { IfOk result (λ count. Appends None None (take count from.now)) }
        ensures unchanged { OnErr result (Keeps None None) }
        ensures cause { OnErr result (Rises 0 0) }
        ensures never_falls { 0 ≤ 0 }

        // What this one says beside it.
        ensures whole { result ≡ Ok (length from.now) }
    {
        Ok(from.len())
    }

    fn flush(&mut self) -> Result<(), WriteFailed>
        ensures held_stays { Keeps None None }
        ensures settles { OnOk result (IsSettled None None) }
        ensures cause { OnErr result (Rises 0 0) }
        ensures never_falls { 0 ≤ 0 }
        ensures sure { IsOk result }
    {
        Ok(())
    }
}
