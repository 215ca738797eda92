ghost use Rattle.std.specs.Prelude.{◌≡◌, ℕ, ◌≤◌, None};

use super::count::count_up;
use super::sink::{Sink, WriteFailed};
use super::source::{ReadFailed, Source};
use std::io::{ErrorKind, Read, Write};

/// How often a call that a signal interrupted is tried again before it counts as failed.
const TRIES: usize = 100;

/// A source over a reader, as that of standard input. It tells the bytes that the reader tells, and
/// standard input tells none. Each error of the reader raises its count; a read that a signal interrupted
/// is tried again, up to a hundred times.
#[derive(Drop)]
pub struct StdinSource<R> {
    reader: R,
    faults: u64,
}

impl<R: Read> StdinSource<R> {
    /// A source over a reader that nothing else reads from: `StdinSource::new(rt.reader())`.
    pub fn new(reader: R) -> StdinSource<R>
        ensures bytes { ⟦<StdinSource<R> as Source>⟧.left result ≡ R.remaining reader }
        ensures faults { ⟦<StdinSource<R> as Source>⟧.faults result ≡ 0 }
    {
        StdinSource { reader, faults: 0 }
    }

    /// How often a call of the reader failed, an interruption included.
    pub fn faults(&self) -> u64
        ensures { result ≡ ⟦<StdinSource<R> as Source>⟧.faults self.now }
    {
        self.faults
    }

    /// The reader, given up.
    pub fn into_reader(self) -> R
        ensures { R.remaining result ≡ ⟦<StdinSource<R> as Source>⟧.left self }
    {
        let StdinSource { reader, .. } = self;
        reader
    }
}

impl<R: Read> Source for StdinSource<R> {
    ghost left = { λ s. R.remaining s.reader };

    ghost faults = { λ s. s.faults };

    fn read(&mut self, into: &mut [u8]) -> Result<usize, ReadFailed> {
        for _ in 0..TRIES {
            match self.reader.read(into) {
                Ok(count) => return Ok(count),
                Err(error) => {
                    self.faults = count_up(self.faults);
                    if error.kind() != ErrorKind::Interrupted {
                        return Err(ReadFailed);
                    }
                }
            }
        }
        self.faults = count_up(self.faults);
        Err(ReadFailed)
    }
}

/// A sink over a writer, as that of standard output. It tells the bytes that the writer tells, and
/// standard output tells none. Each error of the writer, and a write that takes nothing, raises its count;
/// a write or a flush that a signal interrupted is tried again, up to a hundred times. Nothing is told of
/// what a flush settles.
#[derive(Drop)]
pub struct StdoutSink<W> {
    writer: W,
    faults: u64,
}

impl<W: Write> StdoutSink<W> {
    /// A sink over a writer that nothing else writes to: `StdoutSink::new(io::writer(&rt))`.
    pub fn new(writer: W) -> StdoutSink<W>
        ensures bytes { ⟦<StdoutSink<W> as Sink>⟧.held result ≡ W.contents writer }
        ensures faults { ⟦<StdoutSink<W> as Sink>⟧.faults result ≡ 0 }
    {
        StdoutSink { writer, faults: 0 }
    }

    /// How often a call of the writer failed, an interruption and a write that took nothing included.
    pub fn faults(&self) -> u64
        ensures { result ≡ ⟦<StdoutSink<W> as Sink>⟧.faults self.now }
    {
        self.faults
    }

    /// The writer, given up.
    pub fn into_writer(self) -> W
        ensures { W.contents result ≡ ⟦<StdoutSink<W> as Sink>⟧.held self }
    {
        let StdoutSink { writer, .. } = self;
        writer
    }
}

impl<W: Write> Sink for StdoutSink<W> {
    ghost held = { λ s. W.contents s.writer };

    ghost settled = { λ _. None };

    ghost faults = { λ s. s.faults };

    fn write(&mut self, from: &[u8]) -> Result<usize, WriteFailed> {
        for _ in 0..TRIES {
            match self.writer.write(from) {
                Ok(0) => break,
                Ok(count) => return Ok(count),
                Err(error) => {
                    self.faults = count_up(self.faults);
                    if error.kind() != ErrorKind::Interrupted {
                        return Err(WriteFailed);
                    }
                }
            }
        }
        self.faults = count_up(self.faults);
        Err(WriteFailed)
    }

    fn flush(&mut self) -> Result<(), WriteFailed> {
        for _ in 0..TRIES {
            match self.writer.flush() {
                Ok(()) => return Ok(()),
                Err(error) => {
                    self.faults = count_up(self.faults);
                    if error.kind() != ErrorKind::Interrupted {
                        return Err(WriteFailed);
                    }
                }
            }
        }
        self.faults = count_up(self.faults);
        Err(WriteFailed)
    }
}
