ghost use Rattle.std.specs.Prelude.{◌<◌, ◌≤◌, length, IfOk};

use super::{
    Gate, MemorySink, MemorySource, NoGate, ReadFailed, Sink, Source, StdinSource, StdoutSink,
    SureSink, SureSource, WriteFailed,
};
use std::io;
use std::io::{ErrorKind, Read, Write};
use std::test::Fail;

/// A read through the bound.
fn read_from<S: Source>(source: &mut S, into: &mut [u8]) -> Result<usize, ReadFailed>
    requires { 0 < length into.old }
{
    source.read(into)
}

/// A write through the bound.
fn write_to<K: Sink>(sink: &mut K, from: &[u8]) -> Result<usize, WriteFailed>
    requires { 0 < length from.now }
{
    sink.write(from)
}

/// How many bytes each read gives, or that it fails, and what is left then.
static STEPS: [(Option<usize>, &[u8]); 6] = [
    (Some(2), b"cde"),
    (None, b"cde"),
    (Some(2), b"e"),
    (Some(1), b""),
    (None, b""),
    (Some(0), b""),
];

#[test]
fn a_source_over_memory_gives_its_bytes_in_steps(rt: HostRuntime) -> Result<(), Fail> {
    let alloc = rt.alloc();
    let bytes = Vec::from_slice(alloc, b"abcde")?;
    let mut source = MemorySource::new(bytes, 2, vec![in alloc; 2, 5]?);
    let mut into = [0u8; 3];
    for (want, left) in &STEPS {
        let count = read_from(&mut source, &mut into).ok();
        assert_eq!(rt; (count, source.left()), (*want, *left));
    }
    assert_eq!(rt; into.as_slice(), b"ed\0".as_slice());
    assert_eq!(rt; source.faults(), 2);

    let mut sure = SureSource::new(Vec::from_slice(alloc, b"abcd")?, 9);
    assert_eq!(rt; read_from(&mut sure, &mut into), Ok(3));
    assert_eq!(rt; into.as_slice(), b"abc".as_slice());
    assert_eq!(rt; read_from(&mut sure, &mut into), Ok(1));
    assert_eq!(rt; sure.left(), b"".as_slice());
    Ok(())
}

/// How many bytes each write takes, or that it fails, and what is held then.
static HELD: [(Option<usize>, &[u8]); 5] = [
    (Some(3), b"abc"),
    (None, b"abc"),
    (Some(1), b"abca"),
    (None, b"abca"),
    (None, b"abca"),
];

#[test]
fn a_sink_over_memory_takes_bytes_while_it_has_room(rt: HostRuntime) -> Result<(), Fail> {
    let alloc = rt.alloc();
    let mut sink = MemorySink::new(alloc, 4, 3, vec![in alloc; 2, 4]?)?;
    for (want, held) in &HELD {
        let count = write_to(&mut sink, b"abcd").ok();
        assert_eq!(rt; (count, sink.held()), (*want, *held));
    }
    assert_eq!(rt; sink.settled(), 0);
    assert_eq!(rt; sink.flush(), Ok(()));
    assert_eq!(rt; sink.settled(), 4);
    assert_eq!(rt; sink.faults(), 3);

    let mut stopped = MemorySink::new(alloc, 1, 1, vec![in alloc; 1]?)?;
    assert_eq!(rt; stopped.flush(), Err(WriteFailed));
    assert_eq!(rt; stopped.flush(), Ok(()));

    let mut sure = SureSink::new();
    assert_eq!(rt; write_to(&mut sure, b"abcd"), Ok(4));
    assert_eq!(rt; sure.flush(), Ok(()));
    Ok(())
}

/// What a scripted reader or writer does when it is no longer interrupted.
#[derive(Clone, Copy, Debug)]
enum Then {
    One,
    Nothing,
    Broken,
}

/// A reader or writer that signals interrupt so often before it answers in one way.
#[derive(Drop)]
struct Scripted {
    interruptions: u32,
    then: Then,
    calls: u32,
}

impl Scripted {
    fn answer(&mut self) -> io::Result<usize>
        ensures { IfOk result (λ count. count ≤ 1) }
    {
        self.calls = self.calls.saturating_add(1);
        if self.interruptions > 0 {
            self.interruptions -= 1;
            return Err(io::Error::from(ErrorKind::Interrupted));
        }
        match self.then {
            Then::One => Ok(1),
            Then::Nothing => Ok(0),
            Then::Broken => Err(io::Error::from(ErrorKind::BrokenPipe)),
        }
    }
}

impl Read for Scripted {
    fn read(&mut self, into: &mut [u8]) -> io::Result<usize> {
        match self.answer() {
            Ok(count) => Ok(count.min(into.len())),
            Err(error) => Err(error),
        }
    }
}

impl Write for Scripted {
    fn write(&mut self, from: &[u8]) -> io::Result<usize> {
        match self.answer() {
            Ok(count) => Ok(count.min(from.len())),
            Err(error) => Err(error),
        }
    }

    fn flush(&mut self) -> io::Result<()> {
        match self.answer() {
            Ok(_) => Ok(()),
            Err(error) => Err(error),
        }
    }
}

/// How often it is interrupted, what then; how many bytes are passed, the count of failures, the calls made.
type Case = (u32, Then, Option<usize>, u64, u32);

static READS: [Case; 6] = [
    (0, Then::One, Some(1), 0, 1),
    (0, Then::Nothing, Some(0), 0, 1),
    (0, Then::Broken, None, 1, 1),
    (1, Then::One, Some(1), 1, 2),
    (99, Then::One, Some(1), 99, 100),
    (100, Then::One, None, 101, 100),
];

static WRITES: [Case; 6] = [
    (0, Then::One, Some(1), 0, 1),
    (0, Then::Nothing, None, 1, 1),
    (0, Then::Broken, None, 1, 1),
    (1, Then::Nothing, None, 2, 2),
    (99, Then::One, Some(1), 99, 100),
    (100, Then::One, None, 101, 100),
];

static FLUSHES: [Case; 4] = [
    (0, Then::One, Some(0), 0, 1),
    (0, Then::Broken, None, 1, 1),
    (99, Then::One, Some(0), 99, 100),
    (100, Then::One, None, 101, 100),
];

fn script_of(case: &Case) -> Scripted {
    Scripted {
        interruptions: case.0,
        then: case.1,
        calls: 0,
    }
}

/// What a read, a write or a flush passed, the count of failures, the calls made.
type Seen = (Option<usize>, u64, u32);

fn reads(case: &Case) -> Seen {
    let mut into = [0u8; 2];
    let mut source = StdinSource::new(script_of(case));
    let passed = read_from(&mut source, &mut into).ok();
    (passed, source.faults(), source.into_reader().calls)
}

fn writes(case: &Case) -> Seen {
    let mut sink = StdoutSink::new(script_of(case));
    let passed = write_to(&mut sink, b"abcd").ok();
    (passed, sink.faults(), sink.into_writer().calls)
}

fn flushes(case: &Case) -> Seen {
    let mut sink = StdoutSink::new(script_of(case));
    let passed = match sink.flush() {
        Ok(()) => Some(0),
        Err(_) => None,
    };
    (passed, sink.faults(), sink.into_writer().calls)
}

#[test]
fn an_interrupted_call_alone_is_tried_again(rt: HostRuntime) -> Result<(), Fail> {
    for case in &READS {
        assert_eq!(rt; reads(case), (case.2, case.3, case.4), "{case:?}");
    }
    for case in &WRITES {
        assert_eq!(rt; writes(case), (case.2, case.3, case.4), "{case:?}");
    }
    for case in &FLUSHES {
        assert_eq!(rt; flushes(case), (case.2, case.3, case.4), "{case:?}");
    }
    Ok(())
}

#[test]
fn standard_input_is_at_its_end(rt: HostRuntime) {
    let mut into = [0u8; 16];
    let mut source = StdinSource::new(rt.reader());
    let got = read_from(&mut source, &mut into);
    assert!(rt; got == Ok(0) || got == Err(ReadFailed));
    NoGate.before(7);
}

#[test]
fn standard_output_takes_a_line(rt: HostRuntime) {
    let line = b"a line of a test\n";
    let mut sink = StdoutSink::new(io::writer(&rt));
    assert_eq!(rt; write_to(&mut sink, line), Ok(17));
    assert_eq!(rt; sink.flush(), Ok(()));
}
