//! Gates that see how tiles are run: two tiles of a loop at once, and each tile once.

use std::alloc::{AllocError, Global};
use std::sync::atomic::{AtomicBool, AtomicU64, Ordering};
use std::test::Fail;
use std::thread;
use std::thread::Threads;
use weld_front::{Status, weld_main};
use weld_ports::{Gate, MemorySink, MemorySource};

/// What `weld_main` writes of a job under a gate, if it ends well.
fn written<G: Gate>(
    rt: &(impl Threads + Sync),
    alloc: Global,
    words: &[&str],
    job: &str,
    gate: &G,
) -> Result<Option<Vec<u8>>, AllocError> {
    let mut list = Vec::new(alloc);
    for word in words {
        list.push(String::from_str(alloc, word)?)?;
    }
    let bytes = Vec::from_slice(alloc, job.as_bytes())?;
    let mut input = MemorySource::new(bytes, 1000, Vec::new(alloc));
    let mut output = MemorySink::new(alloc, 256, 1000, Vec::new(alloc))?;
    let status = weld_main(rt, alloc, list.as_slice(), &mut input, &mut output, gate);
    if status == Status::Done {
        Ok(Some(output.held().to_vec(alloc)?))
    } else {
        Ok(None)
    }
}

/// How often the first tile looks whether a second has begun.
const LOOKS: u64 = 10_000_000;

/// Holds the first tile that comes until it is told of a second one, or has looked often enough.
#[derive(Drop)]
struct Meeting {
    told: AtomicU64,
    have_met: AtomicBool,
}

impl Gate for Meeting {
    ghost told = { λ _ _. Unit {0} };

    fn before(&self, _tile: u64) {
        if self.told.fetch_add(1, Ordering::SeqCst) > 0 {
            return;
        }
        for _ in 0..LOOKS {
            if self.told.load(Ordering::SeqCst) > 1 {
                self.have_met.store(true, Ordering::SeqCst);
                return;
            }
            thread::yield_now();
        }
    }
}

const DOUBLED: &str =
    "|v: vec[i64]| result(for(v, vecbuilder[i64], |b,i,x| merge(b, x * 2L)))\n%%\n%value\n[1,2,3]\n";

/// The first tile of three is held until another worker has begun a second one.
#[test]
fn two_tiles_are_run_at_once(rt: HostRuntime) -> Result<(), Fail> {
    let gate = Meeting {
        told: AtomicU64::new(0),
        have_met: AtomicBool::new(false),
    };
    let words = ["run", "--cut", "1", "--workers", "2"];
    let Some(text) = written(&rt, rt.alloc(), &words, DOUBLED, &gate)? else {
        return Err(Fail::from("the call didn't end well"));
    };
    assert!(rt; text.as_slice() == b"[2,4,6]\n".as_slice());
    assert!(rt; gate.have_met.load(Ordering::SeqCst));
    Ok(())
}

/// Counts how often it is told of each of the first tiles, and of all others together.
#[derive(Drop)]
struct Counting {
    first: AtomicU64,
    second: AtomicU64,
    third: AtomicU64,
    others: AtomicU64,
}

impl Gate for Counting {
    ghost told = { λ _ _. Unit {0} };

    fn before(&self, tile: u64) {
        match tile {
            0 => self.first.fetch_add(1, Ordering::SeqCst),
            1 => self.second.fetch_add(1, Ordering::SeqCst),
            2 => self.third.fetch_add(1, Ordering::SeqCst),
            _ => self.others.fetch_add(1, Ordering::SeqCst),
        };
    }
}

/// Each tile of a loop is run once, by two workers and by more of them than there are tiles.
#[test]
fn each_tile_is_run_once(rt: HostRuntime) -> Result<(), Fail> {
    for workers in ["1", "2", "64"] {
        let gate = Counting {
            first: AtomicU64::new(0),
            second: AtomicU64::new(0),
            third: AtomicU64::new(0),
            others: AtomicU64::new(0),
        };
        let words = ["run", "--cut", "1", "--workers", workers];
        let text = written(&rt, rt.alloc(), &words, DOUBLED, &gate)?;
        assert!(rt; text.is_some());
        assert!(rt; gate.first.load(Ordering::SeqCst) == 1);
        assert!(rt; gate.second.load(Ordering::SeqCst) == 1);
        assert!(rt; gate.third.load(Ordering::SeqCst) == 1);
        assert!(rt; gate.others.load(Ordering::SeqCst) == 0);
    }
    Ok(())
}
