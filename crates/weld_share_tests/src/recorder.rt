//! A gate that counts how often it is told of each tile.

use std::alloc::{AllocError, Global};
use std::sync::atomic::{AtomicU64, Ordering};
use weld_ports::Gate;

/// Counts how often it was told of each tile below a number, and of all others together.
#[derive(Drop)]
pub(crate) struct Recorder {
    told: Vec<AtomicU64>,
    others: AtomicU64,
}

impl Recorder {
    /// A gate that was told of none, for so many tiles.
    pub(crate) fn new(alloc: Global, tiles: usize) -> Result<Recorder, AllocError> {
        let mut told = Vec::new(alloc);
        for _ in 0..tiles {
            told.push(AtomicU64::new(0))?;
        }
        Ok(Recorder {
            told,
            others: AtomicU64::new(0),
        })
    }

    /// Whether it was told of each tile below this number once, and of no other.
    pub(crate) fn was_told_of_each_once(&self, tiles: u64) -> bool {
        for (number, told) in self.told.iter().enumerate() {
            let times = u64::from((number as u64) < tiles);
            if told.load(Ordering::SeqCst) != times {
                return false;
            }
        }
        self.others.load(Ordering::SeqCst) == 0
    }

    /// Whether it was told of none of these twice, and of no other.
    pub(crate) fn was_told_of_none_twice(&self, tiles: u64) -> bool {
        for (number, told) in self.told.iter().enumerate() {
            let times = u64::from((number as u64) < tiles);
            if told.load(Ordering::SeqCst) > times {
                return false;
            }
        }
        self.others.load(Ordering::SeqCst) == 0
    }
}

impl Gate for Recorder {
    ghost told = { λ _ _. Unit {0} };

    fn before(&self, tile: u64) {
        match self.told.get(tile as usize) {
            Some(told) => told.fetch_add(1, Ordering::SeqCst),
            None => self.others.fetch_add(1, Ordering::SeqCst),
        };
    }
}
