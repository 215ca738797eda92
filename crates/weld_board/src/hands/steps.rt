//! The machine's calls.

ghost use Rattle.std.specs.Prelude.{◌≡◌, ◌+◌, ◌*◌, ◌/◌, ◌≤◌, ◌<◌, List, [], ◌∷◌, ◌++◌, length, reverse, slice_index_or, slice_set, IfOk, OnOk, OnErr, MatchOption};
ghost use Rattle.weld_tiles.specs.declared.tile.Tile.{Tile};
ghost use Rattle.weld_board.specs.Dealing.{start, hand};
ghost use Rattle.weld_board.specs.Sharing.{Permits, dealt};
ghost use Rattle.weld_board.specs.Machines.{core_of, turned, shown, Steps, Moves};

use crate::hands::event::{Event, Step};
use crate::hands::machine::Machine;
use std::alloc::{AllocError, Global};
use weld_tiles::Tile;

/// Where hand k begins, of so many tiles dealt to so many workers. It takes no memory.
pub fn start_of(tiles: usize, workers: u32, k: u32) -> usize
    requires some_worker { 1 ≤ workers }
    requires hand { k ≤ workers }
    ensures start { result ≡ start tiles workers k }
    ensures within { result ≤ tiles }
{
    let start = u128::from(k) * tiles as u128 / u128::from(workers);
    start as usize
}

/// The tiles of hand k, back to front.
fn hand_of(alloc: Global, list: &[Tile], workers: u32, k: u32) -> Result<Vec<Tile>, AllocError>
    requires { k < workers }
    ensures { IfOk result (λ v. reverse v.items ≡ hand list.now workers k) }
{
    let from = start_of(list.len(), workers, k);
    let to = start_of(list.len(), workers, k + 1);
    list[from..to].iter().rev().copied().collect(alloc)
}

impl Machine {
    /// The tiles dealt to so many workers: hand k has those numbered from k n / w up to, not including, (k + 1) n / w, of n
    /// tiles and w workers.
    pub fn deal(alloc: Global, list: &[Tile], workers: u32) -> Result<Machine, AllocError>
        requires some_worker { 1 ≤ workers }
        requires workers { workers ≤ 64 }
        ensures { IfOk result (λ m. core_of m ≡ dealt list.now workers) }
    {
        let mut hands = Vec::new(alloc);
        let mut taken = Vec::new(alloc);
        let mut finished = Vec::new(alloc);
        for k in 0..workers {
            hands.push(hand_of(alloc, list, workers, k)?)?;
            taken.push(Vec::new(alloc))?;
            finished.push(false)?;
        }
        Ok(Machine {
            hands,
            taken,
            finished,
        })
    }

    /// One step: the seat takes the first tile of the hand that the event names, or has finished. `Empty` comes exactly where
    /// that hand is empty; then, and where memory is wanting, nothing has changed.
    pub fn step(&mut self, event: Event) -> Step
        requires { Permits (core_of self.old) event }
        ensures step { Steps (core_of self.old) event result (core_of self.new) }
        ensures seats { length (core_of self.new).hands ≡ length (core_of self.old).hands }
    {
        match event {
            Event::Pop(seat) => self.give(seat, seat),
            Event::Steal(thief, seat) => self.give(thief, seat),
            Event::Finish(seat) => self.finish(seat),
        }
    }

    /// Marks the seat as one that has finished.
    fn finish(&mut self, seat: u32) -> Step
        requires { Permits (core_of self.old) (Event.Finish seat) }
        ensures step { Steps (core_of self.old) (Event.Finish seat) result (core_of self.new) }
        ensures seats { length (core_of self.new).hands ≡ length (core_of self.old).hands }
    {
        self.finished[seat as usize] = true;
        Step::Finished
    }

    /// Gives the first tile of a hand to a seat.
    fn give(&mut self, to: u32, from: u32) -> Step
        requires to { to < length (core_of self.old).hands }
        requires from { from < length (core_of self.old).hands }
        ensures step { Moves (core_of self.old) to from result (core_of self.new) }
        ensures seats { length (core_of self.new).hands ≡ length (core_of self.old).hands }
    {
        let Some(tile) = first_at(&self.hands, from as usize) else {
            return Step::Empty;
        };
        match push_at(&mut self.taken, to as usize, tile) {
            Ok(()) => {}
            Err(_) => return Step::Memory,
        }
        pop_at(&mut self.hands, from as usize);
        Step::Took(tile)
    }
}

/// The first tile of a hand, if it has one.
fn first_at(hands: &[Vec<Tile>], at: usize) -> Option<Tile>
    requires { at < length hands.now }
    ensures { MatchOption result (slice_index_or (turned hands.now) at [] ≡ [])
        (λ t. (rest : List Tile) × (slice_index_or (turned hands.now) at [] ≡ t ∷ rest)) }
{
    hands[at].last().copied()
}

/// Appends a tile to what a seat has taken. Where memory is wanting, nothing changes.
fn push_at(lists: &mut [Vec<Tile>], at: usize, tile: Tile) -> Result<(), AllocError>
    requires { at < length lists.old }
    ensures ok { OnOk result (shown lists.new ≡ slice_set (shown lists.old) at
        (slice_index_or (shown lists.old) at [] ++ tile ∷ [])) }
    ensures err { OnErr result (shown lists.new ≡ shown lists.old) }
{
    match lists[at].push(tile) {
        Ok(()) => Ok(()),
        Err(_) => Err(AllocError),
    }
}

/// Takes the first tile out of a hand that has one.
fn pop_at(hands: &mut [Vec<Tile>], at: usize)
    requires { at < length hands.old }
    ensures left { (t : Tile) (rest : List Tile) → slice_index_or (turned hands.old) at []
        ≡ t ∷ rest → turned hands.new ≡ slice_set (turned hands.old) at rest }
    ensures hands { length (turned hands.new) ≡ length (turned hands.old) }
{
    let _first = hands[at].pop();
}
