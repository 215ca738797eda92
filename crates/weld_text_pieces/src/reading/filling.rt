//! Pieces of a text, read side by side into the places of one list.

ghost use Rattle.std.specs.Prelude.{◌≡◌, ◌++◌, ◌<◌, List, ℕ, true, length, map, IfOk, IfSome};
ghost use Rattle.std.specs.Thread.{IsSync, IsSend};
ghost use Rattle.weld_data.specs.Value.{Value};
ghost use Rattle.weld_tree.specs.TypeTree.{TypeTree, scalar};
ghost use Rattle.weld_text_pieces.specs.Cuts.{with_commas};
ghost use Rattle.weld_text_pieces.specs.Filled.{ArePlaced};
ghost use Rattle.weld_text_pieces.specs.Joined.{AreValues};

use crate::reading::counting::count_byte;
use crate::reading::cutting::{CutAt, cut_pieces};
use rayon::prelude::*;
use std::alloc::{AllocError, Global};
use std::thread::{Threads, join_mut};
use weld_data::Items;
use weld_values::laws::scalars_join_at_commas;
use weld_values::{Cell, fill_piece};

/// What reads pieces of a text into places, in any thread.
pub(crate) trait FillsPlaces<P>: Sync {
    // The type of the values that it reads.
    ghost form: { Self → TypeTree };

    // The value that a place has.
    ghost value: { P → Value };

    /// How many values the text has if it is nothing else.
    fn count(&self, text: &[u8]) -> usize;

    /// Fills the places with the values that the text is, with a comma between each two; tells whether it is just so many.
    fn fill(&self, text: &[u8], places: &mut [P]) -> bool
        ensures { result ≡ true → AreValues (form self.now) text.now (map value places.new) };
}

/// The scalars of one kind.
#[derive(Drop)]
pub(crate) struct Scalars;

impl<T: Cell> FillsPlaces<T> for Scalars {
    ghost form = { λ _. scalar T.kind };

    ghost value = { T.value };

    fn count(&self, text: &[u8]) -> usize {
        count_byte(text, b',').wrapping_add(1)
    }

    fn fill(&self, text: &[u8], places: &mut [T]) -> bool {
        fill_piece(text, places)
    }
}

/// How many values each piece has, the pieces shared among the processors. Where there is one alone, no thread is started.
pub(crate) fn count_pieces<P, F: FillsPlaces<P>>(
    rt: &(impl Threads + Sync),
    alloc: Global,
    fills: &F,
    pieces: &[&[u8]],
) -> Result<Vec<usize>, AllocError> {
    pieces
        .par_iter()
        .with_min_len(1)
        .map(|piece: &&[u8]| -> usize { fills.count(piece) })
        .collect(rt, alloc)
}

/// How many they are together.
pub(crate) fn total(counts: &[usize]) -> usize {
    let mut sum: usize = 0;
    for count in counts {
        sum = sum.wrapping_add(*count);
    }
    sum
}

/// So many places for scalars.
fn blank<T: Cell + Default>(alloc: Global, count: usize) -> Result<Vec<T>, AllocError> {
    let mut places = Vec::new(alloc);
    places.resize(count, T::default())?;
    Ok(places)
}

/// Fills the places with the values that the pieces are, where there is at most one piece; tells whether it is just so many.
fn fill_one<P, F: FillsPlaces<P>>(fills: &F, pieces: &[&[u8]], places: &mut [P]) -> bool
    ensures { result ≡ true → ArePlaced (F.form fills.now) F.value pieces.now places.new }
{
    match pieces {
        [piece] => fills.fill(piece, places),
        _ => false,
    }
}

/// Fills the places with the values that the pieces are, in their order; tells whether these are just so many. The counts say
/// how many each piece has; where one is wrong the answer is `false`.
#[cycle(halves)]
pub(crate) fn fill_pieces<R: Threads + Sync, P: Send, F: FillsPlaces<P>>(
    rt: &R,
    fills: &F,
    pieces: &[&[u8]],
    counts: &[usize],
    places: &mut [P],
) -> bool
    ensures { result ≡ true → ArePlaced (F.form fills.now) F.value pieces.now places.new }
{
    let half = pieces.len() / 2;
    if half == 0 || counts.len() < half {
        return fill_one(fills, pieces, places);
    }
    let (first, last) = pieces.split_at(half);
    let (first_counts, last_counts) = counts.split_at(half);
    let middle = total(first_counts);
    if places.len() < middle {
        return false;
    }
    let (low, high) = places.split_at_mut(middle);
    fill_halves(rt, fills, first, first_counts, low, last, last_counts, high)
}

/// Both halves side by side.
#[cycle(halves)]
fn fill_halves<R: Threads + Sync, P: Send, F: FillsPlaces<P>>(
    rt: &R,
    fills: &F,
    first: &[&[u8]],
    first_counts: &[usize],
    low: &mut [P],
    last: &[&[u8]],
    last_counts: &[usize],
    high: &mut [P],
) -> bool
    requires some_first { 0 < length first.now }
    requires some_last { 0 < length last.now }
    ensures first { result ≡ true → ArePlaced (F.form fills.now) F.value first.now low.new }
    ensures last { result ≡ true → ArePlaced (F.form fills.now) F.value last.now high.new }
{
    let mut front = || -> bool
        requires { IsSync R.row × IsSend P.row × IsSync F.row }
        ensures { result ≡ true → ArePlaced (F.form fills.entry.now) F.value first.entry.now
            low.exit.now }
    { fill_pieces(rt, fills, first, first_counts, low) };
    let mut back = || -> bool
        requires { IsSync R.row × IsSend P.row × IsSync F.row }
        ensures { result ≡ true → ArePlaced (F.form fills.entry.now) F.value last.entry.now
            high.exit.now }
    { fill_pieces(rt, fills, last, last_counts, high) };
    let (is_first, is_last) = join_mut(rt, &mut front, &mut back);
    is_first && is_last
}

/// The scalars that the text is, with a comma between each two; none where it is anything else. So many pieces of it are read
/// side by side, each into its places of the one list.
pub(crate) fn read_filled<T: Cell + Send + Default>(
    rt: &(impl Threads + Sync),
    alloc: Global,
    text: &[u8],
    workers: u32,
) -> Result<Option<Items<T>>, AllocError>
    requires { 0 < workers }
    ensures { IfOk result (λ found. IfSome found (λ items. AreValues (scalar T.kind) text.now
        (map T.value items))) }
{
    scalars_join_at_commas();
    let pieces = cut_pieces(alloc, text, text.len() / workers as usize, CutAt::Comma)?;
    let counts = count_pieces::<T, Scalars>(rt, alloc, &Scalars, pieces.as_slice())?;
    let mut places = blank::<T>(alloc, total(counts.as_slice()))?;
    if fill_pieces(
        rt,
        &Scalars,
        pieces.as_slice(),
        counts.as_slice(),
        places.as_mut_slice(),
    ) {
        Ok(Some(Items::from_vec(places)))
    } else {
        Ok(None)
    }
}
