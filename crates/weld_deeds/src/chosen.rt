//! Pairs of numbers that are merged where a truth value says so: they are gathered, and merged at once.

ghost use Rattle.std.specs.Prelude.{◌≡◌, ◌≤◌, pos, [], ◌∷◌, ◌++◌, if◌then◌else◌, take, IfOk, OnOk};
ghost use Rattle.std.specs.Ordering.{int_eq};
ghost use Rattle.weld_data.specs.Kind.{IsNarrow};
ghost use Rattle.weld_acts.specs.Act.{Acts};
ghost use Rattle.weld_eval.specs.ThingView.{thing_of};
ghost use Rattle.weld_deeds.specs.Chosen.{pair_guarded, PairGuardedFits, chosen_words};
ghost use Rattle.weld_blocks.specs.Numbers.{count_of};
ghost use Rattle.weld_deeds.specs.Through.{FitsThrough, done_through};

use std::alloc::{AllocError, Global};
use weld_blocks::numbers::{Numbers, word_at};
use weld_data::Stop;
use weld_eval::thing::Owned;

/// Merges those of the first pairs of numbers, so many, whose truth value is true, one after another,
/// their kinds being such whose numbers lie within an i64.
#[tactic(auto, using(crate::proofs::ChosenLemmas::chosen_on, crate::proofs::ChosenLemmas::chosen_none))]
pub fn put_chosen(
    truths: &Numbers,
    keys: &Numbers,
    numbers: &Numbers,
    count: usize,
    builder: &mut Owned,
) -> Result<(), Stop>
    requires narrow_key { IsNarrow keys.now.kind }
    requires narrow { IsNarrow numbers.now.kind }
    requires all_truths { count ≤ count_of truths.now }
    requires all_keys { count ≤ count_of keys.now }
    requires all_numbers { count ≤ count_of numbers.now }
    requires fits { FitsThrough (pair_guarded truths.now keys.now numbers.now)
        (PairGuardedFits truths.now keys.now numbers.now) 0 count (thing_of builder.old) }
    ensures { Acts result (done_through (pair_guarded truths.now keys.now numbers.now) 0 count
        (thing_of builder.old)) (thing_of builder.new) }
{
    let chosen_keys = match chosen(truths, keys, count, keys.memory()) {
        Ok(words) => words,
        Err(_) => return Err(Stop::Memory),
    };
    let chosen_numbers = match chosen(truths, numbers, count, keys.memory()) {
        Ok(words) => words,
        Err(_) => return Err(Stop::Memory),
    };
    if chosen_keys.is_empty() {
        return Ok(());
    }
    match builder {
        Owned::Built(built) => {
            built.merge_pairs(keys.kind, &chosen_keys, numbers.kind, &chosen_numbers)
        }
        _ => unreachable!(),
    }
}

/// The words of the first rows, so many, whose truth value is true.
fn chosen(
    truths: &Numbers,
    column: &Numbers,
    count: usize,
    alloc: Global,
) -> Result<Vec<i64>, AllocError>
    requires truths { count ≤ count_of truths.now }
    requires column { count ≤ count_of column.now }
    ensures { IfOk result (λ words. words.items ≡ chosen_words (take count truths.now.items.items)
        (take count column.now.items.items)) }
{
    let mut words = Vec::with_capacity(alloc, count)?;
    for place in 0..count {
        let truth = word_at(&truths.items, place);
        let word = word_at(&column.items, place);
        push_if(&mut words, truth, word)?;
    }
    Ok(words)
}

/// Appends a word where the truth value, true being 1, is true.
#[inline(always)]
fn push_if(words: &mut Vec<i64>, truth: i64, word: i64) -> Result<(), AllocError>
    ensures { OnOk result (words.new.items ≡ words.old.items
        ++ (if int_eq truth (pos 1) then word ∷ [] else [])) }
{
    if truth == 1 {
        words.push(word)?;
    }
    Ok(())
}
