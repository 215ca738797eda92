//! Structs of numbers that are merged into a list or into totals, all rows of a block at once.

ghost use Rattle.std.specs.Prelude.{◌≡◌, ◌<◌, ◌≤◌, ◌++◌, [], pos, true, if◌then◌else◌, IfOk, OnOk};
ghost use Rattle.std.specs.Ordering.{int_eq};
ghost use Rattle.weld_builders.specs.Outcome.{done};
ghost use Rattle.weld_eval.specs.ThingView.{thing_of};
ghost use Rattle.weld_built.specs.Merges.{merge_all, MayAppend};
ghost use Rattle.weld_meaning.specs.Thing.{building};
ghost use Rattle.weld_blocks.specs.Numbers.{count_of};
ghost use Rattle.weld_blocks.specs.Structs.{AreLonger};
ghost use Rattle.weld_deeds.specs.Rows.{kinds_of_columns, words_at, words_through, structs_through, struct_done, struct_guarded, StructGuardedFits, structs_chosen, AreChosenRows, AreReady};
ghost use Rattle.weld_deeds.specs.Through.{done_through, FitsThrough};

use std::alloc::{AllocError, Global};
use weld_blocks::numbers::{Numbers, word_at};
use weld_built::Built;
use weld_data::Kind;
use weld_eval::thing::Owned;

/// Merges the structs of the first rows, so many, where the builder is a list or totals and the fields are of kinds whose numbers
/// lie within an i64; it tells whether it did. Else nothing changes.
pub(crate) fn put_rows(
    columns: &Vec<Numbers>,
    count: usize,
    builder: &mut Owned,
) -> Result<bool, AllocError>
    ensures { MayAppend result (thing_of builder.old)
        (λ all. done_through (struct_done columns.now.items) 0 count (thing_of builder.old)
        ≡ done all) (thing_of builder.new) }
{
    match builder {
        Owned::Built(built) => merge_rows(columns, count, built, *columns.allocator()),
        _ => Ok(false),
    }
}

/// The same of a builder that isn't a struct of such.
fn merge_rows(
    columns: &[Numbers],
    count: usize,
    built: &mut Built,
    alloc: Global,
) -> Result<bool, AllocError>
    ensures { MayAppend result built.old
        (λ all. merge_all built.old (structs_through columns.now 0 count) ≡ done all) built.new }
{
    if !built.takes_rows() || columns.is_empty() || !are_ready(columns, count) {
        return Ok(false);
    }
    let kinds = kinds_of(columns, alloc)?;
    let words = words_of(columns, count, alloc)?;
    built.merge_rows(&kinds, &words, count)
}

/// The same of those rows alone on which a truth value is true.
pub(crate) fn put_chosen_rows(
    truths: &Numbers,
    columns: &Vec<Numbers>,
    count: usize,
    builder: &mut Owned,
) -> Result<bool, AllocError>
    requires { FitsThrough (struct_guarded truths.now columns.now.items)
        (StructGuardedFits truths.now columns.now.items) 0 count (thing_of builder.old) }
    ensures { MayAppend result (thing_of builder.old)
        (λ all. done_through (struct_guarded truths.now columns.now.items) 0 count
        (thing_of builder.old) ≡ done all) (thing_of builder.new) }
{
    match builder {
        Owned::Built(built) => { merge_chosen(truths, columns, count, built, *columns.allocator()) }
        _ => Ok(false),
    }
}

/// The same of a builder that isn't a struct of such.
fn merge_chosen(
    truths: &Numbers,
    columns: &[Numbers],
    count: usize,
    built: &mut Built,
    alloc: Global,
) -> Result<bool, AllocError>
    ensures { MayAppend result built.old
        (λ all. merge_all built.old (structs_chosen truths.now columns.now 0 count) ≡ done all)
        built.new }
{
    if !built.takes_rows() || columns.is_empty() || !are_ready(columns, count) {
        return Ok(false);
    }
    if truths.len() < count {
        return Ok(false);
    }
    let kinds = kinds_of(columns, alloc)?;
    let (words, rows) = chosen_words(truths, columns, count, alloc)?;
    built.merge_rows(&kinds, &words, rows)
}

/// The words of those of the first rows, so many, on which the truth value is true, and how many these are.
fn chosen_words(
    truths: &Numbers,
    columns: &[Numbers],
    count: usize,
    alloc: Global,
) -> Result<(Vec<i64>, usize), AllocError>
    requires ready { AreReady columns.now count }
    requires truths { count ≤ count_of truths.now }
    ensures { IfOk result (λ r. AreChosenRows truths.now columns.now count r.0.items r.1) }
{
    let mut words = Vec::new(alloc);
    let mut rows = 0;
    'rows: for place in 0..count {
        let truth = word_at(&truths.items, place);
        rows += push_chosen(truth, columns, place, &mut words)?;
    }
    Ok((words, rows))
}

/// Appends the words at a place where the truth value, true being 1, is true, and answers how many rows these are.
fn push_chosen(
    truth: i64,
    columns: &[Numbers],
    place: usize,
    words: &mut Vec<i64>,
) -> Result<usize, AllocError>
    requires { AreLonger columns.now place }
    ensures items { OnOk result (words.new.items ≡ words.old.items
        ++ (if int_eq truth (pos 1) then words_at columns.now place else [])) }
    ensures many { IfOk result (λ n. n ≡ (if int_eq truth (pos 1) then 1 else 0)) }
{
    if truth == 1 {
        push_words(columns, place, words)?;
        return Ok(1);
    }
    Ok(0)
}

/// Whether each field has so many numbers, of a kind whose numbers lie within an i64. It takes no memory.
fn are_ready(columns: &[Numbers], count: usize) -> bool
    ensures { result ≡ true → AreReady columns.now count }
{
    match columns.split_first() {
        None => true,
        Some((first, rest)) => {
            first.kind.is_narrow() && count <= first.len() && are_ready(rest, count)
        }
    }
}

/// The kinds of the fields.
fn kinds_of(columns: &[Numbers], alloc: Global) -> Result<Vec<Kind>, AllocError>
    ensures { IfOk result (λ kinds. kinds.items ≡ kinds_of_columns columns.now) }
{
    let mut kinds = Vec::with_capacity(alloc, columns.len())?;
    push_kinds(columns, &mut kinds)?;
    Ok(kinds)
}

/// Appends the kinds of the fields.
fn push_kinds(columns: &[Numbers], kinds: &mut Vec<Kind>) -> Result<(), AllocError>
    ensures { OnOk result (kinds.new.items ≡ kinds.old.items ++ kinds_of_columns columns.now) }
{
    match columns.split_first() {
        None => Ok(()),
        Some((first, rest)) => {
            kinds.push(first.kind)?;
            push_kinds(rest, kinds)
        }
    }
}

/// The words of the first rows, so many, row by row.
fn words_of(columns: &[Numbers], count: usize, alloc: Global) -> Result<Vec<i64>, AllocError>
    requires { AreReady columns.now count }
    ensures { IfOk result (λ words. words.items ≡ words_through columns.now 0 count) }
{
    let mut words = Vec::new(alloc);
    match count.checked_mul(columns.len()) {
        Some(all) => words.reserve(all)?,
        None => {}
    }
    'rows: for place in 0..count {
        push_words(columns, place, &mut words)?;
    }
    Ok(words)
}

/// Appends the words at a place.
fn push_words(columns: &[Numbers], place: usize, words: &mut Vec<i64>) -> Result<(), AllocError>
    requires { AreLonger columns.now place }
    ensures { OnOk result (words.new.items ≡ words.old.items ++ words_at columns.now place) }
{
    match columns.split_first() {
        None => Ok(()),
        Some((first, rest)) => {
            words.push(word_at(&first.items, place))?;
            push_words(rest, place, words)
        }
    }
}
