//! Items that are merged into a builder in place.

ghost use Rattle.weld_builders.specs.Outcome.{done};
ghost use Rattle.std.specs.Prelude.{◌≡◌, ◌<◌, ◌≤◌, [], IfOk};
ghost use Rattle.weld_data.specs.Kind.{IsNarrow, InRange};
ghost use Rattle.weld_data.specs.Value.{number};
ghost use Rattle.weld_data.specs.View.{view_val};
ghost use Rattle.weld_meaning.specs.Evaluation.{merged};
ghost use Rattle.weld_meaning.specs.Thing.{plain};
ghost use Rattle.weld_acts.specs.Act.{Acts};
ghost use Rattle.weld_eval.specs.ShortView.{view_short, IsWord};
ghost use Rattle.weld_eval.specs.ThingView.{thing_of, held_of};
ghost use Rattle.weld_eval.specs.Takes.{IsPlain};
ghost use Rattle.weld_built.specs.Pair.{pair};
ghost use Rattle.weld_deeds.specs.Does.{number_done, NumberFits, pair_done, PairFits};
ghost use Rattle.weld_deeds.specs.Through.{FitsThrough, done_through};
ghost use Rattle.weld_blocks.specs.Numbers.{count_of, number_at};
ghost use Rattle.weld_deeds.specs.Puts.{IsPut, PutsThing};
ghost use Rattle.weld_blocks.specs.Scope.{struct_at};
ghost use Rattle.weld_blocks.specs.Structs.{AreLonger};

use std::alloc::{AllocError, Global};
use weld_blocks::numbers::Numbers;
use weld_data::{Kind, Stop, Val, Vals};
use weld_eval::short::Short;
use weld_eval::thing::{Held, Owned, into_value};

/// Merges a number.
#[tactic(auto, using(crate::proofs::PutLemmas::word_in_range, crate::proofs::PutLemmas::word_put, crate::proofs::PutLemmas::word_acts, crate::proofs::PutLemmas::same_put, crate::proofs::PutLemmas::same_acts))]
#[inline(always)]
pub fn put_number(builder: &mut Owned, x: Short) -> Result<(), Stop>
    requires { IsPut (thing_of builder.old) (view_short x) }
    ensures { Acts result (merged (thing_of builder.old) (done (plain (view_short x))))
        (thing_of builder.new) }
{
    if x.is_word() {
        put_word(builder, x.kind, x.word)
    } else {
        put_value(builder, Val::Num(x.to_num()))
    }
}

/// Merges a number that lies within an i64.
#[tactic(auto, using(crate::proofs::PutLemmas::put_acts))]
#[inline(always)]
fn put_word(builder: &mut Owned, kind: Kind, x: i64) -> Result<(), Stop>
    requires in_range { InRange kind x }
    requires put { IsPut (thing_of builder.old) (number kind x) }
    ensures { Acts result (merged (thing_of builder.old) (done (plain (number kind x))))
        (thing_of builder.new) }
{
    match builder {
        Owned::Built(built) => built.merge_number(kind, x),
        _ => unreachable!(),
    }
}

/// Merges the first of these numbers, so many, one after another, their kind being one whose numbers lie within an i64.
#[tactic(auto, using(crate::proofs::ManyPuts::put_none, crate::proofs::ManyPuts::numbers_there, crate::proofs::ManyPuts::numbers_taken))]
pub fn put_numbers(numbers: &Numbers, count: usize, builder: &mut Owned) -> Result<(), Stop>
    requires narrow { IsNarrow numbers.now.kind }
    requires fits { FitsThrough (number_done numbers.now) (NumberFits numbers.now) 0 count
        (thing_of builder.old) }
    ensures { Acts result (done_through (number_done numbers.now) 0 count (thing_of builder.old))
        (thing_of builder.new) }
{
    if count == 0 {
        return Ok(());
    }
    match builder {
        Owned::Built(built) => built.merge_numbers(numbers.kind, &numbers.items[..count]),
        _ => unreachable!(),
    }
}

/// Merges the first of these pairs of numbers, so many, one after another, their kinds being such whose numbers lie within an i64.
#[tactic(auto, using(crate::proofs::ManyPairs::pairs_on))]
pub fn put_pairs(
    keys: &Numbers,
    numbers: &Numbers,
    count: usize,
    builder: &mut Owned,
) -> Result<(), Stop>
    requires narrow_key { IsNarrow keys.now.kind }
    requires narrow { IsNarrow numbers.now.kind }
    requires fits { FitsThrough (pair_done keys.now numbers.now) (PairFits keys.now numbers.now)
        0 count (thing_of builder.old) }
    ensures { Acts result (done_through (pair_done keys.now numbers.now) 0 count
        (thing_of builder.old)) (thing_of builder.new) }
{
    if count == 0 {
        return Ok(());
    }
    let rows = rows_of(count, keys.len(), numbers.len());
    match builder {
        Owned::Built(built) => built.merge_pairs(
            keys.kind,
            &keys.items[..rows],
            numbers.kind,
            &numbers.items[..rows],
        ),
        _ => unreachable!(),
    }
}

/// How many rows there are of which both numbers are at hand: after a fault none need be there.
fn rows_of(count: usize, keys: usize, numbers: usize) -> usize
    ensures asked { result ≤ count }
    ensures keys { result ≤ keys }
    ensures numbers { result ≤ numbers }
    ensures all { result < count → result < keys → result < numbers → ⊥ }
{
    if count <= keys && count <= numbers {
        count
    } else if keys <= numbers {
        keys
    } else {
        numbers
    }
}

/// Merges a number under a number.
#[tactic(auto, using(crate::proofs::PutLemmas::same_put, crate::proofs::PutLemmas::same_acts))]
#[inline(always)]
pub fn put_two(builder: &mut Owned, key: Short, x: Short, alloc: Global) -> Result<(), Stop>
    requires { IsPut (thing_of builder.old) (pair (view_short key) (view_short x)) }
    ensures { Acts result (merged (thing_of builder.old)
        (done (plain (pair (view_short key) (view_short x))))) (thing_of builder.new) }
{
    if key.is_word() && x.is_word() {
        put_pair(builder, key, x)
    } else {
        match struct_of(key, x, alloc) {
            Ok(item) => put_value(builder, item),
            Err(_) => Err(Stop::Memory),
        }
    }
}

/// The struct of two numbers.
#[tactic(auto, using(crate::proofs::PutLemmas::two_numbers))]
fn struct_of(first: Short, second: Short, alloc: Global) -> Result<Val, AllocError>
    ensures { IfOk result (λ v. pair (view_short first) (view_short second) ≡ view_val v) }
{
    let mut fields = empty_with_room(alloc, 2)?;
    fields.push(Val::Num(first.to_num()))?;
    fields.push(Val::Num(second.to_num()))?;
    Ok(Val::Struct(fields))
}

/// Merges a number under a number, which both lie within an i64.
#[tactic(auto, using(crate::proofs::PutLemmas::word_in_range, crate::proofs::PutLemmas::words_put, crate::proofs::PutLemmas::words_act))]
#[inline(always)]
pub fn put_pair(builder: &mut Owned, key: Short, x: Short) -> Result<(), Stop>
    requires key { IsWord key }
    requires number { IsWord x }
    requires put { IsPut (thing_of builder.old) (pair (view_short key) (view_short x)) }
    ensures { Acts result (merged (thing_of builder.old)
        (done (plain (pair (view_short key) (view_short x))))) (thing_of builder.new) }
{
    put_words(builder, key.kind, key.word, x.kind, x.word)
}

/// The same of kinds and words.
#[tactic(auto, using(crate::proofs::PutLemmas::put_acts))]
#[inline(always)]
fn put_words(builder: &mut Owned, key_kind: Kind, key: i64, kind: Kind, x: i64) -> Result<(), Stop>
    requires key { InRange key_kind key }
    requires number { InRange kind x }
    requires put { IsPut (thing_of builder.old) (pair (number key_kind key) (number kind x)) }
    ensures { Acts result (merged (thing_of builder.old)
        (done (plain (pair (number key_kind key) (number kind x))))) (thing_of builder.new) }
{
    match builder {
        Owned::Built(built) => built.merge_pair(key_kind, key, kind, x),
        _ => unreachable!(),
    }
}

/// Merges the struct of the numbers at a place, from 0.
#[tactic(auto, using(crate::proofs::PutLemmas::same_put, crate::proofs::PutLemmas::same_acts))]
pub fn put_struct(columns: &Vec<Numbers>, place: usize, builder: &mut Owned) -> Result<(), Stop>
    requires long { AreLonger columns.now.items place }
    requires put { IsPut (thing_of builder.old) (struct_at columns.now.items place) }
    ensures { Acts result (merged (thing_of builder.old)
        (done (plain (struct_at columns.now.items place)))) (thing_of builder.new) }
{
    match struct_of_row(columns, place) {
        Ok(item) => put_value(builder, item),
        Err(_) => Err(Stop::Memory),
    }
}

/// The struct of the numbers at a place.
#[tactic(auto, using(weld_blocks::proofs::StructLemmas::longer_at, weld_blocks::proofs::StructLemmas::next_value, weld_blocks::proofs::StructLemmas::all_values))]
fn struct_of_row(columns: &Vec<Numbers>, place: usize) -> Result<Val, AllocError>
    requires { AreLonger columns.now.items place }
    ensures { IfOk result (λ v. struct_at columns.now.items place ≡ view_val v) }
{
    let mut fields = empty_with_room(*columns.allocator(), columns.len())?;
    for i in 0..columns.len() {
        fields.push(value_at(&columns[i], place))?;
    }
    Ok(Val::Struct(fields))
}

/// No values, with room for so many and no more.
pub(crate) fn empty_with_room(alloc: Global, count: usize) -> Result<Vals, AllocError>
    ensures { IfOk result (λ values. values ≡ []) }
{
    Ok(Vals::from_vec(Vec::with_capacity(alloc, count)?))
}

/// The number at a place as a value.
pub(crate) fn value_at(column: &Numbers, place: usize) -> Val
    requires { place < count_of column.now }
    ensures { view_val result ≡ number_at column.now place }
{
    Val::Num(column.at(place).to_num())
}

/// Merges a value.
#[tactic(auto, using(crate::proofs::PutLemmas::put_acts))]
#[inline(always)]
pub fn put_value(builder: &mut Owned, item: Val) -> Result<(), Stop>
    requires { IsPut (thing_of builder.old) (view_val item) }
    ensures { Acts result (merged (thing_of builder.old) (done (plain (view_val item))))
        (thing_of builder.new) }
{
    match builder {
        Owned::Built(built) => built.merge(item),
        _ => unreachable!(),
    }
}

/// Merges the value that a thing is.
pub fn put_held(builder: &mut Owned, item: Held, alloc: Global) -> Result<(), Stop>
    requires plain { IsPlain (held_of item) }
    requires put { PutsThing (thing_of builder.old) (held_of item) }
    ensures { Acts result (merged (thing_of builder.old) (done (held_of item.entry)))
        (thing_of builder.new) }
{
    match into_value(item, alloc) {
        Ok(item) => put_value(builder, item),
        Err(_) => Err(Stop::Memory),
    }
}
