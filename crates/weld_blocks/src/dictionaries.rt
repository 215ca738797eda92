//! Dictionaries whose keys are numbers.

ghost use Rattle.std.specs.Prelude.{◌≡◌, true, Some, IfSome, ℤ};
ghost use Rattle.weld_builders.specs.Outcome.{done};
ghost use Rattle.weld_data.specs.Lookup.{value_of_key};
ghost use Rattle.weld_data.specs.Order.{IsKeyFor};
ghost use Rattle.weld_data.specs.Value.{dict, entries, number};
ghost use Rattle.weld_data.specs.View.{view_val};
ghost use Rattle.weld_meaning.specs.Evaluation.{has_key, looked_up};
ghost use Rattle.weld_eval.specs.ShortView.{view_short};
ghost use Rattle.weld_blocks.specs.Numbers.{MayGive, number_at as number_of_place};

use crate::gather::{Gives, gather};
use crate::numbers::{Numbers, is_same};
use std::alloc::Global;
use weld_data::{Kind, Pairs, Val};
use weld_eval::number::number_of;
use weld_eval::short::Short;

/// Whether a number of the kind is of one type with the dictionary's keys. It takes no memory.
#[tactic(auto, using(crate::proofs::KeyLemmas::no_keys, crate::proofs::KeyLemmas::like_first))]
fn are_keys_of(pairs: &Pairs, kind: Kind) -> bool
    ensures { result ≡ true → (x : ℤ) → IsKeyFor pairs.now (number kind x) }
{
    if pairs.len() == 0 {
        return true;
    }
    match &pairs.at(0).key {
        Val::Num(first) => is_same(first.kind, kind),
        _ => false,
    }
}

/// The numbers that are the values of these keys in a dictionary, so many, where it has each.
pub(crate) fn values_of(
    pairs: &Pairs,
    keys: &Numbers,
    count: usize,
    alloc: Global,
) -> Option<Numbers>
    ensures { MayGive (λ place v. looked_up (dict (entries pairs.now))
        (number_of_place keys.now place)
        ≡ done v) result count }
{
    let of = ValuesAt { pairs, keys };
    gather(alloc, count, &of)
}

/// Whether a dictionary has these keys, so many.
pub(crate) fn has_keys(
    pairs: &Pairs,
    keys: &Numbers,
    count: usize,
    alloc: Global,
) -> Option<Numbers>
    ensures { MayGive (λ place v. has_key (dict (entries pairs.now))
        (number_of_place keys.now place)
        ≡ done v) result count }
{
    let of = HasKeysOf { pairs, keys };
    gather(alloc, count, &of)
}

/// The values of keys that are numbers, where they are numbers too.
#[derive(Clone, Copy)]
struct ValuesAt<'a> {
    pairs: &'a Pairs,
    keys: &'a Numbers,
}

impl<'a> Gives for ValuesAt<'a> {
    ghost gives = { λ l place v. looked_up (dict (entries l.pairs.now)) (number_of_place l.keys.now place) ≡ done v };

    fn at(&self, place: usize) -> Option<Short> {
        if place < self.keys.len() {
            number_of_key(self.pairs, self.keys.at(place))
        } else {
            None
        }
    }
}

/// The number that is the value of a key, where the dictionary has the key.
fn number_of_key(pairs: &Pairs, key: Short) -> Option<Short>
    ensures { IfSome result (λ n. looked_up (dict (entries pairs.now)) (view_short key)
        ≡ done (view_short n)) }
{
    if !are_keys_of(pairs, key.kind) {
        return None;
    }
    let key = Val::Num(key.to_num());
    number_at_key(pairs, &key)
}

/// The same of a key that is of one type with the dictionary's.
fn number_at_key(pairs: &Pairs, key: &Val) -> Option<Short>
    requires { IsKeyFor pairs.now (view_val key.now) }
    ensures { IfSome result (λ n. looked_up (dict (entries pairs.now)) (view_val key.now)
        ≡ done (view_short n)) }
{
    match pairs.get(key) {
        Some(v) => number_of(v),
        None => None,
    }
}

/// Whether a dictionary has keys that are numbers.
#[derive(Clone, Copy)]
struct HasKeysOf<'a> {
    pairs: &'a Pairs,
    keys: &'a Numbers,
}

impl<'a> Gives for HasKeysOf<'a> {
    ghost gives = { λ l place v. has_key (dict (entries l.pairs.now)) (number_of_place l.keys.now place) ≡ done v };

    fn at(&self, place: usize) -> Option<Short> {
        if place < self.keys.len() {
            has_number_key(self.pairs, self.keys.at(place))
        } else {
            None
        }
    }
}

/// Whether the dictionary has the key, as a truth value.
#[tactic(auto, using(crate::proofs::KeyLemmas::key_told))]
fn has_number_key(pairs: &Pairs, key: Short) -> Option<Short>
    ensures { IfSome result (λ n. has_key (dict (entries pairs.now)) (view_short key)
        ≡ done (view_short n)) }
{
    if !are_keys_of(pairs, key.kind) {
        return None;
    }
    let key = Val::Num(key.to_num());
    Some(Short::of_truth(pairs.contains_key(&key)))
}
