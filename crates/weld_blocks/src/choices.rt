//! One of two numbers at each place of a block.

ghost use Rattle.std.specs.Prelude.{◌≡◌, ◌≤◌, length};
ghost use Rattle.weld_data.specs.declared.kind.Kind.TheVariants as kind_names;
ghost use Rattle.weld_blocks.specs.Numbers.{number_at, MayGive, IsChosen};
ghost use Rattle.weld_blocks.specs.Works.{AreChosen, AreInRange};

use crate::numbers::Numbers;
use std::alloc::Global;
use weld_data::Kind;

/// One of two numbers of one kind at each place, as truth values say, where there are so many of all
/// and there is memory for it.
#[tactic(auto, using(crate::proofs::WorkLemmas::chosen_into, crate::proofs::WorkLemmas::chosen_in_range))]
pub(crate) fn choose(
    condition: &Numbers,
    then: &Numbers,
    otherwise: &Numbers,
    count: usize,
    alloc: Global,
) -> Option<Numbers>
    requires truths { condition.now.kind ≡ kind_names.Bool }
    requires same { then.now.kind ≡ otherwise.now.kind }
    ensures { MayGive (λ place v. IsChosen (number_at condition.now place)
        (number_at then.now place) (number_at otherwise.now place) v) result count }
{
    if condition.len() < count || then.len() < count || otherwise.len() < count {
        return None;
    }
    let mut items = match vec![in alloc; 0i64; count] {
        Ok(items) => items,
        Err(_) => return None,
    };
    choose_all(&mut items, &condition.items, &then.items, &otherwise.items);
    Some(numbers_of(then.kind, items))
}

/// Numbers of the kind.
fn numbers_of(kind: Kind, items: Vec<i64>) -> Numbers
    requires in_range { AreInRange kind items.items }
    ensures kind { result.kind ≡ kind }
    ensures items { result.items.items ≡ items.items }
{
    Numbers { kind, items }
}

/// The same into as many numbers as there are.
fn choose_all(items: &mut [i64], condition: &[i64], then: &[i64], otherwise: &[i64])
    requires condition_long { length items.old ≤ length condition.now }
    requires then_long { length items.old ≤ length then.now }
    requires otherwise_long { length items.old ≤ length otherwise.now }
    ensures { AreChosen condition.now then.now otherwise.now items.new (length items.old) }
{
    for place in 0..items.len() {
        items[place] = if condition[place] == 1 {
            then[place]
        } else {
            otherwise[place]
        };
    }
}
