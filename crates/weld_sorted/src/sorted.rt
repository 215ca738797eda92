//! Sorting the entries of a dictionary.

ghost use Rattle.std.specs.Prelude.{◌≡◌, ◌++◌, [], ◌∷◌, IfOk, IfSome, IfNone, reverse, All};
ghost use Rattle.std.specs.List.Sorted.{IsSorted, IsPermutation};
ghost use Rattle.weld_data.specs.Value.{Value};
ghost use Rattle.weld_data.specs.View.{view_val, view_pair};
ghost use Rattle.weld_data.specs.Order.{IsKeyFor, Rises};
ghost use Rattle.weld_sorted.specs.EntryOrder.{entry_cmp};
ghost use Rattle.weld_sorted.specs.Repeats.{HaveOneKey, HaveOneKeyType, LastStands};

use crate::entry::Entry;
use std::alloc::{AllocError, Global};
use std::cmp::Ordering;
use weld_data::{Pair, Pairs, Val, compare_keys};

/// How the last key stands to this one: less where there is none.
fn last_stands(pairs: &Pairs, key: &Val) -> Ordering
    requires { IsKeyFor pairs.now (view_val key.now) }
    ensures { LastStands result pairs.now (view_val key.now) }
{
    let count = pairs.len();
    if count == 0 {
        return Ordering::Less;
    }
    compare_keys(&pairs.at(count - 1).key, key)
}

/// The entries as a dictionary, from the last to the first: their keys fall. None where two of them are equal.
fn rising(alloc: Global, entries: Vec<Entry>) -> Result<Option<Pairs>, AllocError>
    requires falls { IsSorted entry_cmp entries.items }
    requires one_type { HaveOneKeyType entries.items }
    ensures found { IfOk result (λ r. IfSome r (λ pairs. pairs ≡ reverse entries.items)) }
    ensures none { IfOk result (λ r. IfNone r (HaveOneKey entries.items)) }
{
    let mut left = entries;
    let mut pairs = Pairs::new(alloc);
    'left: while let Some(entry) = left.pop() {
        let pair = entry.into_pair();
        match last_stands(&pairs, &pair.key) {
            Ordering::Less => pairs.push(pair)?,
            Ordering::Equal => return Ok(None),
            Ordering::Greater => unreachable!(),
        }
    }
    Ok(Some(pairs))
}

/// The entries as a dictionary, whose keys rise. The keys are of one type. None where two of them are equal.
pub fn sort_entries(alloc: Global, entries: Vec<Entry>) -> Result<Option<Pairs>, AllocError>
    requires { HaveOneKeyType entries.items }
    ensures sorted { IfOk result (λ r. IfSome r (λ pairs. IsPermutation entries.items pairs)) }
    ensures rises { IfOk result (λ r. IfSome r (λ pairs. Rises pairs)) }
    ensures repeats { IfOk result (λ r. IfNone r (HaveOneKey entries.items)) }
{
    let mut entries = entries;
    entries.sort()?;
    rising(alloc, entries)
}
