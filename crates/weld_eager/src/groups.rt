//! The calls that group by keys. Keys of any type are kept as values.

ghost use Rattle.std.specs.Prelude.{◌≡◌, length, IfOk};
ghost use Rattle.weld_data.specs.declared.kind.Kind.TheVariants as kinds;
ghost use Rattle.weld_data.specs.Kind.{IsInteger};
ghost use Rattle.weld_data.specs.View.{view_val, view_column};
ghost use Rattle.weld_tree.specs.TypeTree.{scalar, vec};
ghost use Rattle.weld_tree.specs.HasValue.{HasValue};
ghost use Rattle.weld_builders.specs.Outcome.{done};
ghost use Rattle.weld_builders.specs.Range.{AllInRange};
ghost use Rattle.weld_pieces.specs.Keyed.{KeysAreKept, HasOneKeyType};
ghost use Rattle.weld_calls.specs.Lists.{items, wrapped_sum};
ghost use Rattle.weld_calls.specs.CallMeaning.{group_sum_meaning, group_list_meaning, group_count_meaning};
ghost use Rattle.weld_eager.specs.Reading.{IsFaultOr, IsKeptVector, AreKept, AreKeys, IsKeyVector, AreGrouped, how_many_wrapped};

use crate::places::column_of;
use crate::read::numbers_as;
use std::alloc::{AllocError, Global};
use weld_data::{Column, Kind, MergeOp, Val};
use weld_groups::GroupsPart;
use weld_pieces::KeyedPart;

/// Each key and the wrapped sum of the numbers at its places; none where there are more of one than of
/// the other.
#[tactic(auto, using(crate::proofs::Grouping::sums_answer, crate::proofs::Grouping::sums_apart, crate::proofs::Grouping::keys_are_list))]
pub fn group_sum(alloc: Global, kind: Kind, keys: &Val, v: &Val) -> Result<Option<Val>, AllocError>
    requires integer { IsInteger kind }
    requires keys { IsKeyVector (view_val keys.now) }
    requires numbers { HasValue (vec (scalar kind)) (view_val v.now) }
    ensures { IfOk result (λ r. IsFaultOr r view_val (group_sum_meaning kind (view_val keys.now)
        (view_val v.now))) }
{
    let xs = numbers_as(alloc, kind, v)?;
    let column = column_of(keys);
    if column.len() != xs.len() {
        return Ok(None);
    }
    let sums = sums_by_keys(alloc, kind, column, &xs)?;
    Ok(Some(Val::Dict(sums.into_pairs(alloc)?)))
}

/// The same of plain numbers, as many as keys.
fn sums_by_keys(
    alloc: Global,
    kind: Kind,
    keys: &Column,
    xs: &[i128],
) -> Result<KeyedPart, AllocError>
    requires integer { IsInteger kind }
    requires keys { AreKeys (view_column keys.now) }
    requires numbers { AllInRange kind xs.now }
    requires count { length (view_column keys.now) ≡ length xs.now }
    ensures kind { IfOk result (λ p. p.kind ≡ kind) }
    ensures sums { IfOk result (λ p. AreGrouped (wrapped_sum kind) (view_column keys.now) xs.now
        p.numbers) }
    ensures kept { IfOk result (λ p. KeysAreKept p.key p.numbers) }
    ensures one_type { IfOk result (λ p. HasOneKeyType p.numbers) }
{
    let mut sums = KeyedPart::empty(alloc, None, MergeOp::Add, kind);
    for i in 0..xs.len() {
        sums.merge_at_value(keys.copy_at(alloc, i)?, xs[i])?;
    }
    Ok(sums)
}

/// Each key and how often it stands there, wrapped.
#[tactic(auto, using(crate::proofs::Grouping::keys_are_list))]
pub fn group_count(alloc: Global, keys: &Val) -> Result<Val, AllocError>
    requires { IsKeyVector (view_val keys.now) }
    ensures { IfOk result (λ r. group_count_meaning (items (view_val keys.now))
        ≡ done (view_val r)) }
{
    let column = column_of(keys);
    let counts = counts_by_keys(alloc, column)?;
    Ok(Val::Dict(counts.into_pairs(alloc)?))
}

/// The same of a column.
fn counts_by_keys(alloc: Global, keys: &Column) -> Result<KeyedPart, AllocError>
    requires { AreKeys (view_column keys.now) }
    ensures kind { IfOk result (λ p. p.kind ≡ kinds.I64) }
    ensures counts { IfOk result (λ p. AreGrouped how_many_wrapped (view_column keys.now)
        (view_column keys.now) p.numbers) }
    ensures kept { IfOk result (λ p. KeysAreKept p.key p.numbers) }
    ensures one_type { IfOk result (λ p. HasOneKeyType p.numbers) }
{
    let mut counts = KeyedPart::empty(alloc, None, MergeOp::Add, Kind::I64);
    for i in 0..keys.len() {
        counts.merge_at_value(keys.copy_at(alloc, i)?, 1)?;
    }
    Ok(counts)
}

/// Each key and the vector of the elements at its places; none where there are more of one than of the
/// other. The kind is that of the elements, where they are numbers.
#[tactic(auto, using(crate::proofs::Grouping::lists_answer, crate::proofs::Grouping::lists_apart, crate::proofs::Grouping::keys_are_list, crate::proofs::Taking::kept_column, crate::proofs::Taking::kept_is_list))]
pub fn group_list(
    alloc: Global,
    kind: Option<Kind>,
    keys: &Val,
    v: &Val,
) -> Result<Option<Val>, AllocError>
    requires keys { IsKeyVector (view_val keys.now) }
    requires elements { IsKeptVector kind (view_val v.now) }
    ensures { IfOk result (λ r. IsFaultOr r view_val (group_list_meaning (view_val keys.now)
        (view_val v.now))) }
{
    let column = column_of(keys);
    let elements = column_of(v);
    if column.len() != elements.len() {
        return Ok(None);
    }
    let lists = lists_by_keys(alloc, kind, column, elements)?;
    Ok(Some(Val::Dict(lists.into_pairs(alloc)?)))
}

/// The same of columns of one length.
fn lists_by_keys(
    alloc: Global,
    kind: Option<Kind>,
    keys: &Column,
    vs: &Column,
) -> Result<GroupsPart, AllocError>
    requires keys { AreKeys (view_column keys.now) }
    requires elements { AreKept kind (view_column vs.now) }
    requires count { length (view_column keys.now) ≡ length (view_column vs.now) }
    ensures lists { IfOk result (λ p. AreGrouped (λ us. us) (view_column keys.now)
        (view_column vs.now) p.groups) }
    ensures kept { IfOk result (λ p. KeysAreKept p.key p.groups) }
    ensures one_type { IfOk result (λ p. HasOneKeyType p.groups) }
{
    let mut lists = GroupsPart::empty(alloc, None, kind);
    for i in 0..vs.len() {
        lists.push_at_value(keys.copy_at(alloc, i)?, vs.copy_at(alloc, i)?)?;
    }
    Ok(lists)
}
