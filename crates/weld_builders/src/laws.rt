//! Laws of this crate's definitions, each the contract of a function that does nothing.

ghost use Rattle.std.specs.Prelude.{◌≡◌, ◌≢◌, ◌↔◌, ◌++◌, IsTrue, List};
ghost use Rattle.std.specs.Cmp.{IsTotalOrder};
ghost use Rattle.std.specs.FinMap.{IsAntisymmetric};
ghost use Rattle.weld_data.specs.Value.{Value};
ghost use Rattle.weld_data.specs.Order.{SameKeyType, KeyStands};
ghost use Rattle.weld_builders.specs.ValueOrder.{value_cmp, ValueMap};
ghost use Rattle.weld_builders.specs.Outcome.{map_out};
ghost use Rattle.weld_builders.specs.Part.{Part, shape_of, bare, merge_part, after_part};
ghost use Rattle.weld_builders.specs.Range.{IsInRange};
ghost use Rattle.weld_builders.specs.Groups.{merge_pairs, values_at, group_at};
ghost use Rattle.weld_builders.specs.Builder.{Builder, Item, bare_builder, merge_item, after_builder, SameShape, LiesInRange};

/// The order of all values is total, and ties no two of them.
pub fn values_are_ordered()
    ensures total { IsTotalOrder value_cmp }
    ensures exact { IsAntisymmetric value_cmp }
{}

/// On keys of one type it is the order of keys: less, equal or greater.
pub fn keys_are_ordered_alike()
    ensures { (x y : Value) → SameKeyType x y → KeyStands (value_cmp x y) x y }
{}

/// A part that has nothing merged, and a join, have the shape of the part, and of the later one.
pub fn shapes_stay()
    ensures bare { (p : Part) → shape_of (bare p) ≡ shape_of p }
    ensures join { (s d : Part) → shape_of (after_part s d) ≡ shape_of d }
{}

/// A part that has nothing merged is neutral in joins, before and behind.
pub fn bare_is_neutral()
    ensures before { (d : Part) → IsInRange d → after_part (bare d) d ≡ d }
    ensures behind { (s : Part) → IsInRange s → after_part s (bare s) ≡ s }
{}

/// To join is associative, where the two later parts have one shape.
pub fn join_is_associative()
    ensures { (r s d : Part) → shape_of s ≡ shape_of d
        → after_part (after_part r s) d ≡ after_part r (after_part s d) }
{}

/// To merge into a join is to merge into its later part: done, fault or stuck alike.
pub fn merge_into_a_join()
    ensures { (s d : Part) (v : Value) → merge_part (after_part s d) v
        ≡ map_out (after_part s) (merge_part d v) }
{}

/// Groups keep the order of merges: after merging pairs one after another, a key has what it had
/// and then the values of the pairs with this key, in order.
pub fn groups_keep_the_order()
    ensures { (m : ValueMap (List Value)) (es : List (Value × Value)) (key : Value)
        → group_at (merge_pairs m es) key ≡ group_at m key ++ values_at key es }
{}

/// The same of structs of builders: what keeps the shape,
pub fn struct_shapes_stay()
    ensures bare { (b : Builder) → SameShape (bare_builder b) b }
    ensures join { (s d : Builder) → SameShape (after_builder s d) d }
{}

/// that nothing merged is neutral,
pub fn bare_struct_is_neutral()
    ensures before { (d : Builder) → LiesInRange d → after_builder (bare_builder d) d ≡ d }
    ensures behind { (s : Builder) → LiesInRange s → after_builder s (bare_builder s) ≡ s }
{}

/// that to join is associative where all three have one shape,
pub fn struct_join_is_associative()
    ensures { (r s d : Builder) → SameShape r s → SameShape s d
        → after_builder (after_builder r s) d ≡ after_builder r (after_builder s d) }
{}

/// and that to merge into a join is to merge into its later part.
pub fn merge_into_a_struct_join()
    ensures { (s d : Builder) (i : Item) → merge_item (after_builder s d) i
        ≡ map_out (after_builder s) (merge_item d i) }
{}
