//! Laws of joins of groups, each the contract of a function that does nothing.

ghost use Rattle.std.specs.Prelude.{Option, Some, None, List};
ghost use Rattle.std.specs.FinMap as finite;
ghost use Rattle.weld_data.specs.declared.kind.Kind.{Kind};
ghost use Rattle.weld_data.specs.Order.{KeyType, HasKeyType};
ghost use Rattle.weld_data.specs.Value.{Value};
ghost use Rattle.weld_builders.specs.ValueOrder.{ValueMap};
ghost use Rattle.weld_builders.specs.Part.{appended, merge_key, join_maps};
ghost use Rattle.weld_pieces.specs.Kept.{IsKeptKey};
ghost use Rattle.weld_pieces.specs.Keyed.{KeysAreKept, KeysAreOf, HasOneKeyType};

/// Keys that a part of groups takes are all that it has: nothing is there at first, a merge adds the
/// item's key at most, and a join the later part's keys.
pub fn kept_keys_stay()
    ensures start { (key : Option Kind) → KeysAreKept {X = List Value} key finite.empty }
    ensures merge { (key : Option Kind) (m : ValueMap (List Value)) (k : Value) (vs : List Value)
        → KeysAreKept key m → IsKeptKey key k → KeysAreKept key (merge_key appended m k vs) }
    ensures join { (key : Option Kind) (s m : ValueMap (List Value))
        → KeysAreKept key s → KeysAreKept key m → KeysAreKept key (join_maps appended s m) }
{}

/// Keys that are kept as numbers of a kind are of one type.
pub fn number_keys_have_one_type()
    ensures { (kind : Kind) (m : ValueMap (List Value)) → KeysAreKept (Some kind) m
        → HasOneKeyType m }
{}

/// Keys of one type stay so: nothing is there at first, a merge adds the item's key at most, and a
/// join the later part's keys.
pub fn typed_keys_stay()
    ensures start { (t : KeyType) → KeysAreOf {X = List Value} t finite.empty }
    ensures merge { (t : KeyType) (m : ValueMap (List Value)) (k : Value) (vs : List Value)
        → KeysAreOf t m → HasKeyType t k → KeysAreOf t (merge_key appended m k vs) }
    ensures join { (t : KeyType) (s m : ValueMap (List Value))
        → KeysAreOf t s → KeysAreOf t m → KeysAreOf t (join_maps appended s m) }
{}

/// Keys of one type are what `finish` asks for where keys are kept as values.
pub fn typed_keys_finish()
    ensures kept { (t : KeyType) (m : ValueMap (List Value)) → KeysAreOf t m → KeysAreKept None m }
    ensures one_type { (t : KeyType) (m : ValueMap (List Value)) → KeysAreOf t m → HasOneKeyType m }
{
    weld_data::laws::one_key_type();
}
