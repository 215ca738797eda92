//! Laws of this crate's definitions, each the contract of a function that does nothing.

ghost use Rattle.std.specs.Prelude.{ℤ, Option, Some, None};
ghost use Rattle.std.specs.FinMap as finite;
ghost use Rattle.weld_data.specs.declared.kind.Kind.{Kind};
ghost use Rattle.weld_data.specs.Order.{KeyType, HasKeyType};
ghost use Rattle.weld_data.specs.Value.{Value};
ghost use Rattle.weld_builders.specs.ValueOrder.{ValueMap};
ghost use Rattle.weld_builders.specs.Part.{merge_key, join_maps};
ghost use Rattle.weld_pieces.specs.Kept.{IsKeptKey};
ghost use Rattle.weld_pieces.specs.Keyed.{KeysAreKept, KeysAreOf, HasOneKeyType};

/// Keys that a part takes are all that it has: nothing is there at first, a merge adds the item's key
/// at most, and a join the later part's keys.
pub fn kept_keys_stay()
    ensures start { (key : Option Kind) → KeysAreKept {X = ℤ} key finite.empty }
    ensures merge { (key : Option Kind) (f : Option ℤ → ℤ → ℤ) (m : ValueMap ℤ) (k : Value) (x : ℤ)
        → KeysAreKept key m → IsKeptKey key k → KeysAreKept key (merge_key f m k x) }
    ensures join { (key : Option Kind) (f : Option ℤ → ℤ → ℤ) (s m : ValueMap ℤ)
        → KeysAreKept key s → KeysAreKept key m → KeysAreKept key (join_maps f s m) }
{}

/// Keys that are kept as numbers of a kind are of one type.
pub fn number_keys_have_one_type()
    ensures { (kind : Kind) (m : ValueMap ℤ) → KeysAreKept (Some kind) m → HasOneKeyType m }
{}

/// Keys of one type stay so: nothing is there at first, a merge adds the item's key at most, and a
/// join the later part's keys.
pub fn typed_keys_stay()
    ensures start { (t : KeyType) → KeysAreOf {X = ℤ} t finite.empty }
    ensures merge { (t : KeyType) (f : Option ℤ → ℤ → ℤ) (m : ValueMap ℤ) (k : Value) (x : ℤ)
        → KeysAreOf t m → HasKeyType t k → KeysAreOf t (merge_key f m k x) }
    ensures join { (t : KeyType) (f : Option ℤ → ℤ → ℤ) (s m : ValueMap ℤ)
        → KeysAreOf t s → KeysAreOf t m → KeysAreOf t (join_maps f s m) }
{}

/// Keys of one type are what `finish` asks for where keys are kept as values.
pub fn typed_keys_finish()
    ensures kept { (t : KeyType) (m : ValueMap ℤ) → KeysAreOf t m → KeysAreKept None m }
    ensures one_type { (t : KeyType) (m : ValueMap ℤ) → KeysAreOf t m → HasOneKeyType m }
{
    weld_data::laws::one_key_type();
}
