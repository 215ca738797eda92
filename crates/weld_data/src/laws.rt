//! Laws of this crate's definitions, each the contract of a function that does nothing.

ghost use Rattle.std.specs.Prelude.{◌≡◌, ◌≢◌, ◌↔◌, ◌⊎◌, IsTrue, ℤ, pos, int_rem, IsNone, Some};
ghost use Rattle.std.specs.Int.{w64, int_wrapping_add, int_wrapping_sub, int_wrapping_mul, int_wrapping_div};
ghost use Rattle.weld_data.specs.declared.op.BinOp.TheVariants as binary;
ghost use Rattle.weld_data.specs.declared.kind.Kind.TheVariants as kinds;
ghost use Rattle.weld_data.specs.Kind.{InRange};
ghost use Rattle.weld_data.specs.Wrapped.{wrapped, IsWrapped};
ghost use Rattle.weld_data.specs.Operation.{operation, combination, start_of, Divides};
ghost use Rattle.weld_data.specs.Value.{Value};
ghost use Rattle.weld_data.specs.Order.{KeyLess, IsKey, SameKeyType, KeyType, HasKeyType};
ghost use Rattle.weld_data.specs.Lookup.{same_value};

use crate::kind::Kind;
use crate::op::{BinOp, MergeOp};

/// Exactly one number of the kind equals a whole number modulo the kind's size: the wrapped one.
pub fn one_wrapped_number(kind: Kind)
    ensures found { (x : ℤ) → IsWrapped kind x (wrapped kind x) }
    ensures only { (x y : ℤ) → IsWrapped kind x y → y ≡ wrapped kind x }
{}

/// A number of the kind wraps to itself.
pub fn wrapping_keeps_the_kind(kind: Kind)
    ensures { (x : ℤ) → InRange kind x → wrapped kind x ≡ x }
{}

/// An operation has no answer exactly where it divides by 0.
pub fn none_at_a_zero_divisor(op: BinOp, kind: Kind)
    ensures { (x y : ℤ) → IsNone (operation op kind x y) ↔ (Divides op × (y ≡ pos 0)) }
{}

/// The start of a builder is neutral.
pub fn start_is_neutral(op: MergeOp, kind: Kind)
    ensures left { (x : ℤ) → InRange kind x → combination op kind (start_of op kind) x ≡ x }
    ensures right { (x : ℤ) → InRange kind x → combination op kind x (start_of op kind) ≡ x }
{}

/// To combine is associative and commutative, and stays in the kind's range.
pub fn combination_laws(op: MergeOp, kind: Kind)
    ensures associative { (x y z : ℤ) → combination op kind (combination op kind x y) z
        ≡ combination op kind x (combination op kind y z) }
    ensures commutative { (x y : ℤ) → combination op kind x y ≡ combination op kind y x }
    ensures in_range { (x y : ℤ) → InRange kind x → InRange kind y
        → InRange kind (combination op kind x y) }
{}

/// On numbers of kind i64 the operations are those of std that wrap.
pub fn operations_on_i64(x: i64, y: i64)
    ensures add { operation binary.Add kinds.I64 x y ≡ Some (int_wrapping_add w64 x y) }
    ensures sub { operation binary.Sub kinds.I64 x y ≡ Some (int_wrapping_sub w64 x y) }
    ensures mul { operation binary.Mul kinds.I64 x y ≡ Some (int_wrapping_mul w64 x y) }
    ensures div { y ≢ pos 0 → operation binary.Div kinds.I64 x y ≡ Some (int_wrapping_div w64 x y) }
    ensures rem { y ≢ pos 0 → operation binary.Rem kinds.I64 x y ≡ Some (int_rem x y) }
{}

/// Keys are strictly ordered, those of one type totally.
pub fn key_order()
    ensures irreflexive { (x : Value) → ¬ (KeyLess x x) }
    ensures transitive { (x y z : Value) → KeyLess x y → KeyLess y z → KeyLess x z }
    ensures total { (x y : Value) → SameKeyType x y → KeyLess x y ⊎ ((x ≡ y) ⊎ KeyLess y x) }
{}

/// To be keys of one type is symmetric. Keys that have one key type are of one type, and whatever has a key type is a key.
pub fn one_key_type()
    ensures symmetric { (x y : Value) → SameKeyType x y → SameKeyType y x }
    ensures shared { (t : KeyType) (x y : Value) → HasKeyType t x → HasKeyType t y
        → SameKeyType x y }
    ensures is_key { (t : KeyType) (x : Value) → HasKeyType t x → IsKey x }
    ensures has_type { (x : Value) → IsKey x → (t : KeyType) × HasKeyType t x }
{}

/// The test of equality of two values.
pub fn equal_values()
    ensures { (x y : Value) → IsTrue (same_value x y) ↔ (x ≡ y) }
{}
