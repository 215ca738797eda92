//! Laws of this crate's definitions. Each function's contract is the law; its body does nothing.

ghost use Rattle.std.specs.Prelude.{◌≡◌, ℤ};
ghost use Rattle.weld_data.specs.Kind.{InRange};
ghost use Rattle.weld_data.specs.Value.{Value, number, list, values, no_values, and_value};
ghost use Rattle.weld_data.specs.Order.{AreNumbers, SameNumberKinds};
ghost use Rattle.weld_tree.specs.TypeTree.{TypeTree, scalar, vec};
ghost use Rattle.weld_tree.specs.HasValue.{HasValue, AllAre};

use weld_data::Kind;

/// A number is of a scalar type exactly where its kind is that one and it lies in the kind's range.
pub fn numbers_of_a_kind(kind: Kind)
    ensures { (x : ℤ) → InRange kind x → HasValue (scalar kind) (number kind x) }
{}
