//! Whether a value can be kept as others are.

ghost use Rattle.std.specs.Prelude.{◌≡◌, Some, IsTrue};
ghost use Rattle.weld_data.specs.Kind.{InRange};
ghost use Rattle.weld_data.specs.Order.{IsKey};
ghost use Rattle.weld_data.specs.Value.{number};
ghost use Rattle.weld_data.specs.View.{view_val};
ghost use Rattle.weld_pieces.specs.Kept.{IsKeptAs, IsKeptKey, IsNarrowKey};

use weld_data::{Kind, Num, Val};

/// A number of a kind as a value. It takes no memory.
#[inline(always)]
pub(crate) fn number_of(kind: Kind, x: i64) -> Val
    requires { InRange kind x }
    ensures { view_val result ≡ number kind x }
{
    Val::Num(Num {
        kind,
        value: i128::from(x),
    })
}

/// Whether numbers of the kind are kept so. It takes no memory.
#[inline(always)]
pub(crate) fn keeps(kept: Option<Kind>, kind: Kind) -> bool
    ensures yes { IsTrue result → kept ≡ Some kind }
{
    match kept {
        Some(other) => other == kind,
        None => false,
    }
}

/// Whether both are kept alike. It takes no memory.
pub(crate) fn are_alike(kept: Option<Kind>, other: Option<Kind>) -> bool
    ensures yes { IsTrue result → kept ≡ other }
{
    match other {
        Some(kind) => keeps(kept, kind),
        None => kept.is_none(),
    }
}

/// How such an item is best kept. It takes no memory.
pub(crate) fn best_for(item: &Val) -> Option<Kind>
    ensures { IsKeptAs result (view_val item.now) }
{
    match item {
        Val::Num(n) => Some(n.kind),
        _ => None,
    }
}

/// How such a key is best kept: as a number where that lies within an i64. It takes no memory.
pub(crate) fn best_for_key(key: &Val) -> Option<Kind>
    requires { IsKey (view_val key.now) }
    ensures kept { IsKeptKey result (view_val key.now) }
    ensures narrow { IsNarrowKey result }
{
    match key {
        Val::Num(n) if n.kind.is_narrow() => Some(n.kind),
        _ => None,
    }
}

/// Whether the item can be kept so. It takes no memory.
pub(crate) fn keeps_item(kept: Option<Kind>, item: &Val) -> bool
    ensures yes { IsTrue result → IsKeptAs kept (view_val item.now) }
{
    match kept {
        Some(kind) => is_number_of(kind, item),
        None => true,
    }
}

/// Whether the key can be kept so. It takes no memory.
pub(crate) fn keeps_key(kept: Option<Kind>, key: &Val) -> bool
    requires { IsKey (view_val key.now) }
    ensures yes { IsTrue result → IsKeptKey kept (view_val key.now) }
{
    match kept {
        Some(kind) => is_number_of(kind, key),
        None => true,
    }
}

/// Whether the value is a number of the kind. It takes no memory.
fn is_number_of(kind: Kind, v: &Val) -> bool
    ensures yes { IsTrue result → IsKeptAs (Some kind) (view_val v.now) }
{
    match v {
        Val::Num(n) => n.kind == kind,
        _ => false,
    }
}
