//! The names in scope.

ghost use Rattle.std.specs.Prelude.{◌≡◌, ◌∷◌, [], None, Some, MatchOption};
ghost use Rattle.weld_meaning.specs.Environment.{look_for};

use std::marker::Model;
use weld_tree::{Sym, Ty};

/// The names in scope with their types. Contracts see them as plain data, the newest first.
///
/// Each name has the scope before it, and one further back: a look-up of a number that none of the names between them has
/// jumps there, so it takes some twenty steps over a thousand names that were numbered in their order.
#[derive(Drop)]
pub struct Scope<'a> {
    /// The newest name, its type, the scope before it, one further back.
    newest: Option<(Sym, &'a Ty, &'a Scope<'a>, &'a Scope<'a>)>,
    /// The least number of a name from the newest down to the scope further back.
    low: u32,
    /// The greatest.
    high: u32,
    count: u32,
}

impl<'a> Model for Scope<'a> {
    ghost use Rattle.weld_meaning.specs.Typing.{Types};
    ghost use Rattle.std.specs.Prelude.{length};
    ghost use Rattle.weld_types.specs.ScopeView.{names_of, Jumps};

    ghost Value = { Types };

    ghost use Rattle.std.specs.Coded.{coded_list, coded×, coded_ℕ};
    ghost use Rattle.weld_tree.specs.TypeCode.{coded_type};

    ghost coded = { coded_list (coded× coded_ℕ coded_type) };

    ghost view = { λ a. names_of a.newest };

    ghost invariant = { λ a. Jumps a.newest a.low a.high };

    ghost size = { length };

    ghost use Rattle.std.proofs.Common.{arith};

    ghost size_decreases = { λ a h. Prim.grind (arith) };
}

impl<'a> Scope<'a> {
    /// No names.
    pub fn empty() -> Scope<'a>
        ensures { result ≡ [] }
    {
        Scope {
            newest: None,
            low: 0,
            high: 0,
            count: 0,
        }
    }

    /// These and one more, of this type.
    pub fn bound(name: Sym, ty: &'a Ty, rest: &'a Scope<'a>) -> Scope<'a>
        ensures { result ≡ (name.0, ty.now) ∷ rest.now }
    {
        let count = rest.count.saturating_add(1);
        if let Some((_, _, _, far)) = rest.newest {
            if let Some((_, _, _, further)) = far.newest {
                if rest.count.wrapping_sub(far.count) == far.count.wrapping_sub(further.count) {
                    return Scope {
                        newest: Some((name, ty, rest, further)),
                        low: name.0.min(rest.low).min(far.low),
                        high: name.0.max(rest.high).max(far.high),
                        count,
                    };
                }
            }
        }
        Scope {
            newest: Some((name, ty, rest, rest)),
            low: name.0,
            high: name.0,
            count,
        }
    }

    /// The type of the name, if it is in scope.
    pub fn type_of(&self, name: Sym) -> Option<&Ty>
        ensures { MatchOption result (look_for name.0 self.now ≡ None)
            (λ t. look_for name.0 self.now ≡ Some t.now) }
    {
        let mut scope = self;
        while let Some((bound, ty, rest, far)) = scope.newest {
            if bound.0 == name.0 {
                return Some(ty);
            }
            scope = if name.0 < scope.low || scope.high < name.0 {
                far
            } else {
                rest
            };
        }
        None
    }
}
