//! The binders around a node.

ghost use Rattle.std.specs.Prelude.{◌≡◌};
ghost use Rattle.weld_substitution.specs.FreeNames.{is_among};
ghost use Rattle.weld_substitution.specs.Gathering.{bound_in_scope};

use weld_tree::Sym;

/// The names that are bound around a node: none; one more, in the body of a `let` or an `iterate`;
/// or three more, those of the row, its number and the builder, in the body of a loop.
#[derive(Clone, Copy)]
pub(crate) enum Scope<'a> {
    Outside,
    Body(Sym, &'a Scope<'a>),
    Lambda(Sym, Sym, Sym, &'a Scope<'a>),
}

/// Whether the name is bound there.
pub(crate) fn is_bound(name: Sym, scope: &Scope) -> bool
    ensures { result ≡ is_among (bound_in_scope scope.now) name.0 }
{
    match scope {
        Scope::Outside => false,
        Scope::Body(sym, rest) => name.0 == sym.0 || is_bound(name, rest),
        Scope::Lambda(row, number, builder, rest) => {
            name.0 == row.0 || (name.0 == number.0 || (name.0 == builder.0 || is_bound(name, rest)))
        }
    }
}
