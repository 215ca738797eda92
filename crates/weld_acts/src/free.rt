//! The names that occur free in an expression.

ghost use Rattle.std.specs.Prelude.{◌≡◌, map};
ghost use Rattle.weld_tree.specs.ExprTree.{pack_exprs, pack_legs};
ghost use Rattle.weld_tree.specs.ExprView.{view_leg};
ghost use Rattle.weld_acts.specs.Test.{uses, some_use, leg_uses, legs_use};

use weld_tree::{Expr, Exprs, Form, LeafForm, Leg, Legs, Sym};

/// Whether the name occurs in the expression where no binder of it binds it.
#[cycle(uses)]
pub fn uses(e: &Expr, name: Sym) -> bool
    ensures { result ≡ uses e.now name.0 }
{
    match &e.form {
        Form::Leaf(LeafForm::Name(other)) => name.0 == other.0,
        Form::Leaf(_) => false,
        Form::One(_, part) => uses(part, name),
        Form::Two(_, first, second) => uses(first, name) || uses(second, name),
        Form::Three(_, first, second, third) => {
            uses(first, name) || (uses(second, name) || uses(third, name))
        }
        Form::Many(_, parts) => some_use(parts, name),
        Form::Let(binder, value, body) | Form::Iterate(value, binder, body) => {
            uses(value, name) || (uses(body, name) && name.0 != binder.sym.0)
        }
        Form::For(legs, builder, b, n, x, body) => {
            legs_use(legs, name)
                || (uses(builder, name)
                    || (uses(body, name)
                        && (name.0 != x.sym.0 && (name.0 != n.sym.0 && name.0 != b.sym.0))))
        }
    }
}

/// Whether it does in one of these.
#[cycle(uses)]
fn some_use(parts: &Exprs, name: Sym) -> bool
    ensures { result ≡ some_use (pack_exprs parts.now) name.0 }
{
    for part in parts.as_slice() {
        if uses(part, name) {
            return true;
        }
    }
    false
}

#[cycle(uses)]
fn leg_uses(leg: &Leg, name: Sym) -> bool
    ensures { result ≡ leg_uses (view_leg leg.now) name.0 }
{
    match leg {
        Leg::Whole(e) => uses(e, name),
        Leg::Strided(e, from, to, by) => {
            uses(e, name) || (uses(from, name) || (uses(to, name) || uses(by, name)))
        }
    }
}

/// Whether it does in one of these legs.
#[cycle(uses)]
pub(crate) fn legs_use(legs: &Legs, name: Sym) -> bool
    ensures { result ≡ legs_use (pack_legs legs.now) name.0 }
{
    for leg in legs.as_slice() {
        if leg_uses(leg, name) {
            return true;
        }
    }
    false
}
