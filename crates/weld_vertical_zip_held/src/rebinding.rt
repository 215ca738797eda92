//! Whether a name is bound again within an expression.

ghost use Rattle.std.specs.Prelude.{◌≡◌, map};
ghost use Rattle.weld_tree.specs.ExprTree.{pack_exprs, pack_legs};
ghost use Rattle.weld_tree.specs.ExprView.{view_leg};
ghost use Rattle.weld_vertical_zip_held.specs.Rule.{leg_rebinds, legs_rebind, rebinds, some_rebind};

use weld_tree::{Expr, Exprs, Form, Leg, Legs, Sym};

/// Whether the name is bound again within. It takes no memory.
#[cycle(rebinds)]
pub(crate) fn rebinds(name: Sym, e: &Expr) -> bool
    ensures { result ≡ rebinds name.0 e.now }
{
    match &e.form {
        Form::Leaf(_) => false,
        Form::One(_, part) => rebinds(name, part),
        Form::Two(_, first, second) => rebinds(name, first) || rebinds(name, second),
        Form::Three(_, first, second, third) => {
            rebinds(name, first) || (rebinds(name, second) || rebinds(name, third))
        }
        Form::Many(_, parts) => some_rebind(name, parts),
        Form::Let(binder, value, body) => {
            name.0 == binder.sym.0 || (rebinds(name, value) || rebinds(name, body))
        }
        Form::For(legs, start, builder, number, row, body) => {
            (name.0 == builder.sym.0 || (name.0 == number.sym.0 || name.0 == row.sym.0))
                || (legs_rebind(name, legs) || (rebinds(name, start) || rebinds(name, body)))
        }
        Form::Iterate(start, binder, body) => {
            name.0 == binder.sym.0 || (rebinds(name, start) || rebinds(name, body))
        }
    }
}

#[cycle(rebinds)]
#[tactic(auto, using(crate::proofs::Left::rebinds_left, crate::proofs::Left::no_rebinds_left))]
fn some_rebind(name: Sym, parts: &Exprs) -> bool
    ensures { result ≡ some_rebind name.0 (pack_exprs parts.now) }
{
    for part in parts.as_slice() {
        if rebinds(name, part) {
            return true;
        }
    }
    false
}

#[cycle(rebinds)]
fn leg_rebinds(name: Sym, leg: &Leg) -> bool
    ensures { result ≡ leg_rebinds name.0 (view_leg leg.now) }
{
    match leg {
        Leg::Whole(e) => rebinds(name, e),
        Leg::Strided(e, from, to, by) => {
            rebinds(name, e) || (rebinds(name, from) || (rebinds(name, to) || rebinds(name, by)))
        }
    }
}

#[cycle(rebinds)]
#[tactic(auto, using(crate::proofs::Left::leg_rebinds_left, crate::proofs::Left::no_leg_rebinds_left))]
fn legs_rebind(name: Sym, legs: &Legs) -> bool
    ensures { result ≡ legs_rebind name.0 (pack_legs legs.now) }
{
    for leg in legs.as_slice() {
        if leg_rebinds(name, leg) {
            return true;
        }
    }
    false
}
