//! The test whether each loop acts on its own builder.

ghost use Rattle.std.specs.Prelude.{◌≡◌, zero, [], Decides};
ghost use Rattle.weld_tree.specs.ExprTree.{pack_exprs, pack_legs};
ghost use Rattle.weld_tree.specs.ExprView.{view_leg};
ghost use Rattle.weld_acts.specs.Act.{AreDirect};
ghost use Rattle.weld_acts.specs.PathView.{path_of};
ghost use Rattle.weld_acts.specs.Test.{acts, all_act, acts_own, are_direct, all_direct, leg_direct, legs_direct};

use crate::free::{legs_use, uses};
use crate::path::{Path, follows, leaf_follows};
use weld_tree::{Binder, Expr, Exprs, Form, Leg, Legs, ManyForm, Sym, ThreeForm, TwoForm};

/// Whether the body of each loop in the expression acts on the loop's own builder: it is that builder,
/// or a merge into it of a value that doesn't use it, an `if` or a `let` around such, a loop that goes
/// on in it, or a struct of such, field by field. Such a body merges in place what it means. It takes
/// no memory.
#[tactic(auto, using(crate::proofs::Decided::direct_at_test))]
pub fn is_direct(e: &Expr) -> bool
    ensures direct { Decides result (AreDirect e.now) }
{
    test_direct(e)
}

#[cycle(direct)]
fn test_direct(e: &Expr) -> bool
    ensures { result ≡ are_direct e.now }
{
    match &e.form {
        Form::Leaf(_) => true,
        Form::One(_, part) => test_direct(part),
        Form::Two(_, first, second)
        | Form::Let(_, first, second)
        | Form::Iterate(first, _, second) => test_direct(first) && test_direct(second),
        Form::Three(_, first, second, third) => {
            test_direct(first) && (test_direct(second) && test_direct(third))
        }
        Form::Many(_, parts) => all_direct(parts),
        Form::For(legs, builder, b, n, x, body) => {
            legs_direct(legs)
                && (test_direct(builder) && (test_direct(body) && acts_own(b, n, x, body)))
        }
    }
}

#[cycle(direct)]
fn all_direct(parts: &Exprs) -> bool
    ensures { result ≡ all_direct (pack_exprs parts.now) }
{
    for part in parts.as_slice() {
        if !test_direct(part) {
            return false;
        }
    }
    true
}

#[cycle(direct)]
fn leg_direct(leg: &Leg) -> bool
    ensures { result ≡ leg_direct (view_leg leg.now) }
{
    match leg {
        Leg::Whole(e) => test_direct(e),
        Leg::Strided(e, from, to, by) => {
            test_direct(e) && (test_direct(from) && (test_direct(to) && test_direct(by)))
        }
    }
}

#[cycle(direct)]
fn legs_direct(legs: &Legs) -> bool
    ensures { result ≡ legs_direct (pack_legs legs.now) }
{
    for leg in legs.as_slice() {
        if !leg_direct(leg) {
            return false;
        }
    }
    true
}

/// Whether a loop's body acts on the loop's own builder, by the binders of the builder, the row's
/// number and the row.
#[cycle(acts)]
fn acts_own(b: &Binder, n: &Binder, x: &Binder, body: &Expr) -> bool
    ensures { result ≡ acts_own b.now n.now x.now body.now }
{
    b.sym.0 != n.sym.0 && (b.sym.0 != x.sym.0 && acts(body, b.sym, &Path::Root))
}

/// Whether the expression acts on the path of the name.
#[cycle(acts)]
fn acts(e: &Expr, name: Sym, path: &Path) -> bool
    ensures { result ≡ acts e.now name.0 (path_of path.now) }
{
    match &e.form {
        Form::Leaf(leaf) => leaf_follows(leaf, name, path),
        Form::One(_, _) => follows(e, name, path),
        Form::Two(TwoForm::Merge, builder, item) => {
            acts(builder, name, path) && !uses(item, name)
        }
        Form::Two(_, _, _) => false,
        Form::Three(ThreeForm::If, condition, then, otherwise) => {
            !uses(condition, name) && (acts(then, name, path) && acts(otherwise, name, path))
        }
        Form::Three(_, _, _, _) => false,
        Form::Many(ManyForm::Struct, parts) => all_act(parts, name, path),
        Form::Many(ManyForm::Vec, _) => false,
        Form::Let(binder, value, body) => {
            !uses(value, name) && (binder.sym.0 != name.0 && acts(body, name, path))
        }
        Form::For(legs, builder, b, n, x, body) => {
            !legs_use(legs, name)
                && (acts(builder, name, path) && (!uses(body, name) && acts_own(b, n, x, body)))
        }
        Form::Iterate(_, _, _) => false,
    }
}

/// Whether each part acts on the field of its number.
#[cycle(acts)]
fn all_act(parts: &Exprs, name: Sym, path: &Path) -> bool
    ensures { result ≡ all_act (pack_exprs parts.now) name.0 (path_of path.now) zero }
{
    let parts = parts.as_slice();
    for i in 0..parts.len() {
        if !acts(&parts[i], name, &Path::Field(i, &*path)) {
            return false;
        }
    }
    true
}
