//! The names that occur free in an expression.

ghost use Rattle.std.specs.Prelude.{◌≡◌, ◌↔◌, ℕ, [], IfOk, OnOk, map};
ghost use Rattle.weld_tree.specs.ExprTree.{pack_exprs, pack_legs};
ghost use Rattle.weld_tree.specs.ExprView.{view_leg};
ghost use Rattle.weld_tree.specs.Program.{AreDistinct, IsOneOf};
ghost use Rattle.weld_meaning.specs.Names.{IsFree};
ghost use Rattle.weld_substitution.specs.FreeNames.{each_once, free_uses};
ghost use Rattle.weld_substitution.specs.Gathering.{all_gathered, bound_in_scope, gathered, leg_gathered, legs_gathered, name_gathered};

use crate::scope::{Scope, is_bound};
use crate::syms::Syms;
use std::alloc::{AllocError, Global};
use weld_tree::{Expr, Exprs, Form, LeafForm, Leg, Legs, Sym};

/// The names that occur free in the expression, each once, in the order of their first uses. A `let` binds its name in
/// its body, a lambda its names in its body. It fails for want of memory alone.
pub fn free_syms(alloc: Global, e: &Expr) -> Result<Syms, AllocError>
    ensures order { IfOk result (λ syms. syms ≡ each_once (free_uses e.now)) }
    ensures distinct { IfOk result (λ syms. AreDistinct syms) }
    ensures free { IfOk result (λ syms. (s : ℕ) → IsOneOf syms s ↔ IsFree e.now s) }
{
    let mut syms = Syms::new(alloc);
    gather_free(e, &mut syms)?;
    Ok(syms)
}

/// Appends the free names of the expression that aren't there yet.
fn gather_free(e: &Expr, syms: &mut Syms) -> Result<(), AllocError>
    ensures { OnOk result (syms.new ≡ gathered e.now [] syms.old) }
{
    gather(e, &Scope::Outside, syms)
}

/// Appends the free names of the expression that aren't there yet and aren't bound in the scope.
#[cycle(gather)]
fn gather(e: &Expr, scope: &Scope, syms: &mut Syms) -> Result<(), AllocError>
    ensures { OnOk result (syms.new ≡ gathered e.now (bound_in_scope scope.now) syms.old) }
{
    match &e.form {
        Form::Leaf(LeafForm::Name(name)) => gather_name(*name, scope, syms),
        Form::Leaf(_) => Ok(()),
        Form::One(_, part) => gather(part, scope, syms),
        Form::Two(_, first, second) => {
            gather(first, scope, syms)?;
            gather(second, scope, syms)
        }
        Form::Three(_, first, second, third) => {
            gather(first, scope, syms)?;
            gather(second, scope, syms)?;
            gather(third, scope, syms)
        }
        Form::Many(_, parts) => gather_all(parts, scope, syms),
        Form::Let(binder, value, body) | Form::Iterate(value, binder, body) => {
            gather(value, scope, syms)?;
            gather(body, &Scope::Body(binder.sym, &*scope), syms)
        }
        Form::For(legs, builder, b, n, x, body) => {
            gather_legs(legs, scope, syms)?;
            gather(builder, scope, syms)?;
            gather(body, &Scope::Lambda(x.sym, n.sym, b.sym, &*scope), syms)
        }
    }
}

fn gather_name(name: Sym, scope: &Scope, syms: &mut Syms) -> Result<(), AllocError>
    ensures { OnOk result (syms.new ≡ name_gathered name.0 (bound_in_scope scope.now) syms.old) }
{
    if is_bound(name, scope) {
        return Ok(());
    }
    syms.push_once(name)
}

#[cycle(gather)]
fn gather_all(parts: &Exprs, scope: &Scope, syms: &mut Syms) -> Result<(), AllocError>
    ensures { OnOk result (syms.new
        ≡ all_gathered (pack_exprs parts.now) (bound_in_scope scope.now) syms.old) }
{
    for part in parts.as_slice() {
        gather(part, scope, syms)?;
    }
    Ok(())
}

#[cycle(gather)]
fn gather_leg(leg: &Leg, scope: &Scope, syms: &mut Syms) -> Result<(), AllocError>
    ensures { OnOk result (syms.new
        ≡ leg_gathered (view_leg leg.now) (bound_in_scope scope.now) syms.old) }
{
    match leg {
        Leg::Whole(e) => gather(e, scope, syms),
        Leg::Strided(e, from, to, by) => {
            gather(e, scope, syms)?;
            gather(from, scope, syms)?;
            gather(to, scope, syms)?;
            gather(by, scope, syms)
        }
    }
}

#[cycle(gather)]
fn gather_legs(legs: &Legs, scope: &Scope, syms: &mut Syms) -> Result<(), AllocError>
    ensures { OnOk result (syms.new
        ≡ legs_gathered (pack_legs legs.now) (bound_in_scope scope.now) syms.old) }
{
    for leg in legs.as_slice() {
        gather_leg(leg, scope, syms)?;
    }
    Ok(())
}
