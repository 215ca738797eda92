//! The binders of an expression, in the order of the text.
ghost use Rattle.std.specs.Prelude.{◌≡◌, ◌↔◌, ◌<◌, ◌++◌, ◌∷◌, [], length, slice_index, IsTrue, OnOk, OnErr, IfOk};
ghost use Rattle.weld_tree.specs.ExprTree.{pack_exprs, pack_legs};
ghost use Rattle.weld_tree.specs.ExprView.{view_leg};
ghost use Rattle.weld_tree.specs.Program.{bound, bound_in, bound_in_leg, bound_in_legs};

use std::alloc::{AllocError, Global};
use std::marker::Model;
use weld_tree::{Binder, Expr, Exprs, Form, Leg, Legs, Sym};

/// A list of the numbers of names. Contracts see the list of the numbers.
#[derive(Drop)]
pub struct Syms {
    numbers: Vec<u32>,
}

impl Model for Syms {
    ghost use Rattle.std.specs.Prelude.{ℕ, List};
    ghost use Rattle.std.specs.Coded.{coded_list, coded_ℕ};

    ghost Value = { List ℕ };

    ghost coded = { coded_list coded_ℕ };

    ghost view = { λ s. s.numbers.items };
}

impl Syms {
    /// The list without names. It takes no memory.
    pub fn new(alloc: Global) -> Syms
        ensures { result ≡ [] }
    {
        Syms {
            numbers: Vec::new(alloc),
        }
    }

    /// How many there are. It takes no memory.
    pub fn len(&self) -> usize
        ensures { result ≡ length self.now }
    {
        self.numbers.len()
    }

    /// Whether there is none. It takes no memory.
    pub fn is_empty(&self) -> bool
        ensures { IsTrue result ↔ (self.now ≡ []) }
    {
        self.numbers.is_empty()
    }

    /// The one of that place, from 0, which is there. It takes no memory.
    pub fn at(&self, place: usize) -> Sym
        requires { place < length self.now }
        ensures { result.0 ≡ slice_index self.now place }
    {
        Sym(self.numbers[place])
    }

    /// Appends one. Where memory is wanting, the list stays as it was.
    pub fn push(&mut self, sym: Sym) -> Result<(), AllocError>
        ensures ok { OnOk result (self.new ≡ self.old ++ sym.0 ∷ []) }
        ensures err { OnErr result (self.new ≡ self.old) }
    {
        self.numbers.push(sym.0)?;
        Ok(())
    }
}

/// The numbers that the expression binds, in the order of the text.
pub fn binders_of(alloc: Global, e: &Expr) -> Result<Syms, AllocError>
    ensures { IfOk result (λ syms. syms ≡ bound e.now) }
{
    let mut syms = Syms::new(alloc);
    push_bound(e, &mut syms)?;
    Ok(syms)
}

#[cycle(bound)]
fn push_bound(e: &Expr, syms: &mut Syms) -> Result<(), AllocError>
    ensures { OnOk result (syms.new ≡ syms.old ++ bound e.now) }
{
    match &e.form {
        Form::Leaf(_) => Ok(()),
        Form::One(_, part) => push_bound(part, syms),
        Form::Two(_, first, second) => push_two(first, second, syms),
        Form::Three(_, first, second, third) => {
            push_bound(first, syms)?;
            push_two(second, third, syms)
        }
        Form::Many(_, parts) => push_all(parts, syms),
        Form::Let(binder, value, body) => {
            syms.push(binder.sym)?;
            push_two(value, body, syms)
        }
        Form::For(legs, builder, b, n, x, body) => {
            push_legs(legs, syms)?;
            push_bound(builder, syms)?;
            push_binders(b, n, x, syms)?;
            push_bound(body, syms)
        }
        Form::Iterate(state, binder, body) => {
            push_bound(state, syms)?;
            syms.push(binder.sym)?;
            push_bound(body, syms)
        }
    }
}

#[cycle(bound)]
fn push_two(first: &Expr, second: &Expr, syms: &mut Syms) -> Result<(), AllocError>
    ensures { OnOk result (syms.new ≡ syms.old ++ (bound first.now ++ bound second.now)) }
{
    push_bound(first, syms)?;
    push_bound(second, syms)
}

fn push_binders(b: &Binder, n: &Binder, x: &Binder, syms: &mut Syms) -> Result<(), AllocError>
    ensures { OnOk result (syms.new ≡ syms.old ++ b.now.sym.0 ∷ n.now.sym.0 ∷ x.now.sym.0 ∷ []) }
{
    syms.push(b.sym)?;
    syms.push(n.sym)?;
    syms.push(x.sym)
}

#[cycle(bound)]
fn push_all(parts: &Exprs, syms: &mut Syms) -> Result<(), AllocError>
    ensures { OnOk result (syms.new ≡ syms.old ++ bound_in (pack_exprs parts.now)) }
{
    for part in parts.as_slice() {
        push_bound(part, syms)?;
    }
    Ok(())
}

#[cycle(bound)]
fn push_leg(leg: &Leg, syms: &mut Syms) -> Result<(), AllocError>
    ensures { OnOk result (syms.new ≡ syms.old ++ bound_in_leg (view_leg leg.now)) }
{
    match leg {
        Leg::Whole(vector) => push_bound(vector, syms),
        Leg::Strided(vector, start, end, stride) => {
            push_bound(vector, syms)?;
            push_bound(start, syms)?;
            push_two(end, stride, syms)
        }
    }
}

#[cycle(bound)]
fn push_legs(legs: &Legs, syms: &mut Syms) -> Result<(), AllocError>
    ensures { OnOk result (syms.new ≡ syms.old ++ bound_in_legs (pack_legs legs.now)) }
{
    for leg in legs.as_slice() {
        push_leg(leg, syms)?;
    }
    Ok(())
}
