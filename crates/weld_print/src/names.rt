//! The numbers of a program's binders, in the order of the text.

ghost use Rattle.std.specs.Prelude.{◌≡◌, [], ◌∷◌, ◌++◌, map, IfOk, OnOk};
ghost use Rattle.weld_tree.specs.ExprTree.{pack_exprs, pack_legs};
ghost use Rattle.weld_tree.specs.ExprView.{view_leg};
ghost use Rattle.weld_tree.specs.Program.{bound, bound_in, bound_in_leg, bound_in_legs, syms_of};
ghost use Rattle.weld_tree.specs.Blank.{distance};
ghost use Rattle.weld_print.specs.PrintText.{names_of};

use std::alloc::{AllocError, Global};
use std::marker::Model;
use weld_tree::{Binder, Expr, Exprs, Form, Leg, Legs, Program, Sym};

/// The numbers of all binders of a program, in the order of the text. Contracts see the list.
#[derive(Drop)]
pub struct Names {
    syms: Vec<u32>,
}

impl Model for Names {
    ghost use Rattle.std.specs.Prelude.{List, ℕ};

    ghost Value = { List ℕ };

    ghost view = { λ n. n.syms.items };
}

impl Names {
    /// No numbers. It takes no memory.
    fn new(alloc: Global) -> Names
        ensures { result ≡ [] }
    {
        Names {
            syms: Vec::new(alloc),
        }
    }

    /// Appends the number of a binder.
    fn push(&mut self, binder: &Binder) -> Result<(), AllocError>
        ensures { OnOk result (self.new ≡ self.old ++ binder.now.sym.0 ∷ []) }
    {
        self.syms.push(binder.sym.0)?;
        Ok(())
    }

    /// How many binders stand before the one of this name in the text. Of a name that none binds it is their
    /// number and that of the name together, which is no binder's.
    pub fn number_of(&self, sym: Sym) -> u64
        ensures { result ≡ distance self.now sym.0 }
    {
        let mut before = 0u64;
        'names: for name in &self.syms {
            if *name == sym.0 {
                return before;
            }
            before += 1;
        }
        before + u64::from(sym.0)
    }
}

/// The numbers of all binders of a program, in the order of the text. It fails for want of memory alone.
pub fn binders_of(alloc: Global, program: &Program) -> Result<Names, AllocError>
    ensures { IfOk result (λ names. names ≡ names_of program.now) }
{
    let mut names = Names::new(alloc);
    'params: for param in program.params.as_slice() {
        names.push(param)?;
    }
    collect(&program.body, &mut names)?;
    Ok(names)
}

/// Appends the numbers of the binders in an expression.
#[cycle(collect)]
fn collect(e: &Expr, names: &mut Names) -> Result<(), AllocError>
    ensures { OnOk result (names.new ≡ names.old ++ bound e.now) }
{
    match &e.form {
        Form::Leaf(_) => Ok(()),
        Form::One(_, e) => collect(e, names),
        Form::Two(_, e, f) => {
            collect(e, names)?;
            collect(f, names)
        }
        Form::Three(_, e, f, g) => {
            collect(e, names)?;
            collect(f, names)?;
            collect(g, names)
        }
        Form::Many(_, es) => collect_in(es, names),
        Form::Let(binder, value, body) => {
            names.push(binder)?;
            collect(value, names)?;
            collect(body, names)
        }
        Form::For(legs, builder, b, n, x, body) => {
            collect_in_legs(legs, names)?;
            collect(builder, names)?;
            names.push(b)?;
            names.push(n)?;
            names.push(x)?;
            collect(body, names)
        }
        Form::Iterate(state, binder, body) => {
            collect(state, names)?;
            names.push(binder)?;
            collect(body, names)
        }
    }
}

/// Appends the numbers of the binders in expressions.
#[cycle(collect)]
fn collect_in(es: &Exprs, names: &mut Names) -> Result<(), AllocError>
    ensures { OnOk result (names.new ≡ names.old ++ bound_in (pack_exprs es.now)) }
{
    'parts: for e in es.as_slice() {
        collect(e, names)?;
    }
    Ok(())
}

/// Appends the numbers of the binders in a leg.
#[cycle(collect)]
fn collect_in_leg(leg: &Leg, names: &mut Names) -> Result<(), AllocError>
    ensures { OnOk result (names.new ≡ names.old ++ bound_in_leg (view_leg leg.now)) }
{
    match leg {
        Leg::Whole(e) => collect(e, names),
        Leg::Strided(e, f, g, h) => {
            collect(e, names)?;
            collect(f, names)?;
            collect(g, names)?;
            collect(h, names)
        }
    }
}

/// Appends the numbers of the binders in legs.
#[cycle(collect)]
fn collect_in_legs(legs: &Legs, names: &mut Names) -> Result<(), AllocError>
    ensures { OnOk result (names.new ≡ names.old ++ bound_in_legs (pack_legs legs.now)) }
{
    'legs: for leg in legs.as_slice() {
        collect_in_leg(leg, names)?;
    }
    Ok(())
}
