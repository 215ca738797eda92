ghost use Rattle.std.specs.Prelude.{◌≡◌};
ghost use Rattle.weld_tree.specs.ExprView.{view_form};

use crate::binder::Binder;
use crate::known::Known;
use crate::place::Place;
use crate::sym::Sym;
use crate::ty::BuildTy;
use std::marker::Model;
use weld_data::{BinOp, Kind, Text};

mod copy;
mod list;
mod loops;

pub use loops::loops_of;

/// An expression of a program. Contracts see it as plain data, an `ExprTree`.
#[cycle(expr)]
pub struct Expr {
    pub form: Form,
    pub place: Place,
    pub ty: Known,
}

/// By a loop along bodies of lets, left and single operands, so that neither a thousand lets nor a
/// long sum nor a long chain of fields takes stack.
impl Drop for Expr {
    #[cycle(expr)]
    fn drop(mut self) {
        loop {
            let Expr {
                form,
                place: _,
                ty: _,
            } = self;
            match form {
                Form::Let(_binder, _value, body) => self = Box::into_inner(body),
                Form::One(_form, operand) => self = Box::into_inner(operand),
                Form::Two(_, left, _right) => self = Box::into_inner(left),
                _other => return,
            }
        }
    }
}

impl Expr {
    /// The expression's form, place and type, given up. It takes no memory.
    pub fn into_parts(self) -> (Form, Place, Known)
        ensures { view_form result.0 (record { place = result.1; ty = result.2 }) ≡ self }
    {
        let Expr { form, place, ty } = self;
        (form, place, ty)
    }
}

/// What an expression is, one level of it, by how many parts it has.
#[cycle(expr)]
#[derive(Drop)]
pub enum Form {
    Leaf(LeafForm),
    One(OneForm, Box<Expr>),
    Two(TwoForm, Box<Expr>, Box<Expr>),
    Three(ThreeForm, Box<Expr>, Box<Expr>, Box<Expr>),
    Many(ManyForm, Exprs),
    /// The binder, its value, the body.
    Let(Binder, Box<Expr>, Box<Expr>),
    /// The legs, the builder, the binders of the builder, the row number and the row, the body. The
    /// binders are boxed, so that no other node is as wide as a loop.
    For(Legs, Box<Expr>, Box<Binder>, Box<Binder>, Box<Binder>, Box<Expr>),
    /// The state, its binder, the body.
    Iterate(Box<Expr>, Binder, Box<Expr>),
}

/// The forms without parts: an integer of a kind, a truth value, the bytes of a string, a use of a
/// name, a builder without a starting value.
#[derive(Drop)]
pub enum LeafForm {
    Int(Kind, i128),
    Truth(bool),
    Chars(Text),
    Name(Sym),
    Builder(BuildTy),
}

/// The forms of one part: `-e`, `!e`, `kind(e)`, `len(e)`, `e.$n`, `result(e)`, a builder from a
/// starting value.
#[derive(Drop)]
pub enum OneForm {
    Neg,
    Not,
    Cast(Kind),
    Len,
    Field(u32),
    Finish,
    Builder(BuildTy),
}

/// The forms of two parts: an operator between them, `&&`, `||`, `lookup`, `keyexists`, `merge`.
#[derive(Clone, Copy, Debug, PartialEq, Eq)]
pub enum TwoForm {
    Binary(BinOp),
    And,
    Or,
    LookUp,
    KeyExists,
    Merge,
}

/// The forms of three parts: `if`, `select`, `slice`.
#[derive(Clone, Copy, Debug, PartialEq, Eq)]
pub enum ThreeForm {
    If,
    Select,
    Slice,
}

/// The forms of any number of parts, at least one: a vector, a struct.
#[derive(Clone, Copy, Debug, PartialEq, Eq)]
pub enum ManyForm {
    Vec,
    Struct,
}

/// A leg of a loop: a whole vector, or the elements of one from a start below an end by a stride.
#[cycle(expr)]
#[derive(Drop)]
pub enum Leg {
    Whole(Box<Expr>),
    Strided(Box<Expr>, Box<Expr>, Box<Expr>, Box<Expr>),
}

/// A list of expressions.
#[cycle(expr)]
#[derive(Drop)]
pub struct Exprs {
    items: Vec<Expr>,
}

/// A list of legs. Contracts see the list of the legs as plain data.
#[cycle(expr)]
#[derive(Drop)]
pub struct Legs {
    items: Vec<Leg>,
}

impl Model for Expr {
    ghost use Rattle.weld_tree.specs.ExprTree.{ExprTree};
    ghost use Rattle.weld_tree.specs.ExprCode.{coded_expr};

    ghost Value = { ExprTree };

    ghost coded = { coded_expr };

    ghost use Rattle.weld_tree.specs.ExprView.{view_form};

    ghost view = { λ e. view_form e.form (record { place = e.place; ty = e.ty }) };

    ghost use Rattle.weld_tree.specs.ExprFalls.{expr_size};

    ghost size = { expr_size };

    ghost use Rattle.std.proofs.Common.{arith};

    ghost size_decreases = { λ a h. Prim.grind arith };
}

impl Model for Exprs {
    ghost use Rattle.std.specs.Prelude.{List};
    ghost use Rattle.std.specs.Coded.{coded_list};
    ghost use Rattle.weld_tree.specs.ExprTree.{ExprTree};
    ghost use Rattle.weld_tree.specs.ExprCode.{coded_expr};

    ghost Value = { List ExprTree };

    ghost coded = { coded_list coded_expr };

    ghost view = { λ a. a.items.items };

    ghost use Rattle.weld_tree.specs.ExprFalls.{exprs_size, most-exprs_size};

    ghost size = { exprs_size };

    ghost use Rattle.std.proofs.Common.{arith};

    ghost size_decreases = { λ a h. Prim.omega (arith, most-exprs_size a.items.items) };
}

impl Model for Legs {
    ghost use Rattle.std.specs.Prelude.{List, map};
    ghost use Rattle.std.specs.Coded.{coded_list};
    ghost use Rattle.weld_tree.specs.ExprTree.{LegTree};
    ghost use Rattle.weld_tree.specs.ExprCode.{coded_leg};

    ghost Value = { List LegTree };

    ghost coded = { coded_list coded_leg };

    ghost use Rattle.weld_tree.specs.ExprView.{view_leg};

    ghost view = { λ a. map view_leg a.items.items };

    ghost use Rattle.weld_tree.specs.ExprFalls.{legs_size};

    ghost size = { legs_size };

    ghost use Rattle.std.proofs.Common.{arith};
    ghost use Rattle.weld_tree.specs.LegFalls.{most-legs_size};

    ghost size_decreases = { λ a h. Prim.omega (arith, most-legs_size a.items.items) };
}
