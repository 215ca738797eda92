//! Expressions and programs built by hand.
ghost use Rattle.std.specs.Prelude.{◌≡◌, IfOk};
ghost use Rattle.weld_tree.specs.ExprView.{view_form};
ghost use Rattle.weld_tree.specs.declared.known.Known.TheVariants.{Blank};

use std::alloc::{AllocError, Global};
use weld_data::{Kind, MergeOp};
use weld_tree::{
    Binder, Binders, BuildTy, Expr, Exprs, Form, Known, LeafForm, Leg, Legs, ManyForm, OneForm,
    Place, Program, Sym, TwoForm, Ty,
};

/// A node of this form in that column of the first line, its type not known.
pub fn node(alloc: Global, form: Form, column: u32) -> Result<Box<Expr>, AllocError>
    ensures { IfOk result (λ e. e.value ≡ view_form form
        (record { place = record { line = 1; column = column }; ty = Blank })) }
{
    let place = Place { line: 1, column };
    let ty = Known::Blank;
    Ok(Box::new(alloc, Expr { form, place, ty })?)
}

/// The program `-(7L)`.
pub fn minus_seven(alloc: Global) -> Result<Program, AllocError> {
    let seven = node(alloc, Form::Leaf(LeafForm::Int(Kind::I64, 7)), 3)?;
    Ok(Program {
        params: Binders::new(alloc),
        body: node(alloc, Form::One(OneForm::Neg, seven), 1)?,
    })
}

/// The program `!(-true)`.
pub fn minus_true(alloc: Global) -> Result<Program, AllocError> {
    let yes = node(alloc, Form::Leaf(LeafForm::Truth(true)), 4)?;
    let minus = node(alloc, Form::One(OneForm::Neg, yes), 3)?;
    Ok(Program {
        params: Binders::new(alloc),
        body: node(alloc, Form::One(OneForm::Not, minus), 1)?,
    })
}

fn number(alloc: Global, number: i64) -> Result<Box<Expr>, AllocError> {
    let leaf = LeafForm::Int(Kind::I64, i128::from(number));
    node(alloc, Form::Leaf(leaf), 1)
}

fn name(alloc: Global, number: u32) -> Result<Box<Expr>, AllocError> {
    node(alloc, Form::Leaf(LeafForm::Name(Sym(number))), 1)
}

fn binder(number: u32) -> Binder {
    let place = Place { line: 1, column: 1 };
    Binder {
        sym: Sym(number),
        place,
        note: None,
        note_place: place,
    }
}

/// `merger[i64,+]`.
fn total(alloc: Global) -> Result<Box<Expr>, AllocError> {
    let item = Box::new(alloc, Ty::scalar(Kind::I64))?;
    let builder = BuildTy::Total(item, MergeOp::Add);
    node(alloc, Form::Leaf(LeafForm::Builder(builder)), 1)
}

/// `merge(b, x)`, the builder's name 1, the row's 3.
fn merged(alloc: Global) -> Result<Box<Expr>, AllocError> {
    let builder = name(alloc, 1)?;
    let row = name(alloc, 3)?;
    node(alloc, Form::Two(TwoForm::Merge, builder, row), 1)
}

/// The one leg over the vector of name 0.
fn over(alloc: Global) -> Result<Legs, AllocError> {
    let mut legs = Legs::new(alloc);
    legs.push(Leg::Whole(name(alloc, 0)?))?;
    Ok(legs)
}

/// `for(v, merger[i64,+], |b, i, x| merge(b, x))`.
fn sum(alloc: Global) -> Result<Box<Expr>, AllocError> {
    let legs = over(alloc)?;
    let builder = total(alloc)?;
    let body = merged(alloc)?;
    let b = Box::new(alloc, binder(1))?;
    let n = Box::new(alloc, binder(2))?;
    let x = Box::new(alloc, binder(3))?;
    let form = Form::For(legs, builder, b, n, x, body);
    node(alloc, form, 1)
}

/// `[n]`.
fn vector(alloc: Global, number: i64) -> Result<Box<Expr>, AllocError> {
    let mut items = Exprs::new(alloc);
    items.push(Box::into_inner(self::number(alloc, number)?))?;
    node(alloc, Form::Many(ManyForm::Vec, items), 1)
}

/// `let v = [n]; result(for(v, merger[i64,+], |b, i, x| merge(b, x))) == n`.
pub fn sums_to(alloc: Global, number: i64) -> Result<Box<Expr>, AllocError> {
    let vector = vector(alloc, number)?;
    let sum = node(alloc, Form::One(OneForm::Finish, sum(alloc)?), 1)?;
    let same = TwoForm::Binary(weld_data::BinOp::Eq);
    let number = self::number(alloc, number)?;
    let body = node(alloc, Form::Two(same, sum, number), 1)?;
    node(alloc, Form::Let(binder(0), vector, body), 1)
}
