//! The body of the program: its lets around the struct of what is shown.
ghost use Rattle.std.specs.Prelude.{◌≡◌, ◌++◌, ◌∷◌, [], None, OnOk, IfOk};
ghost use Rattle.weld_tree.specs.Blank.{blank_at};
ghost use Rattle.weld_tree.specs.ExprTree.{let_in, leaf, name as name_leaf};
ghost use Rattle.weld_tree.specs.ExprView.{view_form};
ghost use Rattle.weld_objects.specs.Numbering.{number_in};
ghost use Rattle.weld_objects.specs.Lowered.{new_binder as plain_binder, shown_struct};
ghost use Rattle.weld_lazy.specs.Lowering.{chained};

use crate::calls::{LetPart, Lets};
use crate::ids::Ids;
use crate::values::new_binder;
use std::alloc::{AllocError, Global};
use weld_objects::renaming::Numbering;
use weld_tree::{Expr, Exprs, Form, Known, LeafForm, ManyForm, Place, Sym};

/// An expression that stands in no text.
fn placeless(alloc: Global, form: Form) -> Result<Box<Expr>, AllocError>
    ensures { IfOk result (λ e. e.value ≡ view_form form blank_at) }
{
    let place = Place { line: 0, column: 0 };
    Ok(Box::new(
        alloc,
        Expr {
            form,
            place,
            ty: Known::Blank,
        },
    )?)
}

/// A `let` around a body.
fn wrapped(alloc: Global, part: LetPart, body: Box<Expr>) -> Result<Box<Expr>, AllocError>
    ensures { IfOk result (λ e. e.value ≡ let_in blank_at (plain_binder part.number None)
        part.body.value body.value) }
{
    let LetPart {
        number,
        body: value,
    } = part;
    placeless(alloc, Form::Let(new_binder(number, None), value, body))
}

/// The lets around a body.
pub(crate) fn closed(alloc: Global, lets: Lets, body: Box<Expr>) -> Result<Box<Expr>, AllocError>
    ensures { IfOk result (λ e. e.value ≡ chained lets body.value) }
{
    let mut parts = lets.into_vec();
    let mut inner = body;
    while let Some(part) = parts.pop() {
        match wrapped(alloc, part, inner) {
            Ok(e) => inner = e,
            Err(e) => return Err(e),
        }
    }
    Ok(inner)
}

/// The struct of what is shown.
pub(crate) fn struct_of(
    alloc: Global,
    numbers: &Numbering,
    shown: &Ids,
) -> Result<Box<Expr>, AllocError>
    ensures { IfOk result (λ e. e.value ≡ shown_struct (number_in numbers.now) shown.now) }
{
    let mut fields = Exprs::new(alloc);
    for place in 0..shown.len() {
        push_name(&mut fields, numbers.number(Sym(shown.at(place).0)))?;
    }
    placeless(alloc, Form::Many(ManyForm::Struct, fields))
}

fn push_name(fields: &mut Exprs, sym: Sym) -> Result<(), AllocError>
    ensures { OnOk result (fields.new ≡ fields.old ++ leaf blank_at (name_leaf sym.0) ∷ []) }
{
    let place = Place { line: 0, column: 0 };
    fields.push(Expr {
        form: Form::Leaf(LeafForm::Name(sym)),
        place,
        ty: Known::Blank,
    })
}
