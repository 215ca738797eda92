//! Programs and expressions built by hand.

ghost use Rattle.std.specs.Prelude.{◌≡◌};
ghost use Rattle.weld_tree.specs.Program.{loops};

use std::alloc::{AllocError, Global};
use weld_data::Kind;
use weld_tree::{Binders, Expr, Form, Known, LeafForm, Place, Program};

/// A node of this form at the first place of a text, its type not known.
pub fn node(alloc: Global, form: Form) -> Result<Box<Expr>, AllocError> {
    Ok(Box::new(
        alloc,
        Expr {
            form,
            place: Place { line: 1, column: 1 },
            ty: Known::Blank,
        },
    )?)
}

/// The program whose body is the number.
pub fn constant(alloc: Global, number: i64) -> Result<Program, AllocError> {
    let body = Expr {
        form: Form::Leaf(LeafForm::Int(Kind::I64, i128::from(number))),
        place: Place { line: 1, column: 1 },
        ty: Known::Blank,
    };
    Ok(Program {
        params: Binders::new(alloc),
        body: Box::new(alloc, body)?,
    })
}
