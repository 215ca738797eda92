//! Programs built by hand.

ghost use Rattle.std.specs.Prelude.{◌≡◌, IfOk};
ghost use Rattle.weld_data.specs.declared.kind.Kind.TheVariants.{I64};
ghost use Rattle.weld_tree.specs.ExprTree.{At, leaf, fresh};
ghost use Rattle.weld_tree.specs.TypeTree.{list, scalar};
ghost use Rattle.weld_tree.specs.ExprView.{view_form};
ghost use Rattle.weld_uses.specs.Walks.{at};

use std::alloc::{AllocError, Global};
use weld_data::Kind;
use weld_tree::{
    Binder, Binders, BuildTy, Expr, Form, Known, LeafForm, OneForm, Place, Program, Sym, ThreeForm,
    TwoForm, Ty,
};

/// The place in that column of the first line.
pub fn column(number: u32) -> Place
    ensures { result ≡ record { line = 1; column = number } }
{
    Place {
        line: 1,
        column: number,
    }
}

/// A node of this form at that place, its type not noted.
pub fn node(alloc: Global, form: Form, place: Place) -> Result<Box<Expr>, AllocError>
    ensures { IfOk result (λ e. e.value ≡ view_form form (at place)) }
{
    let ty = Known::Blank;
    Ok(Box::new(alloc, Expr { form, place, ty })?)
}

/// The form of `appender[i64]`.
pub fn appender(alloc: Global) -> Result<Form, AllocError>
    ensures { IfOk result (λ form. (a : At) → view_form form a
        ≡ leaf a (fresh (list (scalar I64)))) }
{
    let ty = Box::new(alloc, Ty::scalar(Kind::I64))?;
    Ok(Form::Leaf(LeafForm::Builder(BuildTy::List(ty))))
}

/// The program `result(merge(appender[i64], 7L))`.
pub fn merged_once(alloc: Global) -> Result<Program, AllocError> {
    let builder = node(alloc, appender(alloc)?, column(14))?;
    let number = node(alloc, Form::Leaf(LeafForm::Int(Kind::I64, 7)), column(29))?;
    let merged = node(alloc, Form::Two(TwoForm::Merge, builder, number), column(8))?;
    Ok(Program {
        params: Binders::new(alloc),
        body: node(alloc, Form::One(OneForm::Finish, merged), column(1))?,
    })
}

/// The program `result(if(true, appender[i64], appender[i64]))`, of which the arms make a builder each.
pub fn made_in_arms(alloc: Global) -> Result<Program, AllocError> {
    let yes = node(alloc, Form::Leaf(LeafForm::Truth(true)), column(11))?;
    let first = node(alloc, appender(alloc)?, column(17))?;
    let second = node(alloc, appender(alloc)?, column(32))?;
    let chosen = node(
        alloc,
        Form::Three(ThreeForm::If, yes, first, second),
        column(8),
    )?;
    Ok(Program {
        params: Binders::new(alloc),
        body: node(alloc, Form::One(OneForm::Finish, chosen), column(1))?,
    })
}

/// The program `let b = appender[i64]; 7L`, of which the builder is left.
pub fn left_over(alloc: Global) -> Result<Program, AllocError> {
    let value = node(alloc, appender(alloc)?, column(9))?;
    let seven = node(alloc, Form::Leaf(LeafForm::Int(Kind::I64, 7)), column(24))?;
    let name = Binder {
        sym: Sym(0),
        place: column(5),
        note: None,
        note_place: column(5),
    };
    Ok(Program {
        params: Binders::new(alloc),
        body: node(alloc, Form::Let(name, value, seven), column(1))?,
    })
}
