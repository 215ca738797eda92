//! A consumer sunk into the body of a loop that makes a leg of its `zip`.

ghost use Rattle.std.specs.Prelude.{◌≡◌, IfOk};
ghost use Rattle.weld_tree.specs.declared.known.Known.TheVariants.{Is};
ghost use Rattle.weld_tree.specs.ExprTree.{At, leaf, let_in, name};
ghost use Rattle.weld_tree.specs.ExprView.{view_form};
ghost use Rattle.weld_meaning.specs.Typing.{place_type};
ghost use Rattle.weld_vertical_zip.specs.Zipping.{made_row};
ghost use Rattle.weld_vertical_zip.specs.Zips.{of_sides, spliced_body, AreFew};

use crate::rows::{Sides, made_row};
use std::alloc::{AllocError, Global};
use std::mem;
use weld_data::Kind;
use weld_tree::{Binder, Expr, Form, Known, LeafForm, Place, Sym, Ty, TyForm};

/// What a consumer does with a row: its row number, its row, and its body.
#[derive(Drop)]
pub(crate) struct Consumer {
    pub(crate) number: Binder,
    pub(crate) row: Binder,
    pub(crate) body: Box<Expr>,
}

/// The row of the one loop: its number, its name, and the types of its items.
#[derive(Drop)]
pub(crate) struct Row {
    pub(crate) count: Sym,
    pub(crate) name: Sym,
    pub(crate) sides: Sides,
}

/// In the body of a producer the consumer takes the place of the merge: its row number is the
/// producer's, its row the struct of the value that was merged and the items beside it. The nodes
/// have the consumer's type noted; the struct stands at the place. It fails for want of memory alone;
/// the body may be anything then.
pub(crate) fn sink(
    alloc: Global,
    ty: &Known,
    place: Place,
    row: &Row,
    consumer: Consumer,
    e: &mut Expr,
) -> Result<(), AllocError>
    requires { AreFew (of_sides row.now.sides) }
    ensures { IfOk result (λ _. e.new
        ≡ spliced_body ty.now row.now.count.0 consumer.number consumer.row consumer.body.value place
        row.now.name.0 (of_sides row.now.sides) e.old) }
{
    let here = e.place;
    match &mut e.form {
        Form::Let(_, _, rest) => sink(alloc, ty, place, row, consumer, rest)?,
        Form::Two(_, _, value) => {
            let value = mem::replace(&mut **value, blank(here));
            e.form = consume_row(alloc, ty, here, place, row, consumer, value)?;
        }
        _ => return Ok(()),
    }
    e.ty = ty.copy(alloc)?;
    Ok(())
}

/// The consumer on the row that is made of the value.
fn consume_row(
    alloc: Global,
    ty: &Known,
    here: Place,
    place: Place,
    row: &Row,
    consumer: Consumer,
    value: Expr,
) -> Result<Form, AllocError>
    requires { AreFew (of_sides row.now.sides) }
    ensures { IfOk result (λ form. (at : At) → view_form form at
        ≡ let_in at consumer.number
        (leaf (record { place = here; ty = Is place_type }) (name row.now.count.0))
        (let_in (record { place = here; ty = ty.now }) consumer.row
        (made_row place row.now.name.0 (of_sides row.now.sides) value) consumer.body.value)) }
{
    let value = made_row(alloc, place, row.name, &row.sides, value)?;
    consume(alloc, ty, here, row.count, consumer, value)
}

/// The consumer on the value.
fn consume(
    alloc: Global,
    ty: &Known,
    place: Place,
    count: Sym,
    consumer: Consumer,
    value: Expr,
) -> Result<Form, AllocError>
    ensures { IfOk result (λ form. (at : At) → view_form form at
        ≡ let_in at consumer.number (leaf (record { place = place; ty = Is place_type })
        (name count.0))
        (let_in (record { place = place; ty = ty.now }) consumer.row value consumer.body.value)) }
{
    let Consumer { number, row, body } = consumer;
    let value = Box::new(alloc, value)?;
    let inner = Expr {
        form: Form::Let(row, value, body),
        place,
        ty: ty.copy(alloc)?,
    };
    let inner = Box::new(alloc, inner)?;
    let count = Expr {
        form: Form::Leaf(LeafForm::Name(count)),
        place,
        ty: Known::Is(Ty {
            form: TyForm::Scalar(Kind::I64),
        }),
    };
    let count = Box::new(alloc, count)?;
    Ok(Form::Let(number, count, inner))
}

/// An expression that stands in for one that was taken.
fn blank(place: Place) -> Expr {
    Expr {
        form: Form::Leaf(LeafForm::Truth(false)),
        place,
        ty: Known::Blank,
    }
}
