//! A node of a body that is handed over, once its parts are.

ghost use Rattle.std.specs.Prelude.{◌≡◌, ◌≤◌, true, false, if◌then◌else◌, IfOk};
ghost use Rattle.weld_tree.specs.declared.known.Known.TheVariants.{Is};
ghost use Rattle.weld_tree.specs.ExprTree.{At, leaf, let_in, name};
ghost use Rattle.weld_tree.specs.ExprView.{view_form};
ghost use Rattle.weld_meaning.specs.Typing.{place_type};
ghost use Rattle.weld_handing.specs.Handing.{unnoted};
ghost use Rattle.weld_handing.specs.Walking.{consumed, is_lambda, is_list_merge, is_two, left, noted, settled, taken};

use crate::merging::{is_held, is_merge};
use crate::noting::hand_note;
use std::alloc::{AllocError, Global};
use std::mem;
use weld_data::Kind;
use weld_linear::Source;
use weld_tree::{Binder, Expr, Form, Known, LeafForm, Place, Sym, Ty, TyForm};

/// What is done with a row: the binders of the builder, of the row number and of the row, and the body.
#[derive(Drop)]
pub struct Consumer {
    pub builder: Binder,
    pub number: Binder,
    pub row: Binder,
    pub body: Box<Expr>,
}

/// Where the node, which answers what comes from there, is a merge into the list, the consumer takes its
/// place; else the type of the node is noted anew. It fails for want of memory alone; the node may be
/// anything then.
pub(crate) fn settle(
    alloc: Global,
    ty: &Ty,
    count: Sym,
    consumer: &mut Option<Consumer>,
    source: &Source,
    e: &mut Expr,
) -> Result<(), AllocError>
    requires { (if is_list_merge source.now e.old then 1 else 0) ≤ left consumer.old }
    ensures taken { IfOk result (λ _. consumer.new
        ≡ taken (if is_list_merge source.now e.old then 1 else 0) consumer.old) }
    ensures settled { IfOk result (λ _.
        e.new ≡ settled ty.now count.0 consumer.old source.now e.old) }
{
    if !is_list_merge(source, &*e) {
        return note(alloc, ty, source, e);
    }
    match consumer.take() {
        Some(consumer) => consume(alloc, ty, count, consumer, e),
        None => unreachable!(),
    }
}

fn is_list_merge(source: &Source, e: &Expr) -> bool
    ensures { result ≡ is_list_merge source.now e.now }
{
    match &e.form {
        Form::Two(two, _, _) => is_merge(*two) && is_held(source),
        _ => false,
    }
}

fn is_lambda(e: &Expr) -> bool
    ensures { result ≡ is_lambda e.now }
{
    match &e.form {
        Form::For(_, _, _, _, _, _) | Form::Iterate(_, _, _) => true,
        _ => false,
    }
}

/// The type of the node noted anew.
fn note(alloc: Global, ty: &Ty, source: &Source, e: &mut Expr) -> Result<(), AllocError>
    ensures { IfOk result (λ _. e.new ≡ noted ty.now source.now e.old) }
{
    if is_lambda(&*e) {
        return Ok(());
    }
    hand_note(alloc, ty, source, &mut e.ty)
}

/// The consumer in the place of a merge.
fn consume(
    alloc: Global,
    ty: &Ty,
    count: Sym,
    consumer: Consumer,
    e: &mut Expr,
) -> Result<(), AllocError>
    requires { is_two e.old ≡ true }
    ensures { IfOk result (λ _. e.new
        ≡ consumed ty.now count.0 consumer.builder consumer.number consumer.row
        consumer.body.value e.old) }
{
    let place = e.place;
    let form = mem::replace(&mut e.form, Form::Leaf(LeafForm::Truth(false)));
    let Form::Two(_, builder, value) = form else {
        unreachable!();
    };
    e.form = bound(alloc, ty, place, count, consumer, builder, value)?;
    e.ty = Known::Is(ty.copy(alloc)?);
    Ok(())
}

/// The consumer on the builder and the value, its row number that of the loop.
fn bound(
    alloc: Global,
    ty: &Ty,
    place: Place,
    count: Sym,
    consumer: Consumer,
    builder: Box<Expr>,
    value: Box<Expr>,
) -> Result<Form, AllocError>
    ensures { IfOk result (λ form. (at : At) → view_form form at
        ≡ let_in at consumer.builder builder.value
        (let_in (record { place = place; ty = Is ty.now }) consumer.number
        (leaf (record { place = place; ty = Is place_type }) (name count.0))
        (let_in (record { place = place; ty = Is ty.now }) consumer.row value.value
        consumer.body.value))) }
{
    let Consumer {
        builder: own,
        number,
        row,
        body,
    } = consumer;
    let count = Expr {
        form: Form::Leaf(LeafForm::Name(count)),
        place,
        ty: Known::Is(Ty {
            form: TyForm::Scalar(Kind::I64),
        }),
    };
    let count = Box::new(alloc, count)?;
    let body = let_at(alloc, ty, place, row, value, body)?;
    let body = let_at(alloc, ty, place, number, count, body)?;
    Ok(Form::Let(own, builder, body))
}

/// A `let` of the type.
fn let_at(
    alloc: Global,
    ty: &Ty,
    place: Place,
    binder: Binder,
    value: Box<Expr>,
    body: Box<Expr>,
) -> Result<Box<Expr>, AllocError>
    ensures { IfOk result (λ e. e.value ≡ let_in (record { place = place; ty = Is ty.now }) binder
        value.value body.value) }
{
    let e = Expr {
        form: Form::Let(binder, value, body),
        place,
        ty: Known::Is(ty.copy(alloc)?),
    };
    Ok(Box::new(alloc, e)?)
}

/// The binder's written type goes, since the name holds another builder.
pub fn forget_note(binder: &mut Binder)
    ensures { binder.new ≡ unnoted binder.old }
{
    binder.note = None;
}
