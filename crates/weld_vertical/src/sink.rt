//! A consumer sunk into a producer's body.

ghost use Rattle.std.specs.Prelude.{◌≡◌, ◌+◌, true, false, IfOk};
ghost use Rattle.weld_tree.specs.declared.known.Known.TheVariants.{Is};
ghost use Rattle.weld_tree.specs.ExprTree.{At, leaf, let_in, name};
ghost use Rattle.weld_tree.specs.ExprView.{view_form};
ghost use Rattle.weld_meaning.specs.Typing.{place_type};
ghost use Rattle.weld_vertical.specs.Sinking.{merges, sunk};
ghost use Rattle.weld_vertical.specs.Fusing.{IsPassedOn};

use crate::producers::merges;
use std::alloc::{AllocError, Global};
use std::mem;
use weld_data::Kind;
use weld_tree::{Binder, Expr, Form, Known, LeafForm, Place, Sym, Ty, TyForm};

/// What a consumer does with a row: its row number, its row, and its body.
#[derive(Drop)]
pub(crate) struct Consumer {
    pub(crate) number: Binder,
    pub(crate) row: Binder,
    pub(crate) body: Box<Expr>,
}

/// In the body of a producer, which has this row number and one merge, the consumer takes the place
/// of the merge: its row number is the producer's, its row the value that was merged. Where nothing is
/// merged stands the consumer's builder. The nodes have the consumer's type noted. It fails for want
/// of memory alone; the body may be anything then.
#[cycle(sinking)]
pub(crate) fn sink(
    alloc: Global,
    ty: &Known,
    builder: Sym,
    count: Sym,
    consumer: Consumer,
    e: &mut Expr,
) -> Result<(), AllocError>
    requires { merges e.old ≡ 1 }
    ensures { IfOk result (λ _. e.new
        ≡ sunk ty.now builder.0 count.0 consumer.number consumer.row consumer.body.value e.old) }
{
    let place = e.place;
    match &mut e.form {
        Form::Let(_, _, rest) => sink(alloc, ty, builder, count, consumer, rest)?,
        Form::Two(_, _, value) => {
            let value = mem::replace(&mut **value, blank(place));
            e.form = consume(alloc, ty, place, count, consumer, value)?;
        }
        Form::Three(_, _, first, second) => {
            sink_in_arm(alloc, ty, builder, count, consumer, first, second)?
        }
        _ => unreachable!(),
    }
    e.ty = ty.copy(alloc)?;
    Ok(())
}

/// The same in the arm that has the merge.
#[cycle(sinking)]
#[tactic(auto, using(crate::proofs::Once::second_one))]
fn sink_in_arm(
    alloc: Global,
    ty: &Known,
    builder: Sym,
    count: Sym,
    consumer: Consumer,
    first: &mut Expr,
    second: &mut Expr,
) -> Result<(), AllocError>
    requires { merges first.old + merges second.old ≡ 1 }
    ensures first { IfOk result (λ _. first.new
        ≡ sunk ty.now builder.0 count.0 consumer.number consumer.row consumer.body.value
        first.old) }
    ensures second { IfOk result (λ _. second.new
        ≡ sunk ty.now builder.0 count.0 consumer.number consumer.row consumer.body.value
        second.old) }
{
    if has_the_merge(&*first, &*second) {
        sink(alloc, ty, builder, count, consumer, first)?;
        pass_on(alloc, ty, builder, second)
    } else {
        sink(alloc, ty, builder, count, consumer, second)?;
        pass_on(alloc, ty, builder, first)
    }
}

/// Whether the merge stands in the first of two arms. An arm that is a name has none: so what filters
/// stand in one another are gone through once, and not once for each.
#[tactic(auto, using(crate::proofs::Once::second_one))]
fn has_the_merge(first: &Expr, second: &Expr) -> bool
    requires { merges first.now + merges second.now ≡ 1 }
    ensures first { result ≡ true → merges first.now ≡ 1 }
    ensures second { result ≡ false → merges second.now ≡ 1 }
{
    if let Form::Leaf(_) = &second.form {
        return true;
    }
    if let Form::Leaf(_) = &first.form {
        return false;
    }
    merges(first) == 1
}

/// Where nothing is merged, the consumer's builder takes the place of the producer's.
fn pass_on(alloc: Global, ty: &Known, builder: Sym, e: &mut Expr) -> Result<(), AllocError>
    requires { merges e.old ≡ 0 }
    ensures { IfOk result (λ _. IsPassedOn ty.now builder.0 e.new e.old) }
{
    match &mut e.form {
        Form::Leaf(_) => e.form = Form::Leaf(LeafForm::Name(builder)),
        Form::Let(_, _, rest) => pass_on(alloc, ty, builder, rest)?,
        Form::Three(_, _, first, second) => {
            pass_on(alloc, ty, builder, first)?;
            pass_on(alloc, ty, builder, second)?;
        }
        _ => return Ok(()),
    }
    e.ty = ty.copy(alloc)?;
    Ok(())
}

/// The consumer on the value.
fn consume(
    alloc: Global,
    ty: &Known,
    place: Place,
    count: Sym,
    consumer: Consumer,
    value: Expr,
) -> Result<Form, AllocError>
    ensures { IfOk result (λ form. (at : At) → view_form form at
        ≡ let_in at consumer.number (leaf (record { place = place; ty = Is place_type })
        (name count.0))
        (let_in (record { place = place; ty = ty.now }) consumer.row value consumer.body.value)) }
{
    let Consumer { number, row, body } = consumer;
    let value = Box::new(alloc, value)?;
    let inner = Expr {
        form: Form::Let(row, value, body),
        place,
        ty: ty.copy(alloc)?,
    };
    let inner = Box::new(alloc, inner)?;
    let count = Expr {
        form: Form::Leaf(LeafForm::Name(count)),
        place,
        ty: Known::Is(Ty {
            form: TyForm::Scalar(Kind::I64),
        }),
    };
    let count = Box::new(alloc, count)?;
    Ok(Form::Let(number, count, inner))
}

/// An expression that stands in for one that was taken.
fn blank(place: Place) -> Expr {
    Expr {
        form: Form::Leaf(LeafForm::Truth(false)),
        place,
        ty: Known::Blank,
    }
}
