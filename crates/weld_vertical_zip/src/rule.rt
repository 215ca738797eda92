//! The rule of the pass.

ghost use Rattle.std.specs.Prelude.{◌≡◌, map, true, IfOk};
ghost use Rattle.weld_tree.specs.ExprTree.{At, loop, pack_legs};
ghost use Rattle.weld_tree.specs.ExprView.{view_form, view_leg};
ghost use Rattle.weld_vertical.specs.Sinking.{is_producer, starts_list};
ghost use Rattle.weld_horizontal.specs.Twice.{bare};
ghost use Rattle.weld_meaning.specs.Names.{put};
ghost use Rattle.weld_vertical_zip.specs.Zipping.{first_made, fits_around, is_made_leg, is_zipped, item_of_start, legs_behind, own_row, sides, unzipped};
ghost use Rattle.weld_vertical_zip.specs.Zips.{is_loop, of_sides, over_legs, spliced_producer, AreFew, IsCut, IsMadeBy};

use crate::producers::place_produced;
use crate::rows::{Sides, own_row};
use crate::sink::{Consumer, Row, sink};
use crate::zips::is_zipped;
use std::alloc::{AllocError, Global};
use std::mem;
use weld_horizontal::{Picks, items_of};
use weld_rewriting::sweep::{Rule, sweep};
use weld_substitution::put_in;
use weld_tree::{Binder, BuildTy, Expr, Form, Known, LeafForm, Leg, Legs, Place, Sym, Ty};

/// A loop over a `zip` of which a leg is the list that another loop makes becomes one loop.
#[derive(Clone, Copy)]
pub struct Zips;

impl Rule for Zips {
    ghost use Rattle.weld_vertical_zip.specs.Zips.{zips_rule};

    ghost rule = { λ _. zips_rule };

    fn try_at(&self, alloc: Global, e: &mut Expr) -> Result<bool, AllocError> {
        if !is_zipped(alloc, &*e)? {
            return Ok(false);
        }
        splice(alloc, e)?;
        sweep(alloc, &Picks, e)?;
        Ok(true)
    }
}

/// The legs before one that another loop makes, and those behind it.
#[derive(Drop)]
struct Others {
    before: Vec<Leg>,
    after: Vec<Leg>,
}

/// Those, and the loop that makes the leg between them.
#[derive(Drop)]
struct Cut {
    others: Others,
    producer: Box<Expr>,
}

/// What the one loop keeps of the consumer: its builder, and what that starts with.
#[derive(Drop)]
struct Outer {
    start: Box<Expr>,
    builder: Box<Binder>,
}

/// The loop over a `zip`, sunk into the loop that makes a leg, over the legs of both.
fn splice(alloc: Global, e: &mut Expr) -> Result<(), AllocError>
    requires { is_zipped e.old ≡ true }
    ensures { IfOk result (λ _. e.new ≡ unzipped e.old) }
{
    let place = e.place;
    let form = mem::replace(&mut e.form, Form::Leaf(LeafForm::Truth(false)));
    let Form::For(legs, start, builder, number, row, body) = form else {
        unreachable!();
    };
    let outer = Outer { start, builder };
    let consumer = Consumer {
        number: Box::into_inner(number),
        row: Box::into_inner(row),
        body,
    };
    e.form = join(alloc, place, &e.ty, legs, outer, consumer)?;
    Ok(())
}

/// The loop that takes the place of a consumer over those legs and of its producer.
#[tactic(auto, using(crate::proofs::Splicing::few_cut, crate::proofs::Splicing::made_cut, crate::proofs::Splicing::loop_made))]
fn join(
    alloc: Global,
    place: Place,
    ty: &Known,
    legs: Legs,
    outer: Outer,
    consumer: Consumer,
) -> Result<Form, AllocError>
    requires { fits_around (first_made (pack_legs legs)) ≡ true }
    ensures { IfOk result (λ form. (at : At) → at.place ≡ place → at.ty ≡ ty.now
        → view_form form at ≡ unzipped (loop at (pack_legs legs) outer.start.value
        outer.builder.value
        consumer.number consumer.row consumer.body.value)) }
{
    let Cut { others, producer } = cut_out(legs)?;
    let mut producer = producer;
    splice_producer(alloc, place, ty, &others, consumer, &mut producer)?;
    over_all(others, outer, producer)
}

/// The legs, cut where the first stands that another loop makes.
fn cut_out(legs: Legs) -> Result<Cut, AllocError>
    requires { fits_around (first_made (pack_legs legs)) ≡ true }
    ensures { IfOk result (λ c. IsCut (pack_legs legs) (pack_legs
        (map view_leg c.others.before.items))
        (pack_legs (map view_leg c.others.after.items)) c.producer.value) }
{
    let mut before = legs.into_vec();
    let Some(at) = place_produced(before.as_slice()) else {
        unreachable!();
    };
    let after = before.split_off(at + 1)?;
    let Some(leg) = before.pop() else {
        unreachable!();
    };
    let producer = producer_of(leg);
    let others = Others { before, after };
    Ok(Cut { others, producer })
}

/// The consumer is sunk into the body of the loop that makes the leg between those.
fn splice_producer(
    alloc: Global,
    place: Place,
    ty: &Known,
    others: &Others,
    consumer: Consumer,
    producer: &mut Expr,
) -> Result<(), AllocError>
    requires made { is_producer producer.old ≡ true }
    requires few { AreFew (sides (pack_legs (map view_leg others.now.before.items)) producer.old
        (pack_legs (map view_leg others.now.after.items))) }
    ensures { IfOk result (λ _. producer.new ≡ spliced_producer ty.now place consumer.number
        consumer.row consumer.body.value (sides (pack_legs (map view_leg others.now.before.items))
        producer.old (pack_legs (map view_leg others.now.after.items))) producer.old) }
{
    let sides = sides_of(alloc, others, &*producer)?;
    splice_body(alloc, place, ty, sides, consumer, producer)
}

/// The same, by the types of the items of all legs.
fn splice_body(
    alloc: Global,
    place: Place,
    ty: &Known,
    sides: Sides,
    consumer: Consumer,
    producer: &mut Expr,
) -> Result<(), AllocError>
    requires made { is_loop producer.old ≡ true }
    requires few { AreFew (of_sides sides) }
    ensures { IfOk result (λ _. producer.new ≡ spliced_producer ty.now place consumer.number
        consumer.row consumer.body.value (of_sides sides) producer.old) }
{
    let Form::For(_, _, _, count, own, body) = &mut producer.form else {
        unreachable!();
    };
    put_own_row(alloc, place, own.sym, &sides, body)?;
    let row = Row {
        count: count.sym,
        name: own.sym,
        sides,
    };
    sink(alloc, ty, place, &row, consumer, body)?;
    forget_note(own);
    Ok(())
}

/// The row of the loop that makes the leg is rebuilt from the row over all legs wherever it is used.
fn put_own_row(
    alloc: Global,
    place: Place,
    own: Sym,
    sides: &Sides,
    body: &mut Expr,
) -> Result<(), AllocError>
    requires { AreFew (of_sides sides.now) }
    ensures { IfOk result (λ _.
        body.new ≡ put own.0 (own_row place own.0 (of_sides sides.now)) body.old) }
{
    let whole = own_row(alloc, place, own, sides)?;
    put_in(alloc, body, own, &whole)
}

/// The types of the items of the legs before, of the producer's, of those behind, and of its list.
fn sides_of(alloc: Global, others: &Others, producer: &Expr) -> Result<Sides, AllocError>
    requires { is_producer producer.now ≡ true }
    ensures { IfOk result (λ s. of_sides s ≡ sides (pack_legs
        (map view_leg others.now.before.items))
        producer.now (pack_legs (map view_leg others.now.after.items))) }
{
    let Form::For(legs, start, _, _, _, _) = &producer.form else {
        unreachable!();
    };
    Ok(Sides {
        before: items_of(alloc, others.before.as_slice())?,
        within: items_of(alloc, legs.as_slice())?,
        after: items_of(alloc, others.after.as_slice())?,
        item: item_of_start(alloc, start)?,
    })
}

/// The loop over the legs before, its own, and those behind, which keeps what the consumer built.
fn over_all(others: Others, outer: Outer, producer: Box<Expr>) -> Result<Form, AllocError>
    requires { is_loop producer.value ≡ true }
    ensures { IfOk result (λ form. (at : At) → view_form form at
        ≡ over_legs at outer.start.value outer.builder.value
        (pack_legs (map view_leg others.before.items))
        (pack_legs (map view_leg others.after.items)) producer.value) }
{
    let Others { before, after } = others;
    let (form, _, _) = Box::into_inner(producer).into_parts();
    let Form::For(legs, _, _, count, own, body) = form else {
        unreachable!();
    };
    let legs = all_legs(before, legs, after)?;
    let Outer { start, builder } = outer;
    Ok(Form::For(legs, start, builder, count, own, body))
}

/// The legs before, within and behind. It fails for want of memory alone.
#[tactic(auto, using(crate::proofs::Splicing::packed_legs))]
pub fn all_legs(before: Vec<Leg>, within: Legs, after: Vec<Leg>) -> Result<Legs, AllocError>
    ensures { IfOk result (λ ls. pack_legs ls ≡ legs_behind (pack_legs (map view_leg before.items))
        (legs_behind (pack_legs within) (pack_legs (map view_leg after.items)))) }
{
    let mut all = before;
    let mut own = within.into_vec();
    let mut last = after;
    all.append(&mut own)?;
    all.append(&mut last)?;
    Ok(Legs::from_vec(all))
}

/// The type of the items of a list that starts so. It fails for want of memory alone.
pub fn item_of_start(alloc: Global, e: &Expr) -> Result<Ty, AllocError>
    requires { starts_list e.now ≡ true }
    ensures { IfOk result (λ t. t ≡ item_of_start e.now) }
{
    let Form::Leaf(LeafForm::Builder(build)) = &e.form else {
        unreachable!();
    };
    let BuildTy::List(item) = build else {
        unreachable!();
    };
    item.copy(alloc)
}

/// The row's note goes, since the row is another.
fn forget_note(row: &mut Binder)
    ensures { row.new ≡ bare row.old }
{
    row.note = None;
}

/// The loop that makes the leg.
fn producer_of(leg: Leg) -> Box<Expr>
    requires { is_made_leg (view_leg leg) ≡ true }
    ensures { IsMadeBy (view_leg leg) result.value }
{
    let Leg::Whole(e) = leg else {
        unreachable!();
    };
    let (form, _, _) = Box::into_inner(e).into_parts();
    let Form::One(_, producer) = form else {
        unreachable!();
    };
    producer
}
