//! The rule of the pass.

ghost use Rattle.std.specs.Prelude.{◌≡◌, map, true, Some, IfOk};
ghost use Rattle.weld_tree.specs.ExprTree.{At, leaf, loop, name as name_of, pack_legs};
ghost use Rattle.weld_tree.specs.ExprView.{view_form, view_leg};
ghost use Rattle.weld_handing.specs.Handing.{handed_by, unnoted};
ghost use Rattle.weld_handing.specs.Merging.{list_merges};
ghost use Rattle.weld_handing.specs.Walking.{names_within};
ghost use Rattle.weld_horizontal.specs.Twice.{node_of};
ghost use Rattle.weld_meaning.specs.Names.{put};
ghost use Rattle.weld_vertical_zip.specs.Zipping.{fits_around, own_row, sides};
ghost use Rattle.weld_vertical_zip.specs.Zips.{is_loop, of_sides, AreFew};
ghost use Rattle.weld_vertical_zip_held.specs.Rule.{first_each, is_each_leg, is_over_each, makes_each, over_own, whole_of, zip_over, zip_within, IsCutEach, IsEachBy};

use crate::legs::{is_over_each, place_each};
use std::alloc::{AllocError, Global};
use std::mem;
use weld_handing::{Consumer, forget_note, hand_body};
use weld_horizontal::{Picks, items_of};
use weld_rewriting::sweep::{Rule, sweep};
use weld_substitution::put_in;
use weld_tree::{Expr, Form, Known, LeafForm, Leg, Legs, Place, Sym, Ty};
use weld_vertical_zip::rows::{Sides, made_row, own_row};
use weld_vertical_zip::{all_legs, item_of_start};

/// A loop over a `zip` of which a leg is the list that another loop makes, which may hold its builder
/// wherever it likes, becomes one loop.
#[derive(Clone, Copy)]
pub struct ZipHandedOver;

impl Rule for ZipHandedOver {
    ghost use Rattle.weld_vertical_zip_held.specs.Rule.{zip_handing_rule};

    ghost rule = { λ _. zip_handing_rule };

    fn try_at(&self, alloc: Global, e: &mut Expr) -> Result<bool, AllocError> {
        if !is_over_each(alloc, &*e)? {
            return Ok(false);
        }
        hand_over(alloc, e)?;
        sweep(alloc, &Picks, e)?;
        Ok(true)
    }
}

/// The legs before one that another loop makes, and those behind it.
#[derive(Drop)]
struct Others {
    before: Vec<Leg>,
    after: Vec<Leg>,
}

/// Those, and the loop that makes the leg between them.
#[derive(Drop)]
struct Cut {
    others: Others,
    producer: Box<Expr>,
}

/// The loop runs over all legs, and the body of the loop that makes one is handed over to it.
fn hand_over(alloc: Global, e: &mut Expr) -> Result<(), AllocError>
    requires { is_over_each e.old ≡ true }
    ensures { IfOk result (λ _. e.new ≡ zip_over e.old) }
{
    let place = e.place;
    let form = mem::replace(&mut e.form, Form::Leaf(LeafForm::Truth(false)));
    let Form::For(legs, start, builder, number, row, body) = form else {
        unreachable!();
    };
    let consumer = Consumer {
        builder: Box::into_inner(builder),
        number: Box::into_inner(number),
        row: Box::into_inner(row),
        body,
    };
    e.form = join(alloc, place, &e.ty, legs, start, consumer)?;
    Ok(())
}

/// The loop that takes the place of a consumer over those legs and of its producer.
#[tactic(auto, using(crate::proofs::Cutting::few_cut, crate::proofs::Cutting::each_cut, crate::proofs::Cutting::loop_cut))]
fn join(
    alloc: Global,
    place: Place,
    ty: &Known,
    legs: Legs,
    start: Box<Expr>,
    consumer: Consumer,
) -> Result<Form, AllocError>
    requires { fits_around (first_each (pack_legs legs)) ≡ true }
    ensures { IfOk result (λ form. (at : At) → at.place ≡ place → at.ty ≡ ty.now
        → view_form form at ≡ zip_over (loop at (pack_legs legs) start.value consumer.builder
        consumer.number consumer.row consumer.body.value)) }
{
    let Cut { others, producer } = cut_out(alloc, legs)?;
    let mut producer = producer;
    hand_producer(alloc, place, ty, &others, consumer, &mut producer)?;
    over_all(others, start, producer)
}

/// The legs, cut where the first stands that another loop makes.
fn cut_out(alloc: Global, legs: Legs) -> Result<Cut, AllocError>
    requires { fits_around (first_each (pack_legs legs)) ≡ true }
    ensures { IfOk result (λ c. IsCutEach (pack_legs legs) (pack_legs
        (map view_leg c.others.before.items))
        (pack_legs (map view_leg c.others.after.items)) c.producer.value) }
{
    let mut before = legs.into_vec();
    let Some(at) = place_each(alloc, before.as_slice())? else {
        unreachable!();
    };
    let after = before.split_off(at + 1)?;
    let Some(leg) = before.pop() else {
        unreachable!();
    };
    let producer = producer_of(leg);
    let others = Others { before, after };
    Ok(Cut { others, producer })
}

/// The loop that makes the leg.
fn producer_of(leg: Leg) -> Box<Expr>
    requires { is_each_leg (view_leg leg) ≡ true }
    ensures { IsEachBy (view_leg leg) result.value }
{
    let Leg::Whole(e) = leg else {
        unreachable!();
    };
    let (form, _, _) = Box::into_inner(e).into_parts();
    let Form::One(_, producer) = form else {
        unreachable!();
    };
    producer
}

/// The body of the loop that makes the leg between those is handed over to the consumer.
fn hand_producer(
    alloc: Global,
    place: Place,
    ty: &Known,
    others: &Others,
    consumer: Consumer,
    producer: &mut Expr,
) -> Result<(), AllocError>
    requires made { makes_each producer.old ≡ true }
    requires few { AreFew (sides (pack_legs (map view_leg others.now.before.items)) producer.old
        (pack_legs (map view_leg others.now.after.items))) }
    ensures { IfOk result (λ _. producer.new ≡ zip_within ty.now place consumer.builder
        consumer.number consumer.row consumer.body.value
        (sides (pack_legs (map view_leg others.now.before.items)) producer.old
        (pack_legs (map view_leg others.now.after.items))) producer.old) }
{
    let sides = sides_of(alloc, others, &*producer)?;
    hand_within(alloc, place, ty, &sides, consumer, producer)
}

/// The types of the items of the legs before, of the producer's, of those behind, and of its list.
fn sides_of(alloc: Global, others: &Others, producer: &Expr) -> Result<Sides, AllocError>
    requires { makes_each producer.now ≡ true }
    ensures { IfOk result (λ s. of_sides s ≡ sides (pack_legs
        (map view_leg others.now.before.items))
        producer.now (pack_legs (map view_leg others.now.after.items))) }
{
    let Form::For(legs, start, _, _, _, _) = &producer.form else {
        unreachable!();
    };
    Ok(Sides {
        before: items_of(alloc, others.before.as_slice())?,
        within: items_of(alloc, legs.as_slice())?,
        after: items_of(alloc, others.after.as_slice())?,
        item: item_of_start(alloc, start)?,
    })
}

/// The body is handed over, by the types of the items of all legs: its own row is rebuilt from the row
/// over all legs, and so is the consumer's, from that and the item that is merged.
#[tactic(auto, using(crate::proofs::Cutting::one_merge))]
fn hand_within(
    alloc: Global,
    place: Place,
    ty: &Known,
    sides: &Sides,
    consumer: Consumer,
    producer: &mut Expr,
) -> Result<(), AllocError>
    requires made { makes_each producer.old ≡ true }
    requires few { AreFew (of_sides sides.now) }
    ensures { IfOk result (λ _. producer.new ≡ zip_within ty.now place consumer.builder
        consumer.number consumer.row consumer.body.value (of_sides sides.now) producer.old) }
{
    let Form::For(_, _, own, count, item, inside) = &mut producer.form else {
        unreachable!();
    };
    let names = Names {
        own: own.sym,
        count: count.sym,
        item: item.sym,
    };
    hand_rebuilt(alloc, place, ty, names, sides, consumer, inside)?;
    forget_note(own);
    forget_note(item);
    Ok(())
}

/// The names that the loop that makes the leg binds.
#[derive(Clone, Copy)]
struct Names {
    own: Sym,
    count: Sym,
    item: Sym,
}

/// The body of a loop with these names is handed over to the consumer, both with their rows rebuilt.
fn hand_rebuilt(
    alloc: Global,
    place: Place,
    ty: &Known,
    names: Names,
    sides: &Sides,
    consumer: Consumer,
    inside: &mut Expr,
) -> Result<(), AllocError>
    requires few { AreFew (of_sides sides.now) }
    requires once { list_merges (names_within names.own.0 names.count.0 names.item.0)
        (put names.item.0 (own_row place names.item.0 (of_sides sides.now)) inside.old) ≡ 1 }
    ensures { IfOk result (λ _. inside.new ≡ handed_by ty.now names.count.0 consumer.builder
        consumer.number (unnoted consumer.row) (put consumer.row.sym.0
        (whole_of place names.item.0 (of_sides sides.now) consumer.row.sym.0) consumer.body.value)
        (names_within names.own.0 names.count.0 names.item.0)
        (put names.item.0 (own_row place names.item.0 (of_sides sides.now)) inside.old)) }
{
    let consumer = rebuilt(alloc, place, names.item, sides, consumer)?;
    put_own_row(alloc, place, names.item, sides, inside)?;
    hand_body(
        alloc,
        ty,
        names.own,
        names.count,
        names.item,
        consumer,
        inside,
    )
}

/// The consumer with its row rebuilt from the row over all legs, of this name, and its own row as the
/// item that is merged.
fn rebuilt(
    alloc: Global,
    place: Place,
    whole: Sym,
    sides: &Sides,
    consumer: Consumer,
) -> Result<Consumer, AllocError>
    requires { AreFew (of_sides sides.now) }
    ensures builder { IfOk result (λ c. c.builder ≡ consumer.builder) }
    ensures number { IfOk result (λ c. c.number ≡ consumer.number) }
    ensures row { IfOk result (λ c. c.row ≡ unnoted consumer.row) }
    ensures body { IfOk result (λ c. c.body.value ≡ put consumer.row.sym.0
        (whole_of place whole.0 (of_sides sides.now) consumer.row.sym.0) consumer.body.value) }
{
    let mut consumer = consumer;
    let item = item_at(alloc, place, consumer.row.sym, &sides.item)?;
    let row = made_row(alloc, place, whole, sides, item)?;
    put_in(alloc, &mut consumer.body, consumer.row.sym, &row)?;
    forget_note(&mut consumer.row);
    Ok(consumer)
}

/// The name, of that type.
fn item_at(alloc: Global, place: Place, name: Sym, ty: &Ty) -> Result<Expr, AllocError>
    ensures { IfOk result (λ e. e ≡ leaf (node_of place ty.now) (name_of name.0)) }
{
    Ok(Expr {
        form: Form::Leaf(LeafForm::Name(name)),
        place,
        ty: Known::Is(ty.copy(alloc)?),
    })
}

/// The row of the loop that makes the leg is rebuilt from the row over all legs wherever it is used.
fn put_own_row(
    alloc: Global,
    place: Place,
    own: Sym,
    sides: &Sides,
    body: &mut Expr,
) -> Result<(), AllocError>
    requires { AreFew (of_sides sides.now) }
    ensures { IfOk result (λ _.
        body.new ≡ put own.0 (own_row place own.0 (of_sides sides.now)) body.old) }
{
    let whole = own_row(alloc, place, own, sides)?;
    put_in(alloc, body, own, &whole)
}

/// The loop over the legs before, its own, and those behind, which starts as the consumer did.
fn over_all(others: Others, start: Box<Expr>, producer: Box<Expr>) -> Result<Form, AllocError>
    requires { is_loop producer.value ≡ true }
    ensures { IfOk result (λ form. (at : At) → view_form form at ≡ over_own at start.value
        (pack_legs (map view_leg others.before.items))
        (pack_legs (map view_leg others.after.items)) producer.value) }
{
    let Others { before, after } = others;
    let (form, _, _) = Box::into_inner(producer).into_parts();
    let Form::For(legs, _, own, count, item, body) = form else {
        unreachable!();
    };
    let legs = all_legs(before, legs, after)?;
    Ok(Form::For(legs, start, own, count, item, body))
}
