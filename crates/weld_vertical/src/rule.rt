//! The rule of the pass.

ghost use Rattle.std.specs.Prelude.{◌≡◌, true, IfOk};
ghost use Rattle.weld_tree.specs.ExprTree.{At, pack_legs};
ghost use Rattle.weld_tree.specs.ExprView.{view_form, view_leg};
ghost use Rattle.weld_vertical.specs.Sinking.{fused, is_consumer};
ghost use Rattle.weld_vertical.specs.Fusing.{IsMadeBy, IsOnlyBy, body_merges, is_only_result, is_result_leg, joined};

use crate::producers::is_consumer;
use crate::sink::{Consumer, sink};
use std::alloc::{AllocError, Global};
use std::mem;
use weld_rewriting::sweep::Rule;
use weld_tree::{Binder, Expr, Form, Known, LeafForm, Leg, Legs};

/// A loop over what another loop makes becomes one loop.
#[derive(Clone, Copy)]
pub struct Loops;

impl Rule for Loops {
    ghost use Rattle.weld_vertical.specs.Fusing.{loops_rule};

    ghost rule = { λ _. loops_rule };

    fn try_at(&self, alloc: Global, e: &mut Expr) -> Result<bool, AllocError> {
        if !is_consumer(&*e) {
            return Ok(false);
        }
        fuse(alloc, e)?;
        Ok(true)
    }
}

/// The consumer runs over the producer's legs, sunk into the producer's body.
#[tactic(auto, using(crate::proofs::Legs::fused_joined, crate::proofs::Legs::only_result, crate::proofs::Legs::made_there, crate::proofs::Legs::one_merge))]
fn fuse(alloc: Global, e: &mut Expr) -> Result<(), AllocError>
    requires { is_consumer e.old ≡ true }
    ensures { IfOk result (λ _. e.new ≡ fused e.old) }
{
    let form = mem::replace(&mut e.form, Form::Leaf(LeafForm::Truth(false)));
    let Form::For(legs, start, builder, number, row, body) = form else {
        unreachable!();
    };
    let producer = only_producer(legs);
    let consumer = Consumer {
        number: Box::into_inner(number),
        row: Box::into_inner(row),
        body,
    };
    e.form = join(alloc, &e.ty, start, builder, consumer, producer)?;
    Ok(())
}

/// The loop that takes the place of a consumer and of its producer.
fn join(
    alloc: Global,
    ty: &Known,
    start: Box<Expr>,
    builder: Box<Binder>,
    consumer: Consumer,
    producer: Box<Expr>,
) -> Result<Form, AllocError>
    requires { body_merges producer.value ≡ 1 }
    ensures { IfOk result (λ form. (at : At) → at.ty ≡ ty.now
        → view_form form at ≡ joined at start.value builder.value consumer.number consumer.row
        consumer.body.value producer.value) }
{
    let (form, _, _) = Box::into_inner(producer).into_parts();
    let Form::For(legs, _, _, count, item, inside) = form else {
        unreachable!();
    };
    let mut inside = inside;
    sink(alloc, ty, builder.sym, count.sym, consumer, &mut inside)?;
    Ok(Form::For(legs, start, builder, count, item, inside))
}

/// The loop that makes the only leg.
#[tactic(auto, using(crate::proofs::Legs::leg_of))]
fn only_producer(legs: Legs) -> Box<Expr>
    requires { is_only_result (pack_legs legs) ≡ true }
    ensures { IsOnlyBy (pack_legs legs) result.value }
{
    let mut legs = legs.into_vec();
    match legs.pop() {
        Some(leg) => producer_of(leg),
        None => unreachable!(),
    }
}

/// The loop that makes the leg.
fn producer_of(leg: Leg) -> Box<Expr>
    requires { is_result_leg (view_leg leg) ≡ true }
    ensures { IsMadeBy (view_leg leg) result.value }
{
    let Leg::Whole(e) = leg else {
        unreachable!();
    };
    let (form, _, _) = Box::into_inner(e).into_parts();
    let Form::One(_, producer) = form else {
        unreachable!();
    };
    producer
}
