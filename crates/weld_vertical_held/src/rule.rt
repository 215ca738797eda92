//! The rule of the pass.

ghost use Rattle.std.specs.Prelude.{◌≡◌, true, Some, IfOk};
ghost use Rattle.weld_tree.specs.ExprTree.{At, pack_legs};
ghost use Rattle.weld_tree.specs.ExprView.{view_form, view_leg};
ghost use Rattle.weld_vertical.specs.Fusing.{IsMadeBy, IsOnlyBy, is_only_result, is_result_leg};
ghost use Rattle.weld_handing.specs.Walking.{body_merges, joined};
ghost use Rattle.weld_vertical_held.specs.Rule.{handed_over, is_over_list};

use crate::over_list::is_over_list;
use std::alloc::{AllocError, Global};
use std::mem;
use weld_handing::{Consumer, forget_note, hand_body};
use weld_rewriting::sweep::Rule;
use weld_tree::{Expr, Form, Known, LeafForm, Leg, Legs};

/// A loop over the list that another loop makes, which may hold its builder wherever it likes, becomes
/// one loop.
#[derive(Clone, Copy)]
pub struct HandedOver;

impl Rule for HandedOver {
    ghost use Rattle.weld_vertical_held.specs.Rule.{handing_rule};

    ghost rule = { λ _. handing_rule };

    fn try_at(&self, alloc: Global, e: &mut Expr) -> Result<bool, AllocError> {
        if !is_over_list(&*e, alloc)? {
            return Ok(false);
        }
        hand_over(alloc, e)?;
        Ok(true)
    }
}

/// The loop runs over the legs of the loop that makes its list, whose body is handed over to it.
#[tactic(auto, using(crate::proofs::Joined::handed_joined, crate::proofs::Joined::only_result, crate::proofs::Joined::one_merge, crate::proofs::Joined::noted_there))]
fn hand_over(alloc: Global, e: &mut Expr) -> Result<(), AllocError>
    requires { is_over_list e.old ≡ true }
    ensures { IfOk result (λ _. e.new ≡ handed_over e.old) }
{
    let form = mem::replace(&mut e.form, Form::Leaf(LeafForm::Truth(false)));
    let Form::For(legs, start, builder, number, row, body) = form else {
        unreachable!();
    };
    let producer = only_producer(legs);
    let consumer = Consumer {
        builder: Box::into_inner(builder),
        number: Box::into_inner(number),
        row: Box::into_inner(row),
        body,
    };
    e.form = join(alloc, &e.ty, start, consumer, producer)?;
    Ok(())
}

/// The loop that takes the place of a consumer and of its producer.
fn join(
    alloc: Global,
    ty: &Known,
    start: Box<Expr>,
    consumer: Consumer,
    producer: Box<Expr>,
) -> Result<Form, AllocError>
    requires { body_merges producer.value ≡ 1 }
    ensures { IfOk result (λ form. (at : At) → at.ty ≡ ty.now
        → view_form form at ≡ joined at start.value consumer producer.value) }
{
    let (form, _, _) = Box::into_inner(producer).into_parts();
    let Form::For(legs, _, own, count, item, inside) = form else {
        unreachable!();
    };
    let mut own = own;
    let mut inside = inside;
    hand_body(
        alloc,
        ty,
        own.sym,
        count.sym,
        item.sym,
        consumer,
        &mut inside,
    )?;
    forget_note(&mut own);
    Ok(Form::For(legs, start, own, count, item, inside))
}

/// The loop that makes the only leg.
#[tactic(auto, using(crate::proofs::Joined::leg_of))]
fn only_producer(legs: Legs) -> Box<Expr>
    requires { is_only_result (pack_legs legs) ≡ true }
    ensures { IsOnlyBy (pack_legs legs) result.value }
{
    let mut legs = legs.into_vec();
    match legs.pop() {
        Some(leg) => producer_of(leg),
        None => unreachable!(),
    }
}

/// The loop that makes the leg.
fn producer_of(leg: Leg) -> Box<Expr>
    requires { is_result_leg (view_leg leg) ≡ true }
    ensures { IsMadeBy (view_leg leg) result.value }
{
    let Leg::Whole(e) = leg else {
        unreachable!();
    };
    let (form, _, _) = Box::into_inner(e).into_parts();
    let Form::One(_, producer) = form else {
        unreachable!();
    };
    producer
}
