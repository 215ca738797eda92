//! Rules tried once pairs are taken apart.

ghost use Rattle.std.specs.Prelude.{◌≡◌, IfOk, map, option_map};
ghost use Rattle.weld_tree.specs.declared.sym.Sym.{Sym};
ghost use Rattle.weld_tree.specs.ExprTree.{At, pack_legs};
ghost use Rattle.weld_tree.specs.ExprView.{view_form, view_leg};
ghost use Rattle.weld_vertical_struct.specs.Held.{builder_of, leg_has_pair, legs_have_pair, loop_has_pair, opened_in_body, opened_in_legs, opened_leg, opened_legs, opened_loop, opened_producer, opened_result, producer_has_pair, result_has_pair, row_of};

use crate::lets::{Names, has_pair, open};
use std::alloc::{AllocError, Global};
use weld_rewriting::sweep::Rule;
use weld_tree::{Expr, Form, Leg, Legs, Sym};

/// The rule, tried at a node once the pairs are taken apart in the bodies of the loops that make its
/// legs. Where it doesn't match then, the node stays as it was.
#[derive(Clone, Copy)]
pub struct Opened<R> {
    pub rule: R,
}

impl<R: Rule> Rule for Opened<R> {
    ghost use Rattle.weld_vertical_struct.specs.Held.{opened_rule};

    ghost rule = { λ o. opened_rule (R.rule o.rule) };

    #[tactic(auto, using(crate::proofs::Trying::opened_is, crate::proofs::Trying::opened_left, crate::proofs::Trying::opened_matched))]
    fn try_at(&self, alloc: Global, e: &mut Expr) -> Result<bool, AllocError> {
        if !producer_has_pair(&*e) {
            return self.rule.try_at(alloc, e);
        }
        let mut copy = e.copy(alloc)?;
        open_producer(alloc, &mut copy)?;
        if !self.rule.try_at(alloc, &mut copy)? {
            return Ok(false);
        }
        *e = copy;
        Ok(true)
    }
}

/// The row of a loop.
fn row_of(e: &Expr) -> Option<Sym>
    ensures { option_map (λ (s : Sym). s.0) result ≡ row_of e.now }
{
    match &e.form {
        Form::For(_, _, _, _, row, _) => Some(row.sym),
        _ => None,
    }
}

/// Takes pairs apart in the bodies of the loops that make the legs.
#[tactic(auto, using(crate::proofs::Finding::no_row, crate::proofs::Finding::own_row))]
fn open_producer(alloc: Global, e: &mut Expr) -> Result<(), AllocError>
    ensures { IfOk result (λ _. e.new ≡ opened_producer e.old) }
{
    let Some(part) = row_of(&*e) else {
        return Ok(());
    };
    open_in_legs(alloc, e, part)
}

fn open_in_legs(alloc: Global, e: &mut Expr, part: Sym) -> Result<(), AllocError>
    ensures { IfOk result (λ _. e.new ≡ opened_in_legs part.0 e.old) }
{
    match &mut e.form {
        Form::For(legs, _, _, _, _, _) => open_legs(alloc, legs, part),
        _ => Ok(()),
    }
}

fn open_legs(alloc: Global, legs: &mut Legs, part: Sym) -> Result<(), AllocError>
    ensures { IfOk result (λ _. pack_legs legs.new ≡ opened_legs part.0 (pack_legs legs.old)) }
{
    open_each_leg(alloc, legs.as_mut_slice(), part)
}

fn open_each_leg(alloc: Global, legs: &mut [Leg], part: Sym) -> Result<(), AllocError>
    ensures { IfOk result (λ _.
        map view_leg legs.new ≡ map (opened_leg part.0) (map view_leg legs.old)) }
{
    for leg in legs.iter_mut() {
        open_leg(alloc, leg, part)?;
    }
    Ok(())
}

fn open_leg(alloc: Global, leg: &mut Leg, part: Sym) -> Result<(), AllocError>
    ensures { IfOk result (λ _. view_leg leg.new ≡ opened_leg part.0 (view_leg leg.old)) }
{
    match leg {
        Leg::Whole(e) => open_result(alloc, e, part),
        Leg::Strided(_, _, _, _) => Ok(()),
    }
}

fn open_result(alloc: Global, e: &mut Expr, part: Sym) -> Result<(), AllocError>
    ensures { IfOk result (λ _. e.new ≡ opened_result part.0 e.old) }
{
    match &mut e.form {
        Form::One(_, producer) => open_loop(alloc, producer, part),
        _ => Ok(()),
    }
}

/// The builder of a loop.
fn builder_of(e: &Expr) -> Option<Sym>
    ensures { option_map (λ (s : Sym). s.0) result ≡ builder_of e.now }
{
    match &e.form {
        Form::For(_, _, builder, _, _, _) => Some(builder.sym),
        _ => None,
    }
}

#[tactic(auto, using(crate::proofs::Finding::no_builder, crate::proofs::Finding::own_builder))]
fn open_loop(alloc: Global, e: &mut Expr, part: Sym) -> Result<(), AllocError>
    ensures { IfOk result (λ _. e.new ≡ opened_loop part.0 e.old) }
{
    let Some(builder) = builder_of(&*e) else {
        return Ok(());
    };
    open_in_body(alloc, e, Names { builder, part })
}

fn open_in_body(alloc: Global, e: &mut Expr, names: Names) -> Result<(), AllocError>
    ensures { IfOk result (λ _. e.new
        ≡ opened_in_body names.builder.0 names.part.0 e.old) }
{
    match &mut e.form {
        Form::For(_, _, _, _, _, body) => open(alloc, body, names, 1024),
        _ => Ok(()),
    }
}

/// Whether there is a `let` of a pair in the body of a loop that makes a leg.
fn producer_has_pair(e: &Expr) -> bool
    ensures { result ≡ producer_has_pair e.now }
{
    match &e.form {
        Form::For(legs, _, _, _, _, _) => legs_have_pair(legs),
        _ => false,
    }
}

#[tactic(auto, using(crate::proofs::Left::pair_there, crate::proofs::Left::no_pair_left))]
fn legs_have_pair(legs: &Legs) -> bool
    ensures { result ≡ legs_have_pair (pack_legs legs.now) }
{
    for leg in legs.as_slice() {
        if leg_has_pair(leg) {
            return true;
        }
    }
    false
}

fn leg_has_pair(leg: &Leg) -> bool
    ensures { result ≡ leg_has_pair (view_leg leg.now) }
{
    match leg {
        Leg::Whole(e) => result_has_pair(e),
        Leg::Strided(_, _, _, _) => false,
    }
}

fn result_has_pair(e: &Expr) -> bool
    ensures { result ≡ result_has_pair e.now }
{
    match &e.form {
        Form::One(_, part) => loop_has_pair(part),
        _ => false,
    }
}

fn loop_has_pair(e: &Expr) -> bool
    ensures { result ≡ loop_has_pair e.now }
{
    match &e.form {
        Form::For(_, _, _, _, _, body) => has_pair(body),
        _ => false,
    }
}
