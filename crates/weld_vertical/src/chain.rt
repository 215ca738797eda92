//! A chain of loops as one loop.

ghost use Rattle.std.specs.Prelude.{◌≡◌, IfOk, map};
ghost use Rattle.weld_tree.specs.ExprTree.{At, pack_legs};
ghost use Rattle.weld_tree.specs.ExprView.{view_form, view_leg};
ghost use Rattle.weld_vertical.specs.Chains.{below_fused, chain_fused, leg_fused, legs_fused};

use crate::rule::Loops;
use std::alloc::{AllocError, Global};
use weld_rewriting::sweep::Rule;
use weld_tree::{Expr, Form, Leg, Legs};

/// Tries the rule at each loop that is reached from the top of the expression through results and
/// legs, in place, the loops before a loop first. So a chain of loops, each over the list that the one
/// before it makes, becomes one loop. It fails for want of memory alone; the expression may be
/// anything then.
#[cycle(chaining)]
#[tactic(auto, using(crate::proofs::Chaining::top_fused))]
pub fn fuse_chain(alloc: Global, e: &mut Expr) -> Result<(), AllocError>
    ensures { IfOk result (λ _. e.new ≡ chain_fused e.old) }
{
    fuse_below(alloc, &mut e.form)?;
    Loops.try_at(alloc, e)?;
    Ok(())
}

#[cycle(chaining)]
fn fuse_below(alloc: Global, form: &mut Form) -> Result<(), AllocError>
    ensures { IfOk result (λ _.
        (at : At) → view_form form.new at ≡ below_fused (view_form form.old at)) }
{
    match form {
        Form::One(_, part) => fuse_chain(alloc, part),
        Form::For(legs, _, _, _, _, _) => fuse_legs(alloc, legs),
        _ => Ok(()),
    }
}

#[cycle(chaining)]
fn fuse_legs(alloc: Global, legs: &mut Legs) -> Result<(), AllocError>
    ensures { IfOk result (λ _. pack_legs legs.new ≡ legs_fused (pack_legs legs.old)) }
{
    fuse_each_leg(alloc, legs.as_mut_slice())
}

#[cycle(chaining)]
fn fuse_each_leg(alloc: Global, legs: &mut [Leg]) -> Result<(), AllocError>
    ensures { IfOk result (λ _.
        map view_leg legs.new ≡ map leg_fused (map view_leg legs.old)) }
{
    for leg in legs.iter_mut() {
        fuse_leg(alloc, leg)?;
    }
    Ok(())
}

#[cycle(chaining)]
fn fuse_leg(alloc: Global, leg: &mut Leg) -> Result<(), AllocError>
    ensures { IfOk result (λ _. view_leg leg.new ≡ leg_fused (view_leg leg.old)) }
{
    match leg {
        Leg::Whole(vector) => fuse_chain(alloc, vector),
        Leg::Strided(_, _, _, _) => Ok(()),
    }
}
