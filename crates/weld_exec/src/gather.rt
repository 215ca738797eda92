//! The vectors of a loop's legs: those that are read where they stand, and those that stand on the stack.

ghost use Rattle.std.specs.Prelude.{◌≡◌, ◌++◌, ◌∷◌, [], true, map, OnOk, IfOk};
ghost use Rattle.weld_tree.specs.ExprTree.{pack_legs};
ghost use Rattle.weld_tree.specs.ExprView.{view_leg};
ghost use Rattle.weld_meaning.specs.Evaluation.{eval_leg};
ghost use Rattle.weld_meaning.specs.Meaning.{with_arguments};
ghost use Rattle.weld_meaning.specs.Thing.{rest_of};
ghost use Rattle.weld_eval.specs.Fit.{IsFit, LegIsFit};
ghost use Rattle.weld_eval.specs.FrameView.{env_of};
ghost use Rattle.weld_eval.specs.NamesView.{env_of_names};
ghost use Rattle.weld_eval.specs.ThingView.{thing_of, things_of, held_of};
ghost use Rattle.weld_eval_forms.specs.Legs.{elements_in, leg_lists, IsVector, AreVectors};
ghost use Rattle.weld_eval.specs.Answers.{Answers, OnFault};
ghost use Rattle.weld_plan.specs.Leads.{lists_in, loop_lists, AreThere, below_legs, below_loop};
ghost use Rattle.weld_plan.specs.StepTree.{is_read as is_read_leg};
ghost use Rattle.weld_exec.specs.Stacked.{LegsStand, HasPile, IsAtLoop, AreThereAt, CountAnswer};

use crate::evaluate::{parameters, within};
use crate::stack::drop_top;
use std::alloc::{AllocError, Global};
use weld_data::{Stop, Vals};
use weld_eval::frame::Frame;
use weld_eval::names::Names;
use weld_eval::thing::{Fields, Held, Owned};
use weld_eval_forms::legs::{count_rows, whole};
use weld_plan::is_path;
use weld_rows::evaluate;
use weld_tree::{Expr, Form, Leg, Program};

/// One vector more.
fn push_vector<'a>(vectors: &mut Vec<Held<'a>>, vector: Held<'a>) -> Result<(), AllocError>
    ensures { OnOk result (vectors.new.items ≡ vectors.old.items ++ vector.entry ∷ []) }
{
    vectors.push(vector)?;
    Ok(())
}

#[tactic(auto, using(crate::proofs::Moving::rest_read, crate::proofs::Moving::rest_stacked, crate::proofs::Moving::leg_fit, crate::proofs::Moving::vectors_more, crate::proofs::Moving::vector_on_top, crate::proofs::Moving::something_there, crate::proofs::Moving::leg_no_fault))]
/// Appends the vectors of these legs, of which those that aren't read where they stand are on the stack, the first
/// one's on top.
fn gather<'a>(
    legs: &[Leg],
    stack: &'a Fields,
    frame: &'a Frame<'a>,
    vectors: &mut Vec<Held<'a>>,
    alloc: Global,
) -> Result<(), Stop>
    requires legs { LegsStand (pack_legs (map view_leg legs.now)) (env_of frame.now)
        (things_of stack.now) }
    requires vectors { AreVectors vectors.old.items }
    ensures lists { OnOk result (leg_lists vectors.new.items
        ≡ leg_lists vectors.old.items ++ lists_in (pack_legs (map view_leg legs.now))
        (env_of frame.now) (things_of stack.now)) }
    ensures vectors { OnOk result (AreVectors vectors.new.items) }
    ensures memory { OnFault result ⊥ }
{
    match legs.split_first() {
        None => Ok(()),
        Some((leg, rest)) => {
            if is_read(leg) {
                match read(leg, frame, alloc) {
                    Ok(vector) => match push_vector(vectors, vector) {
                        Ok(()) => gather(rest, stack, frame, vectors, alloc),
                        Err(_) => Err(Stop::Memory),
                    },
                    Err(stop) => Err(stop),
                }
            } else {
                match stack {
                    Fields::And(x, below) => match push_vector(vectors, lend(x)) {
                        Ok(()) => gather(rest, below, frame, vectors, alloc),
                        Err(_) => Err(Stop::Memory),
                    },
                    Fields::End => unreachable!(),
                }
            }
        }
    }
}

#[tactic(auto, using(crate::proofs::Looping::some_vectors, crate::proofs::Looping::count_answer))]
/// How many rows a loop has whose legs and builder are on the stack, the builder on top. It faults where the legs aren't
/// of one length.
pub(crate) fn count(
    node: &Expr,
    program: &Program,
    inputs: &Vals,
    names: &Names,
    stack: &Fields,
    alloc: Global,
) -> Result<usize, Stop>
    requires fit { IsFit node.now (env_of_names names.now
        ++ with_arguments program.now.params inputs.now) }
    requires at { IsAtLoop node.now (env_of_names names.now
        ++ with_arguments program.now.params inputs.now) (things_of stack.now) }
    ensures { CountAnswer result (loop_lists node.now (env_of_names names.now
        ++ with_arguments program.now.params inputs.now) (rest_of (things_of stack.now))) }
{
    let base = parameters(program, inputs);
    let frame = within(names, &base);
    match stack {
        Fields::And(_, pile) => match vectors_of(node, pile, &frame, alloc) {
            Ok(vectors) => count_rows(&vectors),
            Err(stop) => Err(stop),
        },
        Fields::End => unreachable!(),
    }
}

#[tactic(auto, using(crate::proofs::Moving::legs_stand))]
/// The vectors of a loop's legs.
pub(crate) fn vectors_of<'a>(
    node: &Expr,
    pile: &'a Fields,
    frame: &'a Frame<'a>,
    alloc: Global,
) -> Result<Vec<Held<'a>>, Stop>
    requires fit { IsFit node.now (env_of frame.now) }
    requires pile { HasPile node.now (env_of frame.now) (things_of pile.now) }
    ensures lists { IfOk result (λ vectors. leg_lists vectors.items
        ≡ loop_lists node.now (env_of frame.now) (things_of pile.now)) }
    ensures vectors { IfOk result (λ vectors. AreVectors vectors.items) }
    ensures memory { OnFault result ⊥ }
{
    match &node.form {
        Form::For(legs, _, _, _, _, _) => {
            let mut vectors = Vec::new(alloc);
            match gather(legs.as_slice(), pile, frame, &mut vectors, alloc) {
                Ok(()) => Ok(vectors),
                Err(stop) => Err(stop),
            }
        }
        _ => unreachable!(),
    }
}

/// The vector of a leg that is read where it stands.
fn read<'a>(leg: &Leg, frame: &'a Frame<'a>, alloc: Global) -> Result<Held<'a>, Stop>
    requires fit { LegIsFit (view_leg leg.now) (env_of frame.now) }
    requires form { is_read_leg (view_leg leg.now) ≡ true }
    ensures elements { Answers elements_in result (eval_leg (view_leg leg.now) (env_of frame.now)) }
    ensures vector { IfOk result (λ x. IsVector (held_of x)) }
{
    match leg {
        Leg::Whole(e) => match evaluate(e, frame, alloc) {
            Ok(v) => Ok(whole(v)),
            Err(stop) => Err(stop),
        },
        Leg::Strided(_, _, _, _) => unreachable!(),
    }
}

/// Whether the leg's vector is read where it stands.
fn is_read(leg: &Leg) -> bool
    ensures { result ≡ is_read_leg (view_leg leg.now) }
{
    match leg {
        Leg::Whole(e) => is_path(e),
        Leg::Strided(_, _, _, _) => false,
    }
}

/// A vector that stands on the stack. It takes no memory.
fn lend<'a>(x: &'a Owned) -> Held<'a>
    requires { IsVector (thing_of x.now) }
    ensures { held_of result ≡ thing_of x.now }
{
    match x {
        Owned::Value(v) => Held::Lent(v),
        _ => unreachable!(),
    }
}

#[tactic(auto, using(crate::proofs::Moving::legs_there))]
/// Takes the vectors of a loop's legs off the stack. It takes no memory.
pub(crate) fn drop_vectors(node: &Expr, stack: &mut Fields)
    requires { AreThereAt node.now (things_of stack.old) }
    ensures { things_of stack.new ≡ below_loop node.now (things_of stack.old) }
{
    match &node.form {
        Form::For(legs, _, _, _, _, _) => drop_legs(legs.as_slice(), stack),
        _ => unreachable!(),
    }
}

#[tactic(auto, using(crate::proofs::Moving::below_read, crate::proofs::Moving::below_stacked, crate::proofs::Moving::there_read, crate::proofs::Moving::there_stacked, crate::proofs::Moving::stacked_something))]
/// The same leg by leg.
fn drop_legs(legs: &[Leg], stack: &mut Fields)
    requires { AreThere (pack_legs (map view_leg legs.now)) (things_of stack.old) }
    ensures { things_of stack.new ≡ below_legs (pack_legs (map view_leg legs.now))
        (things_of stack.old) }
{
    match legs.split_first() {
        None => {}
        Some((leg, rest)) => {
            if is_read(leg) {
                drop_legs(rest, stack)
            } else {
                drop_top(stack);
                drop_legs(rest, stack)
            }
        }
    }
}
