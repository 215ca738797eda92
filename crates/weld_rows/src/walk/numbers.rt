//! Expressions that are numbers.

ghost use Rattle.weld_eval.specs.FrameView.{env_of};
ghost use Rattle.weld_eval_plain.specs.Nodes.{IsEitherForm};
ghost use Rattle.weld_eval.specs.Answers.{Answers};
ghost use Rattle.weld_meaning.specs.Evaluation.{eval as eval_of};
ghost use Rattle.weld_rows.specs.Nodes.{anywhere};
ghost use Rattle.weld_rows.specs.Numbers.{number_thing, AnswersKind};
ghost use Rattle.weld_rows.specs.Runs.{RunsNumber};
ghost use Rattle.weld_tree.specs.ExprTree as tree;
ghost use Rattle.weld_tree.specs.ExprView.{view_two};

use super::lent::total;
use super::values::other;
use crate::forms::{decides, number_in};
use crate::reads::leaf_number;
use std::alloc::Global;
use weld_blocks::scalar::{cast, contrary, negated, operated, truth_of};
use weld_data::{BinOp, Kind, Stop};
use weld_eval::frame::Frame;
use weld_eval::short::Short;
use weld_tree::{Expr, Form, OneForm, ThreeForm, TwoForm};

/// The number that an expression of a scalar type comes to.
#[cycle(rows)]
#[inline(always)]
pub fn number(e: &Expr, frame: &Frame, in_place: bool, alloc: Global) -> Result<Short, Stop>
    requires { RunsNumber in_place e.now (env_of frame.now) }
    ensures { Answers number_thing result (eval_of e.now (env_of frame.now)) }
{
    match leaf_number(e, frame) {
        Some(n) => Ok(n),
        None => unread(e, frame, in_place, alloc),
    }
}

/// The same of what isn't read at once.
#[cycle(rows)]
#[inline(always)]
pub(super) fn unread(e: &Expr, frame: &Frame, in_place: bool, alloc: Global) -> Result<Short, Stop>
    requires { RunsNumber in_place e.now (env_of frame.now) }
    ensures { Answers number_thing result (eval_of e.now (env_of frame.now)) }
{
    let mut word = 0;
    match compound(e, frame, in_place, &mut word, alloc) {
        Ok(kind) => Ok(Short { kind, word }),
        Err(stop) => Err(stop),
    }
}

/// The same, the number's kind and its word apart: so a call hands both on in registers.
#[cycle(rows)]
fn compound(
    e: &Expr,
    frame: &Frame,
    in_place: bool,
    into: &mut i64,
    alloc: Global,
) -> Result<Kind, Stop>
    requires { RunsNumber in_place e.now (env_of frame.now) }
    ensures { AnswersKind result into.new (eval_of e.now (env_of frame.now)) }
{
    match chosen(e, frame, in_place, alloc) {
        Ok(n) => {
            *into = n.word;
            Ok(n.kind)
        }
        Err(stop) => Err(stop),
    }
}

/// The same, by the form.
#[cycle(rows)]
#[inline(always)]
fn chosen(e: &Expr, frame: &Frame, in_place: bool, alloc: Global) -> Result<Short, Stop>
    requires { RunsNumber in_place e.now (env_of frame.now) }
    ensures { Answers number_thing result (eval_of e.now (env_of frame.now)) }
{
    match &e.form {
        Form::Two(form, first, second) => match form {
            TwoForm::Binary(op) => binary(*op, first, second, frame, in_place, alloc),
            TwoForm::And => either(TwoForm::And, first, second, frame, in_place, alloc),
            TwoForm::Or => either(TwoForm::Or, first, second, frame, in_place, alloc),
            _ => in_value(e, frame, in_place, alloc),
        },
        Form::Three(form, condition, then, otherwise) => match form {
            ThreeForm::If => choice(condition, then, otherwise, frame, in_place, alloc),
            ThreeForm::Select => selection(condition, then, otherwise, frame, in_place, alloc),
            _ => in_value(e, frame, in_place, alloc),
        },
        Form::One(form, part) => match form {
            OneForm::Neg => opposite(part, frame, in_place, alloc),
            OneForm::Not => other_truth(part, frame, in_place, alloc),
            OneForm::Cast(kind) => converted(*kind, part, frame, in_place, alloc),
            _ => in_value(e, frame, in_place, alloc),
        },
        _ => in_value(e, frame, in_place, alloc),
    }
}

/// An operator between two numbers.
#[cycle(rows)]
#[tactic(auto, using(crate::proofs::Numbers::left_runs, crate::proofs::Numbers::right_runs, crate::proofs::Numbers::are_operands, crate::proofs::Numbers::binary_answers))]
fn binary(
    op: BinOp,
    first: &Expr,
    second: &Expr,
    frame: &Frame,
    in_place: bool,
    alloc: Global,
) -> Result<Short, Stop>
    requires { RunsNumber in_place (tree.two anywhere (tree.binary op) first.now second.now)
        (env_of frame.now) }
    ensures { Answers number_thing result (eval_of (tree.two anywhere (tree.binary op) first.now
        second.now) (env_of frame.now)) }
{
    let x = match number(first, frame, in_place, alloc) {
        Ok(x) => x,
        Err(stop) => return Err(stop),
    };
    match number(second, frame, in_place, alloc) {
        Ok(y) => operated(op, x, y),
        Err(stop) => Err(stop),
    }
}

/// `&&` and `||`: the second part is evaluated only where it decides.
#[cycle(rows)]
#[tactic(auto, using(crate::proofs::Numbers::either_first, crate::proofs::Numbers::either_second, crate::proofs::Numbers::either_truth, crate::proofs::Numbers::either_goes_on, crate::proofs::Numbers::either_ends))]
pub(super) fn either(
    form: TwoForm,
    first: &Expr,
    second: &Expr,
    frame: &Frame,
    in_place: bool,
    alloc: Global,
) -> Result<Short, Stop>
    requires runs { RunsNumber in_place (tree.two anywhere (view_two form) first.now second.now)
        (env_of frame.now) }
    requires form { IsEitherForm (view_two form) }
    ensures { Answers number_thing result (eval_of (tree.two anywhere (view_two form) first.now
        second.now) (env_of frame.now)) }
{
    let truth = match number(first, frame, in_place, alloc) {
        Ok(x) => truth_of(x),
        Err(stop) => return Err(stop),
    };
    if decides(form, truth) {
        Ok(Short::of_truth(truth))
    } else {
        number(second, frame, in_place, alloc)
    }
}

/// An `if` between numbers.
#[cycle(rows)]
#[tactic(auto, using(crate::proofs::Numbers::choice_condition_runs, crate::proofs::Numbers::then_runs, crate::proofs::Numbers::otherwise_runs, crate::proofs::Numbers::choice_is_truth, crate::proofs::Numbers::if_is_then, crate::proofs::Numbers::if_is_otherwise))]
fn choice(
    condition: &Expr,
    then: &Expr,
    otherwise: &Expr,
    frame: &Frame,
    in_place: bool,
    alloc: Global,
) -> Result<Short, Stop>
    requires { RunsNumber in_place (tree.three anywhere tree.if_else condition.now then.now
        otherwise.now) (env_of frame.now) }
    ensures { Answers number_thing result (eval_of (tree.three anywhere tree.if_else condition.now
        then.now otherwise.now) (env_of frame.now)) }
{
    let chosen = match number(condition, frame, in_place, alloc) {
        Ok(x) => truth_of(x),
        Err(stop) => return Err(stop),
    };
    if chosen {
        number(then, frame, in_place, alloc)
    } else {
        number(otherwise, frame, in_place, alloc)
    }
}

/// A `select` between numbers: all three are evaluated, and one is chosen.
#[cycle(rows)]
#[tactic(auto, using(crate::proofs::Choosing::selection_condition_runs, crate::proofs::Choosing::selection_then_runs, crate::proofs::Choosing::selection_otherwise_runs, crate::proofs::Choosing::selection_is_truth, crate::proofs::Choosing::selects_then, crate::proofs::Choosing::selects_otherwise, crate::proofs::Choosing::selection_then_faults, crate::proofs::Choosing::selection_otherwise_faults))]
fn selection(
    condition: &Expr,
    then: &Expr,
    otherwise: &Expr,
    frame: &Frame,
    in_place: bool,
    alloc: Global,
) -> Result<Short, Stop>
    requires { RunsNumber in_place (tree.three anywhere tree.select condition.now then.now
        otherwise.now) (env_of frame.now) }
    ensures { Answers number_thing result (eval_of (tree.three anywhere tree.select condition.now
        then.now otherwise.now) (env_of frame.now)) }
{
    let chosen = match number(condition, frame, in_place, alloc) {
        Ok(x) => truth_of(x),
        Err(stop) => return Err(stop),
    };
    let x = match number(then, frame, in_place, alloc) {
        Ok(x) => x,
        Err(stop) => return Err(stop),
    };
    match number(otherwise, frame, in_place, alloc) {
        Ok(y) => Ok(if chosen { x } else { y }),
        Err(stop) => Err(stop),
    }
}

/// The opposite of a number.
#[cycle(rows)]
#[tactic(auto, using(crate::proofs::Numbers::neg_part_runs, crate::proofs::Numbers::neg_integer, crate::proofs::Numbers::neg_is))]
fn opposite(part: &Expr, frame: &Frame, in_place: bool, alloc: Global) -> Result<Short, Stop>
    requires { RunsNumber in_place (tree.one anywhere tree.neg part.now) (env_of frame.now) }
    ensures { Answers number_thing result (eval_of (tree.one anywhere tree.neg part.now)
        (env_of frame.now)) }
{
    match number(part, frame, in_place, alloc) {
        Ok(x) => Ok(negated(x)),
        Err(stop) => Err(stop),
    }
}

/// The other truth value.
#[cycle(rows)]
#[tactic(auto, using(crate::proofs::Numbers::not_part_runs, crate::proofs::Numbers::not_truth, crate::proofs::Numbers::not_is))]
fn other_truth(part: &Expr, frame: &Frame, in_place: bool, alloc: Global) -> Result<Short, Stop>
    requires { RunsNumber in_place (tree.one anywhere tree.not part.now) (env_of frame.now) }
    ensures { Answers number_thing result (eval_of (tree.one anywhere tree.not part.now)
        (env_of frame.now)) }
{
    match number(part, frame, in_place, alloc) {
        Ok(x) => Ok(contrary(x)),
        Err(stop) => Err(stop),
    }
}

/// A number as one of another kind.
#[cycle(rows)]
#[tactic(auto, using(crate::proofs::Numbers::cast_part_runs, crate::proofs::Numbers::cast_integer, crate::proofs::Numbers::cast_is))]
fn converted(
    kind: Kind,
    part: &Expr,
    frame: &Frame,
    in_place: bool,
    alloc: Global,
) -> Result<Short, Stop>
    requires { RunsNumber in_place (tree.one anywhere (tree.cast kind) part.now)
        (env_of frame.now) }
    ensures { Answers number_thing result (eval_of (tree.one anywhere (tree.cast kind) part.now)
        (env_of frame.now)) }
{
    match number(part, frame, in_place, alloc) {
        Ok(x) => Ok(cast(kind, x)),
        Err(stop) => Err(stop),
    }
}

/// A number that is the sum over a vector that is lent, or in a value.
#[cycle(rows)]
#[tactic(auto, using(crate::proofs::Numbers::number_runs))]
fn in_value(e: &Expr, frame: &Frame, in_place: bool, alloc: Global) -> Result<Short, Stop>
    requires { RunsNumber in_place e.now (env_of frame.now) }
    ensures { Answers number_thing result (eval_of e.now (env_of frame.now)) }
{
    match total(e, frame, in_place, alloc) {
        Ok(Some(n)) => Ok(n),
        Ok(None) => in_other(e, frame, in_place, alloc),
        Err(stop) => Err(stop),
    }
}

/// A number that is in a value.
#[cycle(rows)]
#[tactic(auto, using(crate::proofs::Numbers::number_runs, crate::proofs::Numbers::number_given))]
fn in_other(e: &Expr, frame: &Frame, in_place: bool, alloc: Global) -> Result<Short, Stop>
    requires { RunsNumber in_place e.now (env_of frame.now) }
    ensures { Answers number_thing result (eval_of e.now (env_of frame.now)) }
{
    match other(e, &*frame, in_place, alloc) {
        Ok(x) => Ok(number_in(x)),
        Err(stop) => Err(stop),
    }
}
