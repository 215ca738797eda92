//! Forms whose answer is a number.

ghost use Rattle.std.specs.Prelude.{◌≡◌, pos};
ghost use Rattle.weld_data.specs.Kind.{IsInteger};
ghost use Rattle.weld_data.specs.Order.{IsNumber};
ghost use Rattle.weld_data.specs.Value.{number};
ghost use Rattle.weld_data.specs.View.{view_val};
ghost use Rattle.weld_builders.specs.Outcome.{done};
ghost use Rattle.weld_meaning.specs.Evaluation.{operated as operated_value, negated as negated_value, contrary as contrary_value, cast_to, length_of, truth_of as truth_value_of, whole_number as whole_number_value};
ghost use Rattle.weld_data.specs.Operation.{answer_kind as kind_of_answer};
ghost use Rattle.weld_eval.specs.Answers.{Answers, IsSure};
ghost use Rattle.weld_eval.specs.Elements.{view_num};
ghost use Rattle.weld_eval.specs.Fits.{AreOperands, IsIntegerNumber, IsTruth, IsList};

use weld_data::{BinOp, Kind, Num, Stop, Val, binary, wrap};

/// The number that a value is. It takes no memory.
fn number_of(v: &Val) -> Num
    requires { IsNumber (view_val v.now) }
    ensures { view_val v.now ≡ view_num result }
{
    match v {
        Val::Num(number) => *number,
        _ => unreachable!(),
    }
}

/// The operator's answer on two numbers of a kind that it takes: wrapping arithmetic or a comparison.
/// It faults exactly where it divides by 0. It takes no memory.
pub fn operated(op: BinOp, v: &Val, w: &Val) -> Result<Num, Stop>
    requires { AreOperands op (view_val v.now) (view_val w.now) }
    ensures value { Answers view_num result (operated_value op (view_val v.now) (view_val w.now)) }
    ensures sure { IsSure result }
{
    match (v, w) {
        (Val::Num(x), Val::Num(y)) => operated_numbers(op, *x, *y),
        _ => unreachable!(),
    }
}

/// The same of numbers.
#[tactic(auto, using(crate::proofs::ScalarLemmas::left_in_range, crate::proofs::ScalarLemmas::right_in_range, crate::proofs::ScalarLemmas::takes_operands, crate::proofs::ScalarLemmas::operated_some, crate::proofs::ScalarLemmas::operated_none))]
fn operated_numbers(op: BinOp, x: Num, y: Num) -> Result<Num, Stop>
    requires { AreOperands op (number x.kind x.value) (number y.kind y.value) }
    ensures value { Answers view_num result (operated_value op (number x.kind x.value)
        (number y.kind y.value)) }
    ensures sure { IsSure result }
{
    match binary(op, x.kind, x.value, y.value) {
        Some(value) => Ok(Num {
            kind: answer_kind(op, x.kind),
            value,
        }),
        None => Err(Stop::Fault),
    }
}

/// The kind of the operator's answer: comparisons answer truth values. It takes no memory.
fn answer_kind(op: BinOp, kind: Kind) -> Kind
    ensures { result ≡ kind_of_answer op kind }
{
    match op {
        BinOp::Add | BinOp::Sub | BinOp::Mul | BinOp::Div | BinOp::Rem => kind,
        _ => Kind::Bool,
    }
}

/// The wrapped opposite of a number of an integer kind. It takes no memory.
pub fn negated(v: &Val) -> Num
    requires { IsIntegerNumber (view_val v.now) }
    ensures { negated_value (view_val v.now) ≡ done (view_num result) }
{
    match v {
        Val::Num(x) => negated_number(*x),
        _ => unreachable!(),
    }
}

/// The wrapped opposite of a number of an integer kind. It takes no memory.
#[tactic(auto, using(crate::proofs::ScalarLemmas::integer_kind))]
pub fn negated_number(x: Num) -> Num
    requires { IsIntegerNumber (number x.kind x.value) }
    ensures { negated_value (number x.kind x.value) ≡ done (view_num result) }
{
    Num {
        kind: x.kind,
        value: wrap(x.kind, -x.value),
    }
}

/// The truth value that a value is. It takes no memory.
pub fn truth_of(v: &Val) -> bool
    requires { IsTruth (view_val v.now) }
    ensures { truth_value_of (view_val v.now) ≡ done result }
{
    number_of(v).value == 1
}

/// The other truth value. It takes no memory.
pub fn contrary(v: &Val) -> Num
    requires { IsTruth (view_val v.now) }
    ensures { contrary_value (view_val v.now) ≡ done (view_num result) }
{
    Num::of_bool(!truth_of(v))
}

/// The number of an integer kind that equals the number modulo the kind's size; false is 0 and true
/// is 1. It takes no memory.
pub fn cast(kind: Kind, v: &Val) -> Num
    requires integer { IsInteger kind }
    requires number { IsNumber (view_val v.now) }
    ensures { cast_to kind (view_val v.now) ≡ done (view_num result) }
{
    cast_number(kind, number_of(v))
}

/// A number cast to an integer kind, wrapped. It takes no memory.
pub fn cast_number(kind: Kind, x: Num) -> Num
    requires { IsInteger kind }
    ensures { cast_to kind (number x.kind x.value) ≡ done (view_num result) }
{
    Num {
        kind,
        value: wrap(kind, x.value),
    }
}

/// How many elements a vector has, as an i64. It takes no memory.
pub fn length(v: &Val) -> Num
    requires { IsList (view_val v.now) }
    ensures { length_of (view_val v.now) ≡ done (view_num result) }
{
    match v {
        Val::List(column) => whole_number(column.len()),
        _ => unreachable!(),
    }
}

/// A count as an i64, wrapped. It takes no memory.
pub fn whole_number(count: usize) -> Num
    ensures { view_num result ≡ whole_number_value count }
{
    Num {
        kind: Kind::I64,
        value: wrap(Kind::I64, count as i128),
    }
}
