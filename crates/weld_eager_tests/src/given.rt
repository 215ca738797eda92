//! Arguments from texts, and calls that fit them.

ghost use Rattle.std.specs.Prelude.{◌≡◌, IsTrue, length, IfOk, OnOk};
ghost use Rattle.weld_data.specs.View.{view_val};
ghost use Rattle.weld_tree.specs.HasValue.{HasValue};
ghost use Rattle.weld_calls.specs.CallTypes.{AreValueTypes, FitsCall, HasItsOperator, IsArithmetic, IsComparison, IsValueType, row};
ghost use Rattle.weld_eager.specs.Fitting.{AreOf};

use std::alloc::Global;
use std::test::Fail;
use weld_calls::{Call, first_misfit};
use weld_data::{BinOp, Val, Vals};
use weld_reduce::read_ty;
use weld_tokens::read_tokens;
use weld_tree::{Ty, Tys};
use weld_values::laws::well_formed_types_are_readable;
use weld_values::read_value;

/// The arguments of a call with their types.
#[derive(Drop)]
pub(crate) struct Given {
    pub(crate) types: Tys,
    pub(crate) values: Vals,
}

/// The type of values that the text spells.
fn type_of(alloc: Global, text: &str) -> Result<Ty, Fail>
    ensures { IfOk result (λ ty. IsValueType ty) }
{
    let bytes = text.as_bytes();
    if bytes.len() > 262_144 {
        return Err(Fail::from("the type is too long"));
    }
    let Ok(tokens) = read_tokens(alloc, bytes) else {
        return Err(Fail::from("the type is refused"));
    };
    let Some(ty) = read_ty(alloc, tokens.as_slice())? else {
        return Err(Fail::from("the tokens are no type"));
    };
    if ty.is_well_formed() && ty.is_builder_free() {
        Ok(ty)
    } else {
        Err(Fail::from("it is no type of values"))
    }
}

/// The value of the type that the text spells.
fn value_of(alloc: Global, ty: &Ty, text: &str) -> Result<Val, Fail>
    requires { IsValueType ty.now }
    ensures { IfOk result (λ v. HasValue ty.now (view_val v)) }
{
    well_formed_types_are_readable();
    match read_value(alloc, text.as_bytes(), ty) {
        Ok(value) => Ok(value),
        Err(_) => Err(Fail::from("the value is refused")),
    }
}

/// One argument more.
#[tactic(auto, using(crate::proofs::Fitting::one_value_more, crate::proofs::Fitting::one_type_more))]
fn push(given: &mut Given, ty: Ty, value: Val) -> Result<(), Fail>
    requires fit { AreOf given.old.types given.old.values }
    requires formed { AreValueTypes given.old.types }
    requires value { HasValue ty (view_val value) }
    requires of_values { IsValueType ty }
    ensures fit { OnOk result (AreOf given.new.types given.new.values) }
    ensures formed { OnOk result (AreValueTypes given.new.types) }
{
    given.types.push(ty)?;
    given.values.push(value)?;
    Ok(())
}

/// The arguments whose types and values are spelled so.
pub(crate) fn read_given(alloc: Global, texts: &[(&str, &str)]) -> Result<Given, Fail>
    ensures fit { IfOk result (λ g. AreOf g.types g.values) }
    ensures formed { IfOk result (λ g. AreValueTypes g.types) }
{
    let mut given = Given {
        types: Tys::new(alloc),
        values: Vals::new(alloc),
    };
    for (ty, value) in texts {
        let ty = type_of(alloc, ty)?;
        let value = value_of(alloc, &ty, value)?;
        push(&mut given, ty, value)?;
    }
    Ok(given)
}

/// How many arguments the call takes.
pub(crate) fn count_of(call: Call) -> usize
    ensures { result ≡ length (row call) }
{
    match call {
        Call::Sum | Call::Min | Call::Max | Call::Count => 1,
        Call::Column(_) | Call::GroupCount => 1,
        Call::Where | Call::Slice => 3,
        _ => 2,
    }
}

/// Whether the operator is a comparison.
fn is_comparison(op: BinOp) -> bool
    ensures { IsTrue result → IsComparison op }
{
    match op {
        BinOp::Add | BinOp::Sub | BinOp::Mul | BinOp::Div | BinOp::Rem => false,
        _ => true,
    }
}

/// Whether it is an arithmetic one.
fn is_arithmetic(op: BinOp) -> bool
    ensures { IsTrue result → IsArithmetic op }
{
    match op {
        BinOp::Add | BinOp::Sub | BinOp::Mul | BinOp::Div | BinOp::Rem => true,
        _ => false,
    }
}

/// Whether the call has an operator that it may have.
fn has_its_operator(call: Call) -> bool
    ensures { IsTrue result → HasItsOperator call }
{
    match call {
        Call::Compare(op) => is_comparison(op),
        Call::Arith(op) => is_arithmetic(op),
        _ => true,
    }
}

/// That the call may be called on arguments of these types.
pub(crate) fn check(call: Call, types: &[Ty]) -> Result<(), Fail>
    ensures operator { OnOk result (HasItsOperator call) }
    ensures fits { OnOk result (FitsCall call types.now) }
{
    if !has_its_operator(call) {
        return Err(Fail::from("the call has another operator"));
    }
    if types.len() != count_of(call) || types.len() > 3 {
        return Err(Fail::from("there are more or fewer arguments"));
    }
    match first_misfit(call, types) {
        None => Ok(()),
        Some(_) => Err(Fail::from("the types don't fit")),
    }
}
