//! The program of a call.
ghost use Rattle.std.specs.Prelude.{◌≡◌, ◌<◌, length, IfOk};
ghost use Rattle.weld_calls.specs.CallTypes.{HasItsOperator, FitsCall, AreValueTypes, argument, item as item_type};
ghost use Rattle.weld_calls.specs.CallPrograms.{params_from, body_of as plain_body, fragment as plain_fragment};

use crate::fragments::bodies::{
    count_body, filter_body, group_count_body, group_list_body, group_sum_body, histogram_body,
    rows_dot_body, slice_body, take_body, where_body,
};
use crate::fragments::laws::fragments_are_accepted;
use crate::fragments::shapes::{against, dotted, reduced, zipped};
use crate::fragments::trees::{field_of, new_binder};
use std::alloc::{AllocError, Global};
use weld_calls::Call;
use weld_calls::laws::rows_are_short;
use weld_data::{BinOp, Kind, MergeOp};
use weld_meaning::Accepted;
use weld_tree::{Binders, Expr, Program, Ty, TyForm, Tys};

/// The program of a call on arguments of these types, which fit it: a parameter for each argument, with
/// its type, in order. It is accepted whatever the types, by proof: nothing is checked.
pub fn fragment(alloc: Global, call: Call, types: &[Ty]) -> Result<Accepted, AllocError>
    requires operator { HasItsOperator call }
    requires fits { FitsCall call types.now }
    requires values { AreValueTypes types.now }
    ensures { IfOk result (λ a. a ≡ plain_fragment call types.now) }
{
    rows_are_short();
    let params = params_of(alloc, types)?;
    let body = body_of(alloc, call, types)?;
    fragments_are_accepted();
    let program = Program { params, body };
    Ok(Accepted { program })
}

/// A parameter for each type.
fn params_of(alloc: Global, types: &[Ty]) -> Result<Binders, AllocError>
    requires { length types.now < 4294967295 }
    ensures { IfOk result (λ params. params ≡ params_from 0 types.now) }
{
    let mut params = Binders::new(alloc);
    let mut number = 0u32;
    for ty in types {
        params.push(new_binder(number, Some(ty.copy(alloc)?)))?;
        number += 1;
    }
    Ok(params)
}

/// What the elements of an argument are, by its number from 0.
#[tactic(auto, using(crate::proofs::Arguments::argument_is))]
fn item_of(alloc: Global, types: &[Ty], number: usize) -> Result<Ty, AllocError>
    ensures { IfOk result (λ ty. ty ≡ item_type (argument number types.now)) }
{
    match types.get(number) {
        None => Ok(Ty::struct_of(Tys::new(alloc))),
        Some(ty) => item_in(alloc, ty),
    }
}

/// What the elements of a vector are; of what isn't one, the type itself.
fn item_in(alloc: Global, ty: &Ty) -> Result<Ty, AllocError>
    ensures { IfOk result (λ item. item ≡ item_type ty.now) }
{
    match &ty.form {
        TyForm::Vec(item) => item.copy(alloc),
        TyForm::Scalar(_) | TyForm::Struct(_) | TyForm::Dict(_, _) | TyForm::Build(_) => {
            ty.copy(alloc)
        }
    }
}

/// The body of the call's program.
fn body_of(alloc: Global, call: Call, types: &[Ty]) -> Result<Box<Expr>, AllocError>
    ensures { IfOk result (λ e. e.value ≡ plain_body call types.now) }
{
    match call {
        Call::Add => zipped(alloc, BinOp::Add, item_of(alloc, types, 0)?),
        Call::Sub => zipped(alloc, BinOp::Sub, item_of(alloc, types, 0)?),
        Call::Mul => zipped(alloc, BinOp::Mul, item_of(alloc, types, 0)?),
        Call::Arith(op) => zipped(alloc, op, item_of(alloc, types, 0)?),
        Call::Scale => against(alloc, BinOp::Mul, item_of(alloc, types, 0)?),
        Call::Compare(op) => against(alloc, op, Ty::scalar(Kind::Bool)),
        Call::Sum => reduced(alloc, MergeOp::Add, item_of(alloc, types, 0)?),
        Call::Min => reduced(alloc, MergeOp::Min, item_of(alloc, types, 0)?),
        Call::Max => reduced(alloc, MergeOp::Max, item_of(alloc, types, 0)?),
        Call::Dot => dotted(alloc, 0, 1, item_of(alloc, types, 0)?, 2),
        Call::RowsDot => rows_dot_body(alloc, item_of(alloc, types, 1)?),
        Call::Where => where_body(alloc, item_of(alloc, types, 1)?),
        Call::Take => take_body(alloc, item_of(alloc, types, 0)?),
        Call::Count => count_body(alloc),
        Call::Histogram => histogram_body(alloc),
        Call::GroupSum => {
            let key = item_of(alloc, types, 0)?;
            group_sum_body(alloc, key, item_of(alloc, types, 1)?)
        }
        Call::GroupList => {
            let key = item_of(alloc, types, 0)?;
            group_list_body(alloc, key, item_of(alloc, types, 1)?)
        }
        Call::GroupCount => group_count_body(alloc, item_of(alloc, types, 0)?),
        Call::Filter => filter_body(alloc, item_of(alloc, types, 0)?),
        Call::Slice => slice_body(alloc),
        Call::Column(number) => field_of(alloc, number, 0),
    }
}
