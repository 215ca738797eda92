//! The type of what a call answers.
ghost use Rattle.std.specs.Prelude.{◌≡◌, IfOk};
ghost use Rattle.weld_tree.specs.TypeTree.{dict};
ghost use Rattle.weld_calls.specs.CallTypes.{argument, item, column_of, answer_of};

use std::alloc::{AllocError, Global};
use weld_calls::Call;
use weld_data::Kind;
use weld_tree::{Ty, TyForm, Tys};

/// The type of the argument of that number, from 0; the empty struct's past the last.
#[tactic(auto, using(crate::proofs::Places::argument_is))]
pub fn argument_type(alloc: Global, types: &[Ty], number: usize) -> Result<Ty, AllocError>
    ensures { IfOk result (λ ty. ty ≡ argument number types.now) }
{
    match types.get(number) {
        None => Ok(Ty::struct_of(Tys::new(alloc))),
        Some(ty) => ty.copy(alloc),
    }
}

/// What the elements of a vector are; of what isn't one, the type itself.
fn item_in(alloc: Global, ty: &Ty) -> Result<Ty, AllocError>
    ensures { IfOk result (λ found. found ≡ item ty.now) }
{
    match &ty.form {
        TyForm::Vec(item) => item.copy(alloc),
        TyForm::Scalar(_) | TyForm::Struct(_) | TyForm::Dict(_, _) | TyForm::Build(_) => {
            ty.copy(alloc)
        }
    }
}

/// What the elements of an argument are, by its number from 0.
fn item_type(alloc: Global, types: &[Ty], number: usize) -> Result<Ty, AllocError>
    ensures { IfOk result (λ ty. ty ≡ item (argument number types.now)) }
{
    let ty = argument_type(alloc, types, number)?;
    item_in(alloc, &ty)
}

/// The type of that field of a struct; of what has none, the type itself.
#[tactic(auto, using(crate::proofs::Places::column_is))]
fn column_in(alloc: Global, ty: &Ty, number: u32) -> Result<Ty, AllocError>
    ensures { IfOk result (λ found. found ≡ column_of number ty.now) }
{
    match &ty.form {
        TyForm::Struct(fields) => match fields.as_slice().get(number as usize) {
            Some(field) => field.copy(alloc),
            None => ty.copy(alloc),
        },
        TyForm::Scalar(_) | TyForm::Vec(_) | TyForm::Dict(_, _) | TyForm::Build(_) => {
            ty.copy(alloc)
        }
    }
}

/// The type of the column of that number, from 0, of the first argument.
fn column_type(alloc: Global, types: &[Ty], number: u32) -> Result<Ty, AllocError>
    ensures { IfOk result (λ ty. ty ≡ column_of number (argument 0 types.now)) }
{
    let ty = argument_type(alloc, types, 0)?;
    column_in(alloc, &ty, number)
}

/// The type of the dictionary from the elements of the first argument to values of that type.
fn dict_to(alloc: Global, types: &[Ty], value: Ty) -> Result<Ty, AllocError>
    ensures { IfOk result (λ ty. ty ≡ dict (item (argument 0 types.now)) value) }
{
    Ty::dict_of(alloc, item_type(alloc, types, 0)?, value)
}

/// The type of what the call answers on arguments of these types, which fit it. It fails only for want of
/// memory.
pub fn answer_type(alloc: Global, call: Call, types: &[Ty]) -> Result<Ty, AllocError>
    ensures { IfOk result (λ ty. ty ≡ answer_of call types.now) }
{
    match call {
        Call::Add | Call::Sub | Call::Mul | Call::Scale | Call::Slice | Call::Take => {
            argument_type(alloc, types, 0)
        }
        Call::Filter | Call::Arith(_) => argument_type(alloc, types, 0),
        Call::Where | Call::RowsDot => argument_type(alloc, types, 1),
        Call::Dot | Call::Sum | Call::Min | Call::Max => item_type(alloc, types, 0),
        Call::Histogram => Ty::vec_of(alloc, Ty::scalar(Kind::I64)),
        Call::Column(number) => column_type(alloc, types, number),
        Call::Compare(_) => Ty::vec_of(alloc, Ty::scalar(Kind::Bool)),
        Call::Count => Ok(Ty::scalar(Kind::I64)),
        Call::GroupSum => dict_to(alloc, types, item_type(alloc, types, 1)?),
        Call::GroupList => dict_to(alloc, types, argument_type(alloc, types, 1)?),
        Call::GroupCount => dict_to(alloc, types, Ty::scalar(Kind::I64)),
    }
}
