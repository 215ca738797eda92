//! The arguments of a call by their numbers, and the kinds of their elements by their types.

ghost use Rattle.std.specs.Prelude.{◌≡◌, ◌<◌, length};
ghost use Rattle.weld_data.specs.View.{view_val};
ghost use Rattle.weld_calls.specs.CallTypes.{argument as type_of, item, kind_in as plain_kind_in};
ghost use Rattle.weld_calls.specs.CallMeaning.{kind_at as plain_kind_at, value_at};

use weld_data::{Kind, Val, Vals};
use weld_tree::{Ty, TyForm, Tys};

/// The argument of that number, from 0, lent. It takes no memory.
#[tactic(auto, using(crate::proofs::ByNumber::value_there))]
pub fn argument(arguments: &Vals, number: usize) -> &Val
    requires { number < length arguments.now }
    ensures { view_val result.now ≡ value_at number arguments.now }
{
    arguments.at(number)
}

/// The kind of the numbers in the vector that the argument of that number is, from 0; i64 where it is no
/// vector of numbers. It takes no memory.
#[tactic(auto, using(crate::proofs::ByNumber::kind_there, crate::proofs::ByNumber::kind_missing))]
pub fn kind_at(types: &Tys, number: usize) -> Kind
    requires { number < length types.now }
    ensures { result ≡ plain_kind_at number types.now }
{
    match kept_kind_at(types, number) {
        Some(kind) => kind,
        None => Kind::I64,
    }
}

/// The kind of the elements of the argument of that number, from 0, where they are numbers. It takes no
/// memory.
pub fn kept_kind_at(types: &Tys, number: usize) -> Option<Kind>
    requires { number < length types.now }
    ensures { result ≡ plain_kind_in (item (type_of number types.now)) }
{
    kind_in(item_in(type_at(types, number)))
}

/// The type of that number, from 0, lent.
fn type_at(types: &Tys, number: usize) -> &Ty
    requires { number < length types.now }
    ensures { result.now ≡ type_of number types.now }
{
    let types = types.as_slice();
    &types[number]
}

/// What a vector's elements are; of what isn't one, the type itself.
fn item_in(ty: &Ty) -> &Ty
    ensures { result.now ≡ item ty.now }
{
    match &ty.form {
        TyForm::Vec(item) => item,
        TyForm::Scalar(_) | TyForm::Struct(_) | TyForm::Dict(_, _) | TyForm::Build(_) => ty,
    }
}

/// The kind of a scalar.
fn kind_in(ty: &Ty) -> Option<Kind>
    ensures { result ≡ plain_kind_in ty.now }
{
    match &ty.form {
        TyForm::Scalar(kind) => Some(*kind),
        TyForm::Vec(_) | TyForm::Struct(_) | TyForm::Dict(_, _) | TyForm::Build(_) => None,
    }
}
