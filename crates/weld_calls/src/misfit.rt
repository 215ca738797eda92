//! The first argument that doesn't fit a call.
ghost use Rattle.std.specs.Prelude.{◌≡◌, ◌<◌, List, [], ◌∷◌, None, length, option_map};
ghost use Rattle.weld_tree.specs.TypeTree.{TypeTree};
ghost use Rattle.weld_calls.specs.declared.call.Call.TheVariants as calls;
ghost use Rattle.weld_calls.specs.CallTypes.{row, misfit_from, no_column, misfit, written as plain_written};

use crate::call::Call;
use weld_tree::{Ty, TyForm};

/// The first written argument, from 1, whose type doesn't fit the call with those before it, and the type
/// that is told of it: its own, or the struct's where a column past the last is asked for. A column's
/// number and an operator are each the second argument. None where the types fit. It takes no memory.
pub fn first_misfit(call: Call, types: &[Ty]) -> Option<(u32, &Ty)>
    requires { length types.now < 4294967295 }
    ensures { option_map (λ x. (x.0, x.1.now)) result ≡ misfit call types.now }
{
    match misfit_of_row(call, types) {
        Some((place, ty)) => Some((written(call, place), ty)),
        None => misfit_of_column(call, types),
    }
}

/// The place of an object among all written arguments, from 1: an operator stands second.
fn written(call: Call, place: u32) -> u32
    ensures { result ≡ plain_written call place }
{
    match call {
        Call::Compare(_) | Call::Arith(_) => { if place == 2 { 3 } else { place } }
        _ => place,
    }
}

/// The first type that isn't as the row wants it.
fn misfit_of_row(call: Call, types: &[Ty]) -> Option<(u32, &Ty)>
    requires { length types.now < 4294967295 }
    ensures { option_map (λ x. (x.0, x.1.now)) result ≡ misfit_from None 1 (row call) types.now }
{
    let mut known = None;
    let mut place = 0u32;
    for ty in types {
        let Some(pattern) = call.pattern(place as usize) else {
            return None;
        };
        place += 1;
        if !pattern.wants(known, ty) {
            return Some((place, ty));
        }
        known = pattern.kind_after(known, ty);
    }
    None
}

/// A column that isn't there.
fn misfit_of_column(call: Call, types: &[Ty]) -> Option<(u32, &Ty)>
    ensures { option_map (λ x. (x.0, x.1.now)) result ≡ no_column call types.now }
{
    let Call::Column(number) = call else {
        return None;
    };
    match types {
        [] => None,
        [ty, ..] => column_misfit(number, ty),
    }
}

/// The struct, where it has no column of that number.
fn column_misfit(number: u32, ty: &Ty) -> Option<(u32, &Ty)>
    ensures { (us : List TypeTree) → option_map (λ x. (x.0, x.1.now)) result
        ≡ no_column (calls.Column number) (ty.now ∷ us) }
{
    match &ty.form {
        TyForm::Struct(fields) => {
            if (number as usize) < fields.len() {
                None
            } else {
                Some((2, ty))
            }
        }
        TyForm::Scalar(_) | TyForm::Vec(_) | TyForm::Dict(_, _) | TyForm::Build(_) => None,
    }
}
