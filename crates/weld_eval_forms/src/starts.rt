//! Builders that start from a value.

ghost use Rattle.std.specs.Prelude.{◌≡◌, IfOk};
ghost use Rattle.weld_data.specs.Kind.{IsInteger};
ghost use Rattle.weld_data.specs.Value.{list, struct, values};
ghost use Rattle.weld_data.specs.View.{view_val, view_column};
ghost use Rattle.weld_tree.specs.TypeTree.{scalar, vec, cells};
ghost use Rattle.weld_tree.specs.TypeView.{view_build};
ghost use Rattle.weld_tree.specs.ExprTree.{started as started_form};
ghost use Rattle.weld_tree.specs.HasValue.{HasValue, AllAre};
ghost use Rattle.weld_builders.specs.Part.{cells_part};
ghost use Rattle.weld_meaning.specs.Evaluation.{one_thing};
ghost use Rattle.weld_eval.specs.Answers.{Answers};
ghost use Rattle.weld_eval.specs.Takes.{OneTakes, IsScalar};
ghost use Rattle.weld_eval.specs.ThingView.{held_of};
ghost use Rattle.weld_eval_forms.specs.Legs.{elements_of_value};
ghost use Rattle.weld_eval_forms.specs.Starts.{numbers_in, MayStartTotal, total_from_value, pair_value, PlaceNumber};

use std::alloc::{AllocError, Global};
use weld_built::Built;
use weld_built::totals::numbers_of;
use weld_data::{Column, Kind, MergeOp, Num, Stop, Val, Vals};
use weld_eval::thing::{Held, Owned, value_of};
use weld_pieces::TotalsPart;
use weld_tree::{BuildTy, Ty, TyForm};

/// A builder that starts from a value: a total from a number, cells from a vector of numbers.
#[tactic(auto, using(crate::proofs::Starting::list_starts, crate::proofs::Starting::keyed_starts, crate::proofs::Starting::groups_starts, crate::proofs::Starting::total_plain, crate::proofs::Starting::total_number, crate::proofs::Starting::total_starts))]
pub(crate) fn started<'a>(build: &BuildTy, x: Held<'a>, alloc: Global) -> Result<Held<'a>, Stop>
    requires { OneTakes (started_form (view_build build.now)) (held_of x) }
    ensures { Answers held_of result (one_thing (started_form (view_build build.now))
        (held_of x.entry)) }
{
    match build {
        BuildTy::Total(_, op) => match total_from(alloc, *op, value_of(&x)) {
            Ok(built) => Ok(Held::Made(Owned::Built(built))),
            Err(_) => Err(Stop::Memory),
        },
        BuildTy::Cells(ty, op) => started_cells(ty, *op, x, alloc),
        BuildTy::List(_) | BuildTy::Keyed(_, _, _) | BuildTy::Groups(_, _) => unreachable!(),
    }
}

/// The total that starts with a number, or the totals that start with the fields of a struct.
#[tactic(auto, using(crate::proofs::Starting::integer_of))]
fn total_from(alloc: Global, op: MergeOp, v: &Val) -> Result<Built, AllocError>
    requires { MayStartTotal (view_val v.now) }
    ensures { IfOk result (λ b. b ≡ total_from_value op (view_val v.now)) }
{
    match v {
        Val::Num(number) => Ok(Built::total(op, *number)),
        Val::Struct(fields) => totals_from(alloc, op, fields),
        _ => unreachable!(),
    }
}

/// The totals that start with the fields of a struct.
#[tactic(auto, using(crate::proofs::Starting::some_numbers, crate::proofs::Starting::integers_there, crate::proofs::Starting::totals_from))]
fn totals_from(alloc: Global, op: MergeOp, fields: &Vals) -> Result<Built, AllocError>
    requires { MayStartTotal (struct (values fields.now)) }
    ensures { IfOk result (λ b. b ≡ total_from_value op (struct (values fields.now))) }
{
    let totals = numbers_of(alloc, fields)?;
    Ok(Built::totals(alloc, TotalsPart::from_numbers(op, totals)))
}

/// The cells that start with the numbers of a vector.
#[tactic(auto, using(crate::proofs::Starting::cells_scalar, crate::proofs::Starting::cells_plain, crate::proofs::Starting::cells_integer, crate::proofs::Starting::cells_numbers, crate::proofs::Starting::cells_start))]
fn started_cells<'a>(ty: &Ty, op: MergeOp, x: Held<'a>, alloc: Global) -> Result<Held<'a>, Stop>
    requires { OneTakes (started_form (cells ty.now op)) (held_of x) }
    ensures { Answers held_of result (one_thing (started_form (cells ty.now op))
        (held_of x.entry)) }
{
    match cells_of(alloc, op, kind_of(ty), value_of(&x)) {
        Ok(built) => Ok(Held::Made(Owned::Built(built))),
        Err(_) => Err(Stop::Memory),
    }
}

/// The same of a value.
fn cells_of(alloc: Global, op: MergeOp, kind: Kind, v: &Val) -> Result<Built, AllocError>
    requires integer { IsInteger kind }
    requires numbers { HasValue (vec (scalar kind)) (view_val v.now) }
    ensures { IfOk result (λ b. b ≡ cells_part op kind (numbers_in
        (elements_of_value (view_val v.now)))) }
{
    match v {
        Val::List(column) => match cells_from(alloc, op, kind, column) {
            Ok(built) => Ok(built),
            Err(e) => Err(e),
        },
        _ => unreachable!(),
    }
}

/// The cells that start with the elements of a vector.
#[tactic(auto, using(crate::proofs::Starting::none_filled, crate::proofs::Starting::all_filled, crate::proofs::Starting::cell_taken))]
fn cells_from(alloc: Global, op: MergeOp, kind: Kind, column: &Column) -> Result<Built, AllocError>
    requires integer { IsInteger kind }
    requires numbers { AllAre (HasValue (scalar kind)) (values (view_column column.now)) }
    ensures { IfOk result (λ b. b ≡ cells_part op kind (numbers_in (view_column column.now))) }
{
    let mut built = Built::cells(alloc, op, kind, column.len());
    for place in 0..column.len() {
        let Some(index) = place_number(place) else {
            return Err(AllocError);
        };
        let item = cell_item(alloc, index, column.number_at(place))?;
        match built.merge(item) {
            Ok(()) => {}
            Err(_) => return Err(AllocError),
        }
    }
    Ok(built)
}

/// A number for the cell at an index, as it is merged.
fn cell_item(alloc: Global, index: Num, number: Num) -> Result<Val, AllocError>
    ensures { IfOk result (λ v. view_val v ≡ pair_value index.kind index.value number.kind
        number.value) }
{
    let mut fields = Vals::new(alloc);
    fields.push(Val::Num(index))?;
    fields.push(Val::Num(number))?;
    Ok(Val::Struct(fields))
}

/// A place as a number of kind i64. No vector has a place that is none.
fn place_number(place: usize) -> Option<Num>
    ensures { PlaceNumber result place }
{
    if place < 9_223_372_036_854_775_808 {
        Some(Num {
            kind: Kind::I64,
            value: place as i128,
        })
    } else {
        None
    }
}

/// The kind of a scalar type.
fn kind_of(ty: &Ty) -> Kind
    requires { IsScalar ty.now }
    ensures { ty.now ≡ scalar result }
{
    match &ty.form {
        TyForm::Scalar(kind) => *kind,
        _ => unreachable!(),
    }
}
