//! The forms of expressions without parts.

ghost use Rattle.std.specs.Prelude.{◌≡◌, None, IfOk};
ghost use Rattle.weld_data.specs.Value.{number as number_value};
ghost use Rattle.weld_builders.specs.Outcome.{done};
ghost use Rattle.weld_meaning.specs.Evaluation.{leaf_thing, started_builder};
ghost use Rattle.weld_meaning.specs.Thing.{plain, building};
ghost use Rattle.weld_tree.specs.TypeTree.{scalar, struct as tuple, total, pack};
ghost use Rattle.weld_tree.specs.Types.{IsMergerType, AreIntegerTypes};
ghost use Rattle.weld_tree.specs.ExprView.{view_leaf};
ghost use Rattle.weld_tree.specs.TypeView.{view_build};
ghost use Rattle.weld_eval.specs.Answers.{Answers};
ghost use Rattle.weld_eval.specs.FrameView.{env_of};
ghost use Rattle.weld_eval.specs.Takes.{LeafTakes, IsScalar, IsInteger, IsFresh};
ghost use Rattle.weld_eval.specs.ThingView.{held_of};

use crate::frame::{Frame, find};
use crate::thing::{Held, Owned};
use crate::values::bytes_of;
use std::alloc::{AllocError, Global};
use weld_built::Built;
use weld_data::{Kind, MergeOp, Num, Stop, Val};
use weld_pieces::TotalsPart;
use weld_pieces::totals::neutral_number;
use weld_tree::{BuildTy, LeafForm, Ty, TyForm, Tys};

/// A number as a thing. It takes no memory.
pub fn number<'a>(n: Num) -> Held<'a>
    ensures { held_of result ≡ plain (number_value n.kind n.value) }
{
    Held::Made(Owned::Value(Val::Num(n)))
}

/// A form without parts.
pub fn leaf<'a>(leaf: &LeafForm, frame: &'a Frame<'a>, alloc: Global) -> Result<Held<'a>, Stop>
    requires { LeafTakes (view_leaf leaf.now) (env_of frame.now) }
    ensures { Answers held_of result (leaf_thing (view_leaf leaf.now) (env_of frame.now)) }
{
    match leaf {
        LeafForm::Int(kind, value) => Ok(number(Num {
            kind: *kind,
            value: *value,
        })),
        LeafForm::Truth(truth) => Ok(number(Num::of_bool(*truth))),
        LeafForm::Chars(text) => match bytes_of(alloc, text) {
            Ok(v) => Ok(Held::Made(Owned::Value(v))),
            Err(_) => Err(Stop::Memory),
        },
        LeafForm::Name(name) => find(frame, *name, alloc),
        LeafForm::Builder(build) => match fresh(build, alloc) {
            Ok(built) => Ok(Held::Made(Owned::Built(built))),
            Err(_) => Err(Stop::Memory),
        },
    }
}

/// The kind of a scalar type. It takes no memory.
fn kind_of(ty: &Ty) -> Kind
    requires { IsScalar ty.now }
    ensures { ty.now ≡ scalar result }
{
    match &ty.form {
        TyForm::Scalar(kind) => *kind,
        _ => unreachable!(),
    }
}

/// A builder without a starting value. It takes memory for a merger of structs alone.
fn fresh(build: &BuildTy, alloc: Global) -> Result<Built, AllocError>
    requires { IsFresh (view_build build.now) }
    ensures { IfOk result (λ b. started_builder (view_build build.now) None ≡ done (building b)) }
{
    match build {
        BuildTy::List(_) => Ok(Built::list(alloc)),
        BuildTy::Total(ty, op) => fresh_total(ty, *op, alloc),
        BuildTy::Keyed(_, ty, op) => Ok(Built::keyed(alloc, *op, kind_of(ty))),
        BuildTy::Groups(_, _) => Ok(Built::groups(alloc)),
        BuildTy::Cells(_, _) => unreachable!(),
    }
}

/// A merger without a starting value: of numbers of a kind, or of structs of numbers.
fn fresh_total(ty: &Ty, op: MergeOp, alloc: Global) -> Result<Built, AllocError>
    requires { IsMergerType ty.now }
    ensures { IfOk result (λ b. started_builder (total ty.now op) None ≡ done (building b)) }
{
    match &ty.form {
        TyForm::Struct(fields) => fresh_totals(fields, op, alloc),
        _ => Ok(Built::empty_total(op, kind_of(ty))),
    }
}

/// The neutral numbers of the fields.
#[tactic(auto, using(crate::proofs::Starting::field_scalar, crate::proofs::Starting::field_integer, crate::proofs::Starting::field_added, crate::proofs::Starting::added_integers, crate::proofs::Starting::totals_start))]
fn fresh_totals(fields: &Tys, op: MergeOp, alloc: Global) -> Result<Built, AllocError>
    requires { AreIntegerTypes (pack fields.now) }
    ensures { IfOk result (λ b. started_builder (total (tuple (pack fields.now)) op) None
        ≡ done (building b)) }
{
    let items = fields.as_slice();
    let mut numbers = Vec::with_capacity(alloc, items.len())?;
    for i in 0..items.len() {
        numbers.push(neutral_number(op, kind_of(&items[i])))?;
    }
    Ok(Built::totals(alloc, TotalsPart::from_numbers(op, numbers)))
}
