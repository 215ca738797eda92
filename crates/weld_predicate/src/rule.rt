//! The rule of the pass.

ghost use Rattle.std.specs.Prelude.{◌≡◌, true, Some, IfOk};
ghost use Rattle.weld_tree.specs.Types.{IsMergerType};
ghost use Rattle.weld_tree.specs.ExprTree.{At, three, select};
ghost use Rattle.weld_tree.specs.ExprView.{view_form};
ghost use Rattle.weld_predicate.specs.Guard.{always_merged, chosen_value, is_guard, unguarded};
ghost use Rattle.weld_predicate.specs.Neutral.{node_of};
ghost use Rattle.weld_predicate.specs.Predicating.{MergesIntoMerger};

use crate::guards::{is_guard, is_guarded};
use crate::mergers::merger_of;
use crate::neutral::neutral_of;
use std::alloc::{AllocError, Global};
use std::mem;
use weld_data::MergeOp;
use weld_rewriting::sweep::Rule;
use weld_tree::{Expr, Form, Known, LeafForm, Place, ThreeForm, Ty};

/// A guarded merge becomes the merge of what its condition chooses.
#[derive(Clone, Copy)]
pub struct Guards;

impl Rule for Guards {
    ghost use Rattle.weld_predicate.specs.Predicating.{guards_rule};

    ghost rule = { λ _. guards_rule };

    fn try_at(&self, alloc: Global, e: &mut Expr) -> Result<bool, AllocError> {
        if !is_guard(&*e) {
            return Ok(false);
        }
        unguard(alloc, e)?;
        Ok(true)
    }
}

/// The merge of the arm that merges takes the place of a guarded merge.
fn unguard(alloc: Global, e: &mut Expr) -> Result<(), AllocError>
    requires { is_guard e.old ≡ true }
    ensures { IfOk result (λ _. e.new ≡ unguarded e.old) }
{
    let place = e.place;
    let Form::Three(_, condition, then, otherwise) = &mut e.form else {
        unreachable!();
    };
    let merge = if is_guarded(&**then, &**otherwise) {
        merge_always(alloc, place, condition, true, then)?
    } else {
        merge_always(alloc, place, condition, false, otherwise)?
    };
    e.form = merge;
    Ok(())
}

/// The merge of an arm that merges, of what the condition chooses: the arm's value where the
/// condition is as it is wanted, else the neutral value. The condition and the arm are spent.
fn merge_always(
    alloc: Global,
    place: Place,
    condition: &mut Box<Expr>,
    wanted: bool,
    arm: &mut Expr,
) -> Result<Form, AllocError>
    requires { MergesIntoMerger arm.old }
    ensures { IfOk result (λ form. (at : At) → at.place ≡ place
        → view_form form at ≡ always_merged at condition.old.value wanted arm.old) }
{
    let Form::Two(_, builder, value) = &mut arm.form else {
        unreachable!();
    };
    match merger_of(&builder.ty) {
        Some((item, op)) => choose(alloc, place, condition, wanted, value, item, op)?,
        None => unreachable!(),
    }
    Ok(mem::replace(&mut arm.form, Form::Leaf(LeafForm::Truth(false))))
}

/// The value becomes what the condition chooses, which is spent.
fn choose(
    alloc: Global,
    place: Place,
    condition: &mut Box<Expr>,
    wanted: bool,
    value: &mut Box<Expr>,
    item: &Ty,
    op: MergeOp,
) -> Result<(), AllocError>
    requires { IsMergerType item.now }
    ensures { IfOk result (λ _. value.new.value ≡ chosen_value place condition.old.value wanted
        value.old.value
        (Some (record { item = item.now; op = op }))) }
{
    let condition = mem::replace(condition, spare(alloc, place)?);
    let neutral = neutral_of(alloc, place, op, item)?;
    let chosen = mem::replace(value, spare(alloc, place)?);
    *value = if wanted {
        selected(alloc, place, item, condition, chosen, neutral)?
    } else {
        selected(alloc, place, item, condition, neutral, chosen)?
    };
    Ok(())
}

/// One of two values of the type, as the condition says.
fn selected(
    alloc: Global,
    place: Place,
    ty: &Ty,
    condition: Box<Expr>,
    then: Box<Expr>,
    otherwise: Box<Expr>,
) -> Result<Box<Expr>, AllocError>
    ensures { IfOk result (λ b. b.value
        ≡ three (node_of place ty.now) select condition.value then.value otherwise.value) }
{
    let form = Form::Three(ThreeForm::Select, condition, then, otherwise);
    let ty = Known::Is(ty.copy(alloc)?);
    Ok(Box::new(alloc, Expr { form, place, ty })?)
}

/// An expression that stands in for one that was taken.
fn spare(alloc: Global, place: Place) -> Result<Box<Expr>, AllocError> {
    let form = Form::Leaf(LeafForm::Truth(false));
    let ty = Known::Blank;
    Ok(Box::new(alloc, Expr { form, place, ty })?)
}
