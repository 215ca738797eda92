//! What is read without going over an expression: numbers that are literals, names or fields of names; vectors that names stand
//! for; and mergers of numbers that nothing is merged into yet.

ghost use Rattle.std.specs.Prelude.{Bool};
ghost use Rattle.weld_builders.specs.Outcome.{done};
ghost use Rattle.weld_data.specs.View.{view_val};
ghost use Rattle.weld_eval.specs.Fit.{LegsAreFit};
ghost use Rattle.weld_meaning.specs.Evaluation.{eval as eval_of, eval_legs as eval_legs_of, leaf_thing, one_thing};
ghost use Rattle.weld_meaning.specs.Thing.{plain};
ghost use Rattle.weld_tree.specs.ExprTree as tree;
ghost use Rattle.weld_tree.specs.ExprTree.{field as field_form, pack_legs};
ghost use Rattle.weld_tree.specs.Types.{IsMergerType};
ghost use Rattle.weld_tree.specs.ExprView.{view_leaf, view_one};
ghost use Rattle.weld_eval.specs.Fit.{IsFit};
ghost use Rattle.weld_eval.specs.FrameView.{env_of};
ghost use Rattle.weld_eval.specs.RowView.{row_value};
ghost use Rattle.weld_eval.specs.SlotView.{slot_thing};
ghost use Rattle.weld_eval.specs.Takes.{LeafTakes, OneTakes};
ghost use Rattle.weld_rows.specs.Nodes.{anywhere};
ghost use Rattle.weld_rows.specs.Numbers.{IsLentAs, ReadsNumber, ReadsPair, IsFieldForm, IsNameOf};
ghost use Rattle.weld_rows.specs.Lent.{LendsVector, LendsLeg, StartsBuilder, StartsTotal};

use weld_built::Built;
use weld_data::{Column, MergeOp, Num, Val};
use weld_eval::frame::{Frame, Slot, lent_element, read};
use weld_eval::number::{number_of, pair_of};
use weld_eval::row::RowAt;
use weld_eval::short::Short;
use weld_eval::thing::Held;
use weld_eval::values::{Element, field_of};
use weld_tree::{BuildTy, Expr, Form, LeafForm, Leg, Legs, OneForm, Sym, Ty, TyForm};

/// The number that an expression is, where it is a literal, a name or a field of a name and a number.
/// It takes no memory.
#[tactic(auto, using(weld_eval_plain::proofs::Nodes::leaf_takes))]
#[inline(always)]
pub(crate) fn leaf_number(e: &Expr, frame: &Frame) -> Option<Short>
    requires { IsFit e.now (env_of frame.now) }
    ensures { ReadsNumber result (eval_of e.now (env_of frame.now)) }
{
    match &e.form {
        Form::Leaf(form) => number_in_leaf(form, frame),
        Form::One(OneForm::Field(_), _) => number_in_field(e, frame),
        _ => None,
    }
}

/// The same of a form without parts.
#[inline(always)]
fn number_in_leaf(form: &LeafForm, frame: &Frame) -> Option<Short>
    requires { LeafTakes (view_leaf form.now) (env_of frame.now) }
    ensures { ReadsNumber result (leaf_thing (view_leaf form.now) (env_of frame.now)) }
{
    match form {
        LeafForm::Name(name) => number_in_slot(read(frame, *name)),
        LeafForm::Int(kind, value) => Some(Short::of_num(Num {
            kind: *kind,
            value: *value,
        })),
        LeafForm::Truth(truth) => Some(Short::of_truth(*truth)),
        LeafForm::Chars(_) => None,
        LeafForm::Builder(_) => None,
    }
}

/// The number that a name stands for.
#[inline(always)]
fn number_in_slot(slot: Slot) -> Option<Short>
    ensures { ReadsNumber result (done (slot_thing slot.entry)) }
{
    match slot {
        Slot::Number(n) => Some(n),
        Slot::Row(row) => row.number(),
        Slot::Value(v) => number_of(v),
        Slot::Builder(_) => None,
    }
}

/// The number in a field of a name.
#[tactic(auto, using(crate::proofs::ReadLemmas::name_there, crate::proofs::ReadLemmas::field_takes, crate::proofs::ReadLemmas::field_reads))]
#[inline(always)]
fn number_in_field(e: &Expr, frame: &Frame) -> Option<Short>
    requires { IsFit e.now (env_of frame.now) }
    ensures { ReadsNumber result (eval_of e.now (env_of frame.now)) }
{
    match &e.form {
        Form::One(form, part) => match field_of_form(form) {
            Some(field) => match name_of(part) {
                Some(name) => field_in_slot(field, read(frame, name)),
                None => None,
            },
            None => None,
        },
        _ => None,
    }
}

/// The number of the field that the form asks for.
#[inline(always)]
fn field_of_form(form: &OneForm) -> Option<u32>
    ensures { IsFieldForm result (view_one form.now) }
{
    match form {
        OneForm::Field(field) => Some(*field),
        _ => None,
    }
}

/// The name that an expression is.
#[inline(always)]
fn name_of(e: &Expr) -> Option<Sym>
    ensures { IsNameOf result e.now }
{
    match &e.form {
        Form::Leaf(LeafForm::Name(name)) => Some(*name),
        _ => None,
    }
}

/// The number in a field of what a name stands for.
#[tactic(auto, using(weld_eval_forms::proofs::Shapes::field_there))]
#[inline(always)]
fn field_in_slot(field: u32, slot: Slot) -> Option<Short>
    requires { OneTakes (field_form field) (slot_thing slot) }
    ensures { ReadsNumber result (one_thing (field_form field) (slot_thing slot.entry)) }
{
    match slot {
        Slot::Row(row) => row.number_field(field),
        Slot::Value(v) => number_of(field_of(v, field)),
        Slot::Number(_) => None,
        Slot::Builder(_) => None,
    }
}

/// The field of a name that a form of one part is, lent where it stands: of a struct, or of the row of a loop, which needn't be
/// built for it. There is none where it is anything else. It takes no memory.
#[tactic(auto, using(crate::proofs::ReadLemmas::name_there, crate::proofs::ReadLemmas::field_takes, crate::proofs::ReadLemmas::field_reads))]
#[inline(never)]
pub(crate) fn lent_field<'a>(form: &OneForm, part: &Expr, frame: &'a Frame<'a>) -> Option<Held<'a>>
    requires { IsFit (tree.one anywhere (view_one form.now) part.now) (env_of frame.now) }
    ensures { IsLentAs result (eval_of (tree.one anywhere (view_one form.now) part.now)
        (env_of frame.now)) }
{
    match field_of_form(form) {
        Some(field) => match name_of(part) {
            Some(name) => lent_in_slot(field, read(frame, name)),
            None => None,
        },
        None => None,
    }
}

/// The field of what a name stands for, lent.
#[tactic(auto, using(weld_eval_forms::proofs::Shapes::field_there))]
#[inline(always)]
fn lent_in_slot<'a>(field: u32, slot: Slot<'a>) -> Option<Held<'a>>
    requires { OneTakes (field_form field) (slot_thing slot) }
    ensures { IsLentAs result (one_thing (field_form field) (slot_thing slot.entry)) }
{
    match slot {
        Slot::Row(row) => lent_element(row.field(field)),
        Slot::Value(v) => Some(Held::Lent(field_of(v, field))),
        Slot::Number(_) => None,
        Slot::Builder(_) => None,
    }
}

/// The two numbers of the struct that an expression is, where it is a name. It takes no memory.
#[tactic(auto, using(crate::proofs::ReadLemmas::alone_there, crate::proofs::ReadLemmas::alone_reads))]
#[inline(always)]
pub(crate) fn leaf_pair(e: &Expr, frame: &Frame) -> Option<(Short, Short)>
    requires { IsFit e.now (env_of frame.now) }
    ensures { ReadsPair result (eval_of e.now (env_of frame.now)) }
{
    match name_of(e) {
        Some(name) => pair_in_slot(read(frame, name)),
        None => None,
    }
}

/// The two numbers of the struct that a name stands for.
#[inline(always)]
fn pair_in_slot(slot: Slot) -> Option<(Short, Short)>
    ensures { ReadsPair result (done (slot_thing slot.entry)) }
{
    match slot {
        Slot::Row(row) => row.pair(),
        Slot::Value(v) => pair_of(v),
        Slot::Number(_) => None,
        Slot::Builder(_) => None,
    }
}

/// The vector of a loop's legs, lent where it stands: there is one leg, whole, and a name that stands for it. It takes no memory.
#[tactic(auto, using(crate::proofs::LegLemmas::lone_fits, crate::proofs::LegLemmas::lone_lends))]
#[inline(always)]
pub(crate) fn lent_leg<'a>(legs: &Legs, frame: &'a Frame<'a>) -> Option<&'a Column>
    requires { LegsAreFit (pack_legs legs.now) (env_of frame.now) }
    ensures { LendsLeg result (eval_legs_of (pack_legs legs.now) (env_of frame.now)) }
{
    let items = legs.as_slice();
    if items.len() != 1 {
        return None;
    }
    match &items[0] {
        Leg::Whole(e) => lent_vector(e, frame),
        Leg::Strided(_, _, _, _) => None,
    }
}

/// The vector that an expression is, where it is a name.
#[tactic(auto, using(crate::proofs::ReadLemmas::alone_there, crate::proofs::ReadLemmas::alone_lends))]
#[inline(always)]
fn lent_vector<'a>(e: &Expr, frame: &'a Frame<'a>) -> Option<&'a Column>
    requires { IsFit e.now (env_of frame.now) }
    ensures { LendsVector result (eval_of e.now (env_of frame.now)) }
{
    match name_of(e) {
        Some(name) => vector_in_slot(read(frame, name)),
        None => None,
    }
}

/// The vector that a name stands for.
#[inline(always)]
fn vector_in_slot<'a>(slot: Slot<'a>) -> Option<&'a Column>
    ensures { LendsVector result (done (slot_thing slot.entry)) }
{
    match slot {
        Slot::Row(row) => vector_in_row(row),
        Slot::Value(v) => vector_in(v),
        Slot::Number(_) => None,
        Slot::Builder(_) => None,
    }
}

/// The vector that the row of a loop over one leg is.
#[inline(always)]
fn vector_in_row<'a>(row: &'a RowAt<'a>) -> Option<&'a Column>
    ensures { LendsVector result (done (plain (row_value row.now))) }
{
    if !row.is_element() {
        return None;
    }
    match row.element() {
        Element::Lent(v) => vector_in(v),
        Element::Number(_) => None,
        Element::Packed(_) => None,
    }
}

/// The vector that a value is.
#[inline(always)]
fn vector_in<'a>(v: &'a Val) -> Option<&'a Column>
    ensures { LendsVector result (done (plain (view_val v.now))) }
{
    match v {
        Val::List(column) => Some(column),
        _ => None,
    }
}

/// The `merger` of numbers without a starting value that an expression is, with nothing merged. It takes no memory.
#[tactic(auto, using(weld_eval_plain::proofs::Nodes::leaf_takes))]
#[inline(always)]
pub(crate) fn empty_total(e: &Expr, frame: &Frame) -> Option<Built>
    requires { IsFit e.now (env_of frame.now) }
    ensures { StartsBuilder result (eval_of e.now (env_of frame.now)) }
{
    match &e.form {
        Form::Leaf(LeafForm::Builder(BuildTy::Total(ty, op))) => total_of_type(ty, *op),
        _ => None,
    }
}

/// The same of a merger's type and operator.
#[inline(always)]
fn total_of_type(ty: &Ty, op: MergeOp) -> Option<Built>
    requires { IsMergerType ty.now }
    ensures { StartsTotal result ty.now op }
{
    match &ty.form {
        TyForm::Scalar(kind) => Some(Built::empty_total(op, *kind)),
        _ => None,
    }
}
