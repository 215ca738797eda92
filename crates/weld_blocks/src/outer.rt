//! Values outside of a loop's rows, which a body reads where they stand.

ghost use Rattle.std.specs.Prelude.{◌≡◌, ◌+◌, IfSome, Some};
ghost use Rattle.weld_builders.specs.Outcome.{done};
ghost use Rattle.weld_data.specs.Value.{list, values};
ghost use Rattle.weld_data.specs.View.{view_column, view_val};
ghost use Rattle.weld_meaning.specs.Environment.{look_for};
ghost use Rattle.weld_meaning.specs.Evaluation.{looked_up as looked_up_value};
ghost use Rattle.weld_meaning.specs.Thing.{plain, value_field};
ghost use Rattle.weld_eval.specs.FrameView.{env_of};
ghost use Rattle.weld_eval.specs.ShortView.{view_short};
ghost use Rattle.weld_eval.specs.ThingView.{thing_of};
ghost use Rattle.weld_blocks.specs.Numbers.{number_at as number_of_place};
ghost use Rattle.weld_blocks.specs.Outer.{IsEverywhere, StandsEverywhere};
ghost use Rattle.weld_blocks.specs.Scope.{scope_env, row_env};

use crate::gather::Gives;
use crate::leaves::argument;
use crate::numbers::Numbers;
use crate::scope::{Rows, Scope};
use weld_data::{Column, Kind, Val};
use weld_eval::frame::Frame;
use weld_eval::number::number_at;
use weld_eval::short::Short;
use weld_eval::thing::Owned;
use weld_tree::{Expr, Form, LeafForm, OneForm, Sym};

/// What a name of outside, or a field of what one stands for, is on every row, lent where it stands. It takes no memory.
#[tactic(auto, using(crate::proofs::OuterLemmas::name_everywhere, crate::proofs::OuterLemmas::field_everywhere))]
pub(crate) fn outer_value<'a>(e: &Expr, scope: &'a Scope<'a>) -> Option<&'a Val>
    ensures { IfSome result (λ v. IsEverywhere e.now (scope_env scope.now) (view_val v.now)) }
{
    match &e.form {
        Form::Leaf(LeafForm::Name(name)) => match outer_named(scope, *name) {
            Some(v) => Some(v),
            None => None,
        },
        Form::One(OneForm::Field(field), part) => match outer_value(part, scope) {
            Some(v) => match field_of(v, *field) {
                Some(w) => Some(w),
                None => None,
            },
            None => None,
        },
        _ => None,
    }
}

/// The field of a struct, from 0, where it has one. It takes no memory.
#[tactic(auto, using(crate::proofs::OuterLemmas::field_of_struct))]
pub(crate) fn field_of<'a>(v: &'a Val, field: u32) -> Option<&'a Val>
    ensures { IfSome result (λ w. value_field field (view_val v.now) ≡ done (view_val w.now)) }
{
    match v {
        Val::Struct(fields) => {
            let field = field as usize;
            if field < fields.len() {
                Some(fields.at(field))
            } else {
                None
            }
        }
        _ => None,
    }
}

/// The value that a name of outside stands for on every row.
#[tactic(auto, using(crate::proofs::OuterLemmas::stands_below, crate::proofs::OuterLemmas::stands_outside, crate::proofs::PickLemmas::stands_picked))]
fn outer_named<'a>(scope: &'a Scope<'a>, name: Sym) -> Option<&'a Val>
    ensures { IfSome result (λ v. StandsEverywhere name.0 (scope_env scope.now) (view_val v.now)) }
{
    match scope {
        Scope::Let(newest, _, rest) => {
            if newest.0 == name.0 {
                None
            } else {
                match outer_named(rest, name) {
                    Some(v) => Some(v),
                    None => None,
                }
            }
        }
        Scope::Rows(rows) => match outside_rows(rows, name) {
            Some(v) => Some(v),
            None => None,
        },
        Scope::Picked(_, _, rest) => match outer_named(rest, name) {
            Some(v) => Some(v),
            None => None,
        },
    }
}

/// The same, where no `let` of the body comes between.
#[tactic(auto, using(crate::proofs::OuterLemmas::stands_past_rows))]
fn outside_rows<'a>(rows: &'a Rows<'a>, name: Sym) -> Option<&'a Val>
    ensures { IfSome result (λ v. StandsEverywhere name.0 (row_env rows.now) (view_val v.now)) }
{
    if rows.row_name.0 == name.0 || rows.count_name.0 == name.0 || rows.own_name.0 == name.0 {
        return None;
    }
    match value_named(rows.frame, name) {
        Some(v) => Some(v),
        None => None,
    }
}

/// The value that a name stands for, where it stands for one that is kept. It takes no memory.
#[tactic(auto, using(weld_eval::proofs::Below::found_among, weld_eval::proofs::Below::found_below))]
pub(crate) fn value_named<'a>(frame: &'a Frame<'a>, name: Sym) -> Option<&'a Val>
    ensures { IfSome result (λ v. look_for name.0 (env_of frame.now)
        ≡ Some (plain (view_val v.now))) }
{
    match frame {
        Frame::Arguments(params, values) => match argument(params, values, name) {
            Some(v) => Some(v),
            None => None,
        },
        Frame::Value(bound, v, rest) => {
            if bound.0 == name.0 {
                Some(v)
            } else {
                value_named(rest, name)
            }
        }
        Frame::Builder(bound, _, rest) => {
            if bound.0 == name.0 {
                None
            } else {
                value_named(rest, name)
            }
        }
        Frame::Number(bound, _, rest) => {
            if bound.0 == name.0 {
                None
            } else {
                value_named(rest, name)
            }
        }
        Frame::Row(bound, _, rest) => {
            if bound.0 == name.0 {
                None
            } else {
                value_named(rest, name)
            }
        }
        Frame::Names(names, rest) => match names.thing(name) {
            Some(x) => match value_in(x) {
                Some(v) => Some(v),
                None => None,
            },
            None => match value_named(rest, name) {
                Some(v) => Some(v),
                None => None,
            },
        },
    }
}

/// The value that a thing is, where it is one. It takes no memory.
fn value_in(x: &Owned) -> Option<&Val>
    ensures { IfSome result (λ v. thing_of x.now ≡ plain (view_val v.now)) }
{
    match x {
        Owned::Value(v) => Some(v),
        _ => None,
    }
}

/// The elements of a column at places that are numbers, one for each row.
#[derive(Clone, Copy)]
pub(crate) struct Looked<'a> {
    pub(crate) column: &'a Column,
    pub(crate) places: &'a Numbers,
}

impl<'a> Gives for Looked<'a> {
    ghost gives = { λ l place v. looked_up_value (list (values (view_column l.column.now))) (number_of_place l.places.now place) ≡ done v };

    #[inline(always)]
    fn at(&self, place: usize) -> Option<Short> {
        if place < self.places.len() {
            element_at(self.column, self.places.at(place))
        } else {
            None
        }
    }
}

/// The element of a column at the place that a number is, where it is there and is a number.
#[tactic(auto, using(crate::proofs::OuterLemmas::element_looked_up))]
#[inline(always)]
pub(crate) fn element_at(column: &Column, n: Short) -> Option<Short>
    ensures { IfSome result (λ m. looked_up_value (list (values (view_column column.now)))
        (view_short n) ≡ done (view_short m)) }
{
    if n.kind != Kind::I64 || n.word < 0 {
        return None;
    }
    let place = n.word as usize;
    if place >= column.len() {
        return None;
    }
    number_at(column, place)
}
