//! Numbers that names from outside of an `iterate` stand for. It takes no memory.

ghost use Rattle.std.specs.Prelude.{◌≡◌, IfSome, MatchOption, None, Some};
ghost use Rattle.weld_data.specs.View.{view_val};
ghost use Rattle.weld_data.specs.Value.{number, struct, values};
ghost use Rattle.weld_eval.specs.FrameView.{env_of};
ghost use Rattle.weld_builders.specs.Outcome.{done};
ghost use Rattle.weld_eval.specs.RowView.{row_value};
ghost use Rattle.weld_eval.specs.ShortView.{view_short};
ghost use Rattle.weld_eval.specs.SlotView.{slot_thing};
ghost use Rattle.weld_meaning.specs.Environment.{look_for};
ghost use Rattle.weld_meaning.specs.Meaning.{with_arguments};
ghost use Rattle.weld_meaning.specs.Thing.{plain, value_at};
ghost use Rattle.weld_turns.specs.Outside.{IsFieldIn, IsPairOf, StandsFor, StandsForPair};

use weld_data::{Kind, Num, Val, Vals, wrap};
use weld_eval::frame::{Frame, Slot};
use weld_eval::number::number_of;
use weld_eval::row::RowAt;
use weld_eval::short::Short;
use weld_eval::thing::Owned;
use weld_tree::{Binders, Sym};

/// The number that a name stands for, where it stands for one.
pub fn outer_number(frame: &Frame, name: Sym) -> Option<Short>
    ensures { IfSome result (λ n. look_for name.0 (env_of frame.now)
        ≡ Some (plain (view_short n))) }
{
    match seek(frame, name) {
        Some(slot) => number_in(slot),
        None => None,
    }
}

/// The number that stands there, where it is one.
fn number_in(slot: Slot) -> Option<Short>
    ensures { IfSome result (λ n. slot_thing slot.entry ≡ plain (view_short n)) }
{
    match slot {
        Slot::Number(n) => Some(n),
        Slot::Row(row) => row.number(),
        Slot::Value(v) => number_of(v),
        Slot::Builder(_) => None,
    }
}

/// The number in a field of what a name stands for, from 0, where there is one.
pub fn outer_field(frame: &Frame, name: Sym, field: u32) -> Option<Short>
    ensures { IfSome result (λ n. IsFieldIn name.0 (env_of frame.now) field (view_short n)) }
{
    match seek(frame, name) {
        Some(slot) => field_in(slot, field),
        None => None,
    }
}

/// The fields of the struct of values that a name stands for, where it stands for one.
pub fn outer_fields<'a>(frame: &'a Frame<'a>, name: Sym) -> Option<&'a Vals>
    ensures { IfSome result (λ fields. look_for name.0 (env_of frame.now)
        ≡ Some (plain (struct (values fields.now)))) }
{
    match seek(frame, name) {
        Some(slot) => fields_in(slot),
        None => None,
    }
}

/// The fields of the struct that stands there, where it is one of values.
fn fields_in<'a>(slot: Slot<'a>) -> Option<&'a Vals>
    ensures { IfSome result (λ fields. slot_thing slot.entry ≡ plain (struct (values fields.now))) }
{
    match slot {
        Slot::Value(v) => match v {
            Val::Struct(fields) => Some(fields),
            _ => None,
        },
        Slot::Number(_) | Slot::Row(_) | Slot::Builder(_) => None,
    }
}

/// The two numbers of the row that a name stands for, where it stands for a row of two.
pub fn outer_pair(frame: &Frame, name: Sym) -> Option<(Short, Short)>
    ensures { StandsForPair result name.0 (env_of frame.now) }
{
    match seek(frame, name) {
        Some(slot) => pair_in(slot),
        None => None,
    }
}

/// What a name stands for, where it is found.
#[tactic(auto, using(weld_eval::proofs::Below::found_among, weld_eval::proofs::Below::found_below))]
fn seek<'a>(frame: &'a Frame<'a>, name: Sym) -> Option<Slot<'a>>
    ensures { IfSome result (λ slot. look_for name.0 (env_of frame.now) ≡ Some (slot_thing slot)) }
{
    match frame {
        Frame::Arguments(params, values) => match argument(params, values, name) {
            Some(v) => Some(Slot::Value(v)),
            None => None,
        },
        Frame::Value(bound, v, rest) => {
            if bound.0 == name.0 {
                Some(Slot::Value(v))
            } else {
                seek(rest, name)
            }
        }
        Frame::Builder(bound, x, rest) => {
            if bound.0 == name.0 {
                Some(Slot::Builder(x))
            } else {
                seek(rest, name)
            }
        }
        Frame::Number(bound, n, rest) => {
            if bound.0 == name.0 {
                Some(Slot::Number(*n))
            } else {
                seek(rest, name)
            }
        }
        Frame::Row(bound, row, rest) => {
            if bound.0 == name.0 {
                Some(Slot::Row(row))
            } else {
                seek(rest, name)
            }
        }
        Frame::Names(names, rest) => match names.thing(name) {
            Some(Owned::Value(v)) => Some(Slot::Value(v)),
            Some(x) => Some(Slot::Builder(x)),
            None => seek(rest, name),
        },
    }
}

/// The argument of a parameter.
#[tactic(auto, using(weld_eval::proofs::Arguments::found_there, weld_eval::proofs::Arguments::not_there))]
fn argument<'a>(params: &'a Binders, values: &'a Vals, name: Sym) -> Option<&'a Val>
    ensures { IfSome result (λ v. look_for name.0 (with_arguments params.now values.now)
        ≡ Some (plain (view_val v.now))) }
{
    let binders = params.as_slice();
    for i in 0..binders.len().min(values.len()) {
        if binders[i].sym.0 == name.0 {
            return Some(values.at(i));
        }
    }
    None
}

/// The number in a field of what stands there, where it is looked for.
fn field_in(slot: Slot, field: u32) -> Option<Short>
    ensures { IfSome result (λ n. StandsFor (slot_thing slot.entry) field (view_short n)) }
{
    match slot {
        Slot::Value(v) => match v {
            Val::Struct(fields) => number_at(fields, field as usize),
            _ => None,
        },
        Slot::Row(row) => field_of_row(row, field),
        Slot::Number(_) | Slot::Builder(_) => None,
    }
}

/// The number at an index, from 0, where one is there.
#[tactic(auto, using(crate::proofs::Outside::value_there))]
fn number_at(fields: &Vals, index: usize) -> Option<Short>
    ensures { IfSome result (λ n. value_at index (values fields.now) ≡ done (view_short n)) }
{
    if index < fields.len() {
        number_of(fields.at(index))
    } else {
        None
    }
}

/// The number in a field of a row that is a struct of two.
#[tactic(auto, using(crate::proofs::Outside::first_of_pair, crate::proofs::Outside::second_of_pair))]
fn field_of_row(row: &RowAt, field: u32) -> Option<Short>
    ensures { IfSome result (λ n. StandsFor (plain (row_value row.now)) field (view_short n)) }
{
    match row.pair() {
        Some((x, y)) => match field {
            0 => Some(x),
            1 => Some(y),
            _ => None,
        },
        None => None,
    }
}

/// The two numbers of the row that stands there, where it is a row of two.
fn pair_in(slot: Slot) -> Option<(Short, Short)>
    ensures { IsPairOf result (slot_thing slot.entry) }
{
    match slot {
        Slot::Row(row) => row.pair(),
        Slot::Value(_) | Slot::Number(_) | Slot::Builder(_) => None,
    }
}

/// The number of a literal, where it is one of the kind.
pub fn literal(kind: Kind, x: i128) -> Option<Short>
    ensures { IfSome result (λ n. view_short n ≡ number kind x) }
{
    match kind {
        Kind::Bool => None,
        _ => {
            let value = wrap(kind, x);
            if value == x {
                Some(Short::of_num(Num { kind, value }))
            } else {
                None
            }
        }
    }
}
