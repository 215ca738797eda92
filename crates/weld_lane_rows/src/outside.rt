//! Numbers that are the same on all rows of a loop: those that stand outside of it.

ghost use Rattle.std.specs.Prelude.{◌≡◌, ◌<◌, true, length, map, slice_get, IfSome, IfOk, Some};
ghost use Rattle.weld_data.specs.Value.{number};
ghost use Rattle.weld_data.specs.View.{view_val};
ghost use Rattle.weld_meaning.specs.Environment.{look_for};
ghost use Rattle.weld_meaning.specs.Meaning.{with_arguments};
ghost use Rattle.weld_meaning.specs.Thing.{plain};
ghost use Rattle.weld_eval.specs.FrameView.{env_of};
ghost use Rattle.weld_eval.specs.ShortView.{view_short};
ghost use Rattle.weld_eval.specs.ThingView.{thing_of};
ghost use Rattle.weld_lane_rows.specs.Outside.{AreOutside, IsOutside, OwnIsApart};

use std::alloc::{AllocError, Global};
use weld_data::{Kind, Num, Val, Vals};
use weld_eval::frame::Frame;
use weld_eval::number::number_of;
use weld_eval::short::Short;
use weld_eval::thing::Owned;
use weld_lane_form::LoopNames;
use weld_lanes::Lane;
use weld_tree::{Binders, Sym};

/// The numbers that names outside of a loop stand for, where each is none of the loop's own names and stands for a number of
/// the kind.
pub(crate) fn numbers_outside<L: Lane>(
    names: &LoopNames,
    syms: &[Sym],
    frame: &Frame,
    alloc: Global,
) -> Result<Option<Vec<L>>, AllocError>
    requires { names.now.kind ≡ L.kind }
    ensures { IfOk result (λ found. IfSome found (λ us. AreOutside names.now L.kind syms.now
        (map L.number us.items) (env_of frame.now))) }
{
    let mut numbers = Vec::new(alloc);
    for place in 0..syms.len() {
        match number_outside(names, name_at(syms, place), frame) {
            Some(x) => numbers.push(x)?,
            None => return Ok(None),
        }
    }
    Ok(Some(numbers))
}

/// The name at a place, from 0.
fn name_at(syms: &[Sym], place: usize) -> Sym
    requires { place < length syms.now }
    ensures { slice_get syms.now place ≡ Some result }
{
    syms[place]
}

/// The same of one name. It takes no memory.
fn number_outside<L: Lane>(names: &LoopNames, name: Sym, frame: &Frame) -> Option<L>
    requires { names.now.kind ≡ L.kind }
    ensures outside { IfSome result (λ x. IsOutside names.now name.0) }
    ensures number { IfSome result (λ x. look_for name.0 (env_of frame.now)
        ≡ Some (plain (number L.kind (L.number x)))) }
{
    if !is_outside(names, name) {
        return None;
    }
    match number_named(frame, name) {
        Some(n) => of_kind(names.kind, n.to_num()),
        None => None,
    }
}

/// Whether the name is none of the loop's.
fn is_outside(names: &LoopNames, name: Sym) -> bool
    ensures { result ≡ true → IsOutside names.now name.0 }
{
    name.0 != names.row.0 && name.0 != names.number.0 && name.0 != names.own.0
}

/// Whether the name of the loop's builder is neither the row's nor that of its number.
pub(crate) fn is_own_apart(names: &LoopNames) -> bool
    ensures { result ≡ true → OwnIsApart names.now }
{
    names.own.0 != names.row.0 && names.own.0 != names.number.0
}

/// The number in the width of its kind, where it is of the kind.
fn of_kind<L: Lane>(kind: Kind, n: Num) -> Option<L>
    requires { kind ≡ L.kind }
    ensures { IfSome result (λ x. number n.kind n.value ≡ number L.kind (L.number x)) }
{
    if is_same(n.kind, kind) {
        Some(L::from_wide(n.value))
    } else {
        None
    }
}

/// Whether two kinds are the same.
pub(crate) fn is_same(kind: Kind, other: Kind) -> bool
    ensures { result ≡ true → kind ≡ other }
{
    kind == other
}

/// The number that a name stands for, where it stands for one. It takes no memory.
fn number_named(frame: &Frame, name: Sym) -> Option<Short>
    ensures { IfSome result (λ n. look_for name.0 (env_of frame.now)
        ≡ Some (plain (view_short n))) }
{
    match frame {
        Frame::Arguments(params, values) => argument(params, values, name),
        Frame::Value(bound, v, rest) => {
            if bound.0 == name.0 {
                number_in(v)
            } else {
                number_named(rest, name)
            }
        }
        Frame::Number(bound, n, rest) => {
            if bound.0 == name.0 {
                Some(*n)
            } else {
                number_named(rest, name)
            }
        }
        Frame::Builder(bound, _, rest) => {
            if bound.0 == name.0 {
                None
            } else {
                number_named(rest, name)
            }
        }
        Frame::Row(bound, _, rest) => {
            if bound.0 == name.0 {
                None
            } else {
                number_named(rest, name)
            }
        }
        Frame::Names(names, rest) => match names.thing(name) {
            Some(x) => number_in_thing(x),
            None => number_named(rest, name),
        },
    }
}

/// The number that a value is, where it is one.
fn number_in(v: &Val) -> Option<Short>
    ensures { IfSome result (λ n. view_val v.now ≡ view_short n) }
{
    number_of(v)
}

/// The number that a thing is, where it is one.
fn number_in_thing(x: &Owned) -> Option<Short>
    ensures { IfSome result (λ n. thing_of x.now ≡ plain (view_short n)) }
{
    match x {
        Owned::Value(v) => number_in(v),
        _ => None,
    }
}

/// The number that the argument of a parameter is, where it is one.
#[tactic(auto, using(weld_eval::proofs::Arguments::found_there, weld_eval::proofs::Arguments::not_there, weld_eval::proofs::Arguments::ended))]
fn argument(params: &Binders, values: &Vals, name: Sym) -> Option<Short>
    ensures { IfSome result (λ n. look_for name.0 (with_arguments params.now values.now)
        ≡ Some (plain (view_short n))) }
{
    let binders = params.as_slice();
    for i in 0..binders.len().min(values.len()) {
        if binders[i].sym.0 == name.0 {
            return number_in(values.at(i));
        }
    }
    None
}
