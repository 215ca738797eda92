//! The things of the names in scope.

ghost use Rattle.std.specs.Prelude.{◌≡◌, ◌∷◌, Some, None, MatchOption, IsSome, IfSome};
ghost use Rattle.weld_data.specs.View.{view_val};
ghost use Rattle.weld_builders.specs.Outcome.{done};
ghost use Rattle.weld_meaning.specs.Environment.{look_for};
ghost use Rattle.weld_meaning.specs.Evaluation.{found};
ghost use Rattle.weld_meaning.specs.Meaning.{with_arguments};
ghost use Rattle.weld_meaning.specs.Thing.{plain};
ghost use Rattle.weld_eval.specs.Answers.{Answers};
ghost use Rattle.weld_eval.specs.Elements.{view_element};
ghost use Rattle.weld_eval.specs.FrameView.{env_of};
ghost use Rattle.weld_eval.specs.RowView.{row_value};
ghost use Rattle.weld_eval.specs.SlotView.{slot_thing};
ghost use Rattle.weld_eval.specs.ThingView.{thing_of, held_of};

use crate::names::Names;
use crate::row::RowAt;
use crate::short::Short;
use crate::thing::{Held, Owned, copy_thing};
use crate::values::Element;
use std::alloc::Global;
use weld_data::{Stop, Val, Vals};
use weld_tree::{Binders, Sym};

/// The names in scope with their things, the newest first: below all the parameters with their
/// arguments. A number and a row of a loop stand for values that aren't built.
#[derive(Clone, Copy)]
pub enum Frame<'a> {
    Arguments(&'a Binders, &'a Vals),
    Value(Sym, &'a Val, &'a Frame<'a>),
    Builder(Sym, &'a Owned, &'a Frame<'a>),
    Number(Sym, Short, &'a Frame<'a>),
    Row(Sym, &'a RowAt<'a>, &'a Frame<'a>),
    Names(&'a Names, &'a Frame<'a>),
}

/// What a name stands for, lent where it stands.
pub enum Slot<'a> {
    Value(&'a Val),
    Number(Short),
    Row(&'a RowAt<'a>),
    Builder(&'a Owned),
}

/// The names with one more. It takes no memory.
pub fn bind<'a>(name: Sym, held: &'a Held<'a>, rest: &'a Frame<'a>) -> Frame<'a>
    ensures { env_of result ≡ (name.0, held_of held.now) ∷ env_of rest.now }
{
    match held {
        Held::Lent(v) => Frame::Value(name, v, rest),
        Held::Made(Owned::Value(v)) => Frame::Value(name, v, rest),
        Held::Made(x) => Frame::Builder(name, x, rest),
    }
}

/// The thing of a name that is in scope: a value is lent, also one that is the row of a loop over one
/// leg; a builder is copied, a number or another row of a loop made into a value.
#[tactic(auto, using(crate::proofs::Below::is_below, crate::proofs::Below::answers_among, crate::proofs::Below::answers_below))]
pub fn find<'a>(frame: &'a Frame<'a>, name: Sym, alloc: Global) -> Result<Held<'a>, Stop>
    requires { IsSome (look_for name.0 (env_of frame.now)) }
    ensures { Answers held_of result (found (look_for name.0 (env_of frame.now))) }
{
    match frame {
        Frame::Arguments(params, values) => match find_argument(params, values, name) {
            Some(v) => Ok(Held::Lent(v)),
            None => unreachable!(),
        },
        Frame::Value(bound, v, rest) => {
            if bound.0 == name.0 {
                Ok(Held::Lent(v))
            } else {
                find(rest, name, alloc)
            }
        }
        Frame::Builder(bound, x, rest) => {
            if bound.0 == name.0 {
                lend(x, alloc)
            } else {
                find(rest, name, alloc)
            }
        }
        Frame::Number(bound, n, rest) => {
            if bound.0 == name.0 {
                Ok(Held::Made(Owned::Value(Val::Num(n.to_num()))))
            } else {
                find(rest, name, alloc)
            }
        }
        Frame::Row(bound, row, rest) => {
            if bound.0 == name.0 {
                build(row, alloc)
            } else {
                find(rest, name, alloc)
            }
        }
        Frame::Names(names, rest) => match names.thing(name) {
            Some(x) => lend(x, alloc),
            None => find(rest, name, alloc),
        },
    }
}

/// A thing of a name: a value is lent, a builder copied.
fn lend<'a>(x: &'a Owned, alloc: Global) -> Result<Held<'a>, Stop>
    ensures { Answers held_of result (done (thing_of x.now)) }
{
    match x {
        Owned::Value(v) => Ok(Held::Lent(v)),
        _ => match copy_thing(x, alloc) {
            Ok(copy) => Ok(Held::Made(copy)),
            Err(_) => Err(Stop::Memory),
        },
    }
}

/// A row as a thing: the element of one leg is lent where it stands, the struct of more is built.
fn build<'a>(row: &'a RowAt<'a>, alloc: Global) -> Result<Held<'a>, Stop>
    ensures { Answers held_of result (done (plain (row_value row.now))) }
{
    if row.is_element() {
        match lent_element(row.element()) {
            Some(x) => return Ok(x),
            None => {}
        }
    }
    match row.to_value(alloc) {
        Ok(v) => Ok(Held::Made(Owned::Value(v))),
        Err(_) => Err(Stop::Memory),
    }
}

/// An element as a thing, where that takes no memory: it isn't a struct of numbers.
#[inline]
pub fn lent_element<'a>(element: Element<'a>) -> Option<Held<'a>>
    ensures { IfSome result (λ x. held_of x ≡ plain (view_element element.entry)) }
{
    match element {
        Element::Lent(v) => Some(Held::Lent(v)),
        Element::Number(n) => Some(Held::Made(Owned::Value(Val::Num(n)))),
        Element::Packed(_) => None,
    }
}

/// What a name that is in scope stands for. It takes no memory.
#[inline(always)]
pub fn read<'a>(frame: &'a Frame<'a>, name: Sym) -> Slot<'a>
    requires { IsSome (look_for name.0 (env_of frame.now)) }
    ensures { look_for name.0 (env_of frame.now) ≡ Some (slot_thing result) }
{
    match frame {
        Frame::Row(bound, row, rest) => {
            if bound.0 == name.0 {
                Slot::Row(row)
            } else {
                read_far(rest, name)
            }
        }
        Frame::Number(bound, n, rest) => {
            if bound.0 == name.0 {
                Slot::Number(*n)
            } else {
                read_far(rest, name)
            }
        }
        _ => read_far(frame, name),
    }
}

/// The same, link by link.
#[tactic(auto, using(crate::proofs::Below::is_below, crate::proofs::Below::found_among, crate::proofs::Below::found_below))]
fn read_far<'a>(frame: &'a Frame<'a>, name: Sym) -> Slot<'a>
    requires { IsSome (look_for name.0 (env_of frame.now)) }
    ensures { look_for name.0 (env_of frame.now) ≡ Some (slot_thing result) }
{
    match frame {
        Frame::Arguments(params, values) => match find_argument(params, values, name) {
            Some(v) => Slot::Value(v),
            None => unreachable!(),
        },
        Frame::Value(bound, v, rest) => {
            if bound.0 == name.0 {
                Slot::Value(v)
            } else {
                read_far(rest, name)
            }
        }
        Frame::Builder(bound, x, rest) => {
            if bound.0 == name.0 {
                Slot::Builder(x)
            } else {
                read_far(rest, name)
            }
        }
        Frame::Number(bound, n, rest) => {
            if bound.0 == name.0 {
                Slot::Number(*n)
            } else {
                read_far(rest, name)
            }
        }
        Frame::Row(bound, row, rest) => {
            if bound.0 == name.0 {
                Slot::Row(row)
            } else {
                read_far(rest, name)
            }
        }
        Frame::Names(names, rest) => match names.thing(name) {
            Some(Owned::Value(v)) => Slot::Value(v),
            Some(x) => Slot::Builder(x),
            None => read_far(rest, name),
        },
    }
}

/// The argument of a parameter. It takes no memory.
#[tactic(auto, using(crate::proofs::Arguments::found_there, crate::proofs::Arguments::not_there, crate::proofs::Arguments::ended))]
fn find_argument<'a>(params: &'a Binders, values: &'a Vals, name: Sym) -> Option<&'a Val>
    ensures { MatchOption result (look_for name.0 (with_arguments params.now values.now) ≡ None)
        (λ v. look_for name.0 (with_arguments params.now values.now)
        ≡ Some (plain (view_val v.now))) }
{
    let binders = params.as_slice();
    for i in 0..binders.len().min(values.len()) {
        if binders[i].sym.0 == name.0 {
            return Some(values.at(i));
        }
    }
    None
}
