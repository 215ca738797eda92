//! The forms of two parts.

ghost use Rattle.std.specs.Prelude.{◌≡◌, IfOk};
ghost use Rattle.weld_data.specs.View.{view_val};
ghost use Rattle.weld_builders.specs.Outcome.{done};
ghost use Rattle.weld_meaning.specs.Thing.{plain};
ghost use Rattle.weld_tree.specs.ExprTree.{binary, look_up as look_up_form, key_exists as key_form, merge};
ghost use Rattle.weld_eval.specs.Elements.{view_element};
ghost use Rattle.weld_meaning.specs.Evaluation.{two_thing};
ghost use Rattle.weld_tree.specs.ExprView.{view_two};
ghost use Rattle.weld_eval.specs.Answers.{Answers, OnFault};
ghost use Rattle.weld_eval.specs.Takes.{TwoTakes, IsStrict};
ghost use Rattle.weld_eval.specs.ThingView.{thing_of, held_of};

use crate::release::let_go;
use std::alloc::Global;
use weld_data::{BinOp, Num, Stop, Val};
use weld_eval::forms::number;
use weld_eval::thing::{Held, Owned, into_value, value_of};
use weld_eval::values::{Element, has_key, look_up, operated};
use weld_tree::TwoForm;

/// A form of two parts, every one but `&&` and `||`.
pub fn two<'a>(form: TwoForm, x: Held<'a>, y: Held<'a>, alloc: Global) -> Result<Held<'a>, Stop>
    requires takes { TwoTakes (view_two form) (held_of x) (held_of y) }
    requires strict { IsStrict (view_two form) }
    ensures { Answers held_of result (two_thing (view_two form) (held_of x.entry)
        (done (held_of y.entry))) }
{
    match form {
        TwoForm::Binary(op) => operated_things(op, x, y),
        TwoForm::LookUp => looked_up(x, y, alloc),
        TwoForm::KeyExists => Ok(key_exists(x, y)),
        TwoForm::Merge => merged(x, y, alloc),
        TwoForm::And | TwoForm::Or => unreachable!(),
    }
}

/// The operator's answer on two numbers.
#[tactic(auto, using(crate::proofs::TwoShapes::left_plain, crate::proofs::TwoShapes::right_plain, crate::proofs::TwoShapes::operands))]
fn operated_things<'a>(op: BinOp, x: Held<'a>, y: Held<'a>) -> Result<Held<'a>, Stop>
    requires { TwoTakes (binary op) (held_of x) (held_of y) }
    ensures { Answers held_of result (two_thing (binary op) (held_of x.entry)
        (done (held_of y.entry))) }
{
    let answer = operated(op, value_of(&x), value_of(&y));
    let_go(x);
    let_go(y);
    match answer {
        Ok(n) => Ok(number(n)),
        Err(stop) => Err(stop),
    }
}

/// An element of a vector or the value of a key: lent where the vector or the dictionary is.
fn looked_up<'a>(x: Held<'a>, y: Held<'a>, alloc: Global) -> Result<Held<'a>, Stop>
    requires { TwoTakes look_up_form (held_of x) (held_of y) }
    ensures { Answers held_of result (two_thing look_up_form (held_of x.entry)
        (done (held_of y.entry))) }
{
    match x {
        Held::Lent(v) => {
            let element = lent_element(v, &y, alloc);
            let_go(y);
            element
        }
        Held::Made(x) => {
            let element = made_element(&x, &y, alloc);
            let_go(Held::Made(x));
            let_go(y);
            element
        }
    }
}

/// The same of what is lent.
#[tactic(auto, using(crate::proofs::TwoShapes::looks_up))]
fn lent_element<'a>(v: &'a Val, y: &Held, alloc: Global) -> Result<Held<'a>, Stop>
    requires { TwoTakes look_up_form (plain (view_val v.now)) (held_of y.now) }
    ensures { Answers held_of result (two_thing look_up_form (plain (view_val v.now))
        (done (held_of y.now))) }
{
    match look_up(v, value_of(y)) {
        Ok(Element::Lent(w)) => Ok(Held::Lent(w)),
        Ok(element) => made_of(element, alloc),
        Err(stop) => Err(stop),
    }
}

/// The same of what was made.
#[tactic(auto, using(crate::proofs::TwoShapes::looked_plain, crate::proofs::TwoShapes::looks_up))]
fn made_element<'a>(x: &Owned, y: &Held, alloc: Global) -> Result<Held<'a>, Stop>
    requires { TwoTakes look_up_form (thing_of x.now) (held_of y.now) }
    ensures { Answers held_of result (two_thing look_up_form (thing_of x.now)
        (done (held_of y.now))) }
{
    match x {
        Owned::Value(v) => match look_up(v, value_of(y)) {
            Ok(element) => made_of(element, alloc),
            Err(stop) => Err(stop),
        },
        _ => unreachable!(),
    }
}

/// An element as a thing that was made.
fn made_of<'a, 'b>(element: Element<'b>, alloc: Global) -> Result<Held<'a>, Stop>
    ensures there { IfOk result (λ x. held_of x ≡ plain (view_element element.entry)) }
    ensures memory { OnFault result ⊥ }
{
    match element {
        Element::Lent(v) => match v.copy(alloc) {
            Ok(copy) => Ok(Held::Made(Owned::Value(copy))),
            Err(_) => Err(Stop::Memory),
        },
        Element::Number(n) => Ok(number(n)),
        Element::Packed(row) => match row.copy(alloc) {
            Ok(copy) => Ok(Held::Made(Owned::Value(copy))),
            Err(_) => Err(Stop::Memory),
        },
    }
}

/// Whether a dictionary has a key.
#[tactic(auto, using(crate::proofs::TwoShapes::keys_plain, crate::proofs::TwoShapes::key_plain, crate::proofs::TwoShapes::key_looked))]
fn key_exists<'a>(x: Held<'a>, y: Held<'a>) -> Held<'a>
    requires { TwoTakes key_form (held_of x) (held_of y) }
    ensures { two_thing key_form (held_of x.entry) (done (held_of y.entry))
        ≡ done (held_of result) }
{
    let found = has_key(value_of(&x), value_of(&y));
    let_go(x);
    let_go(y);
    number(Num::of_bool(found))
}

/// A builder with an item more.
#[tactic(auto, using(crate::proofs::TwoShapes::item_fits, crate::proofs::TwoShapes::no_value_merges, crate::proofs::TwoShapes::no_struct_merges))]
fn merged<'a>(x: Held<'a>, y: Held<'a>, alloc: Global) -> Result<Held<'a>, Stop>
    requires { TwoTakes merge (held_of x) (held_of y) }
    ensures { Answers held_of result (two_thing merge (held_of x.entry) (done (held_of y.entry))) }
{
    match x {
        Held::Made(Owned::Built(mut built)) => {
            let item = match into_value(y, alloc) {
                Ok(item) => item,
                Err(_) => return Err(Stop::Memory),
            };
            match built.merge(item) {
                Ok(()) => Ok(Held::Made(Owned::Built(built))),
                Err(stop) => Err(stop),
            }
        }
        _ => unreachable!(),
    }
}
