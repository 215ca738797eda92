//! The forms of one part.

ghost use Rattle.std.specs.Prelude.{◌≡◌};
ghost use Rattle.weld_builders.specs.Outcome.{done};
ghost use Rattle.weld_meaning.specs.Evaluation.{one_thing};
ghost use Rattle.weld_tree.specs.ExprTree.{neg, not as not_of, cast as cast_of, len, field as field_form, finish};
ghost use Rattle.weld_tree.specs.ExprView.{view_one};
ghost use Rattle.weld_eval.specs.Answers.{Answers};
ghost use Rattle.weld_meaning.specs.Thing.{thing_at};
ghost use Rattle.weld_eval.specs.Takes.{OneTakes, HasThingAt};
ghost use Rattle.weld_eval.specs.ThingView.{held_of, thing_of, things_of};

use crate::starts::started;
use std::alloc::Global;
use weld_data::{Kind, Stop};
use weld_eval::forms::number;
use weld_eval::thing::{Fields, Held, Owned, value_of};
use weld_eval::values::{cast, contrary, field_of, length, negated};
use weld_tree::OneForm;

/// A form of one part.
pub fn one<'a>(form: &OneForm, x: Held<'a>, alloc: Global) -> Result<Held<'a>, Stop>
    requires { OneTakes (view_one form.now) (held_of x) }
    ensures { Answers held_of result (one_thing (view_one form.now) (held_of x.entry)) }
{
    match form {
        OneForm::Neg => Ok(opposite(x)),
        OneForm::Not => Ok(other_truth(x)),
        OneForm::Cast(kind) => Ok(as_kind(*kind, x)),
        OneForm::Len => Ok(length_of(x)),
        OneForm::Field(field) => field_of_thing(*field, x, alloc),
        OneForm::Finish => finished(x, alloc),
        OneForm::Builder(build) => started(build, x, alloc),
    }
}

/// The wrapped opposite of a number.
#[tactic(auto, using(crate::proofs::Shapes::neg_plain, crate::proofs::Shapes::neg_number))]
fn opposite<'a>(x: Held<'a>) -> Held<'a>
    requires { OneTakes neg (held_of x) }
    ensures { one_thing neg (held_of x.entry) ≡ done (held_of result) }
{
    number(negated(value_of(&x)))
}

/// The other truth value.
#[tactic(auto, using(crate::proofs::Shapes::not_plain, crate::proofs::Shapes::not_truth))]
fn other_truth<'a>(x: Held<'a>) -> Held<'a>
    requires { OneTakes not_of (held_of x) }
    ensures { one_thing not_of (held_of x.entry) ≡ done (held_of result) }
{
    number(contrary(value_of(&x)))
}

/// The number of another kind.
#[tactic(auto, using(crate::proofs::Shapes::cast_plain, crate::proofs::Shapes::cast_number, crate::proofs::Shapes::cast_kind))]
fn as_kind<'a>(kind: Kind, x: Held<'a>) -> Held<'a>
    requires { OneTakes (cast_of kind) (held_of x) }
    ensures { one_thing (cast_of kind) (held_of x.entry) ≡ done (held_of result) }
{
    number(cast(kind, value_of(&x)))
}

/// How many elements a vector has.
#[tactic(auto, using(crate::proofs::Shapes::len_plain, crate::proofs::Shapes::len_list))]
fn length_of<'a>(x: Held<'a>) -> Held<'a>
    requires { OneTakes len (held_of x) }
    ensures { one_thing len (held_of x.entry) ≡ done (held_of result) }
{
    number(length(value_of(&x)))
}

/// The field of a struct: lent where the struct is.
#[tactic(auto, using(crate::proofs::Shapes::field_there, crate::proofs::Shapes::builder_there, crate::proofs::Shapes::no_field))]
fn field_of_thing<'a>(field: u32, x: Held<'a>, alloc: Global) -> Result<Held<'a>, Stop>
    requires { OneTakes (field_form field) (held_of x) }
    ensures { Answers held_of result (one_thing (field_form field) (held_of x.entry)) }
{
    match x {
        Held::Lent(v) => Ok(Held::Lent(field_of(v, field))),
        Held::Made(Owned::Value(v)) => match field_of(&v, field).copy(alloc) {
            Ok(copy) => Ok(Held::Made(Owned::Value(copy))),
            Err(_) => Err(Stop::Memory),
        },
        Held::Made(Owned::Several(fields)) => Ok(Held::Made(taken(fields, field))),
        Held::Made(Owned::Built(_)) => unreachable!(),
    }
}

/// The thing of that number, from 0, taken out.
fn taken(fields: Fields, field: u32) -> Owned
    requires { HasThingAt field (things_of fields) }
    ensures { thing_at field (things_of fields) ≡ done (thing_of result) }
{
    match fields {
        Fields::End => unreachable!(),
        Fields::And(first, rest) => {
            if field == 0 {
                Box::into_inner(first)
            } else {
                taken(Box::into_inner(rest), field - 1)
            }
        }
    }
}

/// The result of a builder.
#[tactic(auto, using(crate::proofs::Results::has_result, crate::proofs::Results::no_value))]
fn finished<'a>(x: Held<'a>, alloc: Global) -> Result<Held<'a>, Stop>
    requires { OneTakes finish (held_of x) }
    ensures { Answers held_of result (one_thing finish (held_of x.entry)) }
{
    match x {
        Held::Made(Owned::Built(built)) => match built.finish(alloc) {
            Ok(v) => Ok(Held::Made(Owned::Value(v))),
            Err(_) => Err(Stop::Memory),
        },
        _ => unreachable!(),
    }
}
