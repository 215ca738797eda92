//! The forms of three parts.

ghost use Rattle.std.specs.Prelude.{◌≡◌};
ghost use Rattle.weld_tree.specs.ExprTree.{select, slice};
ghost use Rattle.weld_builders.specs.Outcome.{done};
ghost use Rattle.weld_meaning.specs.Evaluation.{three_thing};
ghost use Rattle.weld_tree.specs.ExprView.{view_three};
ghost use Rattle.weld_eval.specs.Answers.{Answers};
ghost use Rattle.weld_eval.specs.Takes.{ThreeTakes};
ghost use Rattle.weld_eval.specs.ThingView.{held_of};
ghost use Rattle.weld_eval_forms.specs.FormTakes.{AreAllEvaluated};

use crate::release::let_go;
use std::alloc::Global;
use weld_data::Stop;
use weld_eval::thing::{Held, Owned, value_of};
use weld_eval::values::{part_of, truth_of};
use weld_tree::ThreeForm;

/// A form of three parts, every one but `if`.
pub fn three<'a>(
    form: ThreeForm,
    x: Held<'a>,
    y: Held<'a>,
    z: Held<'a>,
    alloc: Global,
) -> Result<Held<'a>, Stop>
    requires takes { ThreeTakes (view_three form) (held_of x) (held_of y) (held_of z) }
    requires evaluated { AreAllEvaluated (view_three form) }
    ensures { Answers held_of result (three_thing (view_three form) (held_of x.entry)
        (done (held_of y.entry)) (done (held_of z.entry))) }
{
    match form {
        ThreeForm::Select => Ok(selected(x, y, z)),
        ThreeForm::Slice => sliced(x, y, z, alloc),
        ThreeForm::If => unreachable!(),
    }
}

/// The second thing or the third, as the first says.
#[tactic(auto, using(crate::proofs::ThreeShapes::condition_truth, crate::proofs::ThreeShapes::selects_second, crate::proofs::ThreeShapes::selects_third))]
fn selected<'a>(x: Held<'a>, y: Held<'a>, z: Held<'a>) -> Held<'a>
    requires { ThreeTakes select (held_of x) (held_of y) (held_of z) }
    ensures { three_thing select (held_of x.entry) (done (held_of y.entry)) (done (held_of z.entry))
        ≡ done (held_of result) }
{
    let chosen = truth_of(value_of(&x));
    let_go(x);
    if chosen {
        let_go(z);
        y
    } else {
        let_go(y);
        z
    }
}

/// So many elements of a vector from a place on.
#[tactic(auto, using(crate::proofs::ThreeShapes::vector_list, crate::proofs::ThreeShapes::start_place, crate::proofs::ThreeShapes::count_place))]
fn sliced<'a>(x: Held<'a>, y: Held<'a>, z: Held<'a>, alloc: Global) -> Result<Held<'a>, Stop>
    requires { ThreeTakes slice (held_of x) (held_of y) (held_of z) }
    ensures { Answers held_of result (three_thing slice (held_of x.entry) (done (held_of y.entry))
        (done (held_of z.entry))) }
{
    let part = part_of(alloc, value_of(&x), value_of(&y), value_of(&z));
    let_go(x);
    let_go(y);
    let_go(z);
    match part {
        Ok(v) => Ok(Held::Made(Owned::Value(v))),
        Err(stop) => Err(stop),
    }
}
