//! Code of expressions that are numbers.

ghost use Rattle.std.specs.Prelude.{◌≡◌, IfOk, IfSome};
ghost use Rattle.weld_builders.specs.Outcome.{and_then};
ghost use Rattle.weld_eval.specs.FrameView.{env_of};
ghost use Rattle.weld_meaning.specs.Evaluation.{eval, leaf_thing, one_thing, two_thing, three_thing};
ghost use Rattle.weld_tree.specs.ExprTree.{int, name as name_leaf, neg, not as not_of, cast, field as field_form, binary, and as and_form, or as or_form, if_else, select};
ghost use Rattle.weld_tree.specs.ExprView.{view_leaf, view_one, view_two, view_three};
ghost use Rattle.weld_turns.specs.Scopes.{view_scope, takes, IsFieldSlot, IsSpreadSlot, IsStructSlot, IsTruth, Means};

use crate::code::{Code, Place, Shape, Site, Spread, Unmade};
use crate::outer::{literal, outer_field, outer_number};
use crate::scope::{Scope, name_of, site_of};
use crate::slots::SLOTS;
use std::alloc::Global;
use weld_data::{BinOp, Kind};
use weld_eval::frame::Frame;
use weld_eval::short::Short;
use weld_tree::{Expr, Form, LeafForm, OneForm, Sym, ThreeForm, TwoForm};

/// The code of an expression that is a number.
#[cycle(make)]
pub fn make(e: &Expr, scope: &Scope, frame: &Frame, alloc: Global) -> Result<Code, Unmade>
    ensures { IfOk result (λ c. Means c (view_scope scope.now) (env_of frame.now) (eval e.now)) }
{
    match &e.form {
        Form::Leaf(leaf) => make_leaf(leaf, scope, frame),
        Form::One(form, part) => make_one(form, part, scope, frame, alloc),
        Form::Two(form, x, y) => make_two(*form, x, y, scope, frame, alloc),
        Form::Three(form, test, x, y) => make_three(*form, test, x, y, scope, frame, alloc),
        _ => Err(Unmade::Other),
    }
}

/// The same in a box.
#[cycle(make)]
fn boxed(e: &Expr, scope: &Scope, frame: &Frame, alloc: Global) -> Result<Box<Code>, Unmade>
    ensures { IfOk result (λ c. Means c.value (view_scope scope.now) (env_of frame.now)
        (eval e.now)) }
{
    match make(e, scope, frame, alloc) {
        Ok(code) => match Box::new(alloc, code) {
            Ok(code) => Ok(code),
            Err(_) => Err(Unmade::Memory),
        },
        Err(unmade) => Err(unmade),
    }
}

/// The code of a form without parts.
#[tactic(auto, using(crate::proofs::Making::literal_means))]
fn make_leaf(leaf: &LeafForm, scope: &Scope, frame: &Frame) -> Result<Code, Unmade>
    ensures { IfOk result (λ c. Means c (view_scope scope.now) (env_of frame.now)
        (leaf_thing (view_leaf leaf.now))) }
{
    match leaf {
        LeafForm::Int(kind, x) => make_literal(*kind, *x, scope, frame),
        LeafForm::Truth(test) => Ok(Code::Literal(Short::of_truth(*test))),
        LeafForm::Name(name) => make_name(*name, scope, frame),
        LeafForm::Chars(_) | LeafForm::Builder(_) => Err(Unmade::Other),
    }
}

/// The code of a literal.
#[tactic(auto, using(crate::proofs::Making::literal_means))]
fn make_literal(kind: Kind, x: i128, scope: &Scope, frame: &Frame) -> Result<Code, Unmade>
    ensures { IfOk result (λ c. Means c (view_scope scope.now) (env_of frame.now)
        (leaf_thing (int kind x))) }
{
    let (_scope, _frame) = (scope, frame);
    match literal(kind, x) {
        Some(n) => Ok(Code::Literal(n)),
        None => Err(Unmade::Other),
    }
}

/// The code of a name.
#[tactic(auto, using(crate::proofs::Making::slot_means, crate::proofs::Making::outer_means))]
fn make_name(name: Sym, scope: &Scope, frame: &Frame) -> Result<Code, Unmade>
    ensures { IfOk result (λ c. Means c (view_scope scope.now) (env_of frame.now)
        (leaf_thing (name_leaf name.0))) }
{
    match site_of(scope, name) {
        Some(Site::Whole(place)) => match place.shape {
            Shape::One => Ok(Code::Slot(place.first)),
            Shape::Fields(_) => Err(Unmade::Other),
        },
        Some(Site::Spread(_)) => Err(Unmade::Other),
        None => match outer_number(frame, name) {
            Some(n) => Ok(Code::Literal(n)),
            None => Err(Unmade::Other),
        },
    }
}

/// The code of a form of one part.
#[cycle(make)]
#[tactic(auto, using(crate::proofs::Making::opposite_means, crate::proofs::Making::contrary_means, crate::proofs::Making::cast_means))]
fn make_one(
    form: &OneForm,
    part: &Expr,
    scope: &Scope,
    frame: &Frame,
    alloc: Global,
) -> Result<Code, Unmade>
    ensures { IfOk result (λ c. Means c (view_scope scope.now) (env_of frame.now)
        (λ env. and_then (eval part.now env) (one_thing (view_one form.now)))) }
{
    match form {
        OneForm::Neg => match boxed(part, scope, frame, alloc) {
            Ok(x) => Ok(Code::Opposite(x)),
            Err(unmade) => Err(unmade),
        },
        OneForm::Not => match boxed(part, scope, frame, alloc) {
            Ok(x) => Ok(Code::Contrary(x)),
            Err(unmade) => Err(unmade),
        },
        OneForm::Cast(kind) => match boxed(part, scope, frame, alloc) {
            Ok(x) => Ok(Code::Cast(*kind, x)),
            Err(unmade) => Err(unmade),
        },
        OneForm::Field(number) => make_field(*number, part, scope, frame),
        _ => Err(Unmade::Other),
    }
}

/// The code of a field of a name.
#[tactic(auto, using(crate::proofs::Making::field_means, crate::proofs::Making::spread_means, crate::proofs::Making::outer_field_means))]
fn make_field(number: u32, part: &Expr, scope: &Scope, frame: &Frame) -> Result<Code, Unmade>
    ensures { IfOk result (λ c. Means c (view_scope scope.now) (env_of frame.now)
        (λ env. and_then (eval part.now env) (one_thing (field_form number)))) }
{
    let name = match name_of(part) {
        Some(name) => name,
        None => return Err(Unmade::Other),
    };
    match site_of(scope, name) {
        Some(Site::Whole(place)) => slot_of_field(number, place),
        Some(Site::Spread(spread)) => slot_in_spread(number, spread),
        None => match outer_field(frame, name, number) {
            Some(n) => Ok(Code::Literal(n)),
            None => Err(Unmade::Other),
        },
    }
}

/// The code of a form of two parts.
#[cycle(make)]
fn make_two(
    form: TwoForm,
    x: &Expr,
    y: &Expr,
    scope: &Scope,
    frame: &Frame,
    alloc: Global,
) -> Result<Code, Unmade>
    ensures { IfOk result (λ c. Means c (view_scope scope.now) (env_of frame.now)
        (λ env. and_then (eval x.now env) (λ t. two_thing (view_two form) t (eval y.now env)))) }
{
    match form {
        TwoForm::Binary(op) => make_work(op, x, y, scope, frame, alloc),
        TwoForm::And => make_both(x, y, scope, frame, alloc),
        TwoForm::Or => make_either(x, y, scope, frame, alloc),
        _ => Err(Unmade::Other),
    }
}

/// The code of an operator.
#[cycle(make)]
#[tactic(auto, using(crate::proofs::Making::work_means))]
fn make_work(
    op: BinOp,
    x: &Expr,
    y: &Expr,
    scope: &Scope,
    frame: &Frame,
    alloc: Global,
) -> Result<Code, Unmade>
    ensures { IfOk result (λ c. Means c (view_scope scope.now) (env_of frame.now)
        (λ env. and_then (eval x.now env) (λ t. two_thing (binary op) t (eval y.now env)))) }
{
    let x = match boxed(x, scope, frame, alloc) {
        Ok(x) => x,
        Err(unmade) => return Err(unmade),
    };
    match boxed(y, scope, frame, alloc) {
        Ok(y) => Ok(Code::Work(op, x, y)),
        Err(unmade) => Err(unmade),
    }
}

/// A truth value in a box.
fn boxed_truth(truth: bool, alloc: Global) -> Result<Box<Code>, Unmade>
    ensures { IfOk result (λ c. IsTruth c.value truth) }
{
    match Box::new(alloc, Code::Literal(Short::of_truth(truth))) {
        Ok(code) => Ok(code),
        Err(_) => Err(Unmade::Memory),
    }
}

/// The code of `&&`: a choice between the second and false.
#[cycle(make)]
#[tactic(auto, using(crate::proofs::Making::both_means))]
fn make_both(
    x: &Expr,
    y: &Expr,
    scope: &Scope,
    frame: &Frame,
    alloc: Global,
) -> Result<Code, Unmade>
    ensures { IfOk result (λ c. Means c (view_scope scope.now) (env_of frame.now)
        (λ env. and_then (eval x.now env) (λ t. two_thing and_form t (eval y.now env)))) }
{
    let x = match boxed(x, scope, frame, alloc) {
        Ok(x) => x,
        Err(unmade) => return Err(unmade),
    };
    let y = match boxed(y, scope, frame, alloc) {
        Ok(y) => y,
        Err(unmade) => return Err(unmade),
    };
    match boxed_truth(false, alloc) {
        Ok(no) => Ok(Code::Choice(x, y, no)),
        Err(unmade) => Err(unmade),
    }
}

/// The code of `||`: a choice between true and the second.
#[cycle(make)]
#[tactic(auto, using(crate::proofs::Making::either_means))]
fn make_either(
    x: &Expr,
    y: &Expr,
    scope: &Scope,
    frame: &Frame,
    alloc: Global,
) -> Result<Code, Unmade>
    ensures { IfOk result (λ c. Means c (view_scope scope.now) (env_of frame.now)
        (λ env. and_then (eval x.now env) (λ t. two_thing or_form t (eval y.now env)))) }
{
    let x = match boxed(x, scope, frame, alloc) {
        Ok(x) => x,
        Err(unmade) => return Err(unmade),
    };
    let y = match boxed(y, scope, frame, alloc) {
        Ok(y) => y,
        Err(unmade) => return Err(unmade),
    };
    match boxed_truth(true, alloc) {
        Ok(yes) => Ok(Code::Choice(x, yes, y)),
        Err(unmade) => Err(unmade),
    }
}

/// The code of a form of three parts.
#[cycle(make)]
#[tactic(auto, using(crate::proofs::Making::choice_means, crate::proofs::Making::select_means))]
fn make_three(
    form: ThreeForm,
    test: &Expr,
    x: &Expr,
    y: &Expr,
    scope: &Scope,
    frame: &Frame,
    alloc: Global,
) -> Result<Code, Unmade>
    ensures { IfOk result (λ c. Means c (view_scope scope.now) (env_of frame.now)
        (λ env. and_then (eval test.now env) (λ t. three_thing (view_three form) t (eval x.now env)
        (eval y.now env)))) }
{
    let test = match boxed(test, scope, frame, alloc) {
        Ok(test) => test,
        Err(unmade) => return Err(unmade),
    };
    let x = match boxed(x, scope, frame, alloc) {
        Ok(x) => x,
        Err(unmade) => return Err(unmade),
    };
    let y = match boxed(y, scope, frame, alloc) {
        Ok(y) => y,
        Err(unmade) => return Err(unmade),
    };
    match form {
        ThreeForm::If => Ok(Code::Choice(test, x, y)),
        ThreeForm::Select => Ok(Code::Select(test, x, y)),
        ThreeForm::Slice => Err(Unmade::Other),
    }
}

/// The slot of a field, from 0, of what stands in a place.
fn slot_of_field(number: u32, place: Place) -> Result<Code, Unmade>
    ensures { IfOk result (λ c. IsFieldSlot c number place) }
{
    match place.shape {
        Shape::One => Err(Unmade::Other),
        Shape::Fields(count) => slot_of_struct(number, count, place.first),
    }
}

/// The slot of a field, from 0, of a struct of so many that stands in slots from one on.
#[tactic(auto, using(crate::proofs::Making::field_slot))]
fn slot_of_struct(number: u32, count: u8, first: usize) -> Result<Code, Unmade>
    ensures { IfOk result (λ c. IsStructSlot c number count first) }
{
    let field = number as usize;
    if field >= count as usize || first >= SLOTS {
        return Err(Unmade::Other);
    }
    Ok(Code::Slot(first + field))
}

/// The slot of a field, from 0, of a struct of which some fields stand in slots, where this one does.
#[tactic(auto, using(crate::proofs::Making::spread_slot))]
fn slot_in_spread(number: u32, spread: Spread) -> Result<Code, Unmade>
    ensures { IfOk result (λ c. IsSpreadSlot c number spread) }
{
    let place = number as usize;
    if place >= spread.fields || place >= SLOTS || spread.first >= SLOTS {
        return Err(Unmade::Other);
    }
    if !has_bit(spread.taken, place) {
        return Err(Unmade::Other);
    }
    Ok(Code::Slot(spread.first + place))
}

/// Whether the bit of that place is set. It takes no memory.
fn has_bit(bits: u64, place: usize) -> bool
    ensures { result ≡ takes bits place }
{
    if place == 0 {
        return bits % 2 == 1;
    }
    has_bit(bits / 2, place - 1)
}
