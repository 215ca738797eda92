//! The steps that the body of a loop is lowered to.

ghost use Rattle.std.specs.Prelude.{◌≡◌, ◌&&◌, [], ◌∷◌, IfOk, IfSome};
ghost use Rattle.weld_meaning.specs.Environment.{look_for};
ghost use Rattle.weld_tree.specs.ExprView.{view_leaf, view_one, view_two};
ghost use Rattle.weld_sizes.specs.Sized.{is_that_name};
ghost use Rattle.weld_lane_form.specs.LetsView.{view_lets};
ghost use Rattle.weld_lane_form.specs.Lowering.{is_unlet, where_true, behind, is_merge, lower_uniform, lower_outside, lower_name, lower_leaf, lower_cast, lower_field, lower_not, lower_one, lower_two, lower_select, lower_expr, lower_last, lower_body, place_among};
ghost use Rattle.weld_lane_form.specs.Made.{MayMean, IsWhole, lane_names, begun, IsPlaced};

use crate::adding::{add_some, join_two, make_last, make_not, make_select};
use crate::asking::{is_integer, is_name, is_same, uniform_place};
use crate::lets::{Lets, is_free, no_lets, place_of, with_let};
use std::alloc::{AllocError, Global};
use weld_data::{Kind, wrap};
use weld_lanes::{LaneProgram, LaneStep, are_steps};
use weld_tree::{Binder, Expr, Form, LeafForm, OneForm, Sym, ThreeForm, TwoForm};

/// A loop's body as steps, and the names of the numbers that are the same for all rows by their places.
#[derive(Drop)]
pub struct LaneBody {
    pub program: LaneProgram,
    pub uniforms: Vec<Sym>,
}

/// Of a loop: the kind of its numbers, whether a row is a struct of two of them, and the names of the row, the row's number
/// and the builder.
#[derive(Clone, Copy)]
pub struct LoopNames {
    pub kind: Kind,
    pub is_pair: bool,
    pub row: Sym,
    pub number: Sym,
    pub own: Sym,
}

/// What is made so far: steps, and names of uniform numbers.
#[derive(Drop)]
pub(crate) struct Making {
    pub steps: Vec<LaneStep>,
    pub uniforms: Vec<Sym>,
}

/// The steps that mean the body of a loop: in every environment in which its names stand for a row and for uniform numbers, it
/// merges what they answer. There are none only where the body isn't plain arithmetic on numbers of the kind. It fails for
/// want of memory alone.
pub fn lower(names: LoopNames, e: &Expr, alloc: Global) -> Result<Option<LaneBody>, AllocError>
    ensures means { MayMean names.is_pair names.row.0 names.own.0 e.now result }
    ensures whole { IsWhole (lane_names names) e.now result }
    ensures kind { IfOk result (λ made. IfSome made (λ body. body.program.kind ≡ names.kind)) }
{
    let mut making = Making {
        steps: Vec::new(alloc),
        uniforms: Vec::new(alloc),
    };
    let end = no_lets();
    match make_body(&mut making, names, &end, e) {
        Ok(Some(_)) => {}
        Ok(None) => return Ok(None),
        Err(e) => return Err(e),
    }
    let Making { steps, uniforms } = making;
    if steps.is_empty() || !are_steps(names.kind, &steps) {
        return Ok(None);
    }
    let program = LaneProgram::new(names.kind, steps);
    Ok(Some(LaneBody { program, uniforms }))
}

/// A number that is the same for all rows.
fn make_uniform(making: &mut Making, name: Sym) -> Result<Option<u32>, AllocError>
    ensures { IfOk result (λ found. IsPlaced (lower_uniform (begun making.old) name.0
        (place_among (begun making.old).names name.0)) found (begun making.new)) }
{
    match uniform_place(&making.uniforms, name) {
        Some(place) => match u32::try_from(place) {
            Ok(place) => add_some(making, LaneStep::Uniform(place)),
            Err(_) => Err(AllocError),
        },
        None => match u32::try_from(making.uniforms.len()) {
            Ok(place) => {
                making.uniforms.push(name)?;
                add_some(making, LaneStep::Uniform(place))
            }
            Err(_) => Err(AllocError),
        },
    }
}

/// A name that no `let` of the body has.
fn make_outside(making: &mut Making, names: LoopNames, name: Sym) -> Result<Option<u32>, AllocError>
    ensures { IfOk result (λ found. IsPlaced (lower_outside (lane_names names) (begun making.old)
        name.0) found (begun making.new)) }
{
    if name.0 == names.row.0 {
        if names.is_pair {
            Ok(None)
        } else {
            add_some(making, LaneStep::A)
        }
    } else if name.0 == names.number.0 || name.0 == names.own.0 {
        Ok(None)
    } else {
        make_uniform(making, name)
    }
}

/// A name.
fn make_name(
    making: &mut Making,
    names: LoopNames,
    lets: &Lets,
    name: Sym,
) -> Result<Option<u32>, AllocError>
    ensures { IfOk result (λ found. IsPlaced (lower_name (lane_names names) (begun making.old)
        name.0 (look_for name.0 (view_lets lets.now))) found (begun making.new)) }
{
    match place_of(lets, name) {
        Some(place) => Ok(Some(place)),
        None => make_outside(making, names, name),
    }
}

/// A form without parts.
fn make_leaf(
    making: &mut Making,
    names: LoopNames,
    lets: &Lets,
    leaf: &LeafForm,
) -> Result<Option<u32>, AllocError>
    ensures { IfOk result (λ found. IsPlaced (lower_leaf (lane_names names) (view_lets lets.now)
        (begun making.old) (view_leaf leaf.now)) found (begun making.new)) }
{
    match leaf {
        LeafForm::Int(kind, x) => {
            if is_same(*kind, names.kind) {
                add_some(making, LaneStep::Lit(*x))
            } else {
                Ok(None)
            }
        }
        LeafForm::Truth(test) => add_some(making, LaneStep::Truth(*test)),
        LeafForm::Name(name) => make_name(making, names, lets, *name),
        LeafForm::Chars(_) | LeafForm::Builder(_) => Ok(None),
    }
}

/// A literal that is cast to the kind.
fn make_cast(
    making: &mut Making,
    names: LoopNames,
    kind: Kind,
    part: &Expr,
) -> Result<Option<u32>, AllocError>
    ensures { IfOk result (λ found. IsPlaced (lower_cast (lane_names names) kind (begun making.old)
        part.now) found (begun making.new)) }
{
    match &part.form {
        Form::Leaf(LeafForm::Int(_, x)) => {
            if is_integer(kind) && is_same(kind, names.kind) {
                add_some(making, LaneStep::Lit(wrap(kind, *x)))
            } else {
                Ok(None)
            }
        }
        _ => Ok(None),
    }
}

/// A field of the row.
fn make_field(
    making: &mut Making,
    names: LoopNames,
    lets: &Lets,
    number: u32,
    part: &Expr,
) -> Result<Option<u32>, AllocError>
    ensures { IfOk result (λ found. IsPlaced (lower_field (lane_names names) (view_lets lets.now)
        number (begun making.old) part.now) found (begun making.new)) }
{
    if !names.is_pair || !is_name(part, names.row) || !is_free(lets, names.row) {
        return Ok(None);
    }
    if number == 0 {
        add_some(making, LaneStep::A)
    } else if number == 1 {
        add_some(making, LaneStep::B)
    } else {
        Ok(None)
    }
}

/// An expression.
#[cycle(making)]
fn make(
    making: &mut Making,
    names: LoopNames,
    lets: &Lets,
    e: &Expr,
) -> Result<Option<u32>, AllocError>
    ensures { IfOk result (λ found. IsPlaced (lower_expr (lane_names names) (view_lets lets.now)
        e.now (begun making.old)) found (begun making.new)) }
{
    match &e.form {
        Form::Leaf(leaf) => make_leaf(making, names, lets, leaf),
        Form::One(form, part) => make_one(making, names, lets, form, part),
        Form::Two(form, first, second) => make_two(making, names, lets, *form, first, second),
        Form::Three(ThreeForm::Select, test, then, otherwise) => {
            make_three(making, names, lets, test, then, otherwise)
        }
        _ => Ok(None),
    }
}

/// A form of one part.
#[cycle(making)]
fn make_one(
    making: &mut Making,
    names: LoopNames,
    lets: &Lets,
    form: &OneForm,
    part: &Expr,
) -> Result<Option<u32>, AllocError>
    ensures { IfOk result (λ found. IsPlaced (lower_one (lane_names names) (view_lets lets.now)
        (view_one form.now) (begun making.old) part.now (lower_expr (lane_names names)
        (view_lets lets.now) part.now (begun making.old))) found (begun making.new)) }
{
    match form {
        OneForm::Not => make_contrary(making, names, lets, part),
        OneForm::Cast(kind) => make_cast(making, names, *kind, part),
        OneForm::Field(number) => make_field(making, names, lets, *number, part),
        _ => Ok(None),
    }
}

/// `!` of an expression.
#[cycle(making)]
#[tactic(auto, using(crate::proofs::Placing::behind_some, crate::proofs::Placing::behind_none))]
fn make_contrary(
    making: &mut Making,
    names: LoopNames,
    lets: &Lets,
    part: &Expr,
) -> Result<Option<u32>, AllocError>
    ensures { IfOk result (λ found. IsPlaced (behind (lower_expr (lane_names names)
        (view_lets lets.now) part.now (begun making.old)) lower_not) found (begun making.new)) }
{
    match make(making, names, lets, part) {
        Ok(Some(place)) => make_not(making, place),
        Ok(None) => Ok(None),
        Err(e) => Err(e),
    }
}

/// A form of two parts.
#[cycle(making)]
#[tactic(auto, using(crate::proofs::Placing::two_placed, crate::proofs::Placing::no_first, crate::proofs::Placing::no_second))]
fn make_two(
    making: &mut Making,
    names: LoopNames,
    lets: &Lets,
    form: TwoForm,
    first: &Expr,
    second: &Expr,
) -> Result<Option<u32>, AllocError>
    ensures { IfOk result (λ found. IsPlaced (behind (lower_expr (lane_names names)
        (view_lets lets.now) first.now (begun making.old))
        (λ d i. behind (lower_expr (lane_names names) (view_lets lets.now) second.now d)
        (λ g j. lower_two (view_two form) i j g))) found (begun making.new)) }
{
    let i = match make(making, names, lets, first) {
        Ok(Some(i)) => i,
        Ok(None) => return Ok(None),
        Err(e) => return Err(e),
    };
    let j = match make(making, names, lets, second) {
        Ok(Some(j)) => j,
        Ok(None) => return Ok(None),
        Err(e) => return Err(e),
    };
    join_two(making, form, i, j)
}

/// A `select`.
#[cycle(making)]
#[tactic(auto, using(crate::proofs::Placing::three_placed, crate::proofs::Placing::no_test, crate::proofs::Placing::no_then, crate::proofs::Placing::no_otherwise))]
fn make_three(
    making: &mut Making,
    names: LoopNames,
    lets: &Lets,
    test: &Expr,
    then: &Expr,
    otherwise: &Expr,
) -> Result<Option<u32>, AllocError>
    ensures { IfOk result (λ found. IsPlaced (behind (lower_expr (lane_names names)
        (view_lets lets.now) test.now (begun making.old))
        (λ d t. behind (lower_expr (lane_names names) (view_lets lets.now) then.now d)
        (λ g i. behind (lower_expr (lane_names names) (view_lets lets.now) otherwise.now g)
        (λ k j. lower_select t i j k)))) found (begun making.new)) }
{
    let t = match make(making, names, lets, test) {
        Ok(Some(t)) => t,
        Ok(None) => return Ok(None),
        Err(e) => return Err(e),
    };
    let i = match make(making, names, lets, then) {
        Ok(Some(i)) => i,
        Ok(None) => return Ok(None),
        Err(e) => return Err(e),
    };
    let j = match make(making, names, lets, otherwise) {
        Ok(Some(j)) => j,
        Ok(None) => return Ok(None),
        Err(e) => return Err(e),
    };
    make_select(making, t, i, j)
}

/// A merge of a number into the loop's builder.
#[tactic(auto, using(crate::proofs::Placing::behind_some, crate::proofs::Placing::behind_none))]
fn make_merge(
    making: &mut Making,
    names: LoopNames,
    lets: &Lets,
    form: TwoForm,
    builder: &Expr,
    item: &Expr,
) -> Result<Option<u32>, AllocError>
    ensures { IfOk result (λ found. IsPlaced (where_true
        (is_merge (view_two form) && (is_that_name builder.now names.own.0 && is_unlet
        (look_for names.own.0 (view_lets lets.now)))) (behind
        (lower_expr (lane_names names) (view_lets lets.now) item.now (begun making.old))
        lower_last)) found (begun making.new)) }
{
    match form {
        TwoForm::Merge => {}
        _ => return Ok(None),
    }
    if !is_name(builder, names.own) || !is_free(lets, names.own) {
        return Ok(None);
    }
    match make(making, names, lets, item) {
        Ok(Some(place)) => make_last(making, place),
        Ok(None) => Ok(None),
        Err(e) => Err(e),
    }
}

/// Lets that end in a merge.
#[cycle(body)]
fn make_body(
    making: &mut Making,
    names: LoopNames,
    lets: &Lets,
    e: &Expr,
) -> Result<Option<u32>, AllocError>
    ensures { IfOk result (λ found. IsPlaced (lower_body (lane_names names) (view_lets lets.now)
        e.now (begun making.old)) found (begun making.new)) }
{
    match &e.form {
        Form::Two(form, builder, item) => make_merge(making, names, lets, *form, builder, item),
        Form::Let(binder, value, inner) => make_let(making, names, lets, binder, value, inner),
        _ => Ok(None),
    }
}

/// A `let`.
#[cycle(body)]
#[tactic(auto, using(crate::proofs::Placing::let_placed, crate::proofs::Placing::no_let))]
fn make_let(
    making: &mut Making,
    names: LoopNames,
    lets: &Lets,
    binder: &Binder,
    value: &Expr,
    inner: &Expr,
) -> Result<Option<u32>, AllocError>
    ensures { IfOk result (λ found. IsPlaced (behind (lower_expr (lane_names names)
        (view_lets lets.now) value.now (begun making.old))
        (λ d i. lower_body (lane_names names) ((binder.now.sym.0, i) ∷ view_lets lets.now) inner.now
        d)) found (begun making.new)) }
{
    let place = match make(making, names, lets, value) {
        Ok(Some(place)) => place,
        Ok(None) => return Ok(None),
        Err(e) => return Err(e),
    };
    let more = with_let(binder.sym, place, &*lets);
    make_body(making, names, &more, inner)
}
