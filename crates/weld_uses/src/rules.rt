//! The walk over an expression in the order of evaluation: it answers the first rule of linear use that is broken, or
//! where the builders come from that the expression answers, by the names before it. What is left of the builders that
//! are available it leaves in its argument.

ghost use Rattle.std.specs.Prelude.{◌≡◌, ◌∷◌, [], None};
ghost use Rattle.weld_tree.specs.ExprTree as tree;
ghost use Rattle.weld_tree.specs.ExprTree.{ExprTree, let_in, loop, iterate, pack_exprs, pack_legs, if_else, select};
ghost use Rattle.weld_tree.specs.ExprView.{view_one, view_two, view_three, view_many, view_leg};
ghost use Rattle.weld_tree.specs.Program.{bound, bound_in, bound_in_leg, bound_in_legs};
ghost use Rattle.weld_meaning.specs.Available.{chain_of, chain_of_one};
ghost use Rattle.weld_meaning.specs.LinearWalk.{Left};
ghost use Rattle.weld_linear.specs.Resolve.{resolve};
ghost use Rattle.weld_uses.specs.Walks.{at, somewhere, Walks, Walked, BodyWalks, AllWalk, LegWalks, LegsWalk, IsAbsent, AreClear};

use crate::chain::{chain_of_one, name_place};
use std::alloc::Global;
use weld_linear::{Available, Scope, Source, Sources};
use weld_tree::{
    Binder, Code, Expr, Exprs, Form, Leg, Legs, ManyForm, OneForm, Place, Refusal, ThreeForm,
    TwoForm,
};

mod nodes;

use nodes::{
    has_fewer, many_answer, named_before, one_answer, own_builder, two_answer, use_chain, use_leaf,
};

/// Forms with parts are walked by calls that stay calls: a frame of this walk stands once for each of a thousand lets, and
/// theirs are large.
#[cycle(walk)]
pub(crate) fn walk(
    e: &Expr,
    scope: &Scope,
    left: &mut Available,
    alloc: Global,
) -> Result<Source, Refusal>
    requires { AreClear (bound e.now) left.old }
    ensures { Walks result e.now scope.now left.old left.new }
{
    match &e.form {
        Form::Leaf(leaf) => use_leaf(leaf, e.place, scope, left, alloc),
        Form::One(one, part) => walk_one(one, part, e.place, scope, left, alloc),
        Form::Two(two, first, second) => {
            walk_two(*two, first, second, e.place, scope, left, alloc)
        }
        Form::Three(three, first, second, third) => {
            walk_three(*three, first, second, third, e.place, scope, left, alloc)
        }
        Form::Many(many, parts) => walk_many(*many, parts, scope, left, alloc),
        Form::Let(binder, value, body) => walk_let(binder, value, body, scope, left, alloc),
        Form::For(legs, builder, b, n, x, body) => {
            walk_for(legs, builder, b, n, x, body, e.place, scope, left, alloc)
        }
        Form::Iterate(state, binder, body) => {
            walk_iterate(state, binder, body, scope, left, alloc)
        }
    }
}

#[cycle(walk)]
#[inline(never)]
fn walk_one(
    one: &OneForm,
    part: &Expr,
    place: Place,
    scope: &Scope,
    left: &mut Available,
    alloc: Global,
) -> Result<Source, Refusal>
    requires { AreClear (bound part.now) left.old }
    ensures { Walks result (tree.one (at place) (view_one one.now) part.now) scope.now left.old
        left.new }
{
    match chain_of_one(one, part, alloc) {
        Err(_) => Err(Refusal::Memory),
        Ok(Some(chain)) => use_chain(&chain, name_place(part), scope, left, alloc),
        Ok(None) => walk_part(one, part, place, scope, left, alloc),
    }
}

#[cycle(walk)]
fn walk_part(
    one: &OneForm,
    part: &Expr,
    place: Place,
    scope: &Scope,
    left: &mut Available,
    alloc: Global,
) -> Result<Source, Refusal>
    requires clear { AreClear (bound part.now) left.old }
    requires no_chain { chain_of_one (view_one one.now) (chain_of part.now) ≡ None }
    ensures { Walks result (tree.one (at place) (view_one one.now) part.now) scope.now left.old
        left.new }
{
    let source = walk(part, scope, left, alloc)?;
    one_answer(one, &source, place, scope, alloc)
}

#[cycle(walk)]
#[inline(never)]
fn walk_two(
    two: TwoForm,
    first: &Expr,
    second: &Expr,
    place: Place,
    scope: &Scope,
    left: &mut Available,
    alloc: Global,
) -> Result<Source, Refusal>
    requires first { AreClear (bound first.now) left.old }
    requires second { AreClear (bound second.now) left.old }
    ensures { Walks result (tree.two (at place) (view_two two) first.now second.now) scope.now
        left.old left.new }
{
    let source = walk(first, scope, left, alloc)?;
    let before = left.len();
    walk(second, scope, left, alloc)?;
    two_answer(two, source, place, has_fewer(left, before))
}

#[cycle(walk)]
fn walk_if(
    condition: &Expr,
    first: &Expr,
    second: &Expr,
    place: Place,
    scope: &Scope,
    left: &mut Available,
    alloc: Global,
) -> Result<Source, Refusal>
    requires condition { AreClear (bound condition.now) left.old }
    requires first { AreClear (bound first.now) left.old }
    requires second { AreClear (bound second.now) left.old }
    ensures { Walks result (tree.three (at place) if_else condition.now first.now second.now)
        scope.now left.old left.new }
{
    walk(condition, scope, left, alloc)?;
    let Ok(mut other) = left.copy(alloc) else {
        return Err(Refusal::Memory);
    };
    let source = walk(first, scope, left, alloc)?;
    let other_source = walk(second, scope, &mut other, alloc)?;
    if !left.same(&other) {
        return Err(Refusal::At(Code::L2, place));
    }
    if source.same(&other_source) && source.is_not_made() {
        Ok(source)
    } else {
        Err(Refusal::At(Code::L4, place))
    }
}

#[cycle(walk)]
#[inline(never)]
fn walk_three(
    three: ThreeForm,
    first: &Expr,
    second: &Expr,
    third: &Expr,
    place: Place,
    scope: &Scope,
    left: &mut Available,
    alloc: Global,
) -> Result<Source, Refusal>
    requires first { AreClear (bound first.now) left.old }
    requires second { AreClear (bound second.now) left.old }
    requires third { AreClear (bound third.now) left.old }
    ensures { Walks result (tree.three (at place) (view_three three) first.now second.now third.now)
        scope.now left.old left.new }
{
    match three {
        ThreeForm::If => walk_if(first, second, third, place, scope, left, alloc),
        ThreeForm::Select => walk_select(first, second, third, scope, left, alloc),
        ThreeForm::Slice => walk_select(first, second, third, scope, left, alloc),
    }
}

/// The three parts of a `select` or a `slice`, in order.
#[cycle(walk)]
fn walk_select(
    first: &Expr,
    second: &Expr,
    third: &Expr,
    scope: &Scope,
    left: &mut Available,
    alloc: Global,
) -> Result<Source, Refusal>
    requires first { AreClear (bound first.now) left.old }
    requires second { AreClear (bound second.now) left.old }
    requires third { AreClear (bound third.now) left.old }
    ensures { Walks result (tree.three (at somewhere) select first.now second.now third.now)
        scope.now left.old left.new }
{
    walk(first, scope, left, alloc)?;
    walk(second, scope, left, alloc)?;
    walk(third, scope, left, alloc)?;
    Ok(Source::value())
}

#[cycle(walk)]
#[inline(never)]
fn walk_many(
    many: ManyForm,
    parts: &Exprs,
    scope: &Scope,
    left: &mut Available,
    alloc: Global,
) -> Result<Source, Refusal>
    requires { AreClear (bound_in (pack_exprs parts.now)) left.old }
    ensures { Walks result (tree.many (at somewhere) (view_many many) (pack_exprs parts.now))
        scope.now left.old left.new }
{
    let sources = walk_all(parts, scope, left, alloc)?;
    Ok(many_answer(many, sources))
}

#[cycle(walk)]
fn walk_all(
    parts: &Exprs,
    scope: &Scope,
    left: &mut Available,
    alloc: Global,
) -> Result<Sources, Refusal>
    requires { AreClear (bound_in (pack_exprs parts.now)) left.old }
    ensures { AllWalk result (pack_exprs parts.now) scope.now left.old left.new }
{
    let mut sources = Sources::new(alloc);
    for part in parts.as_slice() {
        match walk(part, scope, left, alloc) {
            Err(refusal) => return Err(refusal),
            Ok(source) => match sources.push(source) {
                Err(_) => return Err(Refusal::Memory),
                Ok(()) => {}
            },
        }
    }
    Ok(sources)
}

#[cycle(walk)]
#[inline(never)]
fn walk_let(
    binder: &Binder,
    value: &Expr,
    body: &Expr,
    scope: &Scope,
    left: &mut Available,
    alloc: Global,
) -> Result<Source, Refusal>
    requires { AreClear (bound (let_in (at somewhere) binder.now value.now body.now)) left.old }
    ensures { Walks result (let_in (at somewhere) binder.now value.now body.now) scope.now left.old
        left.new }
{
    let source = walk(value, scope, left, alloc)?;
    if !source.is_value() {
        return walk_builders_body(binder, &source, body, scope, left, alloc);
    }
    // (most lets bind values, of which nothing is to be worked out or kept in this frame)
    let inner = Scope::of_value(binder.sym, &*scope);
    let answer = walk(body, &inner, left, alloc)?;
    if left.has_name(binder.sym) {
        return Err(Refusal::At(Code::L1, binder.place));
    }
    match named_before(&answer, binder.sym, &source, scope, alloc) {
        Ok(answer) => Ok(answer),
        Err(_) => Err(Refusal::Memory),
    }
}

/// The body of a `let` whose value has this origin, behind the walk over the value.
#[cycle(walk)]
#[inline(never)]
fn walk_builders_body(
    binder: &Binder,
    source: &Source,
    body: &Expr,
    scope: &Scope,
    left: &mut Available,
    alloc: Global,
) -> Result<Source, Refusal>
    requires { AreClear (binder.now.sym.0 ∷ bound body.now) left.old }
    ensures { (e : ExprTree) (before : Left) → IsAbsent binder.now.sym.0 before
        → Walked source.now e scope.now before left.old
        → Walks result (let_in (at somewhere) binder.now e body.now) scope.now before left.new }
{
    let Ok(real) = source.resolve(scope, alloc) else {
        return Err(Refusal::Memory);
    };
    let Ok(()) = left.bind(binder.sym, &real, alloc) else {
        return Err(Refusal::Memory);
    };
    let inner = Scope::bound(binder.sym, &real, &*scope);
    let answer = walk(body, &inner, left, alloc)?;
    if left.has_name(binder.sym) {
        return Err(Refusal::At(Code::L1, binder.place));
    }
    match named_before(&answer, binder.sym, source, scope, alloc) {
        Ok(answer) => Ok(answer),
        Err(_) => Err(Refusal::Memory),
    }
}

#[cycle(walk)]
#[inline(never)]
fn walk_iterate(
    state: &Expr,
    binder: &Binder,
    body: &Expr,
    scope: &Scope,
    left: &mut Available,
    alloc: Global,
) -> Result<Source, Refusal>
    requires { AreClear (bound (iterate (at somewhere) state.now binder.now body.now)) left.old }
    ensures { Walks result (iterate (at somewhere) state.now binder.now body.now) scope.now left.old
        left.new }
{
    walk(state, scope, left, alloc)?;
    let inner = Scope::value_within(binder.sym, &*scope);
    let mut none = Available::new(alloc);
    walk(body, &inner, &mut none, alloc)?;
    Ok(Source::value())
}

#[cycle(walk)]
#[inline(never)]
fn walk_for(
    legs: &Legs,
    builder: &Expr,
    b: &Binder,
    n: &Binder,
    x: &Binder,
    body: &Expr,
    place: Place,
    scope: &Scope,
    left: &mut Available,
    alloc: Global,
) -> Result<Source, Refusal>
    requires { AreClear (bound (loop (at place) (pack_legs legs.now) builder.now b.now n.now x.now
        body.now)) left.old }
    ensures { Walks result (loop (at place) (pack_legs legs.now) builder.now b.now n.now x.now
        body.now) scope.now left.old left.new }
{
    walk_legs(legs, scope, left, alloc)?;
    let source = walk(builder, scope, left, alloc)?;
    walk_body(&source, b, n, x, body, place, scope, alloc)?;
    Ok(source)
}

/// The body of a loop whose builder has this origin.
#[cycle(walk)]
fn walk_body(
    source: &Source,
    b: &Binder,
    n: &Binder,
    x: &Binder,
    body: &Expr,
    place: Place,
    scope: &Scope,
    alloc: Global,
) -> Result<(), Refusal>
    requires { AreClear (b.now.sym.0 ∷ bound body.now) [] }
    ensures { BodyWalks result b.now n.now x.now body.now place (resolve scope.now source.now)
        scope.now }
{
    let Ok(own) = own_builder(source, scope, alloc) else {
        return Err(Refusal::Memory);
    };
    let mut left = Available::new(alloc);
    let Ok(()) = left.bind(b.sym, &own, alloc) else {
        return Err(Refusal::Memory);
    };
    let with_builder = Scope::bound_within(b.sym, &own, &*scope);
    let with_number = Scope::of_value(n.sym, &with_builder);
    let inner = Scope::of_value(x.sym, &with_number);
    let answer = walk(body, &inner, &mut left, alloc)?;
    if left.has_name(b.sym) {
        return Err(Refusal::At(Code::L1, b.place));
    }
    let Ok(answer) = answer.resolve(&inner, alloc) else {
        return Err(Refusal::Memory);
    };
    if answer.same(&own) {
        Ok(())
    } else {
        Err(Refusal::At(Code::L6, place))
    }
}

#[cycle(walk)]
fn walk_legs(legs: &Legs, scope: &Scope, left: &mut Available, alloc: Global) -> Result<(), Refusal>
    requires { AreClear (bound_in_legs (pack_legs legs.now)) left.old }
    ensures { LegsWalk result (pack_legs legs.now) scope.now left.old left.new }
{
    for leg in legs.as_slice() {
        match walk_leg(leg, scope, left, alloc) {
            Err(refusal) => return Err(refusal),
            Ok(()) => {}
        }
    }
    Ok(())
}

#[cycle(walk)]
fn walk_leg(leg: &Leg, scope: &Scope, left: &mut Available, alloc: Global) -> Result<(), Refusal>
    requires { AreClear (bound_in_leg (view_leg leg.now)) left.old }
    ensures { LegWalks result (view_leg leg.now) scope.now left.old left.new }
{
    match leg {
        Leg::Whole(e) => {
            walk(e, scope, left, alloc)?;
            Ok(())
        }
        Leg::Strided(e, start, end, stride) => {
            walk(e, scope, left, alloc)?;
            walk(start, scope, left, alloc)?;
            walk(end, scope, left, alloc)?;
            walk(stride, scope, left, alloc)?;
            Ok(())
        }
    }
}
