//! The walk over expressions: children in order, then the node. It notes at each node the type that it finds.
ghost use Rattle.std.specs.Prelude.{◌≡◌, ◌∷◌, IfOk, map};
ghost use Rattle.weld_meaning.specs.Typing.{body_types, truth_type};
ghost use Rattle.weld_tree.specs.ExprTree.{pack_exprs, pack_legs};
ghost use Rattle.weld_tree.specs.ExprView.{view_form, view_leg, view_many, view_one, view_three, view_two};
ghost use Rattle.weld_tree.specs.TypeTree.{TypeTree};
ghost use Rattle.weld_tree.specs.Types.{pair_of};
ghost use Rattle.weld_tree.specs.declared.code.Code.TheVariants.{Y26, Y27};
ghost use Rattle.weld_tree.specs.declared.known.Known.{Known};
ghost use Rattle.weld_check_types.specs.Gathered.{GathersLeg, Pushes, SaysStrips, SaysTypes, type_behind_legs, view_strips};
ghost use Rattle.weld_check_types.specs.Noted.{all_with_types, at, leg_with_types, legs_with_types, rows_found, typed, under, with_types};
ghost use Rattle.weld_types.specs.Says.{Allows, Says};
ghost use Rattle.weld_types.specs.Tests.{is_builder_free, same_type};
ghost use Rattle.weld_types.specs.Walk.{Found, found, at_node, demand_at, go_on, many_type, noted, one_type, strips_of, three_type, two_type, type_of, types_of};

use crate::type_walk::legs::Strips;
use std::alloc::Global;
use weld_data::Kind;
use weld_tree::{
    Binder, Expr, Exprs, Form, Known, Leg, Legs, ManyForm, OneForm, Place, Refusal, ThreeForm,
    TwoForm, Ty, Tys,
};
use weld_types::{
    Scope, check_loop_body, check_loop_notes, check_note, check_state, check_turn, leaf_type,
    many_type, one_type, row_type, three_type, two_type,
};

/// The type of the expression, where names have the types of the scope; each node has its type noted then. Refusals:
/// the first of the typing rules in the order of the walk, children before parents (Y1 to Y30, N1); want of memory.
#[cycle(walk)]
pub fn note_types(alloc: Global, e: &mut Expr, scope: &Scope) -> Result<Ty, Refusal>
    ensures found { Says result (type_of e.old scope.now) }
    ensures noted { IfOk result (λ _. e.new ≡ typed e.old scope.now) }
{
    let ty = form_under(alloc, &mut e.form, e.place, scope)?;
    match ty.copy(alloc) {
        Ok(copy) => {
            e.ty = Known::Is(copy);
            Ok(ty)
        }
        Err(_) => Err(Refusal::Memory),
    }
}

/// The type of the node of such a form; the types of its parts are noted at them. Forms with parts are worked out by calls
/// that stay calls: a frame of this walk stands once for each of a thousand lets, and theirs are large.
#[cycle(walk)]
fn form_under(alloc: Global, form: &mut Form, place: Place, scope: &Scope) -> Result<Ty, Refusal>
    ensures found { (k : Known) → Says result (type_of (view_form form.old (at place k))
        scope.now) }
    ensures noted { IfOk result (λ _. (k j : Known) → view_form form.new (at place j)
        ≡ with_types (view_form form.old (at place k)) j scope.now) }
{
    match form {
        Form::Leaf(leaf) => leaf_type(leaf, scope, place, alloc),
        Form::One(one, part) => one_under(alloc, part, one, place, scope),
        Form::Two(two, first, second) => two_under(alloc, first, second, *two, place, scope),
        Form::Three(three, first, second, third) => {
            three_under(alloc, first, second, third, *three, place, scope)
        }
        Form::Many(many, parts) => many_under(alloc, parts, *many, place, scope),
        Form::Let(binder, value, body) => let_under(alloc, value, body, binder, scope),
        Form::For(legs, builder, b, n, x, body) => {
            loop_under(alloc, legs, builder, body, b, n, x, place, scope)
        }
        Form::Iterate(state, binder, body) => {
            iterate_under(alloc, state, body, binder, place, scope)
        }
    }
}

#[cycle(walk)]
#[inline(never)]
fn one_under(
    alloc: Global,
    part: &mut Expr,
    one: &OneForm,
    place: Place,
    scope: &Scope,
) -> Result<Ty, Refusal>
    ensures found { Says result (go_on (type_of part.old scope.now)
        (λ u. at_node place (one_type (view_one one.now) u))) }
    ensures noted { IfOk result (λ _. part.new ≡ typed part.old scope.now) }
{
    let part = note_types(alloc, part, scope)?;
    one_type(one, &part, place, alloc)
}

#[cycle(walk)]
#[inline(never)]
fn two_under(
    alloc: Global,
    first: &mut Expr,
    second: &mut Expr,
    two: TwoForm,
    place: Place,
    scope: &Scope,
) -> Result<Ty, Refusal>
    ensures found { Says result (go_on (type_of first.old scope.now)
        (λ u. go_on (type_of second.old scope.now) (λ v. at_node place
        (two_type (view_two two) u v)))) }
    ensures first { IfOk result (λ _. first.new ≡ typed first.old scope.now) }
    ensures second { IfOk result (λ _. second.new ≡ typed second.old scope.now) }
{
    let first = note_types(alloc, first, scope)?;
    let second = note_types(alloc, second, scope)?;
    two_type(two, &first, &second, place, alloc)
}

#[cycle(walk)]
#[inline(never)]
fn three_under(
    alloc: Global,
    first: &mut Expr,
    second: &mut Expr,
    third: &mut Expr,
    three: ThreeForm,
    place: Place,
    scope: &Scope,
) -> Result<Ty, Refusal>
    ensures found { Says result (go_on (type_of first.old scope.now)
        (λ u. go_on (type_of second.old scope.now) (λ v. go_on (type_of third.old scope.now)
        (λ w. at_node place (three_type (view_three three) u v w))))) }
    ensures first { IfOk result (λ _. first.new ≡ typed first.old scope.now) }
    ensures second { IfOk result (λ _. second.new ≡ typed second.old scope.now) }
    ensures third { IfOk result (λ _. third.new ≡ typed third.old scope.now) }
{
    let first = note_types(alloc, first, scope)?;
    let second = note_types(alloc, second, scope)?;
    let third = note_types(alloc, third, scope)?;
    three_type(three, &first, &second, &third, place, alloc)
}

#[cycle(walk)]
#[tactic(auto)]
#[inline(never)]
fn many_under(
    alloc: Global,
    parts: &mut Exprs,
    many: ManyForm,
    place: Place,
    scope: &Scope,
) -> Result<Ty, Refusal>
    ensures found { Says result (go_on (types_of (pack_exprs parts.old) scope.now)
        (λ us. at_node place (many_type (view_many many) us))) }
    ensures noted { IfOk result (λ _. pack_exprs parts.new
        ≡ all_with_types (pack_exprs parts.old) scope.now) }
{
    let types = each_under(alloc, parts.as_mut_slice(), scope)?;
    many_type(many, types, place, alloc)
}

/// The types of the expressions, in order.
#[cycle(walk)]
#[tactic(auto, using(crate::proofs::Left::no_type_left))]
fn each_under(alloc: Global, parts: &mut [Expr], scope: &Scope) -> Result<Tys, Refusal>
    ensures found { SaysTypes result (types_of (pack_exprs parts.old) scope.now) }
    ensures noted { IfOk result (λ _. parts.new ≡ map (λ e. typed e scope.now) parts.old) }
{
    let mut types = Tys::new(alloc);
    for part in parts.iter_mut() {
        match push_under(alloc, part, &mut types, scope) {
            Ok(()) => {}
            Err(refusal) => return Err(refusal),
        }
    }
    Ok(types)
}

/// Puts the type of the expression behind those before.
#[cycle(walk)]
fn push_under(alloc: Global, e: &mut Expr, types: &mut Tys, scope: &Scope) -> Result<(), Refusal>
    ensures found { Pushes result (type_of e.old scope.now) types.old types.new }
    ensures noted { IfOk result (λ _. e.new ≡ typed e.old scope.now) }
{
    let ty = note_types(alloc, e, scope)?;
    match types.push(ty) {
        Ok(()) => Ok(()),
        Err(_) => Err(Refusal::Memory),
    }
}

#[cycle(walk)]
#[inline(never)]
fn let_under(
    alloc: Global,
    value: &mut Expr,
    body: &mut Expr,
    binder: &Binder,
    scope: &Scope,
) -> Result<Ty, Refusal>
    ensures found { Says result (go_on (type_of value.old scope.now)
        (λ u. noted binder.now.note binder.now u (type_of body.old
        ((binder.now.sym.0, u) ∷ scope.now)))) }
    ensures value { IfOk result (λ _. value.new ≡ typed value.old scope.now) }
    ensures body { IfOk result (λ _. body.new ≡ under (type_of value.old scope.now)
        (λ u. typed body.old ((binder.now.sym.0, u) ∷ scope.now)) body.old) }
{
    let ty = note_types(alloc, value, scope)?;
    check_note(binder, &ty)?;
    note_types(alloc, body, &Scope::bound(binder.sym, &ty, &*scope))
}

#[cycle(walk)]
#[inline(never)]
fn iterate_under(
    alloc: Global,
    state: &mut Expr,
    body: &mut Expr,
    binder: &Binder,
    place: Place,
    scope: &Scope,
) -> Result<Ty, Refusal>
    ensures found { Says result (go_on (type_of state.old scope.now)
        (λ s. demand_at (is_builder_free s) Y27 place (noted binder.now.note binder.now s
        (go_on (type_of body.old ((binder.now.sym.0, s) ∷ scope.now))
        (λ u. demand_at (same_type u (pair_of s truth_type)) Y27 place (found s)))))) }
    ensures state { IfOk result (λ _. state.new ≡ typed state.old scope.now) }
    ensures body { IfOk result (λ _. body.new ≡ under (type_of state.old scope.now)
        (λ s. typed body.old ((binder.now.sym.0, s) ∷ scope.now)) body.old) }
{
    let ty = note_types(alloc, state, scope)?;
    check_state(&ty, place)?;
    check_note(binder, &ty)?;
    let turn = note_types(alloc, body, &Scope::bound(binder.sym, &ty, &*scope))?;
    check_turn(&turn, &ty, place)?;
    Ok(ty)
}

#[cycle(walk)]
#[inline(never)]
fn loop_under(
    alloc: Global,
    legs: &mut Legs,
    builder: &mut Expr,
    body: &mut Expr,
    b: &Binder,
    n: &Binder,
    x: &Binder,
    place: Place,
    scope: &Scope,
) -> Result<Ty, Refusal>
    ensures found { Says result (go_on (strips_of (pack_legs legs.old) scope.now)
        (λ s. type_behind_legs place s builder.old b.now n.now x.now body.old scope.now)) }
    ensures legs { IfOk result (λ _. pack_legs legs.new ≡ legs_with_types (pack_legs legs.old)
        scope.now) }
    ensures builder { IfOk result (λ _. builder.new ≡ typed builder.old scope.now) }
    ensures body { IfOk result (λ _. body.new ≡ under (rows_found place
        (strips_of (pack_legs legs.old) scope.now) (type_of builder.old scope.now))
        (λ tr. typed body.old (body_types b.now n.now x.now tr.0 tr.1 scope.now)) body.old) }
{
    let strips = legs_under(alloc, legs, scope)?;
    rows_under(alloc, builder, body, b, n, x, &strips, place, scope)
}

/// The types of the parts of legs.
#[cycle(walk)]
#[tactic(auto)]
fn legs_under(alloc: Global, legs: &mut Legs, scope: &Scope) -> Result<Strips, Refusal>
    ensures found { SaysStrips result (strips_of (pack_legs legs.old) scope.now) }
    ensures noted { IfOk result (λ _. pack_legs legs.new
        ≡ legs_with_types (pack_legs legs.old) scope.now) }
{
    each_leg_under(alloc, legs.as_mut_slice(), scope)
}

/// The types of the parts of the legs, in order.
#[cycle(walk)]
#[tactic(auto)]
fn each_leg_under(alloc: Global, legs: &mut [Leg], scope: &Scope) -> Result<Strips, Refusal>
    ensures found { SaysStrips result (strips_of (pack_legs (map view_leg legs.old)) scope.now) }
    ensures noted { IfOk result (λ _. map view_leg legs.new
        ≡ map (λ leg. leg_with_types leg scope.now) (map view_leg legs.old)) }
{
    let mut strips = Strips::new(alloc);
    for leg in legs.iter_mut() {
        match leg_under(alloc, leg, &mut strips, scope) {
            Ok(()) => {}
            Err(refusal) => return Err(refusal),
        }
    }
    Ok(strips)
}

/// Puts the types of the parts of the leg behind those before.
#[cycle(walk)]
#[tactic(auto, using(crate::proofs::Left::whole_leg, crate::proofs::Left::strided_leg))]
fn leg_under(
    alloc: Global,
    leg: &mut Leg,
    strips: &mut Strips,
    scope: &Scope,
) -> Result<(), Refusal>
    ensures found { GathersLeg result (view_leg leg.old) scope.now strips.old strips.new }
    ensures noted { IfOk result (λ _. view_leg leg.new ≡ leg_with_types (view_leg leg.old)
        scope.now) }
{
    match leg {
        Leg::Whole(vector) => push_under(alloc, vector, &mut strips.vectors, scope),
        Leg::Strided(vector, start, end, stride) => {
            push_under(alloc, vector, &mut strips.vectors, scope)?;
            push_under(alloc, start, &mut strips.bounds, scope)?;
            push_under(alloc, end, &mut strips.bounds, scope)?;
            push_under(alloc, stride, &mut strips.bounds, scope)
        }
    }
}

/// The type of a loop, by the types of the parts of its legs.
#[cycle(walk)]
fn rows_under(
    alloc: Global,
    builder: &mut Expr,
    body: &mut Expr,
    b: &Binder,
    n: &Binder,
    x: &Binder,
    strips: &Strips,
    place: Place,
    scope: &Scope,
) -> Result<Ty, Refusal>
    ensures found { Says result (type_behind_legs place (view_strips strips.now) builder.old b.now
        n.now x.now body.old scope.now) }
    ensures builder { IfOk result (λ _. builder.new ≡ typed builder.old scope.now) }
    ensures body { IfOk result (λ _. body.new ≡ under (rows_found place
        (found (view_strips strips.now)) (type_of builder.old scope.now))
        (λ tr. typed body.old (body_types b.now n.now x.now tr.0 tr.1 scope.now)) body.old) }
{
    let ty = note_types(alloc, builder, scope)?;
    let row = row_type(&strips.vectors, &strips.bounds, &ty, place, alloc)?;
    check_loop_notes(b, n, x, &ty, &row)?;
    body_under(alloc, body, b, n, x, &ty, &row, place, scope)?;
    Ok(ty)
}

/// The body of a loop, under its binders, has the type of the builder.
#[cycle(walk)]
fn body_under(
    alloc: Global,
    body: &mut Expr,
    b: &Binder,
    n: &Binder,
    x: &Binder,
    builder: &Ty,
    row: &Ty,
    place: Place,
    scope: &Scope,
) -> Result<(), Refusal>
    ensures found { (later : Found TypeTree) → Allows result
        (go_on (type_of body.old (body_types b.now n.now x.now builder.now row.now scope.now))
        (λ u. demand_at (same_type u builder.now) Y26 place later)) later }
    ensures noted { IfOk result (λ _. body.new ≡ typed body.old
        (body_types b.now n.now x.now builder.now row.now scope.now)) }
{
    let number = Ty::scalar(Kind::I64);
    let outer = Scope::bound(b.sym, &*builder, &*scope);
    let middle = Scope::bound(n.sym, &number, &outer);
    let ty = note_types(alloc, body, &Scope::bound(x.sym, &*row, &middle))?;
    check_loop_body(&ty, builder, place)
}
