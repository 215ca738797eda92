//! The walk that hands a loop's body over to a consumer, in place.

ghost use Rattle.std.specs.Prelude.{◌≡◌, ◌+◌, ◌∷◌, ◌≤◌, map, IfOk};
ghost use Rattle.weld_tree.specs.ExprTree.{pack_exprs, pack_legs};
ghost use Rattle.weld_tree.specs.ExprView.{view_leg, view_many, view_one, view_three, view_two};
ghost use Rattle.weld_meaning.specs.Origin.{many_origin, one_origin, origin, origins, three_origin, two_origin, value};
ghost use Rattle.weld_linear.specs.Sources.{pack_origins};
ghost use Rattle.weld_handing.specs.Handing.{unnoted};
ghost use Rattle.weld_handing.specs.Merging.{all_list_merges, leg_list_merges, legs_list_merges, list_merges};
ghost use Rattle.weld_handing.specs.Walking.{all_handed_for, handed_for, left, leg_handed_for, legs_handed_for, parts_handed, parts_merge, taken};

use crate::settling::{Consumer, forget_note, settle};
use crate::source::{leaf_source, many_source, one_source, three_source, two_source};
use std::alloc::{AllocError, Global};
use weld_linear::{Scope, Source, Sources};
use weld_tree::{
    Binder, Expr, Exprs, Form, Leg, Legs, ManyForm, OneForm, Sym, ThreeForm, TwoForm, Ty,
};

/// Hands the body of a loop over, which has this row number and at most as many merges into its list
/// as there are consumers: the consumer is moved in at the merge, and each name, field and struct that
/// held the list's builder holds the consumer's, of the type. It answers where the builders come from
/// that the body answered. It fails for want of memory alone; the body may be anything then.
#[cycle(hand)]
#[tactic(auto, using(crate::proofs::Walked::settles, crate::proofs::Walked::all_taken))]
pub fn hand(
    alloc: Global,
    ty: &Ty,
    count: Sym,
    consumer: &mut Option<Consumer>,
    scope: &Scope,
    e: &mut Expr,
) -> Result<Source, AllocError>
    requires { list_merges scope.now e.old ≤ left consumer.old }
    ensures origin { IfOk result (λ o. o ≡ origin e.old scope.now) }
    ensures taken { IfOk result (λ _.
        consumer.new ≡ taken (list_merges scope.now e.old) consumer.old) }
    ensures handed { IfOk result (λ _.
        e.new ≡ handed_for ty.now count.0 consumer.old scope.now e.old) }
{
    let source = hand_parts(alloc, ty, count, consumer, scope, e)?;
    settle(alloc, ty, count, consumer, &source, e)?;
    Ok(source)
}

/// Hands the parts of a node over.
#[cycle(hand)]
fn hand_parts(
    alloc: Global,
    ty: &Ty,
    count: Sym,
    consumer: &mut Option<Consumer>,
    scope: &Scope,
    e: &mut Expr,
) -> Result<Source, AllocError>
    requires { parts_merge scope.now e.old ≤ left consumer.old }
    ensures origin { IfOk result (λ o. o ≡ origin e.old scope.now) }
    ensures taken { IfOk result (λ _.
        consumer.new ≡ taken (parts_merge scope.now e.old) consumer.old) }
    ensures handed { IfOk result (λ _.
        e.new ≡ parts_handed ty.now count.0 consumer.old scope.now e.old) }
{
    match &mut e.form {
        Form::Leaf(leaf) => leaf_source(leaf, scope, alloc),
        Form::One(one, part) => hand_one(alloc, ty, count, consumer, scope, one, part),
        Form::Two(two, first, second) => {
            hand_two(alloc, ty, count, consumer, scope, *two, first, second)
        }
        Form::Three(three, first, second, third) => {
            hand_three(
                alloc, ty, count, consumer, scope, *three, first, second, third,
            )
        }
        Form::Many(many, parts) => hand_many(alloc, ty, count, consumer, scope, *many, parts),
        Form::Let(binder, value, body) => {
            hand_let(alloc, ty, count, consumer, scope, binder, value, body)
        }
        Form::For(legs, builder, _, _, _, _) => {
            hand_loop(alloc, ty, count, consumer, scope, legs, builder)
        }
        Form::Iterate(state, _, _) => hand_state(alloc, ty, count, consumer, scope, state),
    }
}

#[cycle(hand)]
fn hand_one(
    alloc: Global,
    ty: &Ty,
    count: Sym,
    consumer: &mut Option<Consumer>,
    scope: &Scope,
    one: &OneForm,
    part: &mut Expr,
) -> Result<Source, AllocError>
    requires { list_merges scope.now part.old ≤ left consumer.old }
    ensures origin { IfOk result (λ o. o
        ≡ one_origin (view_one one.now) (origin part.old scope.now)) }
    ensures taken { IfOk result (λ _.
        consumer.new ≡ taken (list_merges scope.now part.old) consumer.old) }
    ensures handed { IfOk result (λ _.
        part.new ≡ handed_for ty.now count.0 consumer.old scope.now part.old) }
{
    let source = hand(alloc, ty, count, consumer, scope, part)?;
    one_source(one, &source, alloc)
}

#[cycle(hand)]
#[tactic(auto, using(crate::proofs::Walked::more_left, crate::proofs::Walked::more_taken, crate::proofs::Walked::handed_on))]
fn hand_two(
    alloc: Global,
    ty: &Ty,
    count: Sym,
    consumer: &mut Option<Consumer>,
    scope: &Scope,
    two: TwoForm,
    first: &mut Expr,
    second: &mut Expr,
) -> Result<Source, AllocError>
    requires { list_merges scope.now first.old + list_merges scope.now second.old
        ≤ left consumer.old }
    ensures origin { IfOk result (λ o. o
        ≡ two_origin (view_two two) (origin first.old scope.now)) }
    ensures taken { IfOk result (λ _. consumer.new
        ≡ taken (list_merges scope.now first.old + list_merges scope.now second.old)
        consumer.old) }
    ensures first { IfOk result (λ _.
        first.new ≡ handed_for ty.now count.0 consumer.old scope.now first.old) }
    ensures second { IfOk result (λ _.
        second.new ≡ handed_for ty.now count.0 consumer.old scope.now second.old) }
{
    let source = hand(alloc, ty, count, consumer, scope, first)?;
    hand(alloc, ty, count, consumer, scope, second)?;
    Ok(two_source(two, source))
}

#[cycle(hand)]
#[tactic(auto, using(crate::proofs::Walked::more_left, crate::proofs::Walked::more_taken, crate::proofs::Walked::handed_on))]
fn hand_three(
    alloc: Global,
    ty: &Ty,
    count: Sym,
    consumer: &mut Option<Consumer>,
    scope: &Scope,
    three: ThreeForm,
    first: &mut Expr,
    second: &mut Expr,
    third: &mut Expr,
) -> Result<Source, AllocError>
    requires { list_merges scope.now first.old
        + (list_merges scope.now second.old + list_merges scope.now third.old)
        ≤ left consumer.old }
    ensures origin { IfOk result (λ o. o
        ≡ three_origin (view_three three) (origin second.old scope.now)) }
    ensures taken { IfOk result (λ _. consumer.new ≡ taken (list_merges scope.now first.old
        + (list_merges scope.now second.old + list_merges scope.now third.old)) consumer.old) }
    ensures first { IfOk result (λ _.
        first.new ≡ handed_for ty.now count.0 consumer.old scope.now first.old) }
    ensures second { IfOk result (λ _.
        second.new ≡ handed_for ty.now count.0 consumer.old scope.now second.old) }
    ensures third { IfOk result (λ _.
        third.new ≡ handed_for ty.now count.0 consumer.old scope.now third.old) }
{
    hand(alloc, ty, count, consumer, scope, first)?;
    let source = hand(alloc, ty, count, consumer, scope, second)?;
    hand(alloc, ty, count, consumer, scope, third)?;
    Ok(three_source(three, source))
}

#[cycle(hand)]
fn hand_many(
    alloc: Global,
    ty: &Ty,
    count: Sym,
    consumer: &mut Option<Consumer>,
    scope: &Scope,
    many: ManyForm,
    parts: &mut Exprs,
) -> Result<Source, AllocError>
    requires { all_list_merges scope.now (pack_exprs parts.old) ≤ left consumer.old }
    ensures origin { IfOk result (λ o. o
        ≡ many_origin (view_many many) (origins (pack_exprs parts.old) scope.now)) }
    ensures taken { IfOk result (λ _. consumer.new
        ≡ taken (all_list_merges scope.now (pack_exprs parts.old)) consumer.old) }
    ensures handed { IfOk result (λ _. pack_exprs parts.new
        ≡ all_handed_for ty.now count.0 consumer.old scope.now (pack_exprs parts.old)) }
{
    let sources = hand_each(alloc, ty, count, consumer, scope, parts.as_mut_slice())?;
    Ok(many_source(many, sources))
}

#[cycle(hand)]
fn hand_each(
    alloc: Global,
    ty: &Ty,
    count: Sym,
    consumer: &mut Option<Consumer>,
    scope: &Scope,
    parts: &mut [Expr],
) -> Result<Sources, AllocError>
    requires { all_list_merges scope.now (pack_exprs parts.old) ≤ left consumer.old }
    ensures origins { IfOk result (λ os.
        pack_origins os ≡ origins (pack_exprs parts.old) scope.now) }
    ensures taken { IfOk result (λ _. consumer.new
        ≡ taken (all_list_merges scope.now (pack_exprs parts.old)) consumer.old) }
    ensures handed { IfOk result (λ _. parts.new
        ≡ map (handed_for ty.now count.0 consumer.old scope.now) parts.old) }
{
    let mut sources = Sources::new(alloc);
    for part in parts.iter_mut() {
        sources.push(hand(alloc, ty, count, consumer, scope, part)?)?;
    }
    Ok(sources)
}

#[cycle(hand)]
#[tactic(auto, using(crate::proofs::Walked::more_left, crate::proofs::Walked::more_taken, crate::proofs::Walked::handed_on))]
fn hand_let(
    alloc: Global,
    ty: &Ty,
    count: Sym,
    consumer: &mut Option<Consumer>,
    scope: &Scope,
    binder: &mut Binder,
    value: &mut Expr,
    body: &mut Expr,
) -> Result<Source, AllocError>
    requires { list_merges scope.now value.old
        + list_merges ((binder.old.sym.0, origin value.old scope.now) ∷ scope.now) body.old
        ≤ left consumer.old }
    ensures origin { IfOk result (λ o. o
        ≡ origin body.old ((binder.old.sym.0, origin value.old scope.now) ∷ scope.now)) }
    ensures taken { IfOk result (λ _. consumer.new ≡ taken (list_merges scope.now value.old
        + list_merges ((binder.old.sym.0, origin value.old scope.now) ∷ scope.now) body.old)
        consumer.old) }
    ensures binder { IfOk result (λ _. binder.new ≡ unnoted binder.old) }
    ensures bound { IfOk result (λ _.
        value.new ≡ handed_for ty.now count.0 consumer.old scope.now value.old) }
    ensures body { IfOk result (λ _. body.new ≡ handed_for ty.now count.0 consumer.old
        ((binder.old.sym.0, origin value.old scope.now) ∷ scope.now) body.old) }
{
    let source = hand(alloc, ty, count, consumer, scope, value)?;
    let inner = Scope::bound(binder.sym, &source, &*scope);
    forget_note(binder);
    hand(alloc, ty, count, consumer, &inner, body)
}

#[cycle(hand)]
#[tactic(auto, using(crate::proofs::Walked::more_left, crate::proofs::Walked::more_taken, crate::proofs::Walked::handed_on))]
fn hand_loop(
    alloc: Global,
    ty: &Ty,
    count: Sym,
    consumer: &mut Option<Consumer>,
    scope: &Scope,
    legs: &mut Legs,
    builder: &mut Expr,
) -> Result<Source, AllocError>
    requires { legs_list_merges scope.now (pack_legs legs.old) + list_merges scope.now builder.old
        ≤ left consumer.old }
    ensures origin { IfOk result (λ o. o ≡ origin builder.old scope.now) }
    ensures taken { IfOk result (λ _. consumer.new
        ≡ taken (legs_list_merges scope.now (pack_legs legs.old)
        + list_merges scope.now builder.old) consumer.old) }
    ensures legs { IfOk result (λ _. pack_legs legs.new
        ≡ legs_handed_for ty.now count.0 consumer.old scope.now (pack_legs legs.old)) }
    ensures builder { IfOk result (λ _.
        builder.new ≡ handed_for ty.now count.0 consumer.old scope.now builder.old) }
{
    hand_each_leg(alloc, ty, count, consumer, scope, legs.as_mut_slice())?;
    hand(alloc, ty, count, consumer, scope, builder)
}

#[cycle(hand)]
fn hand_each_leg(
    alloc: Global,
    ty: &Ty,
    count: Sym,
    consumer: &mut Option<Consumer>,
    scope: &Scope,
    legs: &mut [Leg],
) -> Result<(), AllocError>
    requires { legs_list_merges scope.now (pack_legs (map view_leg legs.old))
        ≤ left consumer.old }
    ensures taken { IfOk result (λ _. consumer.new
        ≡ taken (legs_list_merges scope.now (pack_legs (map view_leg legs.old))) consumer.old) }
    ensures handed { IfOk result (λ _. map view_leg legs.new
        ≡ map (leg_handed_for ty.now count.0 consumer.old scope.now) (map view_leg legs.old)) }
{
    for leg in legs.iter_mut() {
        hand_leg(alloc, ty, count, consumer, scope, leg)?;
    }
    Ok(())
}

#[cycle(hand)]
fn hand_leg(
    alloc: Global,
    ty: &Ty,
    count: Sym,
    consumer: &mut Option<Consumer>,
    scope: &Scope,
    leg: &mut Leg,
) -> Result<(), AllocError>
    requires { leg_list_merges scope.now (view_leg leg.old) ≤ left consumer.old }
    ensures taken { IfOk result (λ _.
        consumer.new ≡ taken (leg_list_merges scope.now (view_leg leg.old)) consumer.old) }
    ensures handed { IfOk result (λ _. view_leg leg.new
        ≡ leg_handed_for ty.now count.0 consumer.old scope.now (view_leg leg.old)) }
{
    match leg {
        Leg::Whole(e) => hand_whole(alloc, ty, count, consumer, scope, e),
        Leg::Strided(e, from, to, by) => {
            hand_strided(alloc, ty, count, consumer, scope, e, from, to, by)
        }
    }
}

#[cycle(hand)]
fn hand_whole(
    alloc: Global,
    ty: &Ty,
    count: Sym,
    consumer: &mut Option<Consumer>,
    scope: &Scope,
    e: &mut Expr,
) -> Result<(), AllocError>
    requires { list_merges scope.now e.old ≤ left consumer.old }
    ensures taken { IfOk result (λ _.
        consumer.new ≡ taken (list_merges scope.now e.old) consumer.old) }
    ensures handed { IfOk result (λ _.
        e.new ≡ handed_for ty.now count.0 consumer.old scope.now e.old) }
{
    hand(alloc, ty, count, consumer, scope, e)?;
    Ok(())
}

#[cycle(hand)]
#[tactic(auto, using(crate::proofs::Walked::more_left, crate::proofs::Walked::more_taken, crate::proofs::Walked::handed_on))]
fn hand_strided(
    alloc: Global,
    ty: &Ty,
    count: Sym,
    consumer: &mut Option<Consumer>,
    scope: &Scope,
    e: &mut Expr,
    from: &mut Expr,
    to: &mut Expr,
    by: &mut Expr,
) -> Result<(), AllocError>
    requires { list_merges scope.now e.old + (list_merges scope.now from.old
        + (list_merges scope.now to.old + list_merges scope.now by.old)) ≤ left consumer.old }
    ensures taken { IfOk result (λ _. consumer.new ≡ taken (list_merges scope.now e.old
        + (list_merges scope.now from.old
        + (list_merges scope.now to.old + list_merges scope.now by.old))) consumer.old) }
    ensures vector { IfOk result (λ _.
        e.new ≡ handed_for ty.now count.0 consumer.old scope.now e.old) }
    ensures start { IfOk result (λ _.
        from.new ≡ handed_for ty.now count.0 consumer.old scope.now from.old) }
    ensures end { IfOk result (λ _.
        to.new ≡ handed_for ty.now count.0 consumer.old scope.now to.old) }
    ensures stride { IfOk result (λ _.
        by.new ≡ handed_for ty.now count.0 consumer.old scope.now by.old) }
{
    hand(alloc, ty, count, consumer, scope, e)?;
    hand_three(
        alloc,
        ty,
        count,
        consumer,
        scope,
        ThreeForm::Slice,
        from,
        to,
        by,
    )?;
    Ok(())
}

#[cycle(hand)]
fn hand_state(
    alloc: Global,
    ty: &Ty,
    count: Sym,
    consumer: &mut Option<Consumer>,
    scope: &Scope,
    state: &mut Expr,
) -> Result<Source, AllocError>
    requires { list_merges scope.now state.old ≤ left consumer.old }
    ensures origin { IfOk result (λ o. o ≡ value) }
    ensures taken { IfOk result (λ _.
        consumer.new ≡ taken (list_merges scope.now state.old) consumer.old) }
    ensures handed { IfOk result (λ _.
        state.new ≡ handed_for ty.now count.0 consumer.old scope.now state.old) }
{
    hand(alloc, ty, count, consumer, scope, state)?;
    Ok(Source::value())
}
