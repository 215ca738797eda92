//! Loops over the list that another loop makes.

ghost use Rattle.std.specs.Prelude.{◌≡◌, ◌==◌, ◌&&◌, ◌||◌, map, IfOk};
ghost use Rattle.weld_tree.specs.ExprTree.{pack_legs};
ghost use Rattle.weld_tree.specs.ExprView.{view_leg};
ghost use Rattle.weld_tree.specs.TypeView.{view_build};
ghost use Rattle.weld_substitution.specs.Uses.{uses};
ghost use Rattle.weld_vertical.specs.Sinking.{is_list, starts_list};
ghost use Rattle.weld_handing.specs.Handing.{is_noted};
ghost use Rattle.weld_handing.specs.Merging.{list_merges};
ghost use Rattle.weld_handing.specs.Walking.{names_within};
ghost use Rattle.weld_vertical_held.specs.Rule.{is_its_leg, is_its_list, is_its_only_leg, is_over_list, makes_list, merges_once};

use std::alloc::{AllocError, Global};
use weld_handing::{always_merges, list_merges, own_source, starts_none};
use weld_linear::Scope;
use weld_substitution::uses_of;
use weld_tree::{BuildTy, Expr, Form, Known, LeafForm, Leg, Legs, OneForm, Sym};

/// Whether the expression is a noted loop whose only leg is the list that another loop makes, which
/// merges into it at one place: in every row, or where the first doesn't use its row number. It fails
/// for want of memory alone.
pub(crate) fn is_over_list(e: &Expr, alloc: Global) -> Result<bool, AllocError>
    ensures { IfOk result (λ b. b ≡ is_over_list e.now) }
{
    match &e.form {
        Form::For(legs, _, _, number, _, body) => {
            is_noted_over(&e.ty, number.sym, body, legs, alloc)
        }
        _ => Ok(false),
    }
}

fn is_noted_over(
    ty: &Known,
    number: Sym,
    body: &Expr,
    legs: &Legs,
    alloc: Global,
) -> Result<bool, AllocError>
    ensures { IfOk result (λ b. b
        ≡ (is_noted ty.now && is_its_only_leg number.0 body.now (pack_legs legs.now))) }
{
    match ty {
        Known::Blank => Ok(false),
        Known::Is(_) => is_only_leg(number, body, legs, alloc),
    }
}

fn is_only_leg(number: Sym, body: &Expr, legs: &Legs, alloc: Global) -> Result<bool, AllocError>
    ensures { IfOk result (λ b. b ≡ is_its_only_leg number.0 body.now (pack_legs legs.now)) }
{
    match legs.as_slice() {
        [leg] => is_its_leg(number, body, leg, alloc),
        _ => Ok(false),
    }
}

fn is_its_leg(number: Sym, body: &Expr, leg: &Leg, alloc: Global) -> Result<bool, AllocError>
    ensures { IfOk result (λ b. b ≡ is_its_leg number.0 body.now (view_leg leg.now)) }
{
    match leg {
        Leg::Whole(e) => is_its_list(number, body, e, alloc),
        Leg::Strided(_, _, _, _) => Ok(false),
    }
}

fn is_its_list(number: Sym, body: &Expr, e: &Expr, alloc: Global) -> Result<bool, AllocError>
    ensures { IfOk result (λ b. b ≡ is_its_list number.0 body.now e.now) }
{
    match &e.form {
        Form::One(OneForm::Finish, part) => makes_list(number, body, part, alloc),
        _ => Ok(false),
    }
}

fn makes_list(number: Sym, body: &Expr, e: &Expr, alloc: Global) -> Result<bool, AllocError>
    ensures { IfOk result (λ b. b ≡ makes_list number.0 body.now e.now) }
{
    match &e.form {
        Form::For(_, start, builder, count, item, inside) => {
            let names = Names {
                builder: builder.sym,
                count: count.sym,
                item: item.sym,
            };
            makes_list_within(number, body, start, names, inside, alloc)
        }
        _ => Ok(false),
    }
}

/// The names that a loop binds.
#[derive(Clone, Copy)]
struct Names {
    builder: Sym,
    count: Sym,
    item: Sym,
}

fn makes_list_within(
    number: Sym,
    body: &Expr,
    start: &Expr,
    names: Names,
    inside: &Expr,
    alloc: Global,
) -> Result<bool, AllocError>
    ensures { IfOk result (λ b. b ≡ (starts_list start.now && merges_once number.0 body.now
        (names_within names.builder.0 names.count.0 names.item.0) inside.now)) }
{
    if !starts_list(start) {
        return Ok(false);
    }
    let own = own_source(alloc);
    let none = Scope::empty();
    let with_builder = Scope::bound(names.builder, &own, &none);
    let with_count = Scope::of_value(names.count, &with_builder);
    let scope = Scope::of_value(names.item, &with_count);
    merges_once(number, body, &scope, inside, alloc)
}

fn merges_once(
    number: Sym,
    body: &Expr,
    scope: &Scope,
    inside: &Expr,
    alloc: Global,
) -> Result<bool, AllocError>
    ensures { IfOk result (λ b. b ≡ merges_once number.0 body.now scope.now inside.now) }
{
    if !has_one_merge(scope, inside, alloc)? {
        return Ok(false);
    }
    if !starts_none(inside, scope, alloc)? {
        return Ok(false);
    }
    if always_merges(inside, scope, alloc)? {
        return Ok(true);
    }
    Ok(is_unused(body, number))
}

#[tactic(auto, using(weld_handing::proofs::Walked::once_is))]
fn has_one_merge(scope: &Scope, inside: &Expr, alloc: Global) -> Result<bool, AllocError>
    ensures { IfOk result (λ b. b ≡ (list_merges scope.now inside.now == 1)) }
{
    let merges = list_merges(inside, scope, alloc)?;
    Ok(merges == 1)
}

#[tactic(auto, using(weld_handing::proofs::Walked::none_is))]
fn is_unused(body: &Expr, number: Sym) -> bool
    ensures { result ≡ (uses body.now number.0 == 0) }
{
    uses_of(body, number) == 0
}

/// Whether it is an empty `vecbuilder`.
fn starts_list(e: &Expr) -> bool
    ensures { result ≡ starts_list e.now }
{
    match &e.form {
        Form::Leaf(LeafForm::Builder(build)) => is_list(build),
        _ => false,
    }
}

fn is_list(build: &BuildTy) -> bool
    ensures { result ≡ is_list (view_build build.now) }
{
    match build {
        BuildTy::List(_) => true,
        BuildTy::Total(_, _) | BuildTy::Keyed(_, _, _) => false,
        BuildTy::Cells(_, _) | BuildTy::Groups(_, _) => false,
    }
}
