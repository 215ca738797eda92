//! Lists that other loops make, which merge once in each row and may hold their builder anywhere.

ghost use Rattle.std.specs.Prelude.{◌≡◌, ◌==◌, ◌&&◌, not, IfOk};
ghost use Rattle.weld_tree.specs.ExprView.{view_leg};
ghost use Rattle.weld_vertical.specs.Sinking.{starts_list};
ghost use Rattle.weld_handing.specs.Merging.{list_merges};
ghost use Rattle.weld_handing.specs.Walking.{names_within};
ghost use Rattle.weld_vertical_zip_held.specs.Rule.{is_each_leg, is_each_list, makes_each, merges_always, merges_each};

use crate::rebinding::rebinds;
use std::alloc::{AllocError, Global};
use weld_handing::{always_merges, list_merges, own_source, starts_none};
use weld_linear::Scope;
use weld_tree::{Expr, Form, Leg, OneForm, Sym};
use weld_vertical_zip::starts_list;

/// Whether the leg is the list that another loop makes, which starts with an empty `vecbuilder`, binds
/// its row but once, and merges into the list at one place, in every row. It fails for want of memory
/// alone.
pub(crate) fn is_each_leg(alloc: Global, leg: &Leg) -> Result<bool, AllocError>
    ensures { IfOk result (λ b. b ≡ is_each_leg (view_leg leg.now)) }
{
    match leg {
        Leg::Whole(e) => is_each_list(alloc, e),
        Leg::Strided(_, _, _, _) => Ok(false),
    }
}

fn is_each_list(alloc: Global, e: &Expr) -> Result<bool, AllocError>
    ensures { IfOk result (λ b. b ≡ is_each_list e.now) }
{
    match &e.form {
        Form::One(OneForm::Finish, part) => makes_each(alloc, part),
        _ => Ok(false),
    }
}

fn makes_each(alloc: Global, e: &Expr) -> Result<bool, AllocError>
    ensures { IfOk result (λ b. b ≡ makes_each e.now) }
{
    match &e.form {
        Form::For(_, start, builder, count, item, inside) => {
            let names = Names {
                builder: builder.sym,
                count: count.sym,
                item: item.sym,
            };
            makes_each_within(alloc, start, names, inside)
        }
        _ => Ok(false),
    }
}

/// The names that a loop binds.
#[derive(Clone, Copy)]
struct Names {
    builder: Sym,
    count: Sym,
    item: Sym,
}

fn makes_each_within(
    alloc: Global,
    start: &Expr,
    names: Names,
    inside: &Expr,
) -> Result<bool, AllocError>
    ensures { IfOk result (λ b. b ≡ (starts_list start.now && merges_each names.item.0
        (names_within names.builder.0 names.count.0 names.item.0) inside.now)) }
{
    if !starts_list(start) {
        return Ok(false);
    }
    merges_each(alloc, names, inside)
}

fn merges_each(alloc: Global, names: Names, inside: &Expr) -> Result<bool, AllocError>
    ensures { IfOk result (λ b. b ≡ merges_each names.item.0
        (names_within names.builder.0 names.count.0 names.item.0) inside.now) }
{
    if rebinds(names.item, inside) {
        return Ok(false);
    }
    let own = own_source(alloc);
    let none = Scope::empty();
    let with_builder = Scope::bound(names.builder, &own, &none);
    let with_count = Scope::of_value(names.count, &with_builder);
    let scope = Scope::of_value(names.item, &with_count);
    merges_always(alloc, &scope, inside)
}

fn merges_always(alloc: Global, scope: &Scope, inside: &Expr) -> Result<bool, AllocError>
    ensures { IfOk result (λ b. b ≡ merges_always scope.now inside.now) }
{
    if !has_one_merge(alloc, scope, inside)? {
        return Ok(false);
    }
    if !starts_none(inside, scope, alloc)? {
        return Ok(false);
    }
    always_merges(inside, scope, alloc)
}

#[tactic(auto, using(weld_handing::proofs::Walked::once_is))]
fn has_one_merge(alloc: Global, scope: &Scope, inside: &Expr) -> Result<bool, AllocError>
    ensures { IfOk result (λ b. b ≡ (list_merges scope.now inside.now == 1)) }
{
    let merges = list_merges(inside, scope, alloc)?;
    Ok(merges == 1)
}
