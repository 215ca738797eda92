//! Which loops over a `zip` have a leg that such a loop makes.

ghost use Rattle.std.specs.Prelude.{◌≡◌, ◌<◌, ◌&&◌, length, map, Some, IfOk, IfSome, true};
ghost use Rattle.weld_tree.specs.TypeTree.{pack};
ghost use Rattle.weld_tree.specs.ExprTree.{pack_legs};
ghost use Rattle.weld_tree.specs.ExprView.{view_leg};
ghost use Rattle.weld_handing.specs.Handing.{is_noted};
ghost use Rattle.weld_vertical_zip.specs.Zipping.{are_several, fits_around};
ghost use Rattle.weld_vertical_zip.specs.Zips.{own_items};
ghost use Rattle.weld_vertical_zip_held.specs.Rule.{first_each, is_each_leg, is_over_each, place_each};

use crate::each::is_each_leg;
use std::alloc::{AllocError, Global};
use weld_horizontal::items_of;
use weld_tree::{Expr, Form, Known, Leg, Ty, Tys};
use weld_vertical_zip::rows::all_items;

/// Whether the expression is a noted loop over several legs of which one is the list that another loop
/// makes, which merges once in each row, and the row over all legs keeps the limits on types that a
/// text spells. It fails for want of memory alone.
pub(crate) fn is_over_each(alloc: Global, e: &Expr) -> Result<bool, AllocError>
    ensures { IfOk result (λ b. b ≡ is_over_each e.now) }
{
    match &e.form {
        Form::For(legs, _, _, _, _, _) => is_noted_over(alloc, &e.ty, legs.as_slice()),
        Form::Leaf(_) | Form::One(_, _) | Form::Two(_, _, _) => Ok(false),
        Form::Three(_, _, _, _) | Form::Many(_, _) => Ok(false),
        Form::Let(_, _, _) | Form::Iterate(_, _, _) => Ok(false),
    }
}

fn is_noted_over(alloc: Global, ty: &Known, legs: &[Leg]) -> Result<bool, AllocError>
    ensures { IfOk result (λ b. b ≡ (is_noted ty.now
        && (are_several (pack_legs (map view_leg legs.now))
        && fits_around (first_each (pack_legs (map view_leg legs.now)))))) }
{
    match ty {
        Known::Blank => Ok(false),
        Known::Is(_) => are_over(alloc, legs),
    }
}

#[tactic(auto, using(weld_vertical_zip::proofs::Finding::too_few, crate::proofs::Cutting::none_each, weld_vertical_zip::proofs::Finding::are_several_and))]
fn are_over(alloc: Global, legs: &[Leg]) -> Result<bool, AllocError>
    ensures { IfOk result (λ b. b ≡ (are_several (pack_legs (map view_leg legs.now))
        && fits_around (first_each (pack_legs (map view_leg legs.now))))) }
{
    if legs.len() < 2 {
        return Ok(false);
    }
    match place_each(alloc, legs)? {
        Some(place) => fits(alloc, legs, place),
        None => Ok(false),
    }
}

/// The place of the first leg that is such a list. It fails for want of memory alone.
#[tactic(auto, using(weld_vertical_zip::proofs::PlaceLemmas::unshifted, crate::proofs::Left::place_found, crate::proofs::Left::place_missed, crate::proofs::Left::place_none))]
pub(crate) fn place_each(alloc: Global, legs: &[Leg]) -> Result<Option<usize>, AllocError>
    ensures value { IfOk result (λ o. o ≡ place_each (pack_legs (map view_leg legs.now))) }
    ensures within { IfOk result (λ o. IfSome o (λ n. n < length legs.now)) }
{
    for (i, leg) in legs.iter().enumerate() {
        if is_each_leg(alloc, leg)? {
            return Ok(Some(i));
        }
    }
    Ok(None)
}

/// Whether the row over all legs keeps the limits, where the leg at the place is the first such.
#[tactic(auto, using(crate::proofs::Cutting::each_there))]
fn fits(alloc: Global, legs: &[Leg], place: usize) -> Result<bool, AllocError>
    requires within { place < length legs.now }
    requires first { Some place ≡ place_each (pack_legs (map view_leg legs.now)) }
    ensures { IfOk result (λ b. b ≡ fits_around (first_each (pack_legs (map view_leg legs.now)))) }
{
    let before = items_of(alloc, &legs[..place])?;
    let within = own_items(alloc, &legs[place])?;
    let after = items_of(alloc, &legs[place + 1..])?;
    let all = all_items(alloc, &before, &within, &after)?;
    Ok(Ty::struct_of(all).is_within_limits())
}

/// The types of the items of the legs of the loop that makes the leg.
fn own_items(alloc: Global, leg: &Leg) -> Result<Tys, AllocError>
    requires { is_each_leg (view_leg leg.now) ≡ true }
    ensures { IfOk result (λ ts. pack ts ≡ own_items (view_leg leg.now)) }
{
    let Leg::Whole(e) = leg else {
        unreachable!();
    };
    let Form::One(_, producer) = &e.form else {
        unreachable!();
    };
    let Form::For(legs, _, _, _, _, _) = &producer.form else {
        unreachable!();
    };
    items_of(alloc, legs.as_slice())
}
