//! Which loops over a `zip` have a leg that another loop makes.

ghost use Rattle.std.specs.Prelude.{◌≡◌, ◌<◌, ◌&&◌, length, map, Some, IfOk, true};
ghost use Rattle.weld_tree.specs.TypeTree.{pack};
ghost use Rattle.weld_tree.specs.ExprTree.{pack_legs};
ghost use Rattle.weld_tree.specs.ExprView.{view_leg};
ghost use Rattle.weld_vertical_zip.specs.Zipping.{are_several, first_made, fits_around, is_made_leg, is_zipped};
ghost use Rattle.weld_vertical_zip.specs.Zips.{own_items, place_produced};

use crate::producers::place_produced;
use crate::rows::all_items;
use std::alloc::{AllocError, Global};
use weld_horizontal::items_of;
use weld_tree::{Expr, Form, Leg, Ty, Tys};

/// Whether the expression is a loop over a `zip` of which a leg is the list that another loop makes,
/// and the row over all legs keeps the limits on types that a text spells.
pub(crate) fn is_zipped(alloc: Global, e: &Expr) -> Result<bool, AllocError>
    ensures { IfOk result (λ b. b ≡ is_zipped e.now) }
{
    match &e.form {
        Form::For(legs, _, _, _, _, _) => are_zipped(alloc, legs.as_slice()),
        Form::Leaf(_) | Form::One(_, _) | Form::Two(_, _, _) => Ok(false),
        Form::Three(_, _, _, _) | Form::Many(_, _) => Ok(false),
        Form::Let(_, _, _) | Form::Iterate(_, _, _) => Ok(false),
    }
}

#[tactic(auto, using(crate::proofs::Finding::too_few, crate::proofs::Finding::none_made, crate::proofs::Finding::are_several_and))]
fn are_zipped(alloc: Global, legs: &[Leg]) -> Result<bool, AllocError>
    ensures { IfOk result (λ b. b ≡ (are_several (pack_legs (map view_leg legs.now))
        && fits_around (first_made (pack_legs (map view_leg legs.now))))) }
{
    if legs.len() < 2 {
        return Ok(false);
    }
    match place_produced(legs) {
        Some(place) => fits(alloc, legs, place),
        None => Ok(false),
    }
}

/// Whether the row over all legs keeps the limits, where the leg at the place is the first that
/// another loop makes.
#[tactic(auto, using(crate::proofs::Finding::produced_there))]
fn fits(alloc: Global, legs: &[Leg], place: usize) -> Result<bool, AllocError>
    requires within { place < length legs.now }
    requires first { Some place ≡ place_produced (pack_legs (map view_leg legs.now)) }
    ensures { IfOk result (λ b. b ≡ fits_around (first_made (pack_legs (map view_leg legs.now)))) }
{
    let before = items_of(alloc, &legs[..place])?;
    let within = own_items(alloc, &legs[place])?;
    let after = items_of(alloc, &legs[place + 1..])?;
    let all = all_items(alloc, &before, &within, &after)?;
    Ok(Ty::struct_of(all).is_within_limits())
}

/// The types of the items of the legs of the loop that makes the leg.
fn own_items(alloc: Global, leg: &Leg) -> Result<Tys, AllocError>
    requires { is_made_leg (view_leg leg.now) ≡ true }
    ensures { IfOk result (λ ts. pack ts ≡ own_items (view_leg leg.now)) }
{
    let Leg::Whole(e) = leg else {
        unreachable!();
    };
    let Form::One(_, producer) = &e.form else {
        unreachable!();
    };
    let Form::For(legs, _, _, _, _, _) = &producer.form else {
        unreachable!();
    };
    items_of(alloc, legs.as_slice())
}
