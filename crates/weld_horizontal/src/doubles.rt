//! The rule of legs that stand twice.

ghost use Rattle.std.specs.Prelude.{◌≡◌, ◌+◌, ◌<◌, ◌^◌, is_some, length, map, true, IfOk};
ghost use Rattle.weld_tree.specs.ExprTree.{pack_legs};
ghost use Rattle.weld_tree.specs.ExprView.{view_leg};
ghost use Rattle.weld_horizontal.specs.Twice.{bare, items, rebuilt, twice, without_leg};
ghost use Rattle.weld_horizontal.specs.Doubles.{are_few, is_double, of_places, without_double};

use crate::picks::Picks;
use crate::places::{LegPlaces, twice};
use crate::row::{items_of, rebuilt};
use std::alloc::{AllocError, Global};
use std::mem;
use weld_rewriting::sweep::{Rule, sweep};
use weld_substitution::put_in;
use weld_tree::{Binder, Expr, Form, Leg, Legs, Place, Sym};

/// In a loop in which a leg is a name that stands twice, it stands once.
#[derive(Clone, Copy)]
pub struct Doubles;

impl Rule for Doubles {
    ghost use Rattle.weld_horizontal.specs.Doubles.{doubles_rule};

    ghost rule = { λ _. doubles_rule };

    fn try_at(&self, alloc: Global, e: &mut Expr) -> Result<bool, AllocError> {
        if !is_double(&*e) {
            return Ok(false);
        }
        drop_double(alloc, e)?;
        sweep(alloc, &Picks, e)?;
        Ok(true)
    }
}

/// Whether the expression is a loop in which a whole leg is a name that stands again. It takes no
/// memory.
fn is_double(e: &Expr) -> bool
    ensures { result ≡ is_double e.now }
{
    match &e.form {
        Form::For(legs, _, _, _, _, _) => has_twice(legs.as_slice()) && are_few(legs),
        Form::Leaf(_) | Form::One(_, _) | Form::Two(_, _, _) | Form::Three(_, _, _, _) => false,
        Form::Many(_, _) | Form::Let(_, _, _) | Form::Iterate(_, _, _) => false,
    }
}

/// Whether a whole leg is a name that stands again.
#[tactic(auto, using(crate::proofs::RowLemmas::some_places))]
fn has_twice(legs: &[Leg]) -> bool
    ensures { result ≡ is_some (twice (pack_legs (map view_leg legs.now))) }
{
    twice(legs).is_some()
}

/// Whether there are so few legs that each field of a row can be spelled.
#[tactic(auto, using(crate::proofs::PlaceLemmas::are_few_is))]
fn are_few(legs: &Legs) -> bool
    ensures { result ≡ are_few (pack_legs legs.now) }
{
    legs.len() < 1_000_000_000
}

/// The second of both legs goes, and the row is rebuilt for each use of the row.
#[tactic(auto, using(crate::proofs::Dropped::dropped))]
fn drop_double(alloc: Global, e: &mut Expr) -> Result<(), AllocError>
    requires { is_double e.old ≡ true }
    ensures { IfOk result (λ _. e.new ≡ without_double e.old) }
{
    let place = e.place;
    let Form::For(legs, _, _, _, row, body) = &mut e.form else {
        unreachable!();
    };
    let Some(places) = twice(legs.as_slice()) else {
        unreachable!();
    };
    let whole = drop_leg(alloc, place, legs, row.sym, places)?;
    forget_note(row);
    put_in(alloc, body, row.sym, &whole)
}

/// The second of both legs goes; answers the row with all legs, rebuilt from the others.
fn drop_leg(
    alloc: Global,
    place: Place,
    legs: &mut Legs,
    row: Sym,
    places: LegPlaces,
) -> Result<Expr, AllocError>
    requires order { places.first < places.second }
    requires within { places.second < length legs.old }
    requires few { length legs.old < 10 ^ 9 }
    ensures legs { IfOk result (λ _.
        pack_legs legs.new ≡ without_leg places.second (pack_legs legs.old)) }
    ensures row { IfOk result (λ e. e ≡ rebuilt place row.0
        (items (without_leg places.second (pack_legs legs.old))) (of_places places)) }
{
    remove_leg(alloc, legs, places.second);
    let types = items_of(alloc, legs.as_slice())?;
    rebuilt(alloc, place, row, &types, places)
}

/// The row's note goes, since the row is another.
fn forget_note(row: &mut Binder)
    ensures { row.new ≡ bare row.old }
{
    row.note = None;
}

/// The leg at the place goes.
fn remove_leg(alloc: Global, legs: &mut Legs, place: usize)
    requires { place < length legs.old }
    ensures value { pack_legs legs.new ≡ without_leg place (pack_legs legs.old) }
    ensures len { length legs.new + 1 ≡ length legs.old }
{
    let mut items = mem::replace(legs, Legs::new(alloc)).into_vec();
    let _ = items.remove(place);
    *legs = Legs::from_vec(items);
}
