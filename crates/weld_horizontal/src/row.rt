//! A row rebuilt from fewer legs.

ghost use Rattle.std.specs.Prelude.{◌≡◌, ◌<◌, ◌≤◌, ◌^◌, length, map, IfOk};
ghost use Rattle.weld_tree.specs.TypeTree.{pack, struct};
ghost use Rattle.weld_tree.specs.ExprTree.{leaf, make_struct, many, name, pack_exprs, pack_legs};
ghost use Rattle.weld_tree.specs.ExprView.{view_leg};
ghost use Rattle.weld_horizontal.specs.Twice.{item_at, item_of, item_of_type, items, items_from, leg_item, node_of, rebuilt, type_at, with_expr, with_type};
ghost use Rattle.weld_horizontal.specs.Doubles.{of_places};

use crate::places::LegPlaces;
use std::alloc::{AllocError, Global};
use weld_tree::{
    Expr, Exprs, Form, Known, LeafForm, Leg, ManyForm, OneForm, Place, Sym, Ty, TyForm, Tys,
};

/// The row with all legs from the row without the second: what stood at the second place is what
/// stands at the first.
pub(crate) fn rebuilt(
    alloc: Global,
    place: Place,
    row: Sym,
    types: &Tys,
    places: LegPlaces,
) -> Result<Expr, AllocError>
    requires order { places.first < places.second }
    requires within { places.second ≤ length types.now }
    requires few { length types.now < 10 ^ 9 }
    ensures { IfOk result (λ e. e ≡ rebuilt place row.0 (pack types.now) (of_places places)) }
{
    let again = type_at(alloc, types, places.first)?;
    let item = item_at(alloc, place, row, types, places.first as u32, again)?;
    let items = items_from(alloc, place, row, types)?;
    let items = with_item(items, places.second, item)?;
    let again = type_at(alloc, types, places.first)?;
    let fields = with_type(alloc, types, places.second, again)?;
    Ok(struct_at(place, fields, items))
}

/// The struct of the items, which have these types.
fn struct_at(place: Place, types: Tys, items: Exprs) -> Expr
    ensures { result ≡ many (node_of place (struct (pack types))) make_struct (pack_exprs items) }
{
    Expr {
        form: Form::Many(ManyForm::Struct, items),
        place,
        ty: Known::Is(Ty::struct_of(types)),
    }
}

/// The type of that number, from 0.
#[tactic(auto, using(crate::proofs::RowLemmas::type_there))]
fn type_at(alloc: Global, types: &Tys, number: usize) -> Result<Ty, AllocError>
    requires { number < length types.now }
    ensures { IfOk result (λ t. t ≡ type_at number (pack types.now)) }
{
    let types = types.as_slice();
    types[number].copy(alloc)
}

/// The types with one more at the place.
#[tactic(auto, using(crate::proofs::RowLemmas::insert_type))]
fn with_type(alloc: Global, types: &Tys, number: usize, ty: Ty) -> Result<Tys, AllocError>
    requires { number ≤ length types.now }
    ensures { IfOk result (λ ts. pack ts ≡ with_type number ty (pack types.now)) }
{
    let mut all = types.copy(alloc)?.into_vec();
    all.insert(number, ty)?;
    Ok(Tys::from_vec(all))
}

/// The expressions with one more at the place.
#[tactic(auto, using(crate::proofs::RowLemmas::insert_expr))]
fn with_item(items: Vec<Expr>, number: usize, item: Expr) -> Result<Exprs, AllocError>
    requires { number ≤ length items.items }
    ensures { IfOk result (λ es. pack_exprs es ≡ with_expr number item (pack_exprs items.items)) }
{
    let mut items = items;
    items.insert(number, item)?;
    Ok(Exprs::from_vec(items))
}

/// The items of a row over legs of such items.
#[tactic(auto, using(crate::proofs::RowLemmas::fields_more, crate::proofs::RowLemmas::fields_all, crate::proofs::RowLemmas::fields_length))]
fn items_from(alloc: Global, place: Place, row: Sym, types: &Tys) -> Result<Vec<Expr>, AllocError>
    requires { length types.now < 10 ^ 9 }
    ensures value { IfOk result (λ es. pack_exprs es.items
        ≡ items_from place row.0 (pack types.now) 0 (pack types.now)) }
    ensures len { IfOk result (λ es. length es.items ≡ length types.now) }
{
    let mut items = Vec::new(alloc);
    for (i, ty) in types.as_slice().iter().enumerate() {
        let ty = ty.copy(alloc)?;
        items.push(item_at(alloc, place, row, types, i as u32, ty)?)?;
    }
    Ok(items)
}

/// The item of that number and type in a row over legs of such items: the row itself where there is
/// one leg.
#[tactic(auto, using(crate::proofs::RowLemmas::item_few, crate::proofs::RowLemmas::item_many))]
pub fn item_at(
    alloc: Global,
    place: Place,
    row: Sym,
    types: &Tys,
    number: u32,
    ty: Ty,
) -> Result<Expr, AllocError>
    ensures { IfOk result (λ e. e ≡ item_at place row.0 (pack types.now) number ty) }
{
    if types.len() < 2 {
        return Ok(named(place, row, ty));
    }
    let all = Ty::struct_of(types.copy(alloc)?);
    let part = Box::new(alloc, named(place, row, all))?;
    Ok(Expr {
        form: Form::One(OneForm::Field(number), part),
        place,
        ty: Known::Is(ty),
    })
}

/// A name of a type.
fn named(place: Place, sym: Sym, ty: Ty) -> Expr
    ensures { result ≡ leaf (node_of place ty) (name sym.0) }
{
    Expr {
        form: Form::Leaf(LeafForm::Name(sym)),
        place,
        ty: Known::Is(ty),
    }
}

/// The types of the legs' items, as noted.
#[tactic(auto, using(crate::proofs::RowLemmas::items_all))]
pub fn items_of(alloc: Global, legs: &[Leg]) -> Result<Tys, AllocError>
    ensures value { IfOk result (λ ts. pack ts ≡ items (pack_legs (map view_leg legs.now))) }
    ensures len { IfOk result (λ ts. length ts ≡ length legs.now) }
{
    let mut types = Tys::new(alloc);
    for leg in legs {
        types.push(leg_item(alloc, leg)?)?;
    }
    Ok(types)
}

fn leg_item(alloc: Global, leg: &Leg) -> Result<Ty, AllocError>
    ensures { IfOk result (λ t. t ≡ leg_item (view_leg leg.now)) }
{
    match leg {
        Leg::Whole(e) => item_of(alloc, &e.ty),
        Leg::Strided(e, _, _, _) => item_of(alloc, &e.ty),
    }
}

/// The type of a vector's items, as noted.
fn item_of(alloc: Global, known: &Known) -> Result<Ty, AllocError>
    ensures { IfOk result (λ t. t ≡ item_of known.now) }
{
    match known {
        Known::Blank => Ok(Ty::struct_of(Tys::new(alloc))),
        Known::Is(ty) => item_of_type(alloc, ty),
    }
}

fn item_of_type(alloc: Global, ty: &Ty) -> Result<Ty, AllocError>
    ensures { IfOk result (λ t. t ≡ item_of_type ty.now) }
{
    match &ty.form {
        TyForm::Vec(item) => item.copy(alloc),
        TyForm::Scalar(_) | TyForm::Struct(_) | TyForm::Dict(_, _) | TyForm::Build(_) => {
            Ok(Ty::struct_of(Tys::new(alloc)))
        }
    }
}
