//! The names of a body whose values stand in slots.

ghost use Rattle.std.specs.Prelude.{◌≡◌, [], ◌∷◌, IfSome};
ghost use Rattle.weld_meaning.specs.Environment.{look_for};
ghost use Rattle.weld_turns.specs.declared.code.Site.TheVariants as sites;
ghost use Rattle.weld_turns.specs.Scopes.{view_scope, IsNamedAt, IsNameOf, IsOutsideName, IsStateAt};

use crate::code::{MOST_FIELDS, Place, Shape, Site, Spread};
use weld_tree::{Expr, Form, LeafForm, ManyForm, Sym};

/// The names whose values stand in slots, the newest first.
#[derive(Clone, Copy)]
pub enum Scope<'a> {
    End,
    And(Sym, Site, &'a Scope<'a>),
}

/// Where the value of the name stands, if it stands in slots.
pub fn site_of(scope: &Scope, name: Sym) -> Option<Site>
    ensures { result ≡ look_for name.0 (view_scope scope.now) }
{
    match scope {
        Scope::End => None,
        Scope::And(first, site, rest) => {
            if name.0 == first.0 {
                Some(*site)
            } else {
                site_of(rest, name)
            }
        }
    }
}

/// No names.
pub fn no_names<'a>() -> Scope<'a>
    ensures { view_scope result ≡ [] }
{
    Scope::End
}

/// The names with one more.
pub fn with_name<'a>(name: Sym, place: Place, rest: &'a Scope<'a>) -> Scope<'a>
    ensures { view_scope result ≡ (name.0, sites.Whole place) ∷ view_scope rest.now }
{
    Scope::And(name, Site::Whole(place), rest)
}

/// The names with one more, of which fields stand in slots.
pub fn with_spread<'a>(name: Sym, spread: Spread, rest: &'a Scope<'a>) -> Scope<'a>
    ensures { view_scope result ≡ (name.0, sites.Spread spread) ∷ view_scope rest.now }
{
    Scope::And(name, Site::Spread(spread), rest)
}

/// The name that an expression is.
pub fn name_of(e: &Expr) -> Option<Sym>
    ensures { IfSome result (λ s. IsNameOf e.now s.0) }
{
    match &e.form {
        Form::Leaf(LeafForm::Name(name)) => Some(*name),
        _ => None,
    }
}

/// Where what the expression names stands, if it is a name of what stands whole in slots.
pub fn named_place(e: &Expr, scope: &Scope) -> Option<Place>
    ensures { IfSome result (λ place. IsNamedAt e.now (view_scope scope.now) place) }
{
    match name_of(e) {
        Some(name) => match site_of(scope, name) {
            Some(Site::Whole(place)) => Some(place),
            _ => None,
        },
        None => None,
    }
}

/// The first slot of the place of a name that is of the shape, where the expression is one.
pub fn state_place(e: &Expr, shape: Shape, scope: &Scope) -> Option<usize>
    ensures { IfSome result (λ first. IsStateAt e.now shape (view_scope scope.now) first) }
{
    match name_of(e) {
        Some(name) => match site_of(scope, name) {
            Some(Site::Whole(place)) if place.shape == shape => Some(place.first),
            _ => None,
        },
        None => None,
    }
}

/// The name that an expression is, where it isn't one of what stands in slots.
pub fn outer_name(e: &Expr, scope: &Scope) -> Option<Sym>
    ensures { IfSome result (λ name. IsOutsideName e.now (view_scope scope.now) name.0) }
{
    match name_of(e) {
        Some(name) => match site_of(scope, name) {
            Some(_) => None,
            None => Some(name),
        },
        None => None,
    }
}

/// The shape of a struct of so many fields. Nothing rests on it: where there are too many, no code is made.
fn shape_for(count: usize) -> Shape {
    if count <= MOST_FIELDS {
        Shape::Fields(count as u8)
    } else {
        Shape::One
    }
}

/// The shape that the value of an expression has by its look. Nothing rests on it: where it has another, no code is made.
pub fn shape_of(e: &Expr, scope: &Scope) -> Shape {
    match &e.form {
        Form::Many(ManyForm::Struct, parts) => shape_for(parts.as_slice().len()),
        Form::Let(_, _, body) => shape_of(body, scope),
        Form::Three(_, _, x, _) => shape_of(x, scope),
        _ => match named_place(e, scope) {
            Some(place) => place.shape,
            None => Shape::One,
        },
    }
}
