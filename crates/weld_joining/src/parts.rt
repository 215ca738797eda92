//! The parts of which the one loop is made.

ghost use Rattle.std.specs.Prelude.{◌≡◌, IfOk};
ghost use Rattle.weld_tree.specs.ExprTree.{finish, leaf, name, one, pack_legs};
ghost use Rattle.weld_tree.specs.TypeTree.{no_types, struct};
ghost use Rattle.weld_tree.specs.Types.{pair_of};
ghost use Rattle.weld_tree.specs.ExprView.{view_leg};
ghost use Rattle.weld_types.specs.Tests.{is_within_limits};
ghost use Rattle.weld_substitution.specs.Redex.{noted};
ghost use Rattle.weld_joining.specs.Beside.{bare, builder_field, finish_at, node_of};
ghost use Rattle.weld_joining.specs.Between.{is_named_result};
ghost use Rattle.weld_joining.specs.Joining.{both_types, item_of, known_type, loop_type, start_type, types_after};
ghost use Rattle.weld_joining.specs.Parts.{at_of, leg_item, legs_item, pair_at, result_at, result_let};

use crate::halves::Node;
use crate::pairs::is_named_result;
use std::alloc::{AllocError, Global};
use weld_tree::{
    Binder, Expr, Exprs, Form, Known, LeafForm, Leg, Legs, ManyForm, OneForm, Place, Sym, Ty,
    TyForm, Tys,
};

// ---- types

/// Whether the type is within the limits on types.
#[tactic(auto, using(crate::proofs::Limits::limits_are))]
pub(crate) fn is_within_limits(ty: &Ty) -> bool
    ensures { result ≡ is_within_limits ty.now }
{
    ty.is_within_limits()
}

/// The struct of what both start from, of two lets of loops or of their results, with lets of
/// results of names between them or none.
pub(crate) fn both_types(alloc: Global, e: &Expr) -> Result<Ty, AllocError>
    ensures { IfOk result (λ t. t ≡ both_types e.now) }
{
    match &e.form {
        Form::Let(_, value, body) => types_after(alloc, value, body),
        _ => Ok(nothing(alloc)),
    }
}

fn types_after(alloc: Global, value: &Expr, body: &Expr) -> Result<Ty, AllocError>
    ensures { IfOk result (λ t. t ≡ types_after value.now body.now) }
{
    match &body.form {
        Form::Let(_, other, rest) => {
            if is_named_result(other) {
                types_after(alloc, value, rest)
            } else {
                pair_of_starts(alloc, value, other)
            }
        }
        _ => Ok(nothing(alloc)),
    }
}

fn pair_of_starts(alloc: Global, value: &Expr, other: &Expr) -> Result<Ty, AllocError>
    ensures { IfOk result (λ t. t ≡ pair_of (start_type value.now) (start_type other.now)) }
{
    let first = start_type(alloc, value)?;
    let second = start_type(alloc, other)?;
    Ty::pair_of(alloc, first, second)
}

fn start_type(alloc: Global, e: &Expr) -> Result<Ty, AllocError>
    ensures { IfOk result (λ t. t ≡ start_type e.now) }
{
    match &e.form {
        Form::One(_, part) => loop_type(alloc, part),
        _ => loop_type(alloc, e),
    }
}

fn loop_type(alloc: Global, e: &Expr) -> Result<Ty, AllocError>
    ensures { IfOk result (λ t. t ≡ loop_type e.now) }
{
    match &e.form {
        Form::For(_, start, _, _, _, _) => noted_type(alloc, start),
        _ => Ok(nothing(alloc)),
    }
}

/// The type of the expression, as noted.
pub(crate) fn noted_type(alloc: Global, e: &Expr) -> Result<Ty, AllocError>
    ensures { IfOk result (λ t. t ≡ known_type (noted e.now)) }
{
    match &e.ty {
        Known::Is(ty) => ty.copy(alloc),
        Known::Blank => Ok(nothing(alloc)),
    }
}

/// The struct without fields.
fn nothing(alloc: Global) -> Ty
    ensures { result ≡ struct no_types }
{
    Ty::struct_of(Tys::new(alloc))
}

/// The type of the rows of a loop over these legs, of which there is one, as noted.
pub(crate) fn legs_item(alloc: Global, legs: &Legs) -> Result<Ty, AllocError>
    ensures { IfOk result (λ t. t ≡ legs_item (pack_legs legs.now)) }
{
    match legs.as_slice() {
        [leg, ..] => leg_item(alloc, leg),
        [] => Ok(nothing(alloc)),
    }
}

fn leg_item(alloc: Global, leg: &Leg) -> Result<Ty, AllocError>
    ensures { IfOk result (λ t. t ≡ leg_item (view_leg leg.now)) }
{
    match leg {
        Leg::Whole(e) => match &e.form {
            Form::Leaf(_) => item_of(alloc, &e.ty),
            _ => Ok(nothing(alloc)),
        },
        Leg::Strided(_, _, _, _) => Ok(nothing(alloc)),
    }
}

fn item_of(alloc: Global, known: &Known) -> Result<Ty, AllocError>
    ensures { IfOk result (λ t. t ≡ item_of known.now) }
{
    match known {
        Known::Is(ty) => match &ty.form {
            TyForm::Vec(item) => item.copy(alloc),
            _ => Ok(nothing(alloc)),
        },
        Known::Blank => Ok(nothing(alloc)),
    }
}

// ---- expressions

/// The binder without a note.
pub(crate) fn bare(binder: &Binder) -> Binder
    ensures { result ≡ bare binder.now }
{
    Binder {
        sym: binder.sym,
        place: binder.place,
        note: None,
        note_place: binder.note_place,
    }
}

/// A name of a type.
pub(crate) fn named(place: Place, sym: Sym, ty: Ty) -> Expr
    ensures { result ≡ leaf (node_of place ty) (name sym.0) }
{
    Expr {
        form: Form::Leaf(LeafForm::Name(sym)),
        place,
        ty: Known::Is(ty),
    }
}

/// The field of that number and type of a name of both builders.
pub(crate) fn builder_field(
    alloc: Global,
    place: Place,
    all: &Ty,
    number: u32,
    ty: &Ty,
    sym: Sym,
) -> Result<Box<Expr>, AllocError>
    ensures { IfOk result (λ b. b.value ≡ builder_field place all.now number ty.now sym.0) }
{
    let part = Box::new(alloc, named(place, sym, all.copy(alloc)?))?;
    let field = Expr {
        form: Form::One(OneForm::Field(number), part),
        place,
        ty: Known::Is(ty.copy(alloc)?),
    };
    Ok(Box::new(alloc, field)?)
}

/// A struct of both.
pub(crate) fn pair_at(
    alloc: Global,
    place: Place,
    all: &Ty,
    first: Expr,
    second: Expr,
) -> Result<Box<Expr>, AllocError>
    ensures { IfOk result (λ b. b.value ≡ pair_at place all.now first second) }
{
    let mut parts = Exprs::new(alloc);
    parts.push(first)?;
    parts.push(second)?;
    let pair = Expr {
        form: Form::Many(ManyForm::Struct, parts),
        place,
        ty: Known::Is(all.copy(alloc)?),
    };
    Ok(Box::new(alloc, pair)?)
}

/// A `let` of the expression or of its result.
pub(crate) fn result_let(
    alloc: Global,
    at: Node,
    binder: Binder,
    finish: Option<Node>,
    e: Box<Expr>,
    body: Box<Expr>,
) -> Result<Box<Expr>, AllocError>
    ensures { IfOk result (λ b. b.value ≡ result_let (at_of at) binder (result_at finish) e.value
        body.value) }
{
    let value = finish_at(alloc, finish, e)?;
    let rest = Expr {
        form: Form::Let(binder, value, body),
        place: at.place,
        ty: at.ty,
    };
    Ok(Box::new(alloc, rest)?)
}

/// The expression or its result.
fn finish_at(alloc: Global, finish: Option<Node>, e: Box<Expr>) -> Result<Box<Expr>, AllocError>
    ensures { IfOk result (λ b. b.value ≡ finish_at (result_at finish) e.value) }
{
    match finish {
        Some(node) => result_of(alloc, node, e),
        None => Ok(e),
    }
}

fn result_of(alloc: Global, node: Node, e: Box<Expr>) -> Result<Box<Expr>, AllocError>
    ensures { IfOk result (λ b. b.value ≡ one (at_of node) finish e.value) }
{
    let value = Expr {
        form: Form::One(OneForm::Finish, e),
        place: node.place,
        ty: node.ty,
    };
    Ok(Box::new(alloc, value)?)
}
