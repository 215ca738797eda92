//! The lane form of a loop.

ghost use Rattle.std.specs.Prelude.{◌≡◌, ◌&&◌, ◌||◌};
ghost use Rattle.weld_data.specs.Lookup.{same_kind};
ghost use Rattle.weld_tree.specs.ExprTree.{pack_legs};
ghost use Rattle.weld_tree.specs.ExprView.{view_leg, view_leaf, view_one, view_two};
ghost use Rattle.weld_tree.specs.TypeView.{view_build};
ghost use Rattle.weld_sizes.specs.Lanes.{are_two, element_kind, has_lane_form, is_among, is_int, is_lane, is_lane_body, is_lane_build, is_lane_builder, is_lane_kind, is_lane_leaf, is_lane_name, is_lane_one, is_lane_op, is_lane_two, is_not, is_noted_number, is_number_type, leg_kind, legs_kind, noted_kind, noted_of, vector_kind};
ghost use Rattle.weld_sizes.specs.LaneViews.{lane_loop, view_lets};

use crate::form::is_that_name;
use weld_data::{BinOp, Kind};
use weld_tree::{
    BuildTy, Expr, Form, Known, LeafForm, Leg, Legs, OneForm, Sym, ThreeForm, TwoForm, Ty, TyForm,
};

/// Of a loop: the kind of its numbers, whether its rows are structs of two, and the names of a row's
/// number and of the row.
#[derive(Clone, Copy)]
pub(crate) struct Lanes {
    kind: Kind,
    is_pair: bool,
    number: Sym,
    row: Sym,
}

/// The names of a body's lets, the newest first.
#[derive(Clone, Copy)]
pub(crate) enum Lets<'a> {
    End,
    And(Sym, &'a Lets<'a>),
}

/// Whether the expression is a loop of the lane form. It takes no memory.
pub fn has_lane_form(e: &Expr) -> bool
    ensures { result ≡ has_lane_form e.now }
{
    match &e.form {
        Form::For(legs, builder, binder, number, row, body) => {
            let kind = legs_kind(legs);
            let lanes = Lanes {
                kind,
                is_pair: are_two(legs),
                number: number.sym,
                row: row.sym,
            };
            is_lane_kind(kind)
                && is_lane_builder(kind, builder)
                && is_lane_body(lanes, binder.sym, &Lets::End, body)
        }
        _ => false,
    }
}

/// Whether numbers of the kind go side by side.
fn is_lane_kind(kind: Kind) -> bool
    ensures { result ≡ is_lane_kind kind }
{
    match kind {
        Kind::Bool | Kind::I8 | Kind::I16 | Kind::U16 => false,
        Kind::I32 | Kind::I64 | Kind::U8 | Kind::U32 | Kind::U64 => true,
    }
}

/// Whether two kinds are the same.
fn is_same(kind: Kind, other: Kind) -> bool
    ensures { result ≡ same_kind kind other }
{
    match (kind, other) {
        (Kind::Bool, Kind::Bool) => true,
        (Kind::I8, Kind::I8) | (Kind::I16, Kind::I16) => true,
        (Kind::I32, Kind::I32) | (Kind::I64, Kind::I64) => true,
        (Kind::U8, Kind::U8) | (Kind::U16, Kind::U16) => true,
        (Kind::U32, Kind::U32) | (Kind::U64, Kind::U64) => true,
        _ => false,
    }
}

/// Whether the type is that of numbers of the kind.
fn is_number_type(kind: Kind, ty: &Ty) -> bool
    ensures { result ≡ is_number_type kind ty.now }
{
    match &ty.form {
        TyForm::Scalar(other) => is_same(kind, *other),
        TyForm::Vec(_) | TyForm::Struct(_) | TyForm::Dict(_, _) | TyForm::Build(_) => false,
    }
}

/// Whether it is noted so.
fn is_noted_number(kind: Kind, known: &Known) -> bool
    ensures { result ≡ is_noted_number kind known.now }
{
    match known {
        Known::Blank => false,
        Known::Is(ty) => is_number_type(kind, ty),
    }
}

/// The kind of the numbers of one leg, or of two that are of one kind, whole vectors of numbers; else that of truth values. It
/// takes no memory.
pub fn legs_kind(legs: &Legs) -> Kind
    ensures { result ≡ legs_kind (pack_legs legs.now) }
{
    match legs.as_slice() {
        [leg] => leg_kind(leg),
        [first, second] => {
            let kind = leg_kind(first);
            if is_same(kind, leg_kind(second)) {
                kind
            } else {
                Kind::Bool
            }
        }
        _ => Kind::Bool,
    }
}

/// Whether there are two legs or more. It takes no memory.
pub fn are_two(legs: &Legs) -> bool
    ensures { result ≡ are_two (pack_legs legs.now) }
{
    match legs.as_slice() {
        [] | [_] => false,
        _ => true,
    }
}

fn leg_kind(leg: &Leg) -> Kind
    ensures { result ≡ leg_kind (view_leg leg.now) }
{
    match leg {
        Leg::Whole(e) => noted_kind(e),
        Leg::Strided(_, _, _, _) => Kind::Bool,
    }
}

/// The kind of the elements of the vector of numbers that is noted.
fn noted_kind(e: &Expr) -> Kind
    ensures { result ≡ noted_kind (noted_of e.now) }
{
    match &e.ty {
        Known::Blank => Kind::Bool,
        Known::Is(ty) => vector_kind(ty),
    }
}

fn vector_kind(ty: &Ty) -> Kind
    ensures { result ≡ vector_kind ty.now }
{
    match &ty.form {
        TyForm::Vec(items) => element_kind(items),
        TyForm::Scalar(_) | TyForm::Struct(_) | TyForm::Dict(_, _) | TyForm::Build(_) => Kind::Bool,
    }
}

fn element_kind(ty: &Ty) -> Kind
    ensures { result ≡ element_kind ty.now }
{
    match &ty.form {
        TyForm::Scalar(kind) => *kind,
        TyForm::Vec(_) | TyForm::Struct(_) | TyForm::Dict(_, _) | TyForm::Build(_) => Kind::Bool,
    }
}

/// Whether it is a new builder of one number or of one list of numbers of the kind.
fn is_lane_builder(kind: Kind, e: &Expr) -> bool
    ensures { result ≡ is_lane_builder kind e.now }
{
    match &e.form {
        Form::Leaf(LeafForm::Builder(build)) => is_lane_build(kind, build),
        _ => false,
    }
}

fn is_lane_build(kind: Kind, build: &BuildTy) -> bool
    ensures { result ≡ is_lane_build kind (view_build build.now) }
{
    match build {
        BuildTy::List(ty) | BuildTy::Total(ty, _) => is_number_type(kind, ty),
        BuildTy::Keyed(_, _, _) | BuildTy::Cells(_, _) | BuildTy::Groups(_, _) => false,
    }
}

/// Whether the name is one of these.
fn is_among(lets: &Lets, name: Sym) -> bool
    ensures { result ≡ is_among (view_lets lets.now) name.0 }
{
    match lets {
        Lets::End => false,
        Lets::And(first, rest) => name.0 == first.0 || is_among(rest, name),
    }
}

/// Whether the name may be used: a number of the kind but the row's number; a truth value of a `let`.
fn is_lane_name(lanes: Lanes, lets: &Lets, known: &Known, name: Sym) -> bool
    ensures { result ≡ is_lane_name (lane_loop lanes) (view_lets lets.now) known.now name.0 }
{
    (is_noted_number(lanes.kind, known) && name.0 != lanes.number.0)
        || (is_noted_number(Kind::Bool, known) && is_among(lets, name))
}

fn is_lane_leaf(lanes: Lanes, lets: &Lets, known: &Known, leaf: &LeafForm) -> bool
    ensures { result ≡ is_lane_leaf (lane_loop lanes) (view_lets lets.now) known.now
        (view_leaf leaf.now) }
{
    match leaf {
        LeafForm::Int(kind, _) => is_same(lanes.kind, *kind),
        LeafForm::Truth(_) => true,
        LeafForm::Name(name) => is_lane_name(lanes, lets, known, *name),
        LeafForm::Chars(_) | LeafForm::Builder(_) => false,
    }
}

/// Whether it is a number literal.
fn is_int(e: &Expr) -> bool
    ensures { result ≡ is_int e.now }
{
    match &e.form {
        Form::Leaf(LeafForm::Int(_, _)) => true,
        _ => false,
    }
}

/// Whether it is a literal that is cast to the kind, or one of the two fields of the row.
fn is_lane_one(lanes: Lanes, form: &OneForm, e: &Expr) -> bool
    ensures { result ≡ is_lane_one (lane_loop lanes) (view_one form.now) e.now }
{
    match form {
        OneForm::Cast(kind) => is_same(lanes.kind, *kind) && is_int(e),
        OneForm::Field(_) => lanes.is_pair && is_that_name(e, lanes.row),
        OneForm::Neg | OneForm::Not | OneForm::Len | OneForm::Finish | OneForm::Builder(_) => false,
    }
}

fn is_not(form: &OneForm) -> bool
    ensures { result ≡ is_not (view_one form.now) }
{
    match form {
        OneForm::Not => true,
        _ => false,
    }
}

fn is_lane_op(op: BinOp) -> bool
    ensures { result ≡ is_lane_op op }
{
    match op {
        BinOp::Div | BinOp::Rem => false,
        _ => true,
    }
}

/// Whether it is an operator on numbers of the kind but `/` and `%`, or one on truth values.
fn is_lane_two(kind: Kind, form: TwoForm, first: &Expr) -> bool
    ensures { result ≡ is_lane_two kind (view_two form) (noted_of first.now) }
{
    match form {
        TwoForm::Binary(op) => is_lane_op(op) && is_noted_number(kind, &first.ty),
        TwoForm::And | TwoForm::Or => true,
        TwoForm::LookUp | TwoForm::KeyExists | TwoForm::Merge => false,
    }
}

/// Whether the value is worked out for all rows side by side.
fn is_lane(lanes: Lanes, lets: &Lets, e: &Expr) -> bool
    ensures { result ≡ is_lane (lane_loop lanes) (view_lets lets.now) e.now }
{
    match &e.form {
        Form::Leaf(leaf) => is_lane_leaf(lanes, lets, &e.ty, leaf),
        Form::One(form, part) => {
            is_lane_one(lanes, form, part) || (is_not(form) && is_lane(lanes, lets, part))
        }
        Form::Two(form, first, second) => {
            is_lane_two(lanes.kind, *form, first)
                && is_lane(lanes, lets, first)
                && is_lane(lanes, lets, second)
        }
        Form::Three(ThreeForm::Select, test, then, otherwise) => {
            is_lane(lanes, lets, test)
                && is_lane(lanes, lets, then)
                && is_lane(lanes, lets, otherwise)
        }
        _ => false,
    }
}

/// Whether it is lets of such values, perhaps none, that end in a merge of one into the name.
fn is_lane_body(lanes: Lanes, name: Sym, lets: &Lets, e: &Expr) -> bool
    ensures { result ≡ is_lane_body (lane_loop lanes) name.0 (view_lets lets.now) e.now }
{
    match &e.form {
        Form::Two(TwoForm::Merge, builder, item) => {
            is_that_name(builder, name) && is_lane(lanes, lets, item)
        }
        Form::Let(binder, value, body) => {
            is_lane(lanes, lets, value)
                && is_lane_body(lanes, name, &Lets::And(binder.sym, &*lets), body)
        }
        _ => false,
    }
}
