//! The neutral value of an operator, as an expression.

ghost use Rattle.std.specs.Prelude.{◌≡◌, All, IfOk};
ghost use Rattle.weld_data.specs.Kind.{IsInteger};
ghost use Rattle.weld_tree.specs.TypeTree.{scalar, pack};
ghost use Rattle.weld_tree.specs.Types.{IsIntegerType, IsMergerType};
ghost use Rattle.weld_tree.specs.ExprTree.{leaf, int, pack_exprs};
ghost use Rattle.weld_tree.specs.declared.known.Known.TheVariants.{Is};
ghost use Rattle.weld_predicate.specs.Neutral.{neutral, neutrals, neutral_number, node_of};
ghost use Rattle.weld_predicate.specs.Neutral.{literal_for as literal_of};

use std::alloc::{AllocError, Global};
use weld_data::{Kind, MergeOp, neutral};
use weld_tree::{Expr, Exprs, Form, Known, LeafForm, ManyForm, OneForm, Place, Ty, TyForm};

/// The value that changes nothing under the operator: a number, or a struct of such numbers, each
/// node with its type noted and the place. It fails for want of memory alone. By the rule of the
/// optimiser: a literal where the kind has literals, else a cast of one.
#[tactic(auto, using(weld_tree::proofs::Fields::all_integer_types))]
pub fn neutral_of(
    alloc: Global,
    place: Place,
    op: MergeOp,
    ty: &Ty,
) -> Result<Box<Expr>, AllocError>
    requires { IsMergerType ty.now }
    ensures { IfOk result (λ b. b.value ≡ neutral place op ty.now) }
{
    let value = match &ty.form {
        TyForm::Scalar(kind) => number_of(alloc, place, op, *kind)?,
        TyForm::Struct(fields) => {
            let form = Form::Many(
                ManyForm::Struct,
                numbers_of(alloc, place, op, fields.as_slice())?,
            );
            let ty = Known::Is(ty.copy(alloc)?);
            Expr { form, place, ty }
        }
        TyForm::Vec(_) | TyForm::Dict(_, _) | TyForm::Build(_) => unreachable!(),
    };
    Ok(Box::new(alloc, value)?)
}

/// The numbers of these types that change nothing, in order.
#[tactic(auto, using(crate::proofs::Fields::all_neutral))]
fn numbers_of(alloc: Global, place: Place, op: MergeOp, types: &[Ty]) -> Result<Exprs, AllocError>
    requires { All IsIntegerType types.now }
    ensures { IfOk result (λ es. pack_exprs es ≡ neutrals place op (pack types.now)) }
{
    let mut numbers = Exprs::new(alloc);
    for ty in types {
        numbers.push(field_of(alloc, place, op, ty)?)?;
    }
    Ok(numbers)
}

/// A field's number that changes nothing.
fn field_of(alloc: Global, place: Place, op: MergeOp, ty: &Ty) -> Result<Expr, AllocError>
    requires { IsIntegerType ty.now }
    ensures { IfOk result (λ e. e ≡ neutral place op ty.now) }
{
    match &ty.form {
        TyForm::Scalar(kind) => number_of(alloc, place, op, *kind),
        _ => unreachable!(),
    }
}

/// The number that changes nothing under the operator: a literal where the kind has literals, else
/// a cast of one.
fn number_of(alloc: Global, place: Place, op: MergeOp, kind: Kind) -> Result<Expr, AllocError>
    requires { IsInteger kind }
    ensures { IfOk result (λ e. e ≡ neutral_number place op kind) }
{
    match kind {
        Kind::I64 => Ok(literal(place, Kind::I64, neutral(op, kind))),
        Kind::I32 => Ok(literal(place, Kind::I32, neutral(op, kind))),
        _ => {
            let number = Box::new(alloc, literal(place, Kind::I32, literal_for(op, kind)))?;
            let form = Form::One(OneForm::Cast(kind), number);
            let ty = number_type(kind);
            Ok(Expr { form, place, ty })
        }
    }
}

/// The number of kind i32 of which a cast is the neutral one: itself, or -1 where it is too great.
fn literal_for(op: MergeOp, kind: Kind) -> i128
    requires { IsInteger kind }
    ensures { result ≡ literal_of op kind }
{
    match (kind, op) {
        (Kind::U32 | Kind::U64, MergeOp::Min) => -1,
        _ => neutral(op, kind),
    }
}

/// A number literal of a kind. It takes no memory.
fn literal(place: Place, kind: Kind, number: i128) -> Expr
    ensures { result ≡ leaf (node_of place (scalar kind)) (int kind number) }
{
    let form = Form::Leaf(LeafForm::Int(kind, number));
    let ty = number_type(kind);
    Expr { form, place, ty }
}

/// The type of numbers of a kind, as noted.
fn number_type(kind: Kind) -> Known
    ensures { result ≡ Is (scalar kind) }
{
    Known::Is(Ty::scalar(kind))
}
