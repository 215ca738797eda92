//! The test whether an expression is safe.

ghost use Rattle.std.specs.Prelude.{◌≡◌, Decides};
ghost use Rattle.weld_tree.specs.ExprTree.{pack_exprs, pack_legs};
ghost use Rattle.weld_tree.specs.ExprView.{view_leg, view_three, view_two};
ghost use Rattle.weld_tree.specs.TypeView.{view_build};
ghost use Rattle.weld_safe.specs.Safe.{IsSafe};
ghost use Rattle.weld_safe.specs.Test.{all_safe, builder_safe, is_safe, leg_safe, merges_safely, note_safe, one_leg_safe, operator_safe, three_safe, two_safe};

use weld_data::BinOp;
use weld_tree::{BuildTy, Expr, Exprs, Form, Known, Leg, Legs, ThreeForm, TwoForm, Ty, TyForm};

/// Whether none of `/`, `%`, `lookup`, `slice`, `iter`, `zip`, `iterate` and a merge into a
/// `vecmerger` stands in the expression; the type noted at a merge tells into what it merges, and
/// without a note it counts as one into a `vecmerger`. Where its nodes have their types noted, such
/// an expression has a value. It takes no memory.
#[tactic(auto, using(crate::proofs::Decided::safe_at_test))]
pub fn never_faults(e: &Expr) -> bool
    ensures safe { Decides result (IsSafe e.now) }
    ensures test { result ≡ is_safe e.now }
{
    test_safe(e)
}

#[cycle(safe)]
fn test_safe(e: &Expr) -> bool
    ensures { result ≡ is_safe e.now }
{
    match &e.form {
        Form::Leaf(_) => true,
        Form::One(_, part) => test_safe(part),
        Form::Two(two, first, second) => {
            two_safe(&e.ty, *two) && (test_safe(first) && test_safe(second))
        }
        Form::Three(three, first, second, third) => {
            three_safe(*three) && (test_safe(first) && (test_safe(second) && test_safe(third)))
        }
        Form::Many(_, parts) => all_safe(parts),
        Form::Let(_, value, body) => test_safe(value) && test_safe(body),
        Form::For(legs, builder, _, _, _, body) => {
            one_leg_safe(legs) && (test_safe(builder) && test_safe(body))
        }
        Form::Iterate(_, _, _) => false,
    }
}

/// Whether the form of two parts doesn't fault, with what is noted at its node.
fn two_safe(known: &Known, two: TwoForm) -> bool
    ensures { result ≡ two_safe known.now (view_two two) }
{
    match two {
        TwoForm::Binary(op) => operator_safe(op),
        TwoForm::And | TwoForm::Or | TwoForm::KeyExists => true,
        TwoForm::LookUp => false,
        TwoForm::Merge => note_safe(known),
    }
}

fn operator_safe(op: BinOp) -> bool
    ensures { result ≡ operator_safe op }
{
    match op {
        BinOp::Div | BinOp::Rem => false,
        BinOp::Add | BinOp::Sub | BinOp::Mul => true,
        BinOp::Eq | BinOp::Ne | BinOp::Lt | BinOp::Le | BinOp::Gt | BinOp::Ge => true,
    }
}

fn note_safe(known: &Known) -> bool
    ensures { result ≡ note_safe known.now }
{
    match known {
        Known::Blank => false,
        Known::Is(ty) => merges_safely(ty),
    }
}

/// Whether merges into builders of the type don't fault.
fn merges_safely(ty: &Ty) -> bool
    ensures { result ≡ merges_safely ty.now }
{
    match &ty.form {
        TyForm::Build(build) => builder_safe(build),
        TyForm::Scalar(_) | TyForm::Vec(_) | TyForm::Struct(_) | TyForm::Dict(_, _) => false,
    }
}

fn builder_safe(build: &BuildTy) -> bool
    ensures { result ≡ builder_safe (view_build build.now) }
{
    match build {
        BuildTy::Cells(_, _) => false,
        BuildTy::List(_) | BuildTy::Total(_, _) => true,
        BuildTy::Keyed(_, _, _) | BuildTy::Groups(_, _) => true,
    }
}

fn three_safe(three: ThreeForm) -> bool
    ensures { result ≡ three_safe (view_three three) }
{
    match three {
        ThreeForm::If | ThreeForm::Select => true,
        ThreeForm::Slice => false,
    }
}

#[cycle(safe)]
fn all_safe(parts: &Exprs) -> bool
    ensures { result ≡ all_safe (pack_exprs parts.now) }
{
    for part in parts.as_slice() {
        if !test_safe(part) {
            return false;
        }
    }
    true
}

/// Whether it is a whole leg, of a safe expression.
#[cycle(safe)]
fn leg_safe(leg: &Leg) -> bool
    ensures { result ≡ leg_safe (view_leg leg.now) }
{
    match leg {
        Leg::Whole(e) => test_safe(e),
        Leg::Strided(_, _, _, _) => false,
    }
}

/// Whether there is one leg, and it is such.
#[cycle(safe)]
fn one_leg_safe(legs: &Legs) -> bool
    ensures { result ≡ one_leg_safe (pack_legs legs.now) }
{
    match legs.as_slice() {
        [leg] => leg_safe(leg),
        _ => false,
    }
}
