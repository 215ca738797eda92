//! What is asked of kinds, names and steps.

ghost use Rattle.std.specs.Prelude.{◌≡◌, ◌+◌, true, map};
ghost use Rattle.weld_data.specs.Kind.{IsInteger};
ghost use Rattle.weld_data.specs.Lookup.{same_kind};
ghost use Rattle.weld_sizes.specs.Sized.{is_that_name};
ghost use Rattle.weld_lane_form.specs.Bodies.{is_mask};
ghost use Rattle.weld_lane_form.specs.Lowering.{is_integer, place_among};
ghost use Rattle.weld_tree.specs.declared.sym.Sym.{Sym};

use weld_data::Kind;
use weld_lanes::LaneStep;
use weld_tree::{Expr, Form, LeafForm, Sym};

/// Whether two kinds are the same.
pub(crate) fn is_same(kind: Kind, other: Kind) -> bool
    ensures { result ≡ same_kind kind other }
{
    match (kind, other) {
        (Kind::Bool, Kind::Bool) => true,
        (Kind::I8, Kind::I8) | (Kind::I16, Kind::I16) => true,
        (Kind::I32, Kind::I32) | (Kind::I64, Kind::I64) => true,
        (Kind::U8, Kind::U8) | (Kind::U16, Kind::U16) => true,
        (Kind::U32, Kind::U32) | (Kind::U64, Kind::U64) => true,
        _ => false,
    }
}

/// Whether the kind is one of integers.
pub(crate) fn is_integer(kind: Kind) -> bool
    ensures is { result ≡ is_integer kind }
    ensures integer { result ≡ true → IsInteger kind }
{
    match kind {
        Kind::Bool => false,
        _ => true,
    }
}

/// Whether the expression is a use of the name.
pub(crate) fn is_name(e: &Expr, name: Sym) -> bool
    ensures { result ≡ is_that_name e.now name.0 }
{
    match &e.form {
        Form::Leaf(LeafForm::Name(used)) => name.0 == used.0,
        _ => false,
    }
}

/// Whether the step answers a truth value.
pub(crate) fn is_truth(step: LaneStep) -> bool
    ensures { result ≡ is_mask step }
{
    match step {
        LaneStep::Compare(_, _, _) | LaneStep::Truth(_) => true,
        LaneStep::Not(_) | LaneStep::And(_, _) | LaneStep::Or(_, _) => true,
        LaneStep::A | LaneStep::B | LaneStep::Lit(_) | LaneStep::Uniform(_) => false,
        LaneStep::Arith(_, _, _) | LaneStep::Select(_, _, _) => false,
    }
}

/// The place of the name among others, from 0.
#[tactic(auto, using(crate::proofs::Places::found_here, crate::proofs::Places::found_later, crate::proofs::Places::not_found))]
pub(crate) fn uniform_place(names: &[Sym], name: Sym) -> Option<usize>
    ensures { result ≡ place_among (map (λ (s : Sym). s.0) names.now) name.0 }
{
    for i in 0..names.len() {
        if name.0 == names[i].0 {
            return Some(i);
        }
    }
    None
}
