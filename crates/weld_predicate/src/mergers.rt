//! What a noted type tells of a `merger`.

ghost use Rattle.std.specs.Prelude.{◌≡◌, Some, None, IfSome, MatchOption};
ghost use Rattle.weld_tree.specs.Types.{IsMergerType};
ghost use Rattle.weld_tree.specs.TypeView.{view_build};
ghost use Rattle.weld_predicate.specs.Guard.{merger_of, of_builder, of_item};

use weld_data::MergeOp;
use weld_tree::{BuildTy, Known, Ty, TyForm};

/// What the `merger` that is noted combines, and its operator, if one is noted. It takes no memory.
pub(crate) fn merger_of(known: &Known) -> Option<(&Ty, MergeOp)>
    ensures tells { MatchOption result (merger_of known.now ≡ None)
        (λ m. merger_of known.now ≡ Some (record { item = m.0.now; op = m.1 })) }
    ensures mergeable { IfSome result (λ m. IsMergerType m.0.now) }
{
    match known {
        Known::Blank => None,
        Known::Is(ty) => match &ty.form {
            TyForm::Build(build) => of_builder(build),
            TyForm::Scalar(_) | TyForm::Vec(_) | TyForm::Struct(_) | TyForm::Dict(_, _) => None,
        },
    }
}

fn of_builder(build: &BuildTy) -> Option<(&Ty, MergeOp)>
    ensures tells { MatchOption result (of_builder (view_build build.now) ≡ None)
        (λ m. of_builder (view_build build.now) ≡ Some (record { item = m.0.now; op = m.1 })) }
    ensures mergeable { IfSome result (λ m. IsMergerType m.0.now) }
{
    match build {
        BuildTy::Total(item, op) => of_item(item, *op),
        BuildTy::List(_) | BuildTy::Keyed(_, _, _) => None,
        BuildTy::Cells(_, _) | BuildTy::Groups(_, _) => None,
    }
}

#[tactic(auto, using(crate::proofs::Items::item_told, crate::proofs::Items::no_item))]
fn of_item(item: &Ty, op: MergeOp) -> Option<(&Ty, MergeOp)>
    ensures tells { MatchOption result (of_item item.now op ≡ None)
        (λ m. of_item item.now op ≡ Some (record { item = m.0.now; op = m.1 })) }
    ensures mergeable { IfSome result (λ m. IsMergerType m.0.now) }
{
    if item.is_mergeable() {
        Some((item, op))
    } else {
        None
    }
}
