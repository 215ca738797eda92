//! The tests of types, each in one word.
ghost use Rattle.std.specs.Prelude.{◌≡◌};
ghost use Rattle.weld_types.specs.Tests.{same_type, is_scalar, is_integer, is_builder_free, is_builder, is_well_formed, is_well_formed_build, is_within_limits};
ghost use Rattle.weld_tree.specs.TypeView.{view_build};
ghost use Rattle.weld_tree.specs.TypeTree.{scalar};
ghost use Rattle.weld_meaning.specs.Typing.{truth_type, place_type};

use weld_data::Kind;
use weld_tree::{BuildTy, Ty, TyForm};

/// Whether the two are one type.
pub(crate) fn same(ty: &Ty, other: &Ty) -> bool
    ensures { result ≡ same_type ty.now other.now }
{
    ty.same(other)
}

#[tactic(auto, using(crate::proofs::CodeTests::scalar_bool))]
pub(crate) fn is_scalar(ty: &Ty) -> bool
    ensures { result ≡ is_scalar ty.now }
{
    ty.is_scalar()
}

#[tactic(auto, using(crate::proofs::CodeTests::integer_bool))]
pub(crate) fn is_integer(ty: &Ty) -> bool
    ensures { result ≡ is_integer ty.now }
{
    ty.is_integer()
}

pub(crate) fn is_builder_free(ty: &Ty) -> bool
    ensures { result ≡ is_builder_free ty.now }
{
    ty.is_builder_free()
}

pub(crate) fn is_builder(ty: &Ty) -> bool
    ensures { result ≡ is_builder ty.now }
{
    ty.is_builder()
}

pub(crate) fn is_well_formed(ty: &Ty) -> bool
    ensures { result ≡ is_well_formed ty.now }
{
    ty.is_well_formed()
}

pub(crate) fn is_well_formed_build(build: &BuildTy) -> bool
    ensures { result ≡ is_well_formed_build (view_build build.now) }
{
    build.is_well_formed()
}

#[tactic(auto, using(crate::proofs::CodeTests::limits_bool))]
pub(crate) fn is_within_limits(ty: &Ty) -> bool
    ensures { result ≡ is_within_limits ty.now }
{
    // (most types are scalars, whose depth and nodes needn't be counted)
    if let TyForm::Scalar(_) = &ty.form {
        return true;
    }
    ty.is_within_limits()
}

/// Whether the type is that of truth values.
pub(crate) fn is_truth(ty: &Ty) -> bool
    ensures { result ≡ same_type ty.now truth_type }
{
    is_kind(ty, Kind::Bool)
}

/// Whether the type is that of numbers of places.
pub(crate) fn is_place(ty: &Ty) -> bool
    ensures { result ≡ same_type ty.now place_type }
{
    is_kind(ty, Kind::I64)
}

/// Whether the type is the scalar of the kind.
fn is_kind(ty: &Ty, kind: Kind) -> bool
    ensures { result ≡ same_type ty.now (scalar kind) }
{
    let other = Ty::scalar(kind);
    same(ty, &other)
}
