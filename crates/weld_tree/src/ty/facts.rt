ghost use Rattle.std.specs.Prelude.{◌↔◌, IsTrue, All};
ghost use Rattle.weld_tree.specs.TypeView.{view_build};
ghost use Rattle.weld_tree.specs.Types.{IsBuilderFree, IsBuilder, IsScalarType, IsIntegerType, IsMergerType, IsKeyField, IsKey, IsWellFormed, IsWellFormedBuild};

use crate::ty::{BuildTy, Ty, TyForm, Tys};
use weld_data::Kind;

impl Ty {
    /// Whether no builder stands in the type.
    #[cycle(builder_free)]
    #[tactic(auto, using(crate::proofs::Fields::are_builder_free_of_all, crate::proofs::Fields::all_builder_free))]
    pub fn is_builder_free(&self) -> bool
        ensures { IsTrue result ↔ IsBuilderFree self.now }
    {
        match &self.form {
            TyForm::Scalar(_) => true,
            TyForm::Vec(item) => item.is_builder_free(),
            TyForm::Struct(fields) => fields.are_builder_free(),
            TyForm::Dict(key, value) => key.is_builder_free() && value.is_builder_free(),
            TyForm::Build(_) => false,
        }
    }

    /// Whether the type is one of the five builders, or a struct whose fields are all builder types.
    #[cycle(builder)]
    #[tactic(auto, using(crate::proofs::Fields::are_builders_of_all, crate::proofs::Fields::all_builders))]
    pub fn is_builder(&self) -> bool
        ensures { IsTrue result ↔ IsBuilder self.now }
    {
        match &self.form {
            TyForm::Struct(fields) => fields.are_builders(),
            TyForm::Build(_) => true,
            TyForm::Scalar(_) | TyForm::Vec(_) | TyForm::Dict(_, _) => false,
        }
    }

    /// Whether the type is a scalar.
    pub fn is_scalar(&self) -> bool
        ensures { IsTrue result ↔ IsScalarType self.now }
    {
        match &self.form {
            TyForm::Scalar(_) => true,
            TyForm::Vec(_) | TyForm::Struct(_) | TyForm::Dict(_, _) | TyForm::Build(_) => false,
        }
    }

    /// Whether the type is an integer kind.
    pub fn is_integer(&self) -> bool
        ensures { IsTrue result ↔ IsIntegerType self.now }
    {
        match &self.form {
            TyForm::Scalar(Kind::Bool) => false,
            TyForm::Scalar(_) => true,
            TyForm::Vec(_) | TyForm::Struct(_) | TyForm::Dict(_, _) | TyForm::Build(_) => false,
        }
    }

    /// Whether a merger may combine values of the type: an integer kind, or a struct of integer kinds.
    #[tactic(auto, using(crate::proofs::Fields::are_integer_types_of_all, crate::proofs::Fields::all_integer_types, crate::proofs::Fields::has_types, crate::proofs::Fields::some_types))]
    pub fn is_mergeable(&self) -> bool
        ensures { IsTrue result ↔ IsMergerType self.now }
    {
        match &self.form {
            TyForm::Struct(fields) => !fields.is_empty() && fields.are_integers(),
            TyForm::Scalar(_) | TyForm::Vec(_) | TyForm::Dict(_, _) | TyForm::Build(_) => {
                self.is_integer()
            }
        }
    }

    fn is_key_field(&self) -> bool
        ensures { IsTrue result ↔ IsKeyField self.now }
    {
        match &self.form {
            TyForm::Scalar(_) => true,
            TyForm::Vec(item) => item.is_scalar(),
            TyForm::Struct(_) | TyForm::Dict(_, _) | TyForm::Build(_) => false,
        }
    }

    /// Whether dictionaries may have keys of the type: a scalar, a vector of scalars, or a struct of
    /// such fields.
    #[tactic(auto, using(crate::proofs::Fields::are_key_fields_of_all, crate::proofs::Fields::all_key_fields, crate::proofs::Fields::has_types, crate::proofs::Fields::some_types))]
    pub fn is_key(&self) -> bool
        ensures { IsTrue result ↔ IsKey self.now }
    {
        match &self.form {
            TyForm::Struct(fields) => !fields.is_empty() && fields.are_key_fields(),
            TyForm::Scalar(_) | TyForm::Vec(_) | TyForm::Dict(_, _) | TyForm::Build(_) => {
                self.is_key_field()
            }
        }
    }

    /// Whether the type is well formed.
    #[cycle(well_formed)]
    pub fn is_well_formed(&self) -> bool
        ensures { IsTrue result ↔ IsWellFormed self.now }
    {
        match &self.form {
            TyForm::Scalar(_) => true,
            TyForm::Vec(item) => item.is_well_formed() && item.is_builder_free(),
            TyForm::Struct(fields) => fields.is_well_formed_struct(),
            TyForm::Dict(key, value) => {
                key.is_key() && value.is_well_formed() && value.is_builder_free()
            }
            TyForm::Build(build) => build.is_well_formed(),
        }
    }
}

impl BuildTy {
    /// Whether the builder is of a well-formed type.
    #[cycle(well_formed)]
    pub fn is_well_formed(&self) -> bool
        ensures { IsTrue result ↔ IsWellFormedBuild (view_build self.now) }
    {
        match self {
            BuildTy::List(item) => item.is_well_formed() && item.is_builder_free(),
            BuildTy::Total(item, _) => item.is_mergeable(),
            BuildTy::Keyed(key, value, _) => key.is_key() && value.is_integer(),
            BuildTy::Cells(item, _) => item.is_integer(),
            BuildTy::Groups(key, value) => {
                key.is_key() && value.is_well_formed() && value.is_builder_free()
            }
        }
    }
}

impl Tys {
    ghost use Rattle.weld_tree.specs.TypeTree.{pack, struct};

    #[cycle(builder_free)]
    fn are_builder_free(&self) -> bool
        ensures { IsTrue result ↔ All IsBuilderFree self.now }
    {
        for ty in &self.items {
            if !ty.is_builder_free() {
                return false;
            }
        }
        true
    }

    #[cycle(builder)]
    fn are_builders(&self) -> bool
        ensures { IsTrue result ↔ All IsBuilder self.now }
    {
        for ty in &self.items {
            if !ty.is_builder() {
                return false;
            }
        }
        true
    }

    fn are_integers(&self) -> bool
        ensures { IsTrue result ↔ All IsIntegerType self.now }
    {
        for ty in &self.items {
            if !ty.is_integer() {
                return false;
            }
        }
        true
    }

    fn are_key_fields(&self) -> bool
        ensures { IsTrue result ↔ All IsKeyField self.now }
    {
        for ty in &self.items {
            if !ty.is_key_field() {
                return false;
            }
        }
        true
    }

    #[cycle(well_formed)]
    #[tactic(auto, using(crate::proofs::Fields::are_well_formed_of_all, crate::proofs::Fields::all_well_formed, crate::proofs::Fields::are_builder_free_of_all, crate::proofs::Fields::all_builder_free, crate::proofs::Fields::are_builders_of_all, crate::proofs::Fields::all_builders, crate::proofs::Fields::has_types, crate::proofs::Fields::some_types))]
    fn is_well_formed_struct(&self) -> bool
        ensures { IsTrue result ↔ IsWellFormed (struct (pack self.now)) }
    {
        !self.is_empty()
            && self.are_well_formed()
            && (self.are_builder_free() || self.are_builders())
    }

    #[cycle(well_formed)]
    fn are_well_formed(&self) -> bool
        ensures { IsTrue result ↔ All IsWellFormed self.now }
    {
        for ty in &self.items {
            if !ty.is_well_formed() {
                return false;
            }
        }
        true
    }
}
