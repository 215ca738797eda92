ghost use Rattle.std.specs.Prelude.{◌≡◌, ◌↔◌, IsTrue};
ghost use Rattle.weld_tree.specs.TypeView.{view_build};

use crate::ty::{BuildTy, Ty, TyForm, Tys};

impl Ty {
    /// Whether the two types are equal.
    #[cycle(same)]
    #[tactic(auto, using(crate::proofs::Fields::pack_same))]
    pub fn same(&self, other: &Ty) -> bool
        ensures { IsTrue result ↔ (self.now ≡ other.now) }
    {
        match (&self.form, &other.form) {
            (TyForm::Scalar(kind), TyForm::Scalar(other_kind)) => kind == other_kind,
            (TyForm::Vec(item), TyForm::Vec(other_item)) => item.same(other_item),
            (TyForm::Struct(fields), TyForm::Struct(other_fields)) => fields.same(other_fields),
            (TyForm::Dict(key, value), TyForm::Dict(other_key, other_value)) => {
                key.same(other_key) && value.same(other_value)
            }
            (TyForm::Build(build), TyForm::Build(other_build)) => build.same(other_build),
            _ => false,
        }
    }
}

impl BuildTy {
    /// Whether the two builder types are equal.
    #[cycle(same)]
    pub fn same(&self, other: &BuildTy) -> bool
        ensures { IsTrue result ↔ (view_build self.now ≡ view_build other.now) }
    {
        match (self, other) {
            (BuildTy::List(item), BuildTy::List(other_item)) => item.same(other_item),
            (BuildTy::Total(item, op), BuildTy::Total(other_item, other_op)) => {
                op == other_op && item.same(other_item)
            }
            (BuildTy::Keyed(key, value, op), BuildTy::Keyed(other_key, other_value, other_op)) => {
                op == other_op && key.same(other_key) && value.same(other_value)
            }
            (BuildTy::Cells(item, op), BuildTy::Cells(other_item, other_op)) => {
                item.same(other_item) && op == other_op
            }
            (BuildTy::Groups(key, value), BuildTy::Groups(other_key, other_value)) => {
                key.same(other_key) && value.same(other_value)
            }
            _ => false,
        }
    }
}

impl Tys {
    /// Whether the two lists have equal types in the same order.
    #[cycle(same)]
    #[tactic(auto, using(crate::proofs::Fields::lists_same))]
    pub fn same(&self, other: &Tys) -> bool
        ensures { IsTrue result ↔ (self.now ≡ other.now) }
    {
        if self.items.len() != other.items.len() {
            return false;
        }
        for (i, ty) in self.items.iter().enumerate() {
            if !ty.same(&other.items[i]) {
                return false;
            }
        }
        true
    }
}
