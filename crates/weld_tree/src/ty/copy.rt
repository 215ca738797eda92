ghost use Rattle.std.specs.Prelude.{◌≡◌, IfOk};
ghost use Rattle.weld_tree.specs.TypeView.{view_type, view_build};

use crate::ty::{BuildTy, Ty, TyForm, Tys};
use std::alloc::{AllocError, Global};

impl Ty {
    /// A copy of the type.
    #[cycle(copy)]
    pub fn copy(&self, alloc: Global) -> Result<Ty, AllocError>
        ensures { IfOk result (λ copy. copy ≡ self.now) }
    {
        Ok(Ty {
            form: self.form.copy(alloc)?,
        })
    }

    /// A copy of the type in a box.
    #[cycle(copy)]
    pub fn boxed_copy(&self, alloc: Global) -> Result<Box<Ty>, AllocError>
        ensures { IfOk result (λ copy. copy.value ≡ self.now) }
    {
        Ok(Box::new(alloc, self.copy(alloc)?)?)
    }
}

impl TyForm {
    #[cycle(copy)]
    fn copy(&self, alloc: Global) -> Result<TyForm, AllocError>
        ensures { IfOk result (λ copy. view_type copy ≡ view_type self.now) }
    {
        Ok(match self {
            TyForm::Scalar(kind) => TyForm::Scalar(*kind),
            TyForm::Vec(item) => TyForm::Vec(item.boxed_copy(alloc)?),
            TyForm::Struct(fields) => TyForm::Struct(fields.copy(alloc)?),
            TyForm::Dict(key, value) => {
                let key = key.boxed_copy(alloc)?;
                TyForm::Dict(key, value.boxed_copy(alloc)?)
            }
            TyForm::Build(build) => TyForm::Build(build.copy(alloc)?),
        })
    }
}

impl BuildTy {
    /// A copy of the builder type.
    #[cycle(copy)]
    pub fn copy(&self, alloc: Global) -> Result<BuildTy, AllocError>
        ensures { IfOk result (λ copy. view_build copy ≡ view_build self.now) }
    {
        Ok(match self {
            BuildTy::List(item) => BuildTy::List(item.boxed_copy(alloc)?),
            BuildTy::Total(item, op) => BuildTy::Total(item.boxed_copy(alloc)?, *op),
            BuildTy::Keyed(key, value, op) => {
                let key = key.boxed_copy(alloc)?;
                BuildTy::Keyed(key, value.boxed_copy(alloc)?, *op)
            }
            BuildTy::Cells(item, op) => BuildTy::Cells(item.boxed_copy(alloc)?, *op),
            BuildTy::Groups(key, value) => {
                let key = key.boxed_copy(alloc)?;
                BuildTy::Groups(key, value.boxed_copy(alloc)?)
            }
        })
    }
}

impl Tys {
    /// A copy of the list.
    #[cycle(copy)]
    pub fn copy(&self, alloc: Global) -> Result<Tys, AllocError>
        ensures { IfOk result (λ copy. copy ≡ self.now) }
    {
        let mut items = Vec::new(alloc);
        for ty in &self.items {
            items.push(ty.copy(alloc)?)?;
        }
        Ok(Tys { items })
    }
}
