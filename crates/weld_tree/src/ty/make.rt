ghost use Rattle.std.specs.Prelude.{◌≡◌, IfOk};
ghost use Rattle.weld_tree.specs.TypeTree.{scalar, vec, struct, dict, build, pack};
ghost use Rattle.weld_tree.specs.TypeView.{view_build};
ghost use Rattle.weld_tree.specs.Types.{pair_of, takes, gives};

use crate::ty::{BuildTy, Ty, TyForm, Tys};
use std::alloc::{AllocError, Global};
use weld_data::Kind;

impl Ty {
    /// The scalar type of the kind. It takes no memory.
    pub fn scalar(kind: Kind) -> Ty
        ensures { result ≡ scalar kind }
    {
        Ty {
            form: TyForm::Scalar(kind),
        }
    }

    /// The type of the vectors of such items.
    pub fn vec_of(alloc: Global, item: Ty) -> Result<Ty, AllocError>
        ensures { IfOk result (λ ty. ty ≡ vec item) }
    {
        Ok(Ty {
            form: TyForm::Vec(Box::new(alloc, item)?),
        })
    }

    /// The type of the structs of such fields, in order. It takes no memory.
    pub fn struct_of(fields: Tys) -> Ty
        ensures { result ≡ struct (pack fields) }
    {
        Ty {
            form: TyForm::Struct(fields),
        }
    }

    /// The type of the structs of two such fields.
    pub fn pair_of(alloc: Global, first: Ty, second: Ty) -> Result<Ty, AllocError>
        ensures { IfOk result (λ ty. ty ≡ pair_of first second) }
    {
        let mut fields = Tys::new(alloc);
        fields.push(first)?;
        fields.push(second)?;
        Ok(Ty::struct_of(fields))
    }

    /// The type of the dictionaries from such keys to such values.
    pub fn dict_of(alloc: Global, key: Ty, value: Ty) -> Result<Ty, AllocError>
        ensures { IfOk result (λ ty. ty ≡ dict key value) }
    {
        let key = Box::new(alloc, key)?;
        Ok(Ty {
            form: TyForm::Dict(key, Box::new(alloc, value)?),
        })
    }

    /// The type of the builder. It takes no memory.
    pub fn builder(builder: BuildTy) -> Ty
        ensures { result ≡ build (view_build builder) }
    {
        Ty {
            form: TyForm::Build(builder),
        }
    }
}

impl BuildTy {
    /// The type of what is merged into the builder.
    pub fn takes(&self, alloc: Global) -> Result<Ty, AllocError>
        ensures { IfOk result (λ ty. ty ≡ takes (view_build self.now)) }
    {
        match self {
            BuildTy::List(item) | BuildTy::Total(item, _) => item.copy(alloc),
            BuildTy::Keyed(key, value, _) | BuildTy::Groups(key, value) => {
                let key = key.copy(alloc)?;
                Ty::pair_of(alloc, key, value.copy(alloc)?)
            }
            BuildTy::Cells(item, _) => Ty::pair_of(alloc, Ty::scalar(Kind::I64), item.copy(alloc)?),
        }
    }

    /// The type of the builder's result.
    pub fn gives(&self, alloc: Global) -> Result<Ty, AllocError>
        ensures { IfOk result (λ ty. ty ≡ gives (view_build self.now)) }
    {
        match self {
            BuildTy::Total(item, _) => item.copy(alloc),
            BuildTy::List(item) | BuildTy::Cells(item, _) => Ty::vec_of(alloc, item.copy(alloc)?),
            BuildTy::Keyed(key, value, _) => {
                let key = key.copy(alloc)?;
                Ty::dict_of(alloc, key, value.copy(alloc)?)
            }
            BuildTy::Groups(key, value) => {
                let lists = Ty::vec_of(alloc, value.copy(alloc)?)?;
                Ty::dict_of(alloc, key.copy(alloc)?, lists)
            }
        }
    }
}
