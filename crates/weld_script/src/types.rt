//! The type of what is declared.
ghost use Rattle.std.specs.Prelude.{◌≡◌, ◌++◌, ◌∷◌, [], map, IfOk, OnOk};
ghost use Rattle.weld_tree.specs.TypeTree.{vec};
ghost use Rattle.weld_script.specs.Script.{declared_type};

use crate::made::Declared;
use std::alloc::{AllocError, Global};
use weld_tree::{Ty, Tys};

/// One vector type more, of such items.
fn push_vector(alloc: Global, types: &mut Tys, item: &Ty) -> Result<(), AllocError>
    ensures { OnOk result (types.new ≡ types.old ++ vec item.now ∷ []) }
{
    types.push(Ty::vec_of(alloc, item.copy(alloc)?)?)
}

/// The types of the columns whose cells have these types.
fn columns_of(alloc: Global, cells: &Tys) -> Result<Tys, AllocError>
    ensures { IfOk result (λ types. types ≡ map vec cells.now) }
{
    let mut types = Tys::new(alloc);
    for cell in cells.as_slice() {
        push_vector(alloc, &mut types, cell)?;
    }
    Ok(types)
}

impl Declared {
    /// The type of what is declared: a table's is the struct of its columns' vectors.
    #[tactic(auto, using(crate::proofs::Columns::lists_packed))]
    pub fn ty(&self, alloc: Global) -> Result<Ty, AllocError>
        ensures { IfOk result (λ ty. ty ≡ declared_type self.now) }
    {
        match self {
            Declared::Input(ty) => ty.copy(alloc),
            Declared::Table(_, cells) => Ok(Ty::struct_of(columns_of(alloc, cells)?)),
        }
    }
}
