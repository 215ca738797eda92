//! Which columns of a table are wanted.

ghost use Rattle.std.specs.Prelude.{◌≡◌, IfOk, option_map};
ghost use Rattle.weld_table.specs.Table.{cell_in, cells_in, columns_in, IsWantedBy};

use std::alloc::{AllocError, Global};
use weld_data::{Kind, Names};
use weld_tree::{Ty, TyForm, Tys};

/// Which columns of a table are wanted, with the types of their cells: scalars, `vec[i8]` or `vec[u8]`.
#[derive(Drop)]
pub enum Wanted {
    /// One for each field of the records, in order; their names aren't looked at.
    Fields(Tys),
    /// For each name the first column that bears it; other columns aren't looked at.
    Named(Names, Tys),
}

/// The type of the cells, where the type is one of a table's columns: a vector of scalars, or of byte vectors.
fn cell_of(ty: &Ty) -> Option<&Ty>
    ensures { option_map (λ t. t.now) result ≡ cell_in ty.now }
{
    match &ty.form {
        TyForm::Vec(item) => match &item.form {
            TyForm::Scalar(_) => Some(item),
            TyForm::Vec(byte) => match &byte.form {
                TyForm::Scalar(Kind::I8 | Kind::U8) => Some(item),
                _ => None,
            },
            _ => None,
        },
        _ => None,
    }
}

/// The types of the cells of columns of these types, if all are such.
fn cells_of(alloc: Global, fields: &Tys) -> Result<Option<Tys>, AllocError>
    ensures { IfOk result (λ types. types ≡ cells_in fields.now) }
{
    let mut types = Tys::new(alloc);
    for field in fields.as_slice() {
        let Some(cell) = cell_of(field) else {
            return Ok(None);
        };
        types.push(cell.copy(alloc)?)?;
    }
    Ok(Some(types))
}

impl Wanted {
    /// The columns of a table type, by position; none where the type is no table type, a struct of vectors of cells.
    pub fn of_type(alloc: Global, ty: &Ty) -> Result<Option<Wanted>, AllocError>
        ensures { IfOk result (IsWantedBy (columns_in ty.now)) }
    {
        match &ty.form {
            TyForm::Struct(fields) => match cells_of(alloc, fields)? {
                Some(types) => Ok(Some(Wanted::Fields(types))),
                None => Ok(None),
            },
            _ => Ok(None),
        }
    }
}
