//! The cells of a column, in an array of their kind, and how a field is read into it.

ghost use Rattle.std.specs.Prelude.{◌≡◌, ◌++◌, ◌∷◌, [], pos, map, IfOk};
ghost use Rattle.weld_data.specs.Wrapped.{wrapped};
ghost use Rattle.weld_data.specs.View.{view_val, view_column};
ghost use Rattle.weld_data.specs.declared.kind.Kind.TheVariants as kinds;
ghost use Rattle.weld_tree.specs.TypeTree.{scalar, vec};
ghost use Rattle.weld_values.specs.Judging.{IsOfCell};
ghost use Rattle.weld_table.specs.Table.{IsCell, CellReads};
ghost use Rattle.weld_table.specs.Cells.{type_of, view_cells, IsSaidOf, IsAdded};

use crate::verdict::Verdict;
use std::alloc::{AllocError, Global};
use weld_data::{
    Bools, Column, I8s, I16s, I32s, I64s, Items, Kind, U8s, U16s, U32s, U64s, Val, Vals, wrap,
};
use weld_tree::{Ty, TyForm};
use weld_values::{Cell, DataFault, read_cell};
use weld_write_value::is_i8;

/// The cells of a column.
#[derive(Drop)]
pub(crate) enum Cells {
    Bool(Bools),
    I8(Items<i8>),
    I16(I16s),
    I32(I32s),
    I64(I64s),
    U8(U8s),
    U16(U16s),
    U32(U32s),
    U64(U64s),
    /// Bytes as numbers of kind i8.
    Bytes(Vals),
    /// Bytes as numbers of kind u8.
    Octets(Vals),
}

/// What is said of a field that is no scalar for this reason.
fn verdict_of(fault: DataFault) -> Verdict
    requires { IsOfCell fault }
    ensures { IsSaidOf fault result }
{
    match fault {
        DataFault::Range => Verdict::Range,
        _ => Verdict::Syntax,
    }
}

/// Reads a field as a scalar and appends it.
fn add_scalar<T: Cell>(items: &mut Items<T>, field: &[u8]) -> Result<Verdict, AllocError>
    ensures { IfOk result (IsAdded (scalar T.kind) field.now (map T.value items.old)
        (map T.value items.new)) }
{
    match read_cell::<T>(field) {
        Ok(x) => {
            items.push(x)?;
            Ok(Verdict::Fine)
        }
        Err(fault) => Ok(verdict_of(fault)),
    }
}

/// The byte as a number of kind i8, modulo 256.
fn signed(byte: u8) -> i8
    ensures { result ≡ wrapped kinds.I8 (pos byte) }
{
    wrap(Kind::I8, i128::from(byte)) as i8
}

/// The bytes as a list of numbers of kind i8.
fn signed_bytes(alloc: Global, field: &[u8]) -> Result<Val, AllocError>
    ensures { IfOk result (λ v. CellReads (vec (scalar kinds.I8)) field.now (view_val v)) }
{
    let mut items = I8s::with_capacity(alloc, field.len())?;
    for byte in field {
        items.push(alloc, signed(*byte))?;
    }
    Ok(Val::List(Column::I8(items)))
}

/// The bytes as a list of numbers of kind u8.
fn plain_bytes(alloc: Global, field: &[u8]) -> Result<Val, AllocError>
    ensures { IfOk result (λ v. CellReads (vec (scalar kinds.U8)) field.now (view_val v)) }
{
    Ok(Val::List(Column::U8(U8s::copy_of(alloc, field)?)))
}

/// Appends a list of bytes.
fn add_list(items: &mut Vals, list: Val) -> Result<Verdict, AllocError>
    ensures { IfOk result (λ w. (w ≡ Verdict.Fine) × (items.new
        ≡ items.old ++ view_val list ∷ [])) }
{
    items.push(list)?;
    Ok(Verdict::Fine)
}

/// Reads a field as a list of numbers of kind i8 and appends it.
fn add_signed(alloc: Global, items: &mut Vals, field: &[u8]) -> Result<Verdict, AllocError>
    ensures { IfOk result (IsAdded (vec (scalar kinds.I8)) field.now items.old items.new) }
{
    let list = signed_bytes(alloc, field)?;
    add_list(items, list)
}

/// Reads a field as a list of numbers of kind u8 and appends it.
fn add_plain(alloc: Global, items: &mut Vals, field: &[u8]) -> Result<Verdict, AllocError>
    ensures { IfOk result (IsAdded (vec (scalar kinds.U8)) field.now items.old items.new) }
{
    let list = plain_bytes(alloc, field)?;
    add_list(items, list)
}

impl Cells {
    /// No cells, of this type. It takes no memory.
    pub(crate) fn of(alloc: Global, ty: &Ty) -> Cells
        requires { IsCell ty.now }
        ensures ty { type_of result ≡ ty.now }
        ensures none { view_cells result ≡ [] }
    {
        match &ty.form {
            TyForm::Scalar(Kind::Bool) => Cells::Bool(Bools::new(alloc)),
            TyForm::Scalar(Kind::I8) => Cells::I8(Items::new(alloc)),
            TyForm::Scalar(Kind::I16) => Cells::I16(I16s::new(alloc)),
            TyForm::Scalar(Kind::I32) => Cells::I32(I32s::new(alloc)),
            TyForm::Scalar(Kind::I64) => Cells::I64(I64s::new(alloc)),
            TyForm::Scalar(Kind::U8) => Cells::U8(U8s::new(alloc)),
            TyForm::Scalar(Kind::U16) => Cells::U16(U16s::new(alloc)),
            TyForm::Scalar(Kind::U32) => Cells::U32(U32s::new(alloc)),
            TyForm::Scalar(Kind::U64) => Cells::U64(U64s::new(alloc)),
            TyForm::Vec(item) if is_i8(item) => Cells::Bytes(Vals::new(alloc)),
            _ => Cells::Octets(Vals::new(alloc)),
        }
    }

    /// Reads a field as a cell and appends it, if it is one.
    pub(crate) fn add(&mut self, alloc: Global, field: &[u8]) -> Result<Verdict, AllocError>
        ensures ty { type_of self.new ≡ type_of self.old }
        ensures added { IfOk result (IsAdded (type_of self.old) field.now (view_cells self.old)
            (view_cells self.new)) }
    {
        match self {
            Cells::Bool(items) => add_scalar(items, field),
            Cells::I8(items) => add_scalar(items, field),
            Cells::I16(items) => add_scalar(items, field),
            Cells::I32(items) => add_scalar(items, field),
            Cells::I64(items) => add_scalar(items, field),
            Cells::U8(items) => add_scalar(items, field),
            Cells::U16(items) => add_scalar(items, field),
            Cells::U32(items) => add_scalar(items, field),
            Cells::U64(items) => add_scalar(items, field),
            Cells::Bytes(items) => add_signed(alloc, items, field),
            Cells::Octets(items) => add_plain(alloc, items, field),
        }
    }

    /// The cells as a column. It takes no memory.
    pub(crate) fn into_column(self) -> Column
        ensures { view_column result ≡ view_cells self }
    {
        match self {
            Cells::Bool(items) => Column::Bool(items),
            Cells::I8(items) => Column::I8(I8s::from_vec(items.into_vec())),
            Cells::I16(items) => Column::I16(items),
            Cells::I32(items) => Column::I32(items),
            Cells::I64(items) => Column::I64(items),
            Cells::U8(items) => Column::U8(items),
            Cells::U16(items) => Column::U16(items),
            Cells::U32(items) => Column::U32(items),
            Cells::U64(items) => Column::U64(items),
            Cells::Bytes(items) | Cells::Octets(items) => Column::Nest(items),
        }
    }
}
