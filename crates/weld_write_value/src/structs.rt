//! The text of structs of numbers that stand in a list.

ghost use Rattle.std.specs.Prelude.{◌≡◌, ◌++◌, OnOk, IsTrue};
ghost use Rattle.weld_data.specs.Value.{values};
ghost use Rattle.weld_data.specs.View.{view_packed};
ghost use Rattle.weld_tree.specs.TypeTree.{pack, struct as struct_of};
ghost use Rattle.weld_tree.specs.HasValue.{HasValue, AllAre};
ghost use Rattle.weld_write_value.specs.Showing.{shown_list, show};

use crate::write::write_number;
use std::alloc::AllocError;
use weld_data::{Packed, Structs, Text};
use weld_tree::{Ty, TyForm, Tys};

/// Appends structs of the type in brackets, with a comma between each two.
pub(crate) fn write_structs(item: &Ty, items: &Structs, out: &mut Text) -> Result<(), AllocError>
    requires { AllAre (HasValue item.now) (values items.now) }
    ensures { OnOk result (out.new ≡ out.old ++ shown_list (show item.now) items.now) }
{
    if items.is_empty() {
        return out.push_all(b"[]");
    }
    let mut lead = b'[';
    'items: for place in 0..items.len() {
        out.push(lead)?;
        write_row(item, items.at(place), out)?;
        lead = b',';
    }
    out.push(b']')
}

/// Appends one of them.
fn write_row(item: &Ty, row: Packed, out: &mut Text) -> Result<(), AllocError>
    requires { HasValue item.now (view_packed row) }
    ensures { OnOk result (out.new ≡ out.old ++ show item.now (view_packed row.entry)) }
{
    row.list.holds_struct(row.place);
    match &item.form {
        TyForm::Struct(fields) => write_fields(fields, row, out),
        _ => unreachable!(),
    }
}

/// Appends one of these fields.
fn write_fields(fields: &Tys, row: Packed, out: &mut Text) -> Result<(), AllocError>
    requires { HasValue (struct_of (pack fields.now)) (view_packed row) }
    ensures { OnOk result (out.new ≡ out.old
        ++ show (struct_of (pack fields.now)) (view_packed row.entry)) }
{
    let types = fields.as_slice();
    let mut lead = b'{';
    'fields: for i in 0..types.len() {
        out.push(lead)?;
        match row.number(i) {
            Some(number) => write_number(number, out)?,
            None => unreachable!(),
        }
        lead = b',';
    }
    out.push(b'}')
}
