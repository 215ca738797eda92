//! Declarations.
ghost use Rattle.std.specs.Prelude.{◌≡◌, ◌<◌, ◌≤◌, length, IfOk};
ghost use Rattle.std.specs.Str.{bytes_eq};
ghost use Rattle.weld_script.specs.Script.{declared_type};
ghost use Rattle.weld_script.specs.declared.made.Declared.TheVariants.{Table};
ghost use Rattle.weld_read_script.specs.Steps as plain;
ghost use Rattle.weld_read_script.specs.Steps.{Steps};

use crate::statements::Columns;
use crate::steps::known::{Known, LineFault};
use std::alloc::{AllocError, Global};
use weld_data::{Names, Text};
use weld_script::Declared;
use weld_tree::{Code, Ty, Tys};

/// Whether the two texts are the same.
pub(crate) fn is_same(name: &[u8], other: &[u8]) -> bool
    ensures { result ≡ bytes_eq name.now other.now }
{
    name == other
}

/// Whether the name stands among these.
fn stands_among(name: &[u8], names: &[Text]) -> bool
    ensures { result ≡ plain.stands_among name.now names.now }
{
    for other in names {
        if is_same(other.as_slice(), name) {
            return true;
        }
    }
    false
}

/// Whether a name stands twice among these.
fn has_twice(names: &[Text]) -> bool
    ensures { result ≡ plain.has_twice names.now }
{
    let mut rest = names;
    while let Some((name, more)) = rest.split_first() {
        if stands_among(name.as_slice(), more) {
            return true;
        }
        rest = more;
    }
    false
}

/// The struct of the vectors of such cells.
fn table_type(alloc: Global, cells: &Tys, names: &Names) -> Result<Ty, AllocError>
    ensures { IfOk result (λ ty. ty ≡ declared_type (Table names.now cells.now)) }
{
    let mut fields = Tys::new(alloc);
    for cell in cells.as_slice() {
        let copy = cell.copy(alloc)?;
        fields.push(Ty::vec_of(alloc, copy)?)?;
    }
    Ok(Ty::struct_of(fields))
}

impl Known {
    /// An input more.
    pub(crate) fn input(&mut self, alloc: Global, name: Text, ty: Ty) -> Result<(), LineFault>
        requires few { length self.old.made < 4294967295 }
        requires most { self.old.declarations ≤ 64 }
        ensures { Steps (plain.after_input self.old name ty) result self.new }
    {
        if self.is_bound(name.as_slice()) {
            return Err(LineFault::Refused(Code::S2));
        }
        let copy = ty.copy(alloc)?;
        self.declare(name, Declared::Input(copy), ty)
    }

    /// A table more.
    pub(crate) fn table(
        &mut self,
        alloc: Global,
        name: Text,
        columns: Columns,
    ) -> Result<(), LineFault>
        requires few { length self.old.made < 4294967295 }
        requires most { self.old.declarations ≤ 64 }
        ensures { Steps (plain.after_table self.old name columns) result self.new }
    {
        let Columns { names, cells } = columns;
        if self.is_bound(name.as_slice()) || has_twice(names.as_slice()) {
            return Err(LineFault::Refused(Code::S2));
        }
        let ty = table_type(alloc, &cells, &names)?;
        self.declare(name, Declared::Table(names, cells), ty)
    }
}
