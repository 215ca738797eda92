//! What is known behind some lines of a script.
ghost use Rattle.std.specs.Prelude.{◌≡◌, ◌<◌, ◌≤◌, length, OnOk};
ghost use Rattle.weld_script.specs.Script.{declared_type};
ghost use Rattle.weld_script.specs.declared.made.Declared.{Declared};
ghost use Rattle.weld_read_script.specs.Keeping.{IsKnown};
ghost use Rattle.weld_read_script.specs.Steps as plain;
ghost use Rattle.weld_read_script.specs.Steps.{nothing_known, Steps};

use crate::requests::{Bindings, Bound, object_of, objects_of};
use crate::statements::Statement;
use std::alloc::{AllocError, Global};
use weld_data::Text;
use weld_script::{Declared, Ids, Made, MadeList};
use weld_tree::{Code, Ty, Tys};

/// What is known behind some lines of a script: the names that are bound, with their objects; the objects
/// that are made, with their types; how many declarations and calls there are; and the shown objects.
#[derive(Drop)]
pub struct Known {
    pub bound: Bindings,
    pub made: MadeList,
    pub types: Tys,
    pub declarations: u32,
    pub calls: u32,
    pub shown: Ids,
}

/// Why a line wasn't taken: a rule refuses it, or memory was wanting.
#[derive(Clone, Copy, Debug, PartialEq, Eq)]
pub enum LineFault {
    Refused(Code),
    Memory,
}

impl From<AllocError> for LineFault {
    ghost use Rattle.weld_read_script.specs.declared.steps.known.LineFault.TheVariants as faults;

    ghost from_gives = { λ _ fault. fault ≡ faults.Memory };

    fn from(_error: AllocError) -> LineFault {
        LineFault::Memory
    }
}

impl Known {
    /// What is known before the first line. It takes no memory.
    pub fn new(alloc: Global) -> Known
        ensures { result ≡ nothing_known }
    {
        Known {
            bound: Bindings::new(alloc),
            made: MadeList::new(alloc),
            types: Tys::new(alloc),
            declarations: 0,
            calls: 0,
            shown: Ids::new(alloc),
        }
    }

    /// Whether the name is bound.
    pub(crate) fn is_bound(&self, name: &[u8]) -> bool
        ensures { result ≡ plain.is_bound name.now self.now }
    {
        object_of(name, self.bound.as_slice()).is_some()
    }

    /// One object more, of this type, to which the name is bound.
    pub(crate) fn bind(&mut self, name: Text, object: Made, ty: Ty) -> Result<(), AllocError>
        requires { length self.old.made < 4294967295 }
        ensures { OnOk result (self.new ≡ plain.bind self.old name object ty) }
    {
        let number = self.made.len() as u32;
        self.bound.push(Bound {
            name,
            object: number,
        })?;
        self.made.push(object)?;
        self.types.push(ty)
    }

    /// A declaration more, of this type, where there are fewer than 64.
    pub(crate) fn declare(
        &mut self,
        name: Text,
        declared: Declared,
        ty: Ty,
    ) -> Result<(), LineFault>
        requires few { length self.old.made < 4294967295 }
        requires most { self.old.declarations ≤ 64 }
        requires of_type { ty ≡ declared_type declared }
        ensures { Steps (plain.declared self.old name declared) result self.new }
    {
        if self.declarations == 64 {
            return Err(LineFault::Refused(Code::S8));
        }
        self.bind(name, Made::Declared(declared), ty)?;
        self.declarations += 1;
        Ok(())
    }

    /// Some objects more are shown, where there are 64 at most.
    fn show_objects(&mut self, objects: &[u32]) -> Result<(), LineFault>
        requires { length self.old.shown ≤ 64 }
        ensures { Steps (plain.shown_also self.old (Some objects.now)) result self.new }
    {
        if objects.len() > 64 - self.shown.len() {
            return Err(LineFault::Refused(Code::S8));
        }
        self.shown.push_all(objects)?;
        Ok(())
    }

    /// Some names more are shown.
    fn show(&mut self, alloc: Global, names: &[Text]) -> Result<(), LineFault>
        requires { length self.old.shown ≤ 64 }
        ensures { Steps (plain.after_show self.old names.now) result self.new }
    {
        match objects_of(alloc, self.bound.as_slice(), names)? {
            None => Err(LineFault::Refused(Code::S3)),
            Some(objects) => self.show_objects(objects.as_slice()),
        }
    }

    /// Takes what a statement says: what is known is then that of the statement more. A rule that refuses it,
    /// the first by its number, is told, and what is known is then of no use.
    pub fn take(&mut self, alloc: Global, statement: Statement) -> Result<(), LineFault>
        requires { IsKnown self.old }
        ensures { Steps (plain.after self.old statement) result self.new }
    {
        match statement {
            Statement::Input(name, ty) => self.input(alloc, name, ty),
            Statement::Table(name, columns) => self.table(alloc, name, columns),
            Statement::Call(name, library, call, arguments) => {
                self.call(
                    alloc,
                    name,
                    library.as_slice(),
                    call.as_slice(),
                    arguments.as_slice(),
                )
            }
            Statement::Show(names) => self.show(alloc, names.as_slice()),
        }
    }
}
