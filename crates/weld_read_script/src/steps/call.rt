//! Calls.
ghost use Rattle.std.specs.Prelude.{◌≡◌, ◌<◌, ◌≤◌, ◌+◌, length, take, IfOk, IfSome, Some};
ghost use Rattle.std.specs.List.{slice_get};
ghost use Rattle.weld_script.specs.Script.{types_at as plain_types_at};
ghost use Rattle.weld_script.specs.declared.made.Made.TheVariants as makes;
ghost use Rattle.weld_read_script.specs.Steps as plain;
ghost use Rattle.weld_read_script.specs.Steps.{Steps};

use crate::requests::answer::argument_type;
use crate::requests::{
    Callee, Object, Request, Resolved, Wish, answer_type, callee_of, request_of, resolve,
};
use crate::statements::Argument;
use crate::steps::known::{Known, LineFault};
use crate::steps::table::is_same;
use std::alloc::{AllocError, Global};
use weld_calls::laws::rows_are_short;
use weld_calls::{Call, first_misfit};
use weld_data::Text;
use weld_script::{Declared, Ids, Made};
use weld_tree::{Code, Ty, Tys};

/// The types of the objects of these numbers.
fn types_at(alloc: Global, types: &[Ty], ids: &[u32]) -> Result<Tys, AllocError>
    ensures { IfOk result (λ found. found ≡ plain_types_at types.now ids.now) }
{
    let mut found = Tys::new(alloc);
    for id in ids {
        found.push(argument_type(alloc, types, *id as usize)?)?;
    }
    Ok(found)
}

/// The place of the first of the names that is this one.
fn place_of(name: &[u8], names: &[Text]) -> Option<usize>
    ensures within { IfSome result (λ place. place < length names.now) }
    ensures place { result ≡ plain.place_from 0 name.now names.now }
{
    for (place, other) in names.iter().enumerate() {
        if is_same(other.as_slice(), name) {
            return Some(place);
        }
    }
    None
}

/// The first 16 of the names, which are all that a table has.
fn of_table(names: &[Text]) -> &[Text]
    ensures { result.now ≡ take 16 names.now }
{
    if names.len() > 16 {
        &names[..16]
    } else {
        names
    }
}

/// The number of the column of that name, where the declaration is a table that has one.
fn declared_column(name: &[u8], declared: &Declared) -> Option<usize>
    ensures few { IfSome result (λ place. place < 16) }
    ensures number { result ≡ plain.column_number name.now (Some (makes.Declared declared.now)) }
{
    match declared {
        Declared::Table(names, _) => place_of(name, of_table(names.as_slice())),
        Declared::Input(_) => None,
    }
}

/// The number of the column of that name, where the object is a table that has one.
fn column_number(name: &[u8], made: &[Made], id: u32) -> Option<usize>
    ensures few { IfSome result (λ place. place < 16) }
    ensures number { result ≡ plain.column_number name.now (slice_get made.now id) }
{
    match made.get(id as usize) {
        Some(Made::Declared(declared)) => declared_column(name, declared),
        _ => None,
    }
}

/// The call that is wished for, on these objects.
fn wished(made: &[Made], wish: &Wish, ids: &[u32]) -> Option<Call>
    requires { length made.now < 4294967295 }
    ensures { result ≡ plain.wished made.now wish.now ids.now }
{
    match wish {
        Wish::OfCall(call) => Some(*call),
        Wish::OfColumn(name) => {
            let [id, ..] = ids else {
                return None;
            };
            let number = column_number(name.as_slice(), made, *id)?;
            Some(Call::Column(number as u32))
        }
    }
}

impl Known {
    /// Makes the literals among the objects, and answers the numbers of all.
    fn place(&mut self, alloc: Global, objects: &[Object]) -> Result<Ids, AllocError>
        requires { length self.old.made + length objects.now < 4294967295 }
        ensures known { IfOk result (λ ids. self.new ≡ plain.with_literals self.old objects.now) }
        ensures numbers { IfOk result (λ ids. ids ≡ plain.numbers (length self.old.made)
            objects.now) }
    {
        let mut ids = Ids::new(alloc);
        for object in objects {
            match *object {
                Object::Before(id) => ids.push(id)?,
                Object::Literal(kind, value) => {
                    ids.push(self.made.len() as u32)?;
                    self.made.push(Made::Literal(kind, value))?;
                    self.types.push(Ty::scalar(kind))?;
                }
            }
        }
        Ok(ids)
    }

    /// A call more, on these objects, where their types fit it and there are fewer than 200.
    fn add_call(&mut self, alloc: Global, name: Text, call: Call, ids: Ids) -> Result<(), LineFault>
        requires few { length self.old.made < 4294967295 }
        requires short { length ids < 4294967295 }
        requires most { self.old.calls ≤ 200 }
        ensures { Steps (plain.after_wish self.old name ids (Some call)) result self.new }
    {
        let types = types_at(alloc, self.types.as_slice(), ids.as_slice())?;
        if first_misfit(call, types.as_slice()).is_some() {
            return Err(LineFault::Refused(Code::S6));
        }
        if self.calls == 200 {
            return Err(LineFault::Refused(Code::S8));
        }
        let ty = answer_type(alloc, call, types.as_slice())?;
        self.bind(name, Made::Call(call, ids), ty)?;
        self.calls += 1;
        Ok(())
    }

    /// A call more, as it is asked for.
    fn add_request(&mut self, alloc: Global, name: Text, request: Request) -> Result<(), LineFault>
        requires few { length self.old.made + length request.objects < 4294967294 }
        requires most { self.old.calls ≤ 200 }
        ensures { Steps (plain.after_request self.old name (Some request)) result self.new }
    {
        let Request { wish, objects } = request;
        let ids = self.place(alloc, objects.as_slice())?;
        match wished(self.made.as_slice(), &wish, ids.as_slice()) {
            None => Err(LineFault::Refused(Code::S6)),
            Some(call) => self.add_call(alloc, name, call, ids),
        }
    }

    /// A call more, of what its words name, on these arguments.
    fn call_named(
        &mut self,
        alloc: Global,
        name: Text,
        callee: Callee,
        arguments: &[Resolved],
    ) -> Result<(), LineFault>
        requires few { length self.old.made ≤ 1000 }
        requires most { self.old.calls ≤ 200 }
        ensures { Steps (plain.after_callee self.old name arguments.now (Some callee)) result
            self.new }
    {
        rows_are_short();
        match request_of(alloc, callee, arguments)? {
            None => Err(LineFault::Refused(Code::S5)),
            Some(request) => self.add_request(alloc, name, request),
        }
    }

    /// A call more, by its words, on these arguments.
    fn call_resolved(
        &mut self,
        alloc: Global,
        name: Text,
        library: &[u8],
        call: &[u8],
        arguments: &[Resolved],
    ) -> Result<(), LineFault>
        requires few { length self.old.made ≤ 1000 }
        requires most { self.old.calls ≤ 200 }
        ensures { Steps (plain.after_names self.old name library.now call.now (Some arguments.now))
            result self.new }
    {
        match callee_of(library, call) {
            None => Err(LineFault::Refused(Code::S4)),
            Some(callee) => self.call_named(alloc, name, callee, arguments),
        }
    }

    /// A call more, by its words and its written arguments.
    pub(crate) fn call(
        &mut self,
        alloc: Global,
        name: Text,
        library: &[u8],
        call: &[u8],
        arguments: &[Argument],
    ) -> Result<(), LineFault>
        requires few { length self.old.made ≤ 1000 }
        requires most { self.old.calls ≤ 200 }
        ensures { Steps (plain.after_call self.old name library.now call.now arguments.now) result
            self.new }
    {
        if self.is_bound(name.as_slice()) {
            return Err(LineFault::Refused(Code::S2));
        }
        match resolve(alloc, self.bound.as_slice(), arguments)? {
            None => Err(LineFault::Refused(Code::S3)),
            Some(resolved) => self.call_resolved(alloc, name, library, call, resolved.as_slice()),
        }
    }
}
