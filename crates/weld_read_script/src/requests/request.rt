//! What is asked for by a call's arguments.
ghost use Rattle.std.specs.Prelude.{◌≡◌, ◌∷◌, [], length, IfOk};
ghost use Rattle.weld_calls.specs.CallTypes.{row};
ghost use Rattle.weld_read_script.specs.Requests as plain;

use crate::requests::callee::{Callee, arithmetic_of, comparison_of};
use crate::requests::names::{Object, Resolved};
use std::alloc::{AllocError, Global};
use weld_calls::Call;
use weld_data::{Items, Text};

/// Objects that a call is made on.
pub type Objects = Items<Object>;

/// The call that is wished for.
#[derive(Drop)]
pub enum Wish {
    /// This one.
    OfCall(Call),
    /// The column of this name.
    OfColumn(Text),
}

/// A call, and the objects that it is to be made on.
#[derive(Drop)]
pub struct Request {
    pub wish: Wish,
    pub objects: Objects,
}

/// How many arguments the call takes.
fn count_of(call: Call) -> usize
    ensures { result ≡ length (row call) }
{
    if call.pattern(2).is_some() {
        3
    } else if call.pattern(1).is_some() {
        2
    } else {
        1
    }
}

/// The object that an argument is.
fn object_in(argument: &Resolved) -> Option<Object>
    ensures { result ≡ plain.object_in argument.now }
{
    match argument {
        Resolved::OfObject(object) => Some(*object),
        Resolved::OutOfRange | Resolved::Chars(_) => None,
    }
}

/// The objects that the arguments are, where each is one.
fn all_objects(alloc: Global, arguments: &[Resolved]) -> Result<Option<Objects>, AllocError>
    ensures { IfOk result (λ found. found ≡ plain.all_objects arguments.now) }
{
    let mut objects = Objects::new(alloc);
    for argument in arguments {
        let Some(object) = object_in(argument) else {
            return Ok(None);
        };
        objects.push(object)?;
    }
    Ok(Some(objects))
}

/// A call on objects alone.
fn fixed(alloc: Global, call: Call, arguments: &[Resolved]) -> Result<Option<Request>, AllocError>
    ensures { IfOk result (λ found. found ≡ plain.request_of (Callee.Fixed call) arguments.now) }
{
    let Some(objects) = all_objects(alloc, arguments)? else {
        return Ok(None);
    };
    if objects.len() == count_of(call) {
        Ok(Some(Request {
            wish: Wish::OfCall(call),
            objects,
        }))
    } else {
        Ok(None)
    }
}

/// The column of a table.
fn column(alloc: Global, arguments: &[Resolved]) -> Result<Option<Request>, AllocError>
    ensures { IfOk result (λ found. found ≡ plain.request_of Callee.Column arguments.now) }
{
    match arguments {
        [Resolved::OfObject(table), Resolved::Chars(name)] => {
            let mut objects = Objects::new(alloc);
            objects.push(*table)?;
            let name = Text::copy_of(alloc, name.as_slice())?;
            Ok(Some(Request {
                wish: Wish::OfColumn(name),
                objects,
            }))
        }
        _ => Ok(None),
    }
}

/// A call on two objects.
fn on_two(alloc: Global, call: Call, first: Object, second: Object) -> Result<Request, AllocError>
    ensures { IfOk result (λ made. made ≡ plain.asked (Wish.OfCall call) (first ∷ second ∷ [])) }
{
    let mut objects = Objects::new(alloc);
    objects.push(first)?;
    objects.push(second)?;
    Ok(Request {
        wish: Wish::OfCall(call),
        objects,
    })
}

/// Each element compared with a number.
fn compare(alloc: Global, arguments: &[Resolved]) -> Result<Option<Request>, AllocError>
    ensures { IfOk result (λ found. found ≡ plain.request_of Callee.Compare arguments.now) }
{
    match arguments {
        [
            Resolved::OfObject(column),
            Resolved::Chars(text),
            Resolved::OfObject(number),
        ] => {
            match comparison_of(text.as_slice()) {
                Some(op) => Ok(Some(on_two(alloc, Call::Compare(op), *column, *number)?)),
                None => Ok(None),
            }
        }
        _ => Ok(None),
    }
}

/// An operator of arithmetic on two columns.
fn arith(alloc: Global, arguments: &[Resolved]) -> Result<Option<Request>, AllocError>
    ensures { IfOk result (λ found. found ≡ plain.request_of Callee.Arith arguments.now) }
{
    match arguments {
        [
            Resolved::OfObject(column),
            Resolved::Chars(text),
            Resolved::OfObject(other),
        ] => {
            match arithmetic_of(text.as_slice()) {
                Some(op) => Ok(Some(on_two(alloc, Call::Arith(op), *column, *other)?)),
                None => Ok(None),
            }
        }
        _ => Ok(None),
    }
}

/// What a call asks for on these arguments. None where their number is wrong, or one has the wrong form: a
/// string where an object is wanted, an object where a string is wanted, a string that is no operator of
/// the call, or a number out of its range. It fails only for want of memory.
pub fn request_of(
    alloc: Global,
    callee: Callee,
    arguments: &[Resolved],
) -> Result<Option<Request>, AllocError>
    ensures { IfOk result (λ found. found ≡ plain.request_of callee arguments.now) }
{
    match callee {
        Callee::Fixed(call) => fixed(alloc, call, arguments),
        Callee::Column => column(alloc, arguments),
        Callee::Compare => compare(alloc, arguments),
        Callee::Arith => arith(alloc, arguments),
    }
}
