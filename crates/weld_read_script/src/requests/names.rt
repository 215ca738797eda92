//! Names that lines bind, and arguments with objects in the place of names.
ghost use Rattle.std.specs.Prelude.{◌≡◌, IfOk};
ghost use Rattle.std.specs.Str.{bytes_eq};
ghost use Rattle.weld_read_script.specs.Names as plain;

use crate::statements::Argument;
use std::alloc::{AllocError, Global};
use weld_data::{Items, Kind, Text};

/// A name, with the number of the object that it is bound to.
#[derive(Drop)]
pub struct Bound {
    pub name: Text,
    pub object: u32,
}

/// Names that are bound, in the order in which they were.
pub type Bindings = Items<Bound>;

/// An object that a call is made on.
#[derive(Clone, Copy)]
pub enum Object {
    /// One that a line before made, by its number.
    Before(u32),
    /// A number of a kind, which is made by the call's line; false is 0 and true is 1.
    Literal(Kind, i128),
}

/// An argument with its object in the place of its name.
#[derive(Drop)]
pub enum Resolved {
    OfObject(Object),
    OutOfRange,
    Chars(Text),
}

/// A list of such arguments.
pub type ResolvedList = Items<Resolved>;

/// Whether the two texts are the same.
fn is_same(name: &[u8], other: &[u8]) -> bool
    ensures { result ≡ bytes_eq name.now other.now }
{
    name == other
}

/// The object that the name is bound to, where it is. It takes no memory.
pub fn object_of(name: &[u8], bindings: &[Bound]) -> Option<u32>
    ensures { result ≡ plain.object_of name.now bindings.now }
{
    for bound in bindings {
        if is_same(bound.name.as_slice(), name) {
            return Some(bound.object);
        }
    }
    None
}

/// The object that the name is bound to.
fn named(name: &Text, bindings: &[Bound]) -> Option<u32>
    ensures { result ≡ plain.object_of name.now bindings.now }
{
    object_of(name.as_slice(), bindings)
}

/// The objects of all the names, where all are bound.
pub fn objects_of(
    alloc: Global,
    bindings: &[Bound],
    names: &[Text],
) -> Result<Option<Items<u32>>, AllocError>
    ensures { IfOk result (λ found. found ≡ plain.objects_of bindings.now names.now) }
{
    let mut objects = Items::new(alloc);
    for name in names {
        let Some(object) = named(name, bindings) else {
            return Ok(None);
        };
        objects.push(object)?;
    }
    Ok(Some(objects))
}

/// The argument with its object in the place of its name.
fn resolve_one(
    alloc: Global,
    bindings: &[Bound],
    argument: &Argument,
) -> Result<Option<Resolved>, AllocError>
    ensures { IfOk result (λ found. found ≡ plain.resolved bindings.now argument.now) }
{
    Ok(match argument {
        Argument::Name(name) => match object_of(name.as_slice(), bindings) {
            Some(id) => Some(Resolved::OfObject(Object::Before(id))),
            None => None,
        },
        Argument::Literal(kind, value) => {
            Some(Resolved::OfObject(Object::Literal(*kind, *value)))
        }
        Argument::OutOfRange => Some(Resolved::OutOfRange),
        Argument::Chars(text) => Some(Resolved::Chars(Text::copy_of(alloc, text.as_slice())?)),
    })
}

/// The arguments with objects in the place of their names; None where a name among them isn't bound. It
/// fails only for want of memory.
pub fn resolve(
    alloc: Global,
    bindings: &[Bound],
    arguments: &[Argument],
) -> Result<Option<ResolvedList>, AllocError>
    ensures { IfOk result (λ found. found ≡ plain.all_resolved bindings.now arguments.now) }
{
    let mut list = ResolvedList::new(alloc);
    for argument in arguments {
        let Some(resolved) = resolve_one(alloc, bindings, argument)? else {
            return Ok(None);
        };
        list.push(resolved)?;
    }
    Ok(Some(list))
}
