//! What expressions come to.

ghost use Rattle.std.specs.Prelude.{◌≡◌, IfOk, OnOk};
ghost use Rattle.weld_data.specs.View.{view_val};
ghost use Rattle.weld_meaning.specs.Thing.{plain, bare_thing as bare, bare_things, after_thing, after_things};
ghost use Rattle.weld_eval.specs.Takes.{Join, AllJoin, IsPlain};
ghost use Rattle.weld_eval.specs.ThingView.{thing_of, things_of, held_of};

use std::alloc::{AllocError, Global};
use weld_built::Built;
use weld_data::Val;

/// A value, a builder, or a struct of builders.
#[cycle(thing)]
#[derive(Drop)]
pub enum Owned {
    Value(Val),
    Built(Built),
    Several(Fields),
}

/// The things of a struct's fields, the first field first.
#[cycle(thing)]
#[derive(Drop)]
pub enum Fields {
    End,
    And(Box<Owned>, Box<Fields>),
}

/// A thing that was made, or a value that is lent from where it stands.
#[derive(Drop)]
pub enum Held<'a> {
    Lent(&'a Val),
    Made(Owned),
}

/// A thing that equals this one.
#[cycle(copy)]
pub fn copy_thing(x: &Owned, alloc: Global) -> Result<Owned, AllocError>
    ensures { IfOk result (λ copy. thing_of copy ≡ thing_of x.now) }
{
    match x {
        Owned::Value(v) => Ok(Owned::Value(v.copy(alloc)?)),
        Owned::Built(b) => Ok(Owned::Built(b.copy(alloc)?)),
        Owned::Several(fields) => Ok(Owned::Several(copy_fields(fields, alloc)?)),
    }
}

/// The same field by field.
#[cycle(copy)]
fn copy_fields(fields: &Fields, alloc: Global) -> Result<Fields, AllocError>
    ensures { IfOk result (λ copy. things_of copy ≡ things_of fields.now) }
{
    match fields {
        Fields::End => Ok(Fields::End),
        Fields::And(first, rest) => {
            let first = Box::new(alloc, copy_thing(first, alloc)?)?;
            let rest = Box::new(alloc, copy_fields(rest, alloc)?)?;
            Ok(Fields::And(first, rest))
        }
    }
}

/// The builder of the same shape that has nothing merged.
#[cycle(bare)]
pub fn bare_thing(x: &Owned, alloc: Global) -> Result<Owned, AllocError>
    ensures { IfOk result (λ b. thing_of b ≡ bare (thing_of x.now)) }
{
    match x {
        Owned::Value(v) => Ok(Owned::Value(v.copy(alloc)?)),
        Owned::Built(b) => Ok(Owned::Built(b.bare(alloc)?)),
        Owned::Several(fields) => Ok(Owned::Several(bare_fields(fields, alloc)?)),
    }
}

/// The same field by field.
#[cycle(bare)]
fn bare_fields(fields: &Fields, alloc: Global) -> Result<Fields, AllocError>
    ensures { IfOk result (λ b. things_of b ≡ bare_things (things_of fields.now)) }
{
    match fields {
        Fields::End => Ok(Fields::End),
        Fields::And(first, rest) => {
            let first = Box::new(alloc, bare_thing(first, alloc)?)?;
            let rest = Box::new(alloc, bare_fields(rest, alloc)?)?;
            Ok(Fields::And(first, rest))
        }
    }
}

/// Appends what a later builder of the same shape has merged.
#[cycle(join)]
pub fn join_thing(x: &mut Owned, later: Owned) -> Result<(), AllocError>
    requires { Join (thing_of x.old) (thing_of later) }
    ensures { OnOk result (thing_of x.new ≡ after_thing (thing_of x.old) (thing_of later)) }
{
    match (x, later) {
        (Owned::Built(b), Owned::Built(more)) => b.join(more),
        (Owned::Several(fields), Owned::Several(more)) => join_fields(fields, more),
        _ => unreachable!(),
    }
}

/// The same field by field.
#[cycle(join)]
fn join_fields(fields: &mut Fields, later: Fields) -> Result<(), AllocError>
    requires { AllJoin (things_of fields.old) (things_of later) }
    ensures { OnOk result (things_of fields.new ≡ after_things (things_of fields.old)
        (things_of later)) }
{
    match (fields, later) {
        (Fields::End, Fields::End) => Ok(()),
        (Fields::And(first, rest), Fields::And(later_first, later_rest)) => {
            join_thing(first, Box::into_inner(later_first))?;
            join_fields(rest, Box::into_inner(later_rest))
        }
        _ => unreachable!(),
    }
}

/// The thing as one that was made: what is lent is copied.
pub fn into_owned(held: Held, alloc: Global) -> Result<Owned, AllocError>
    ensures { IfOk result (λ x. thing_of x ≡ held_of held.entry) }
{
    match held {
        Held::Lent(v) => Ok(Owned::Value(v.copy(alloc)?)),
        Held::Made(x) => Ok(x),
    }
}

/// The value that a thing is. It takes no memory.
pub fn value_of<'a>(held: &'a Held<'a>) -> &'a Val
    requires { IsPlain (held_of held.now) }
    ensures { held_of held.now ≡ plain (view_val result.now) }
{
    match held {
        Held::Lent(v) => v,
        Held::Made(Owned::Value(v)) => v,
        Held::Made(_) => unreachable!(),
    }
}

/// The value that a thing is, as one that was made.
pub fn into_value(held: Held, alloc: Global) -> Result<Val, AllocError>
    requires { IsPlain (held_of held) }
    ensures { IfOk result (λ v. held_of held.entry ≡ plain (view_val v)) }
{
    match held {
        Held::Lent(v) => v.copy(alloc),
        Held::Made(Owned::Value(v)) => Ok(v),
        Held::Made(_) => unreachable!(),
    }
}
