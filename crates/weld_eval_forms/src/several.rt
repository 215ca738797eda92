//! Vectors and structs, and what a row appends to a builder.

ghost use Rattle.std.specs.Prelude.{◌≡◌, ◌++◌, ◌∷◌, [], true, IfOk, OnOk};
ghost use Rattle.weld_data.specs.View.{view_val};
ghost use Rattle.weld_tree.specs.ExprTree.{make_vec, make_struct};
ghost use Rattle.weld_meaning.specs.Evaluation.{many_thing};
ghost use Rattle.weld_meaning.specs.Thing.{plain, more_things, after_thing};
ghost use Rattle.weld_tree.specs.ExprView.{view_many};
ghost use Rattle.weld_eval.specs.Answers.{Answers, OnFault};
ghost use Rattle.weld_eval.specs.Takes.{Join, IsPlain};
ghost use Rattle.weld_eval.specs.ThingView.{thing_of, things_of, held_of};
ghost use Rattle.weld_eval_forms.specs.FormTakes.{ManyTakes, all_of, pack_things, is_value as is_a_value, all_are_values, values_among};

use std::alloc::{AllocError, Global};
use weld_data::{Column, Stop, Val, Vals};
use weld_eval::thing::{Fields, Held, Owned, into_owned, join_thing};
use weld_tree::ManyForm;

/// One thing more, which is copied where it is lent. After want of memory what was there is only good
/// to be dropped.
pub fn push_thing(things: &mut Vec<Owned>, x: Held, alloc: Global) -> Result<(), AllocError>
    ensures { OnOk result (all_of things.new.items ≡ all_of things.old.items ++ held_of x.entry
        ∷ []) }
{
    let x = into_owned(x, alloc)?;
    things.push(x)?;
    Ok(())
}

/// A vector or a struct of these things.
pub fn many<'a>(form: ManyForm, things: Vec<Owned>, alloc: Global) -> Result<Held<'a>, Stop>
    requires { ManyTakes (view_many form) (pack_things (all_of things.items)) }
    ensures { Answers held_of result (many_thing (view_many form)
        (pack_things (all_of things.items))) }
{
    match form {
        ManyForm::Vec => vector_of(things, alloc),
        ManyForm::Struct => struct_of(things, alloc),
    }
}

/// The vector of values.
#[tactic(auto, using(crate::proofs::ManyShapes::vector_of, crate::proofs::ManyShapes::vector_values))]
fn vector_of<'a>(things: Vec<Owned>, alloc: Global) -> Result<Held<'a>, Stop>
    requires { ManyTakes make_vec (pack_things (all_of things.items)) }
    ensures { Answers held_of result (many_thing make_vec (pack_things (all_of things.items))) }
{
    match values_of(things, alloc) {
        Ok(vals) => Ok(Held::Made(Owned::Value(Val::List(Column::Nest(vals))))),
        Err(_) => Err(Stop::Memory),
    }
}

/// The struct of things: a value where all of them are values.
#[tactic(auto, using(crate::proofs::ManyShapes::struct_of_values, crate::proofs::ManyShapes::struct_of_builders))]
fn struct_of<'a>(things: Vec<Owned>, alloc: Global) -> Result<Held<'a>, Stop>
    ensures { Answers held_of result (many_thing make_struct (pack_things (all_of things.items))) }
{
    if all_values(&things) {
        match values_of(things, alloc) {
            Ok(vals) => Ok(Held::Made(Owned::Value(Val::Struct(vals)))),
            Err(_) => Err(Stop::Memory),
        }
    } else {
        match fields_of(things, alloc) {
            Ok(fields) => Ok(Held::Made(Owned::Several(fields))),
            Err(_) => Err(Stop::Memory),
        }
    }
}

/// Whether each thing is a value.
#[tactic(auto, using(crate::proofs::ManyShapes::value_first, crate::proofs::ManyShapes::builder_first, crate::proofs::ManyShapes::no_first))]
fn all_values(things: &[Owned]) -> bool
    ensures { result ≡ all_are_values (all_of things.now) }
{
    for place in 0..things.len() {
        if !is_value(&things[place]) {
            return false;
        }
    }
    true
}

/// Whether the thing is a value.
fn is_value(x: &Owned) -> bool
    ensures { result ≡ is_a_value (thing_of x.now) }
{
    match x {
        Owned::Value(_) => true,
        _ => false,
    }
}

/// The value that the thing is.
fn value_in(x: Owned) -> Val
    requires { IsPlain (thing_of x) }
    ensures { thing_of x ≡ plain (view_val result) }
{
    match x {
        Owned::Value(v) => v,
        _ => unreachable!(),
    }
}

/// The values that the things are.
#[tactic(auto, using(crate::proofs::ManyShapes::first_plain, crate::proofs::ManyShapes::rest_values, crate::proofs::ManyShapes::one_value_more))]
fn values_of(things: Vec<Owned>, alloc: Global) -> Result<Vals, AllocError>
    requires { all_are_values (all_of things.items) ≡ true }
    ensures { IfOk result (λ vals. vals ≡ values_among (all_of things.items)) }
{
    let mut vals = Vals::new(alloc);
    for x in things {
        match vals.push(value_in(x)) {
            Ok(()) => {}
            Err(e) => return Err(e),
        }
    }
    Ok(vals)
}

/// The things as a struct's fields, put together from the last one.
#[tactic(auto, using(crate::proofs::ManyShapes::last_before, crate::proofs::ManyShapes::nothing_before))]
fn fields_of(things: Vec<Owned>, alloc: Global) -> Result<Fields, AllocError>
    ensures { IfOk result (λ fields. things_of fields ≡ pack_things (all_of things.items)) }
{
    let mut left = things;
    let mut fields = Fields::End;
    for _ in 0..left.len() {
        match left.pop() {
            Some(x) => fields = field_before(alloc, x, fields)?,
            None => unreachable!(),
        }
    }
    Ok(fields)
}

/// One field before these.
fn field_before(alloc: Global, x: Owned, rest: Fields) -> Result<Fields, AllocError>
    ensures { IfOk result (λ fields. things_of fields ≡ more_things (thing_of x) (things_of rest)) }
{
    let first = Box::new(alloc, x)?;
    let rest = Box::new(alloc, rest)?;
    Ok(Fields::And(first, rest))
}

/// Appends what a row has merged to a builder. After want of memory it is only good to be dropped.
pub fn append(builder: &mut Owned, merged: Held, alloc: Global) -> Result<(), Stop>
    requires { Join (thing_of builder.old) (held_of merged) }
    ensures joined { OnOk result (thing_of builder.new ≡ after_thing (thing_of builder.old)
        (held_of merged.entry)) }
    ensures memory { OnFault result ⊥ }
{
    let merged = match into_owned(merged, alloc) {
        Ok(merged) => merged,
        Err(_) => return Err(Stop::Memory),
    };
    match join_thing(builder, merged) {
        Ok(()) => Ok(()),
        Err(_) => Err(Stop::Memory),
    }
}
