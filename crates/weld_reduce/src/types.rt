//! Types.
ghost use Rattle.std.specs.Prelude.{◌≡◌, Some, None, IfOk, OnOk, IfErr};
ghost use Rattle.weld_tree.specs.TypeTree as trees;
ghost use Rattle.weld_tree.specs.TypeTree.{pack};
ghost use Rattle.weld_reduce.specs.declared.stop.Stop.TheVariants.{Broken};
ghost use Rattle.weld_reduce.specs.Forms as forms;

use crate::calls::kind_of_word;
use crate::stop::Stop;
use crate::value::Value;
use crate::values::Values;
use std::alloc::{AllocError, Global};
use weld_data::{Kind, MergeOp};
use weld_grammar::terminals::{Class, Reserved, Symbol};
use weld_tree::{Ty, TyForm, Tys};

/// The operator of a builder that a token names.
fn merge_op(class: Class) -> MergeOp
    ensures { result ≡ forms.merge_op class }
{
    match class {
        Class::Symbol(Symbol::Plus) => MergeOp::Add,
        Class::Symbol(Symbol::Star) => MergeOp::Mul,
        Class::Reserved(Reserved::Min) => MergeOp::Min,
        _ => MergeOp::Max,
    }
}

/// The type of the values of a kind.
fn scalar(alloc: Global, kind: Kind) -> Result<Box<Ty>, AllocError>
    ensures { IfOk result (λ ty. ty.value ≡ trees.scalar kind) }
{
    Ok(Box::new(
        alloc,
        Ty {
            form: TyForm::Scalar(kind),
        },
    )?)
}

/// The type of vectors of these items.
fn vec(alloc: Global, item: Box<Ty>) -> Result<Box<Ty>, AllocError>
    ensures { IfOk result (λ ty. ty.value ≡ trees.vec item.value) }
{
    Ok(Box::new(
        alloc,
        Ty {
            form: TyForm::Vec(item),
        },
    )?)
}

/// The type of dictionaries of these keys and values.
fn dict(alloc: Global, key: Box<Ty>, value: Box<Ty>) -> Result<Box<Ty>, AllocError>
    ensures { IfOk result (λ ty. ty.value ≡ trees.dict key.value value.value) }
{
    Ok(Box::new(
        alloc,
        Ty {
            form: TyForm::Dict(key, value),
        },
    )?)
}

/// The type of structs of these fields.
fn structure(alloc: Global, fields: Tys) -> Result<Box<Ty>, AllocError>
    ensures { IfOk result (λ ty. ty.value ≡ trees.struct (pack fields)) }
{
    Ok(Box::new(
        alloc,
        Ty {
            form: TyForm::Struct(fields),
        },
    )?)
}

/// A kind's word, or a type that is there already.
pub fn any_type(alloc: Global, values: &mut Values) -> Result<(), Stop>
    ensures ok { OnOk result (forms.any_type values.old ≡ Some values.new) }
    ensures broken { IfErr result (λ stop. stop ≡ Broken → forms.any_type values.old ≡ None) }
{
    if !values.has_token() {
        return Ok(());
    }
    let token = values.pop_token()?;
    let ty = scalar(alloc, kind_of_word(token.class))?;
    values.push(Value::Type(token.place, ty))?;
    Ok(())
}

/// `vec [ t`
pub fn vec_type(alloc: Global, values: &mut Values) -> Result<(), Stop>
    ensures ok { OnOk result (forms.vec_type values.old ≡ Some values.new) }
    ensures broken { IfErr result (λ stop. stop ≡ Broken → forms.vec_type values.old ≡ None) }
{
    let (_, item) = values.pop_type()?;
    values.pop_token()?;
    let word = values.pop_token()?;
    let ty = vec(alloc, item)?;
    values.push(Value::Type(word.place, ty))?;
    Ok(())
}

/// `dict [ t u`
pub fn dict_type(alloc: Global, values: &mut Values) -> Result<(), Stop>
    ensures ok { OnOk result (forms.dict_type values.old ≡ Some values.new) }
    ensures broken { IfErr result (λ stop. stop ≡ Broken → forms.dict_type values.old ≡ None) }
{
    let (_, value) = values.pop_type()?;
    let (_, key) = values.pop_type()?;
    values.pop_token()?;
    let word = values.pop_token()?;
    let ty = dict(alloc, key, value)?;
    values.push(Value::Type(word.place, ty))?;
    Ok(())
}

/// One more type of a struct.
pub fn next_type(alloc: Global, values: &mut Values) -> Result<(), Stop>
    ensures ok { OnOk result (forms.next_type values.old ≡ Some values.new) }
    ensures broken { IfErr result (λ stop. stop ≡ Broken → forms.next_type values.old ≡ None) }
{
    let (_, ty) = values.pop_type()?;
    let mut types = values.pop_types(alloc)?;
    types.push(Box::into_inner(ty))?;
    values.push(Value::Types(types))?;
    Ok(())
}

/// `{ ts`
pub fn struct_type(alloc: Global, values: &mut Values) -> Result<(), Stop>
    ensures ok { OnOk result (forms.struct_type values.old ≡ Some values.new) }
    ensures broken { IfErr result (λ stop. stop ≡ Broken → forms.struct_type values.old ≡ None) }
{
    let types = values.pop_types(alloc)?;
    let brace = values.pop_token()?;
    let ty = structure(alloc, types)?;
    values.push(Value::Type(brace.place, ty))?;
    Ok(())
}

/// The operator of a builder.
pub fn merge_operator(values: &mut Values) -> Result<(), Stop>
    ensures ok { OnOk result (forms.merge_operator values.old ≡ Some values.new) }
    ensures broken { IfErr result (λ stop. stop ≡ Broken → forms.merge_operator values.old ≡ None) }
{
    let token = values.pop_token()?;
    values.push(Value::Op(merge_op(token.class)))?;
    Ok(())
}
