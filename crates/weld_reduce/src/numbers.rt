//! Numbers, and the fields of structs.
ghost use Rattle.std.specs.Prelude.{◌≡◌, Some, None, IfOk, OnOk, IfErr};
ghost use Rattle.weld_spell.specs.ProgramOf.{kind_of_class};
ghost use Rattle.weld_reduce.specs.declared.stop.Stop.TheVariants.{Broken};
ghost use Rattle.weld_reduce.specs.Forms as forms;

use crate::calls::call_one;
use crate::nodes::{leaf, one};
use crate::stop::Stop;
use crate::value::Value;
use crate::values::Values;
use std::alloc::Global;
use weld_data::Kind;
use weld_grammar::Rule;
use weld_grammar::terminals::{Class, Token};
use weld_tokens::{class_of, field_of, literal_of};
use weld_tree::{Expr, LeafForm, OneForm, Place};

/// Plain numbers are of kind i32, those with `L` of kind i64.
fn kind_of(class: Class) -> Kind
    ensures { result ≡ kind_of_class class }
{
    match class {
        Class::Long => Kind::I64,
        _ => Kind::I32,
    }
}

/// A number that is in its range, at the place.
fn literal(alloc: Global, negative: bool, place: Place, token: &Token) -> Result<Box<Expr>, Stop>
    ensures ok { IfOk result (λ e. forms.literal negative place token.now ≡ Some e.value) }
    ensures broken { IfErr result
        (λ stop. stop ≡ Broken → forms.literal negative place token.now ≡ None) }
{
    match literal_of(token.word.as_slice(), token.class, negative) {
        None => Err(Stop::Broken),
        Some(value) => {
            let number = LeafForm::Int(kind_of(token.class), i128::from(value));
            Ok(leaf(alloc, place, number)?)
        }
    }
}

/// A number that stands by itself.
pub fn number(alloc: Global, values: &mut Values) -> Result<(), Stop>
    ensures ok { OnOk result (forms.number values.old ≡ Some values.new) }
    ensures broken { IfErr result (λ stop. stop ≡ Broken → forms.number values.old ≡ None) }
{
    if !values.has_token() {
        return Ok(());
    }
    let token = values.pop_token()?;
    let e = literal(alloc, false, token.place, token)?;
    values.push(Value::Expr(e))?;
    Ok(())
}

/// A negative literal, or a negation.
pub fn minus(alloc: Global, values: &mut Values) -> Result<(), Stop>
    ensures ok { OnOk result (forms.minus values.old ≡ Some values.new) }
    ensures broken { IfErr result (λ stop. stop ≡ Broken → forms.minus values.old ≡ None) }
{
    if !values.has_token() {
        return call_one(alloc, Rule::Minus, values);
    }
    let token = values.pop_token()?;
    let sign = values.pop_token()?;
    let e = literal(alloc, true, sign.place, token)?;
    values.push(Value::Expr(e))?;
    Ok(())
}

/// The number of a field's token.
#[tactic(auto, using(crate::proofs::CodeRules::field_is_told, crate::proofs::CodeRules::no_field_is_told))]
fn field_number(token: &Token) -> Result<u32, Stop>
    ensures ok { IfOk result (λ n. forms.field_number token.now ≡ Some n) }
    ensures broken { IfErr result (λ _. forms.field_number token.now ≡ None) }
{
    match class_of(token.word.as_slice()) {
        Some(Class::Field) => Ok(field_of(token.word.as_slice())),
        _ => Err(Stop::Broken),
    }
}

/// `e . $k`
pub fn field(alloc: Global, values: &mut Values) -> Result<(), Stop>
    ensures ok { OnOk result (forms.field values.old ≡ Some values.new) }
    ensures broken { IfErr result (λ stop. stop ≡ Broken → forms.field values.old ≡ None) }
{
    let token = values.pop_token()?;
    let dot = values.pop_token()?;
    let e = values.pop_expr()?;
    let number = field_number(token)?;
    let node = one(alloc, dot.place, OneForm::Field(number), e)?;
    values.push(Value::Expr(node))?;
    Ok(())
}
