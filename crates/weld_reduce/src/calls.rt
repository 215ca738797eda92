//! Words and brackets before expressions.
ghost use Rattle.std.specs.Prelude.{◌≡◌, Some, None, OnOk, IfErr};
ghost use Rattle.weld_tree.specs.ExprView.{view_one, view_two, view_three, view_many};
ghost use Rattle.weld_reduce.specs.declared.stop.Stop.TheVariants.{Broken};
ghost use Rattle.weld_reduce.specs.Forms as forms;
ghost use Rattle.weld_reduce.specs.Operators.{worded};

use crate::nodes::{many, one, three, two};
use crate::stop::Stop;
use crate::value::Value;
use crate::values::Values;
use std::alloc::Global;
use weld_data::Kind;
use weld_grammar::Rule;
use weld_grammar::terminals::{Class, Reserved, Token};
use weld_tree::{ManyForm, OneForm, ThreeForm, TwoForm};

/// The kind that a word names.
pub fn kind_of_word(class: Class) -> Kind
    ensures { result ≡ forms.kind_of_word class }
{
    match class {
        Class::Reserved(Reserved::I8) => Kind::I8,
        Class::Reserved(Reserved::I16) => Kind::I16,
        Class::Reserved(Reserved::I32) => Kind::I32,
        Class::Reserved(Reserved::I64) => Kind::I64,
        Class::Reserved(Reserved::U8) => Kind::U8,
        Class::Reserved(Reserved::U16) => Kind::U16,
        Class::Reserved(Reserved::U32) => Kind::U32,
        Class::Reserved(Reserved::U64) => Kind::U64,
        _ => Kind::Bool,
    }
}

/// What the sign or word makes of an expression, at its rule.
fn form_of(rule: Rule, token: &Token) -> OneForm
    ensures { view_one result ≡ worded rule token.now }
{
    match rule {
        Rule::Minus => OneForm::Neg,
        Rule::Not => OneForm::Not,
        Rule::Len => OneForm::Len,
        Rule::Finish => OneForm::Finish,
        _ => OneForm::Cast(kind_of_word(token.class)),
    }
}

/// A word or a sign, and one expression.
pub fn call_one(alloc: Global, rule: Rule, values: &mut Values) -> Result<(), Stop>
    ensures ok { OnOk result (forms.call_one (worded rule) values.old ≡ Some values.new) }
    ensures broken { IfErr result
        (λ stop. stop ≡ Broken → forms.call_one (worded rule) values.old ≡ None) }
{
    let e = values.pop_expr()?;
    let token = values.pop_token()?;
    let node = one(alloc, token.place, form_of(rule, token), e)?;
    values.push(Value::Expr(node))?;
    Ok(())
}

/// A word, and two expressions.
pub fn call_two(alloc: Global, form: TwoForm, values: &mut Values) -> Result<(), Stop>
    ensures ok { OnOk result (forms.call_two (view_two form) values.old ≡ Some values.new) }
    ensures broken { IfErr result
        (λ stop. stop ≡ Broken → forms.call_two (view_two form) values.old ≡ None) }
{
    let f = values.pop_expr()?;
    let e = values.pop_expr()?;
    let token = values.pop_token()?;
    let node = two(alloc, token.place, form, e, f)?;
    values.push(Value::Expr(node))?;
    Ok(())
}

/// A word, and three expressions.
pub fn call_three(alloc: Global, form: ThreeForm, values: &mut Values) -> Result<(), Stop>
    ensures ok { OnOk result (forms.call_three (view_three form) values.old ≡ Some values.new) }
    ensures broken { IfErr result
        (λ stop. stop ≡ Broken → forms.call_three (view_three form) values.old ≡ None) }
{
    let g = values.pop_expr()?;
    let f = values.pop_expr()?;
    let e = values.pop_expr()?;
    let token = values.pop_token()?;
    let node = three(alloc, token.place, form, e, f, g)?;
    values.push(Value::Expr(node))?;
    Ok(())
}

/// One more expression of a list.
pub fn next_expr(alloc: Global, values: &mut Values) -> Result<(), Stop>
    ensures ok { OnOk result (forms.next_expr values.old ≡ Some values.new) }
    ensures broken { IfErr result (λ stop. stop ≡ Broken → forms.next_expr values.old ≡ None) }
{
    let e = values.pop_expr()?;
    let mut es = values.pop_exprs(alloc)?;
    es.push(Box::into_inner(e))?;
    values.push(Value::Exprs(es))?;
    Ok(())
}

/// A bracket, and the expressions of a list.
pub fn listed(alloc: Global, form: ManyForm, values: &mut Values) -> Result<(), Stop>
    ensures ok { OnOk result (forms.listed (view_many form) values.old ≡ Some values.new) }
    ensures broken { IfErr result
        (λ stop. stop ≡ Broken → forms.listed (view_many form) values.old ≡ None) }
{
    let es = values.pop_exprs(alloc)?;
    let token = values.pop_token()?;
    let node = many(alloc, token.place, form, es)?;
    values.push(Value::Expr(node))?;
    Ok(())
}

/// A token that says no more, under an expression.
pub fn behind_token(values: &mut Values) -> Result<(), Stop>
    ensures ok { OnOk result (forms.behind_token values.old ≡ Some values.new) }
    ensures broken { IfErr result (λ stop. stop ≡ Broken → forms.behind_token values.old ≡ None) }
{
    let e = values.pop_expr()?;
    values.pop_token()?;
    values.push(Value::Expr(e))?;
    Ok(())
}
