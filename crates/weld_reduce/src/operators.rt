//! Operators between expressions.
ghost use Rattle.std.specs.Prelude.{◌≡◌, Some, None, IfOk, OnOk, IfErr};
ghost use Rattle.weld_tree.specs.ExprView.{view_two};
ghost use Rattle.weld_reduce.specs.declared.stop.Stop.TheVariants.{Broken};
ghost use Rattle.weld_reduce.specs.Forms as forms;
ghost use Rattle.weld_reduce.specs.Operators.{line};

use crate::nodes::two;
use crate::stop::Stop;
use crate::value::Value;
use crate::values::Values;
use std::alloc::Global;
use weld_data::BinOp;
use weld_grammar::Rule;
use weld_grammar::terminals::{Class, Symbol, Token};
use weld_tree::TwoForm;

/// The operator of an equality's token.
fn equality_op(class: Class) -> BinOp
    ensures { result ≡ forms.equality_op class }
{
    match class {
        Class::Symbol(Symbol::EqualsEquals) => BinOp::Eq,
        _ => BinOp::Ne,
    }
}

/// The operator of a relation's token.
fn relation_op(class: Class) -> BinOp
    ensures { result ≡ forms.relation_op class }
{
    match class {
        Class::Symbol(Symbol::Less) => BinOp::Lt,
        Class::Symbol(Symbol::LessEquals) => BinOp::Le,
        Class::Symbol(Symbol::Greater) => BinOp::Gt,
        _ => BinOp::Ge,
    }
}

/// The operator of a sum's token.
fn sum_op(class: Class) -> BinOp
    ensures { result ≡ forms.sum_op class }
{
    match class {
        Class::Symbol(Symbol::Plus) => BinOp::Add,
        _ => BinOp::Sub,
    }
}

/// The operator of a product's token.
fn product_op(class: Class) -> BinOp
    ensures { result ≡ forms.product_op class }
{
    match class {
        Class::Symbol(Symbol::Star) => BinOp::Mul,
        Class::Symbol(Symbol::Slash) => BinOp::Div,
        _ => BinOp::Rem,
    }
}

/// What the operator's token makes of two expressions, at the rule of its line.
fn form_of(rule: Rule, token: &Token) -> TwoForm
    ensures { view_two result ≡ line rule token.now }
{
    match rule {
        Rule::OrPart => TwoForm::Or,
        Rule::AndPart => TwoForm::And,
        Rule::EqualityPart => TwoForm::Binary(equality_op(token.class)),
        Rule::RelationPart => TwoForm::Binary(relation_op(token.class)),
        Rule::SumPart => TwoForm::Binary(sum_op(token.class)),
        _ => TwoForm::Binary(product_op(token.class)),
    }
}

/// `e o f`
pub fn between(alloc: Global, rule: Rule, values: &mut Values) -> Result<(), Stop>
    ensures ok { OnOk result (forms.between (line rule) values.old ≡ Some values.new) }
    ensures broken { IfErr result
        (λ stop. stop ≡ Broken → forms.between (line rule) values.old ≡ None) }
{
    let f = values.pop_expr()?;
    let token = values.pop_token()?;
    let e = values.pop_expr()?;
    let node = two(alloc, token.place, form_of(rule, token), e, f)?;
    values.push(Value::Expr(node))?;
    Ok(())
}
