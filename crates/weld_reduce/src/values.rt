//! The machine's stack.
ghost use Rattle.std.specs.Prelude.{◌≡◌, ◌∷◌, [], Some, None, MatchOption, OnOk, IfOk, IfErr};
ghost use Rattle.weld_tree.specs.ExprView.{view_leg};
ghost use Rattle.weld_reduce.specs.declared.stop.Stop.TheVariants.{Broken};
ghost use Rattle.weld_reduce.specs.Views.{view_value};
ghost use Rattle.weld_reduce.specs.Values.{top_token, top_expr, top_exprs, top_leg, top_legs, top_type, top_types, top_op};
ghost use Rattle.weld_reduce.specs.Tops.{is_token, is_expr, are_legs, is_type};

use crate::stop::Stop;
use crate::value::Value;
use std::alloc::{AllocError, Global};
use std::marker::Model;
use weld_data::MergeOp;
use weld_grammar::terminals::Token;
use weld_tree::{Expr, Exprs, Leg, Legs, Place, Ty, Tys};

/// The values. Contracts see them as plain data, the newest first.
#[derive(Drop)]
pub struct Values<'a> {
    items: Vec<Value<'a>>,
}

impl<'a> Model for Values<'a> {
    ghost use Rattle.std.specs.Prelude.{List, reverse, map};
    ghost use Rattle.weld_reduce.specs.Values.{Value as Plain};

    ghost Value = { List Plain };

    ghost use Rattle.std.specs.Coded.{codes};
    ghost use Rattle.weld_tree.specs.TypeCode.{coded_type};
    ghost use Rattle.weld_tree.specs.ExprCode.{coded_expr, coded_leg};

    ghost coded = { Prim.hlevel (codes, coded_type, coded_expr, coded_leg) };

    ghost use Rattle.weld_reduce.specs.Views.{view_value};

    ghost view = { λ s. reverse (map view_value s.items.items) };
}

/// What was on top doesn't fit, and is let go.
#[cold]
#[inline(never)]
fn unfit(_value: Option<Value>) -> Stop
    ensures { result ≡ Broken }
{
    Stop::Broken
}

impl<'a> Values<'a> {
    /// No values. It takes no memory.
    pub fn new(alloc: Global) -> Values<'a>
        ensures { result ≡ [] }
    {
        Values {
            items: Vec::new(alloc),
        }
    }

    /// Puts a value on top.
    #[inline(always)]
    pub fn push(&mut self, value: Value<'a>) -> Result<(), AllocError>
        ensures { OnOk result (self.new ≡ view_value value.entry ∷ self.old) }
    {
        if self.items.len() == self.items.capacity() {
            self.items.reserve(1)?;
        }
        self.items.push_reserved(value);
        Ok(())
    }

    /// Takes the value on top away.
    pub fn pop(&mut self) -> Option<Value<'a>>
        ensures { MatchOption result
            (self.old ≡ []) (λ value. self.old ≡ view_value value ∷ self.new) }
    {
        self.items.pop()
    }

    /// Takes a token away.
    #[inline(always)]
    pub fn pop_token(&mut self) -> Result<&'a Token, Stop>
        ensures ok { IfOk result (λ t. top_token self.old ≡ Some (t.now, self.new)) }
        ensures broken { IfErr result (λ _. top_token self.old ≡ None) }
    {
        match self.pop() {
            Some(Value::Token(token)) => Ok(token),
            other => Err(unfit(other)),
        }
    }

    /// Takes an expression away.
    #[inline(always)]
    pub fn pop_expr(&mut self) -> Result<Box<Expr>, Stop>
        ensures ok { IfOk result (λ e. top_expr self.old ≡ Some (e.value, self.new)) }
        ensures broken { IfErr result (λ _. top_expr self.old ≡ None) }
    {
        match self.pop() {
            Some(Value::Expr(e)) => Ok(e),
            other => Err(unfit(other)),
        }
    }

    /// Takes an expression away, or two or more of a list; one is a list by itself.
    pub fn pop_exprs(&mut self, alloc: Global) -> Result<Exprs, Stop>
        ensures ok { IfOk result (λ es. top_exprs self.old ≡ Some (es, self.new)) }
        ensures broken { IfErr result (λ stop. stop ≡ Broken → top_exprs self.old ≡ None) }
    {
        match self.pop() {
            Some(Value::Expr(e)) => {
                let mut one = Exprs::new(alloc);
                one.push(Box::into_inner(e))?;
                Ok(one)
            }
            Some(Value::Exprs(es)) => Ok(es),
            _ => Err(Stop::Broken),
        }
    }

    /// Takes a leg away; an expression is one as a whole.
    pub fn pop_leg(&mut self) -> Result<Leg, Stop>
        ensures ok { IfOk result (λ l. top_leg self.old ≡ Some (view_leg l, self.new)) }
        ensures broken { IfErr result (λ _. top_leg self.old ≡ None) }
    {
        match self.pop() {
            Some(Value::Expr(e)) => Ok(Leg::Whole(e)),
            Some(Value::Leg(leg)) => Ok(leg),
            _ => Err(Stop::Broken),
        }
    }

    /// Takes legs away.
    pub fn pop_legs(&mut self) -> Result<Legs, Stop>
        ensures ok { IfOk result (λ ls. top_legs self.old ≡ Some (ls, self.new)) }
        ensures broken { IfErr result (λ _. top_legs self.old ≡ None) }
    {
        match self.pop() {
            Some(Value::Legs(legs)) => Ok(legs),
            _ => Err(Stop::Broken),
        }
    }

    /// Takes a type away, with its place.
    pub fn pop_type(&mut self) -> Result<(Place, Box<Ty>), Stop>
        ensures ok { IfOk result (λ t. top_type self.old ≡ Some ((t.0, t.1.value), self.new)) }
        ensures broken { IfErr result (λ _. top_type self.old ≡ None) }
    {
        match self.pop() {
            Some(Value::Type(place, ty)) => Ok((place, ty)),
            _ => Err(Stop::Broken),
        }
    }

    /// Takes a type away, or two or more of a struct's; one is a list by itself.
    pub fn pop_types(&mut self, alloc: Global) -> Result<Tys, Stop>
        ensures ok { IfOk result (λ ts. top_types self.old ≡ Some (ts, self.new)) }
        ensures broken { IfErr result (λ stop. stop ≡ Broken → top_types self.old ≡ None) }
    {
        match self.pop() {
            Some(Value::Type(_, ty)) => {
                let mut one = Tys::new(alloc);
                one.push(Box::into_inner(ty))?;
                Ok(one)
            }
            Some(Value::Types(types)) => Ok(types),
            _ => Err(Stop::Broken),
        }
    }

    /// Takes an operator away.
    pub fn pop_op(&mut self) -> Result<MergeOp, Stop>
        ensures ok { IfOk result (λ o. top_op self.old ≡ Some (o, self.new)) }
        ensures broken { IfErr result (λ _. top_op self.old ≡ None) }
    {
        match self.pop() {
            Some(Value::Op(op)) => Ok(op),
            _ => Err(Stop::Broken),
        }
    }

    /// Whether a token lies on top.
    pub fn has_token(&self) -> bool
        ensures { result ≡ is_token self.now }
    {
        match self.items.last() {
            Some(Value::Token(_)) => true,
            _ => false,
        }
    }

    /// Whether an expression lies on top.
    pub fn has_expr(&self) -> bool
        ensures { result ≡ is_expr self.now }
    {
        match self.items.last() {
            Some(Value::Expr(_)) => true,
            _ => false,
        }
    }

    /// Whether legs lie on top.
    pub fn has_legs(&self) -> bool
        ensures { result ≡ are_legs self.now }
    {
        match self.items.last() {
            Some(Value::Legs(_)) => true,
            _ => false,
        }
    }

    /// Whether a type lies on top.
    pub fn has_type(&self) -> bool
        ensures { result ≡ is_type self.now }
    {
        match self.items.last() {
            Some(Value::Type(_, _)) => true,
            _ => false,
        }
    }
}
