//! Forms that bind names.
ghost use Rattle.std.specs.Prelude.{◌≡◌, Some, None, IfOk, OnOk, IfErr};
ghost use Rattle.weld_tree.specs.ExprTree as trees;
ghost use Rattle.weld_tree.specs.ExprTree.{pack_legs};
ghost use Rattle.weld_reduce.specs.declared.stop.Stop.TheVariants.{Broken};
ghost use Rattle.weld_reduce.specs.Forms.{at};
ghost use Rattle.weld_reduce.specs.StateView.{view_state};
ghost use Rattle.weld_reduce.specs.States as states;

use crate::nodes::{iterate, let_in};
use crate::state::{State, close};
use crate::stop::Stop;
use crate::value::Value;
use std::alloc::{AllocError, Global};
use weld_tree::{Binder, Expr, Form, Known, Legs, Place};

/// `let x = e; f`
pub fn reduce_let(alloc: Global, state: &mut State) -> Result<(), Stop>
    ensures ok { OnOk result
        (states.reduce_let (view_state state.old) ≡ Some (view_state state.new)) }
    ensures broken { IfErr result
        (λ stop. stop ≡ Broken → states.reduce_let (view_state state.old) ≡ None) }
{
    let binder = close(state)?;
    let body = state.values.pop_expr()?;
    let value = state.values.pop_expr()?;
    let token = state.values.pop_token()?;
    let node = let_in(alloc, token.place, binder, value, body)?;
    state.values.push(Value::Expr(node))?;
    Ok(())
}

/// `iterate(e, |x| f)`
pub fn reduce_iterate(alloc: Global, state: &mut State) -> Result<(), Stop>
    ensures ok { OnOk result
        (states.reduce_iterate (view_state state.old) ≡ Some (view_state state.new)) }
    ensures broken { IfErr result
        (λ stop. stop ≡ Broken → states.reduce_iterate (view_state state.old) ≡ None) }
{
    let binder = close(state)?;
    let body = state.values.pop_expr()?;
    let value = state.values.pop_expr()?;
    let token = state.values.pop_token()?;
    let node = iterate(alloc, token.place, value, binder, body)?;
    state.values.push(Value::Expr(node))?;
    Ok(())
}

/// The binders of a loop's lambda.
#[derive(Drop)]
pub struct RowBinders {
    pub builder: Binder,
    pub number: Binder,
    pub row: Binder,
}

/// A loop.
fn loop_over(
    alloc: Global,
    place: Place,
    legs: Legs,
    builder: Box<Expr>,
    binders: RowBinders,
    body: Box<Expr>,
) -> Result<Box<Expr>, AllocError>
    ensures { IfOk result
        (λ node. node.value ≡ trees.loop (at place) (pack_legs legs) builder.value
        binders.builder binders.number binders.row body.value) }
{
    let RowBinders {
        builder: first,
        number,
        row,
    } = binders;
    let first = Box::new(alloc, first)?;
    let number = Box::new(alloc, number)?;
    let row = Box::new(alloc, row)?;
    Ok(Box::new(
        alloc,
        Expr {
            form: Form::For(legs, builder, first, number, row, body),
            place,
            ty: Known::Blank,
        },
    )?)
}

/// `for(l, e, |x, y, z| f)`
pub fn reduce_for(alloc: Global, state: &mut State) -> Result<(), Stop>
    ensures ok { OnOk result
        (states.reduce_for (view_state state.old) ≡ Some (view_state state.new)) }
    ensures broken { IfErr result
        (λ stop. stop ≡ Broken → states.reduce_for (view_state state.old) ≡ None) }
{
    let row = close(state)?;
    let number = close(state)?;
    let first = close(state)?;
    let body = state.values.pop_expr()?;
    let builder = state.values.pop_expr()?;
    let legs = state.values.pop_legs()?;
    let token = state.values.pop_token()?;
    let binders = RowBinders {
        builder: first,
        number,
        row,
    };
    let node = loop_over(alloc, token.place, legs, builder, binders, body)?;
    state.values.push(Value::Expr(node))?;
    Ok(())
}
