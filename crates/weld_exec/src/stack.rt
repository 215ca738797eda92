//! The stack of things, the newest first.

ghost use Rattle.std.specs.Prelude.{◌≡◌, Bool, OnOk};
ghost use Rattle.weld_meaning.specs.Thing.{more_things, first_of, rest_of};
ghost use Rattle.weld_eval.specs.ThingView.{thing_of, things_of, held_of};
ghost use Rattle.weld_eval.specs.Answers.{OnFault};
ghost use Rattle.weld_plan.specs.Leads.{IsTruthThing};
ghost use Rattle.weld_exec.specs.Stacked.{IsSomething, IsTruthOnTop};

use std::alloc::{AllocError, Global};
use std::mem;
use weld_data::Stop;
use weld_eval::thing::{Fields, Held, Owned, into_owned};
use weld_eval::values::truth_of;

/// Takes the newest thing off the stack. It takes no memory.
pub(crate) fn pop(stack: &mut Fields) -> Owned
    requires { IsSomething (things_of stack.old) }
    ensures thing { thing_of result ≡ first_of (things_of stack.old) }
    ensures rest { things_of stack.new ≡ rest_of (things_of stack.old) }
{
    match mem::replace(stack, Fields::End) {
        Fields::And(x, rest) => {
            *stack = Box::into_inner(rest);
            Box::into_inner(x)
        }
        Fields::End => unreachable!(),
    }
}

/// Drops the newest thing of the stack.
pub(crate) fn drop_top(stack: &mut Fields)
    requires { IsSomething (things_of stack.old) }
    ensures { things_of stack.new ≡ rest_of (things_of stack.old) }
{
    let _newest = pop(stack);
}

/// Puts a thing on the stack. Where memory is wanting, the stack is lost.
pub(crate) fn push(stack: &mut Fields, x: Owned, alloc: Global) -> Result<(), AllocError>
    ensures { OnOk result (things_of stack.new ≡ more_things (thing_of x) (things_of stack.old)) }
{
    let x = Box::new(alloc, x)?;
    let rest = Box::new(alloc, mem::replace(stack, Fields::End))?;
    *stack = Fields::And(x, rest);
    Ok(())
}

/// Puts a thing on the stack, which is copied where it is lent. Where memory is wanting, the stack is lost.
pub(crate) fn put(stack: &mut Fields, x: Held, alloc: Global) -> Result<(), Stop>
    ensures there { OnOk result (things_of stack.new ≡ more_things (held_of x.entry)
        (things_of stack.old)) }
    ensures memory { OnFault result ⊥ }
{
    let x = match into_owned(x, alloc) {
        Ok(x) => x,
        Err(_) => return Err(Stop::Memory),
    };
    match push(stack, x, alloc) {
        Ok(()) => Ok(()),
        Err(_) => Err(Stop::Memory),
    }
}

/// Whether the newest thing, which is a truth value, is true. It takes no memory.
pub(crate) fn top_truth(stack: &Fields) -> bool
    requires { (c : Bool) × IsTruthOnTop (things_of stack.now) c }
    ensures { IsTruthOnTop (things_of stack.now) result }
{
    match stack {
        Fields::And(x, _) => truth_in(x),
        Fields::End => unreachable!(),
    }
}

/// The truth value that a thing is.
fn truth_in(x: &Owned) -> bool
    requires { (c : Bool) × IsTruthThing (thing_of x.now) c }
    ensures { IsTruthThing (thing_of x.now) result }
{
    match x {
        Owned::Value(v) => truth_of(v),
        _ => unreachable!(),
    }
}
