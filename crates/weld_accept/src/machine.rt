//! One step: what is pending after one token more, and the steps of the derivation that it takes.
ghost use Rattle.std.specs.Prelude.{◌≡◌, [], ◌∷◌, Some, None, true, OnOk, IfOk, IsTrue, IsFalse};
ghost use Rattle.std.specs.Bool.{MatchBool};
ghost use Rattle.weld_grammar.specs.Grammar.{item as one_item};
ghost use Rattle.weld_grammar.specs.Begins.{begins as begins_class, nullable as nullable_item};
ghost use Rattle.weld_grammar.specs.Pending.{depth, behind, first_begun as first_of, step as step_of, can_end};
ghost use Rattle.weld_accept.specs.Machine.{items_of, Moves, Opens};

use crate::entry::Entry;
use crate::operand::{operand, operator, primary};
use crate::stack::Stack;
use crate::starts::begins;
use crate::step::Step;
use crate::steps::Steps;
use crate::table::{Production, body};
use std::alloc::AllocError;
use weld_grammar::laws::parts_open;
use weld_grammar::terminals::Class;
use weld_grammar::{Item, Terminal};

/// Whether the item can be empty.
pub fn nullable(item: Item) -> bool
    ensures { result ≡ nullable_item item }
{
    match item {
        Item::One(_) => false,
        Item::Part(_) => false,
        Item::Optional(_) => true,
        Item::Repeated(_) => true,
    }
}

/// The first of the items that a token of the class may begin.
fn first_begun(choices: &[Item], class: Class) -> Item
    ensures { result ≡ first_of choices.now class }
{
    if let Some((first, rest)) = choices.split_first() {
        if begins(*first, class) {
            *first
        } else {
            first_begun(rest, class)
        }
    } else {
        Item::One(Terminal::Word)
    }
}

/// Opens the item at a token that begins it, and uses the token up: the rules that begin here leave on the
/// stack what is still to come of them, each over its end.
fn open(item: Item, class: Class, stack: &mut Stack, steps: &mut Steps) -> Result<(), AllocError>
    requires { IsTrue (begins_class item class) }
    ensures pending { OnOk result (items_of stack.new
        ≡ behind depth (one_item item) class (items_of stack.old)) }
    ensures opened { OnOk result (Opens item class stack.old steps.old stack.new steps.new) }
{
    parts_open();
    match item {
        Item::One(terminal) => steps.push(Step::Shift(terminal)),
        Item::Optional(rule) => open(Item::Part(rule), class, stack, steps),
        Item::Repeated(rule) => {
            stack.push(Entry::Due(item))?;
            open(Item::Part(rule), class, stack, steps)
        }
        Item::Part(rule) => {
            stack.push(Entry::End(rule))?;
            match body(rule) {
                Production::OneOf(choices) => {
                    let chosen = first_begun(choices, class);
                    open(chosen, class, stack, steps)
                }
                Production::All(items) => match items.split_first() {
                    None => Ok(()),
                    Some((first, rest)) => {
                        stack.push_all(rest)?;
                        open(*first, class, stack, steps)
                    }
                },
            }
        }
    }
}

/// The same; a terminal is taken at once.
#[inline(always)]
fn take(item: Item, class: Class, stack: &mut Stack, steps: &mut Steps) -> Result<(), AllocError>
    requires { IsTrue (begins_class item class) }
    ensures pending { OnOk result (items_of stack.new
        ≡ behind depth (one_item item) class (items_of stack.old)) }
    ensures opened { OnOk result (Opens item class stack.old steps.old stack.new steps.new) }
{
    parts_open();
    match item {
        Item::One(terminal) => steps.push(Step::Shift(terminal)),
        _ => open(item, class, stack, steps),
    }
}

/// The same, at once where an operand begins what it mostly begins, or an operator what follows one: so the levels between
/// an expression and its operand aren't opened one by one.
fn begin(item: Item, class: Class, stack: &mut Stack, steps: &mut Steps) -> Result<(), AllocError>
    requires { IsTrue (begins_class item class) }
    ensures pending { OnOk result (items_of stack.new
        ≡ behind depth (one_item item) class (items_of stack.old)) }
    ensures opened { OnOk result (Opens item class stack.old steps.old stack.new steps.new) }
{
    if let Item::Part(rule) = item {
        if let Some(entries) = operand(rule) {
            if let Some(part) = primary(class) {
                stack.extend(entries)?;
                return take(part, class, stack, steps);
            }
        }
    }
    if let (Item::Repeated(rule), Class::Symbol(symbol)) = (item, class) {
        if let Some(entries) = operator(rule) {
            stack.extend(entries)?;
            return steps.push(Step::Shift(Terminal::Sign(symbol)));
        }
    }
    open(item, class, stack, steps)
}

/// Uses one token up: ends the rules that end before it, and opens the first pending item that a token of
/// the class may begin, where all before it can be empty. False where there is none.
pub fn step(stack: &mut Stack, steps: &mut Steps, class: Class) -> Result<bool, AllocError>
    ensures pending { IfOk result (λ moved. MatchBool moved
        (step_of (items_of stack.old) class ≡ Some (items_of stack.new))
        (step_of (items_of stack.old) class ≡ None)) }
    ensures made { IfOk result (λ moved. IsTrue moved
        → Moves stack.old steps.old (class ∷ []) stack.new steps.new) }
{
    while let Some(entry) = stack.pop() {
        match entry {
            Entry::End(rule) => steps.push(Step::Reduce(rule))?,
            Entry::Due(item) => {
                if begins(item, class) {
                    begin(item, class, stack, steps)?;
                    return Ok(true);
                }
                if !nullable(item) {
                    return Ok(false);
                }
            }
        }
    }
    Ok(false)
}

/// Ends the rules that are open behind the last token. False where something pending can't be empty.
pub fn finish(stack: Stack, steps: &mut Steps) -> Result<bool, AllocError>
    ensures pending { IfOk result (λ ended. ended ≡ can_end (items_of stack)) }
    ensures made { IfOk result (λ ended. IsTrue ended → Moves stack steps.old [] [] steps.new) }
{
    let mut stack = stack;
    while let Some(entry) = stack.pop() {
        match entry {
            Entry::End(rule) => steps.push(Step::Reduce(rule))?,
            Entry::Due(item) => {
                if !nullable(item) {
                    return Ok(false);
                }
            }
        }
    }
    Ok(true)
}
