//! Tokens that are taken.
ghost use Rattle.std.specs.Prelude.{◌≡◌, ◌∷◌, ◌+◌, ◌<◌, Some, None, OnOk, IfErr};
ghost use Rattle.weld_tree.specs.ExprTree.{leaf as leaf_at};
ghost use Rattle.weld_tree.specs.ExprView.{view_leaf};
ghost use Rattle.weld_grammar.specs.declared.terminal.Terminal.TheVariants as terminals;
ghost use Rattle.weld_spell.specs.Names.{unbound};
ghost use Rattle.weld_spell.specs.ProgramOf.{number_in};
ghost use Rattle.weld_reduce.specs.declared.stop.Stop.TheVariants.{Broken};
ghost use Rattle.weld_reduce.specs.Values.{token as token_value, expr};
ghost use Rattle.weld_reduce.specs.Forms.{at};
ghost use Rattle.weld_reduce.specs.StateView.{view_state};
ghost use Rattle.weld_reduce.specs.States as states;
ghost use Rattle.weld_reduce.specs.States.{names_of, refuse};
ghost use Rattle.weld_reduce.specs.Made.{made_by_terminal};

use crate::nodes::leaf;
use crate::state::{State, name_let, see_let};
use crate::stop::Stop;
use crate::value::Value;
use std::alloc::{AllocError, Global};
use weld_grammar::Terminal;
use weld_grammar::terminals::{Class, Reserved, Symbol, Token};
use weld_tokens::chars_of;
use weld_tree::{Code, LeafForm, Legs, Place, Sym};

/// The token itself is kept.
fn keep<'a>(token: &'a Token, state: &mut State<'a>) -> Result<(), AllocError>
    ensures { OnOk result
        (view_state state.new ≡ states.push (token_value token.now) (view_state state.old)) }
{
    state.values.push(Value::Token(token))
}

/// A form without parts.
fn push_leaf(
    alloc: Global,
    place: Place,
    form: LeafForm,
    state: &mut State,
) -> Result<(), AllocError>
    ensures { OnOk result
        (view_state state.new ≡ states.push (expr (leaf_at (at place) (view_leaf form)))
        (view_state state.old)) }
{
    let node = leaf(alloc, place, form)?;
    state.values.push(Value::Expr(node))
}

/// A word in the place of a name, which is refused where it is reserved.
#[tactic(auto, using(crate::proofs::CodeRules::refuse_none))]
fn shift_word<'a>(token: &'a Token, state: &mut State<'a>) -> Result<(), AllocError>
    ensures { OnOk result
        (states.shift terminals.Word token.now (view_state state.old)
        ≡ Some (view_state state.new)) }
{
    keep(token, &mut *state)?;
    match token.class {
        Class::Reserved(_) => state.refuse(Code::N2, token.place),
        _ => {}
    }
    Ok(())
}

/// The number of a name's binder; a name that no binder in scope bears is refused, and its number is 0.
#[tactic(auto, using(crate::proofs::CodeRules::refuse_none))]
fn number_of(token: &Token, state: &mut State) -> u32
    ensures number { result ≡ number_in state.old.scope token.now.word }
    ensures refused { view_state state.new ≡ refuse (unbound (names_of state.old.scope) token.now)
        (view_state state.old) }
{
    match state.scope.number_of(token.word.as_slice()) {
        Some(number) => number,
        None => {
            state.refuse(Code::N1, token.place);
            0
        }
    }
}

/// A name.
fn shift_name(alloc: Global, token: &Token, state: &mut State) -> Result<(), AllocError>
    ensures { OnOk result
        (states.shift terminals.Name token.now (view_state state.old)
        ≡ Some (view_state state.new)) }
{
    let number = number_of(token, state);
    push_leaf(alloc, token.place, LeafForm::Name(Sym(number)), state)
}

/// A string.
fn shift_chars(alloc: Global, token: &Token, state: &mut State) -> Result<(), AllocError>
    ensures { OnOk result
        (states.shift terminals.Chars token.now (view_state state.old)
        ≡ Some (view_state state.new)) }
{
    let text = chars_of(alloc, token.word.as_slice())?;
    push_leaf(alloc, token.place, LeafForm::Chars(text), state)
}

/// A reserved word.
fn shift_fixed<'a>(
    alloc: Global,
    word: Reserved,
    token: &'a Token,
    state: &mut State<'a>,
) -> Result<(), AllocError>
    ensures { OnOk result
        (states.shift (terminals.Fixed word) token.now (view_state state.old)
        ≡ Some (view_state state.new)) }
{
    match word {
        Reserved::True => push_leaf(alloc, token.place, LeafForm::Truth(true), state),
        Reserved::False => push_leaf(alloc, token.place, LeafForm::Truth(false), state),
        Reserved::Zip => state.values.push(Value::Legs(Legs::new(alloc))),
        _ => keep(token, state),
    }
}

/// A symbol; those that say no more than their rule aren't kept.
fn shift_sign<'a>(symbol: Symbol, token: &'a Token, state: &mut State<'a>) -> Result<(), Stop>
    requires room { state.old.next + made_by_terminal (terminals.Sign symbol) < 4294967296 }
    ensures ok { OnOk result
        (states.shift (terminals.Sign symbol) token.now (view_state state.old)
        ≡ Some (view_state state.new)) }
    ensures broken { IfErr result
        (λ stop. stop ≡ Broken → states.shift (terminals.Sign symbol) token.now
        (view_state state.old)
        ≡ None) }
{
    match symbol {
        Symbol::LeftParen => Ok(()),
        Symbol::RightParen => Ok(()),
        Symbol::RightBracket => Ok(()),
        Symbol::RightBrace => Ok(()),
        Symbol::Comma => Ok(()),
        Symbol::Colon => Ok(()),
        Symbol::Bar => Ok(()),
        Symbol::Equals => name_let(state),
        Symbol::Semicolon => see_let(state),
        _ => {
            keep(token, state)?;
            Ok(())
        }
    }
}

/// A token is taken as the terminal.
pub fn shift<'a>(
    alloc: Global,
    terminal: Terminal,
    token: &'a Token,
    state: &mut State<'a>,
) -> Result<(), Stop>
    requires room { state.old.next + made_by_terminal terminal < 4294967296 }
    ensures ok { OnOk result
        (states.shift terminal token.now (view_state state.old) ≡ Some (view_state state.new)) }
    ensures broken { IfErr result
        (λ stop. stop ≡ Broken → states.shift terminal token.now (view_state state.old) ≡ None) }
{
    match terminal {
        Terminal::Sign(symbol) => return shift_sign(symbol, token, state),
        Terminal::Fixed(word) => shift_fixed(alloc, word, token, state)?,
        Terminal::Word => shift_word(token, state)?,
        Terminal::Name => shift_name(alloc, token, state)?,
        Terminal::Number => keep(token, state)?,
        Terminal::Field => keep(token, state)?,
        Terminal::Chars => shift_chars(alloc, token, state)?,
    }
    Ok(())
}
