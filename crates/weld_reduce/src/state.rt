//! What the machine has: its stack, the binders that are open, the names in scope, the number of the next binder, the
//! first name refused, and the parameters.
ghost use Rattle.std.specs.Prelude.{◌≡◌, ◌+◌, ◌<◌, Some, None, IfOk, OnOk, IfErr};
ghost use Rattle.weld_reduce.specs.declared.stop.Stop.TheVariants.{Broken, Memory};
ghost use Rattle.weld_reduce.specs.Views.{view_named};
ghost use Rattle.weld_reduce.specs.StateView.{view_state};
ghost use Rattle.weld_reduce.specs.States as states;

use crate::scope::{Named, Open, Scope, Seen};
use crate::stop::Stop;
use crate::values::Values;
use std::alloc::Global;
use weld_tree::{Binder, Binders, Code, Place, Sym, Ty};

/// The machine's state.
#[derive(Drop)]
pub struct State<'a> {
    pub values: Values<'a>,
    pub binders: Open<'a>,
    pub scope: Scope<'a>,
    pub next: u32,
    pub misnamed: Option<(Code, Place)>,
    pub params: Binders,
}

impl<'a> State<'a> {
    /// Before the first token. It takes no memory.
    pub fn new(alloc: Global) -> State<'a>
        ensures { view_state result ≡ states.start }
    {
        State {
            values: Values::new(alloc),
            binders: Open::new(alloc),
            scope: Scope::new(alloc),
            next: 0,
            misnamed: None,
            params: Binders::new(alloc),
        }
    }

    /// Refuses a name, unless an earlier one is.
    pub fn refuse(&mut self, code: Code, place: Place)
        ensures { view_state self.new ≡ states.refuse (Some (code, place)) (view_state self.old) }
    {
        if self.misnamed.is_none() {
            self.misnamed = Some((code, place));
        }
    }
}

/// The type written behind a name, with its place; of no type nothing is said.
fn note(values: &mut Values) -> Result<(Option<Ty>, Place), Stop>
    ensures ok { IfOk result (λ n. states.note values.old ≡ ((n.0, n.1), values.new)) }
    ensures memory { IfErr result (λ stop. stop ≡ Memory) }
{
    if !values.has_type() {
        return Ok((None, Place { line: 0, column: 0 }));
    }
    let (place, ty) = values.pop_type()?;
    Ok((Some(Box::into_inner(ty)), place))
}

/// The binder of the word on top, perhaps with a type, of this number.
fn named<'a>(number: u32, values: &mut Values<'a>) -> Result<Named<'a>, Stop>
    ensures ok { IfOk result
        (λ b. states.named number values.old ≡ Some (view_named b, values.new)) }
    ensures broken { IfErr result (λ stop. stop ≡ Broken → states.named number values.old ≡ None) }
{
    let (note, note_place) = note(values)?;
    let word = values.pop_token()?;
    let binder = Binder {
        sym: Sym(number),
        place: word.place,
        note,
        note_place,
    };
    Ok(Named { binder, word })
}

/// The binder of a `let`: it isn't seen in its value.
pub fn name_let(state: &mut State) -> Result<(), Stop>
    requires room { state.old.next + 1 < 4294967296 }
    ensures ok { OnOk result
        (states.name_let (view_state state.old) ≡ Some (view_state state.new)) }
    ensures broken { IfErr result
        (λ stop. stop ≡ Broken → states.name_let (view_state state.old) ≡ None) }
{
    let named = named(state.next, &mut state.values)?;
    state.binders.push(named)?;
    state.next += 1;
    Ok(())
}

/// In the body of the `let` it is seen.
pub fn see_let(state: &mut State) -> Result<(), Stop>
    ensures ok { OnOk result (states.see_let (view_state state.old) ≡ Some (view_state state.new)) }
    ensures broken { IfErr result
        (λ stop. stop ≡ Broken → states.see_let (view_state state.old) ≡ None) }
{
    match state.binders.newest() {
        None => Err(Stop::Broken),
        Some(seen) => {
            state.scope.push(seen)?;
            Ok(())
        }
    }
}

/// The binder of a lambda.
pub fn bind(state: &mut State) -> Result<(), Stop>
    requires room { state.old.next + 1 < 4294967296 }
    ensures ok { OnOk result (states.bind (view_state state.old) ≡ Some (view_state state.new)) }
    ensures broken { IfErr result
        (λ stop. stop ≡ Broken → states.bind (view_state state.old) ≡ None) }
{
    let named = named(state.next, &mut state.values)?;
    state.scope.push(Seen {
        word: named.word,
        number: state.next,
    })?;
    state.binders.push(named)?;
    state.next += 1;
    Ok(())
}

/// A parameter of the program.
pub fn param(state: &mut State) -> Result<(), Stop>
    requires room { state.old.next + 1 < 4294967296 }
    ensures ok { OnOk result (states.param (view_state state.old) ≡ Some (view_state state.new)) }
    ensures broken { IfErr result
        (λ stop. stop ≡ Broken → states.param (view_state state.old) ≡ None) }
{
    let named = named(state.next, &mut state.values)?;
    state.scope.push(Seen {
        word: named.word,
        number: state.next,
    })?;
    state.params.push(named.binder)?;
    state.next += 1;
    Ok(())
}

/// The binder that was opened last, which is closed, and isn't seen any more.
pub fn close(state: &mut State) -> Result<Binder, Stop>
    ensures ok { IfOk result
        (λ b. states.close (view_state state.old) ≡ Some (b, view_state state.new)) }
    ensures broken { IfErr result (λ stop. states.close (view_state state.old) ≡ None) }
{
    let Some(named) = state.binders.pop() else {
        return Err(Stop::Broken);
    };
    if state.scope.pop().is_none() {
        return Err(Stop::Broken);
    }
    Ok(named.binder)
}
