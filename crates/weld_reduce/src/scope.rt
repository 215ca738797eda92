//! The binders that are open, and the names in scope.
ghost use Rattle.std.specs.Prelude.{◌≡◌, ◌∷◌, [], Some, None, true, false, if◌then◌else◌, MatchOption, OnOk, IfSome, IfNone, IsSome, ℕ, List, bytes_eq};
ghost use Rattle.weld_spell.specs.Names.{bears};
ghost use Rattle.weld_spell.specs.ProgramOf.{number_in};
ghost use Rattle.weld_reduce.specs.Views.{view_named, view_seen};
ghost use Rattle.weld_reduce.specs.States.{names_of};
ghost use Rattle.weld_reduce.specs.Newest.{newest};
ghost use Rattle.weld_reduce.specs.Hiding.{number_at};

use std::alloc::{AllocError, Global};
use std::collections::HashMap;
use std::marker::Model;
use weld_grammar::terminals::Token;
use weld_tree::Binder;

/// A binder with its word.
#[derive(Drop)]
pub struct Named<'a> {
    pub binder: Binder,
    pub word: &'a Token,
}

/// A name that is seen: its word, and its binder's number.
#[derive(Clone, Copy, Drop)]
pub struct Seen<'a> {
    pub word: &'a Token,
    pub number: u32,
}

/// The binders that are open. Contracts see them as plain data, the newest first.
#[derive(Drop)]
pub struct Open<'a> {
    items: Vec<Named<'a>>,
}

/// A name that is seen, and the number of the binder of the same name that it hides.
#[derive(Clone, Copy, Drop)]
struct Hiding<'a> {
    seen: Seen<'a>,
    hidden: Option<u32>,
}

/// The names in scope. Contracts see them as plain data, the newest first.
#[derive(Drop)]
pub struct Scope<'a> {
    items: Vec<Hiding<'a>>,
    newest: HashMap<&'a [u8], u32>,
}

impl<'a> Model for Open<'a> {
    ghost use Rattle.std.specs.Prelude.{List, reverse, map};
    ghost use Rattle.weld_reduce.specs.States.{Named as Plain};

    ghost Value = { List Plain };

    ghost use Rattle.std.specs.Coded.{codes};
    ghost use Rattle.weld_tree.specs.LabelCode.{coded_binder};

    ghost coded = { Prim.hlevel (codes, coded_binder) };

    ghost use Rattle.weld_reduce.specs.Views.{view_named};

    ghost view = { λ s. reverse (map view_named s.items.items) };
}

impl<'a> Model for Scope<'a> {
    ghost use Rattle.std.specs.Prelude.{List, reverse};
    ghost use Rattle.weld_spell.specs.ProgramOf.{Bound};

    ghost Value = { List Bound };

    ghost use Rattle.weld_reduce.specs.Hiding.{bounds, IsScope};

    ghost view = { λ s. bounds (reverse s.items.items) };

    ghost invariant = { λ s. IsScope s.newest (reverse s.items.items) };
}

impl<'a> Open<'a> {
    /// No binders. It takes no memory.
    pub fn new(alloc: Global) -> Open<'a>
        ensures { result ≡ [] }
    {
        Open {
            items: Vec::new(alloc),
        }
    }

    /// Opens a binder.
    pub fn push(&mut self, named: Named<'a>) -> Result<(), AllocError>
        ensures { OnOk result (self.new ≡ view_named named.entry ∷ self.old) }
    {
        self.items.push(named)?;
        Ok(())
    }

    /// Closes the binder that was opened last.
    pub fn pop(&mut self) -> Option<Named<'a>>
        ensures { MatchOption result
            (self.old ≡ []) (λ named. self.old ≡ view_named named ∷ self.new) }
    {
        self.items.pop()
    }

    /// The binder that was opened last, as it is seen.
    pub fn newest(&self) -> Option<Seen<'a>>
        ensures { MatchOption result
            (newest self.now ≡ None) (λ seen. newest self.now ≡ Some (view_seen seen)) }
    {
        match self.items.last() {
            None => None,
            Some(named) => Some(Seen {
                word: named.word,
                number: named.binder.sym.0,
            }),
        }
    }
}

/// The binder of the name that was hidden is the newest again, if there is one.
fn uncover(newest: &mut HashMap<&[u8], u32>, bytes: &[u8], hidden: Option<u32>)
    requires { IsSome (number_at newest.old bytes.now) }
    ensures { (name : List ℕ) → number_at newest.new name
        ≡ if bytes_eq bytes.now name then hidden else number_at newest.old name }
{
    match hidden {
        None => {
            newest.remove(bytes);
        }
        Some(number) => {
            if let Some(newest) = newest.get_mut(bytes) {
                *newest = number;
            }
        }
    }
}

impl<'a> Scope<'a> {
    /// No names. It takes no memory.
    pub fn new(alloc: Global) -> Scope<'a>
        ensures { result ≡ [] }
    {
        Scope {
            items: Vec::new(alloc),
            newest: HashMap::new(alloc),
        }
    }

    /// A name is seen.
    pub fn push(&mut self, seen: Seen<'a>) -> Result<(), AllocError>
        ensures { OnOk result (self.new ≡ view_seen seen.entry ∷ self.old) }
    {
        let bytes = seen.word.word.as_slice();
        let hidden = self.newest.get(bytes).copied();
        self.items.push(Hiding { seen, hidden })?;
        match self.newest.insert(bytes, seen.number) {
            Ok(_) => Ok(()),
            Err(_) => {
                self.items.pop();
                Err(AllocError)
            }
        }
    }

    /// The newest name isn't seen any more.
    pub fn pop(&mut self) -> Option<Seen<'a>>
        ensures { MatchOption result
            (self.old ≡ []) (λ seen. self.old ≡ view_seen seen ∷ self.new) }
    {
        match self.items.pop() {
            None => None,
            Some(Hiding { seen, hidden }) => {
                uncover(&mut self.newest, seen.word.word.as_slice(), hidden);
                Some(seen)
            }
        }
    }

    /// The number of the newest binder of the name, if one is in scope.
    pub fn number_of(&self, bytes: &[u8]) -> Option<u32>
        ensures some { IfSome result (λ n. n ≡ number_in self.now bytes.now) }
        ensures bound { IfSome result (λ _. bears (names_of self.now) bytes.now ≡ true) }
        ensures zero { IfNone result (number_in self.now bytes.now ≡ 0) }
        ensures unbound { IfNone result (bears (names_of self.now) bytes.now ≡ false) }
    {
        self.newest.get(bytes).copied()
    }
}
