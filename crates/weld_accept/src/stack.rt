ghost use Rattle.std.specs.Prelude.{◌≡◌, ◌≤◌, ◌+◌, ◌∷◌, [], ◌++◌, length, reverse, MatchOption, OnOk};
ghost use Rattle.std.specs.Vec.{vec_len, vec_capacity};
ghost use Rattle.weld_accept.specs.Machine.{due};

use crate::entry::Entry;
use std::alloc::{AllocError, Global};
use std::marker::Model;
use weld_grammar::Item;

/// What is pending. Contracts see it as a list, the next entry first.
#[derive(Drop)]
pub struct Stack {
    entries: Vec<Entry>,
}

impl Model for Stack {
    ghost use Rattle.std.specs.Prelude.{List, reverse};
    ghost use Rattle.weld_accept.specs.declared.entry.Entry.{Entry};

    ghost Value = { List Entry };

    ghost view = { λ s. reverse s.entries.items };
}

/// Puts these few entries behind the others, one after another: there is room for them.
#[inline(always)]
fn put_all(entries: &mut Vec<Entry>, more: &[Entry])
    requires { vec_len entries.old + length more.now ≤ vec_capacity entries.old }
    ensures { entries.new.items ≡ entries.old.items ++ more.now }
{
    for entry in more {
        entries.push_reserved(*entry);
    }
}

impl Stack {
    /// Nothing pending. It takes no memory.
    pub fn new(alloc: Global) -> Stack
        ensures { result ≡ [] }
    {
        Stack {
            entries: Vec::new(alloc),
        }
    }

    /// Puts an entry in front of all.
    pub fn push(&mut self, entry: Entry) -> Result<(), AllocError>
        ensures { OnOk result (self.new ≡ entry ∷ self.old) }
    {
        self.entries.push(entry)?;
        Ok(())
    }

    /// Takes the first entry away.
    pub fn pop(&mut self) -> Option<Entry>
        ensures { MatchOption result (self.old ≡ []) (λ entry. self.old ≡ entry ∷ self.new) }
    {
        self.entries.pop()
    }

    /// Puts these entries in front of all, the last of them first.
    pub fn extend(&mut self, entries: &[Entry]) -> Result<(), AllocError>
        ensures { OnOk result (self.new ≡ reverse entries.now ++ self.old) }
    {
        self.entries.reserve(entries.len())?;
        put_all(&mut self.entries, entries);
        Ok(())
    }

    /// Puts these items in front of all, in this order.
    pub fn push_all(&mut self, items: &[Item]) -> Result<(), AllocError>
        ensures { OnOk result (self.new ≡ due items.now ++ self.old) }
    {
        if let Some((first, rest)) = items.split_first() {
            self.push_all(rest)?;
            self.push(Entry::Due(*first))?;
        }
        Ok(())
    }
}
