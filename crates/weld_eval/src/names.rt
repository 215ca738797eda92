//! Names with things of their own.

ghost use Rattle.std.specs.Prelude.{◌≡◌, ◌<◌, ◌==◌, [], ◌∷◌, length as length_of, drop as drop_items, None, Some, MatchOption, OnOk, OnErr};
ghost use Rattle.weld_meaning.specs.Environment.{look_for};
ghost use Rattle.weld_eval.specs.NamesView.{env_of_names};
ghost use Rattle.weld_eval.specs.ThingView.{thing_of};

use crate::thing::Owned;
use std::alloc::{AllocError, Global};
use weld_tree::Sym;

/// A name with its thing.
#[derive(Drop)]
pub struct Named {
    pub name: Sym,
    pub thing: Owned,
}

/// Names with their things, which they own. The newest name is seen first.
#[derive(Drop)]
pub struct Names {
    items: Vec<Named>,
}

impl Names {
    /// No names. It takes no memory.
    pub fn new(alloc: Global) -> Names
        ensures { env_of_names result ≡ [] }
    {
        Names {
            items: Vec::new(alloc),
        }
    }

    /// How many names there are.
    pub fn len(&self) -> usize
        ensures { result ≡ length_of (env_of_names self.now) }
    {
        self.items.len()
    }

    /// Whether there is no name.
    pub fn is_empty(&self) -> bool
        ensures { result ≡ (length_of (env_of_names self.now) == 0) }
    {
        self.items.is_empty()
    }

    /// One name more, which is seen first. Where memory is wanting, the names stay as they were.
    pub fn bind(&mut self, name: Sym, thing: Owned) -> Result<(), AllocError>
        ensures ok { OnOk result (env_of_names self.new ≡ (name.0, thing_of thing)
            ∷ env_of_names self.old) }
        ensures err { OnErr result (env_of_names self.new ≡ env_of_names self.old) }
    {
        self.items.push(Named { name, thing })?;
        Ok(())
    }

    /// Without the newest name, whose thing is dropped.
    pub fn unbind(&mut self)
        requires { 0 < length_of (env_of_names self.old) }
        ensures { env_of_names self.new ≡ drop_items 1 (env_of_names self.old) }
    {
        let _newest = self.items.pop();
    }

    /// The thing of a name, if it is there. It takes no memory.
    #[tactic(auto, using(crate::proofs::OwnedNames::all_names, crate::proofs::OwnedNames::name_found, crate::proofs::OwnedNames::name_older, crate::proofs::OwnedNames::no_name))]
    pub fn thing(&self, name: Sym) -> Option<&Owned>
        ensures { MatchOption result (look_for name.0 (env_of_names self.now) ≡ None)
            (λ x. look_for name.0 (env_of_names self.now) ≡ Some (thing_of x.now)) }
    {
        let mut left = self.items.len();
        while left > 0 {
            left -= 1;
            let named = &self.items[left];
            if named.name.0 == name.0 {
                return Some(&named.thing);
            }
        }
        None
    }
}
