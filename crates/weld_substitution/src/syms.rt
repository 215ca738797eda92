//! Lists of names.

ghost use Rattle.std.specs.Prelude.{◌≡◌, [], ◌∷◌, ◌++◌, length, map, OnOk, OnErr};
ghost use Rattle.weld_substitution.specs.FreeNames.{is_among, noted_once};

use std::alloc::{AllocError, Global};
use std::marker::Model;
use weld_tree::Sym;

/// A list of names. Contracts see the list of their numbers.
#[derive(Debug, Drop)]
pub struct Syms {
    items: Vec<Sym>,
}

impl Model for Syms {
    ghost use Rattle.std.specs.Prelude.{List, ℕ, map};

    ghost Value = { List ℕ };

    ghost view = { λ a. map (λ s. s.0) a.items.items };
}

impl Syms {
    /// The list without names. It takes no memory.
    pub fn new(alloc: Global) -> Syms
        ensures { result ≡ [] }
    {
        Syms {
            items: Vec::new(alloc),
        }
    }

    /// The names.
    pub fn as_slice(&self) -> &[Sym]
        ensures { map (λ s. s.0) result.now ≡ self.now }
    {
        self.items.as_slice()
    }

    /// How many names there are.
    pub fn len(&self) -> usize
        ensures { result ≡ length self.now }
    {
        self.items.len()
    }

    /// Whether the name is there. It takes no memory.
    pub fn contains(&self, name: Sym) -> bool
        ensures { result ≡ is_among self.now name.0 }
    {
        for item in &self.items {
            if item.0 == name.0 {
                return true;
            }
        }
        false
    }

    /// Appends a name. Where memory is wanting, the list stays as it was.
    pub fn push(&mut self, name: Sym) -> Result<(), AllocError>
        ensures ok { OnOk result (self.new ≡ self.old ++ name.0 ∷ []) }
        ensures err { OnErr result (self.new ≡ self.old) }
    {
        self.items.push(name)?;
        Ok(())
    }

    /// Appends a name that isn't there yet. Where memory is wanting, the list stays as it was.
    pub fn push_once(&mut self, name: Sym) -> Result<(), AllocError>
        ensures ok { OnOk result (self.new ≡ noted_once self.old name.0) }
        ensures err { OnErr result (self.new ≡ self.old) }
    {
        if self.contains(name) {
            return Ok(());
        }
        self.push(name)
    }
}
