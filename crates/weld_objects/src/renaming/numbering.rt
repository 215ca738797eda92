//! Which number each number becomes.
ghost use Rattle.std.specs.Prelude.{◌≡◌, ◌==◌, ℕ, if◌then◌else◌, Some, OnOk, OnErr, []};
ghost use Rattle.weld_meaning.specs.Environment.{look_for};
ghost use Rattle.weld_objects.specs.Numbering.{number_in};

use std::alloc::{AllocError, Global};
use std::collections::BTreeMap;
use std::marker::Model;
use weld_tree::Sym;

/// A map of numbers: each becomes the one that is listed for it, and one that isn't listed stays.
/// Contracts see it as the list of its pairs.
#[derive(Drop)]
pub struct Numbering {
    numbers: BTreeMap<u32, u32>,
}

impl Model for Numbering {
    ghost use Rattle.std.specs.Prelude.{ℕ, List};
    ghost use Rattle.std.specs.Coded.{coded_list, coded×, coded_ℕ};

    ghost Value = { List (ℕ × ℕ) };

    ghost coded = { coded_list (coded× coded_ℕ coded_ℕ) };

    ghost view = { λ n. n.numbers.entries };
}

impl Numbering {
    /// The map that changes no number. It takes no memory.
    pub fn new(alloc: Global) -> Numbering
        ensures { result ≡ [] }
    {
        Numbering {
            numbers: BTreeMap::new(alloc),
        }
    }

    /// Lists what a number becomes from now on. Where memory is wanting, the map stays as it was.
    #[tactic(auto, using(crate::proofs::Looked::looked_up))]
    pub fn put(&mut self, from: Sym, to: Sym) -> Result<(), AllocError>
        ensures ok { OnOk result ((s : ℕ) → look_for s self.new
            ≡ (if s == from.0 then Some to.0 else look_for s self.old)) }
        ensures err { OnErr result (self.new ≡ self.old) }
    {
        self.numbers.insert(from.0, to.0)?;
        Ok(())
    }

    /// What the number becomes. It takes no memory.
    #[tactic(auto, using(crate::proofs::Looked::looked_up))]
    pub fn number(&self, from: Sym) -> Sym
        ensures { result.0 ≡ number_in self.now from.0 }
    {
        match self.numbers.get(&from.0) {
            Some(to) => Sym(*to),
            None => from,
        }
    }
}
