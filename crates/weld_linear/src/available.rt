ghost use Rattle.std.specs.Prelude.{◌≡◌, ◌==◌, [], ◌∷◌, ◌++◌, ◌&&◌, not, length, map, IfOk, OnOk};
ghost use Rattle.weld_meaning.specs.Available.{same_path};
ghost use Rattle.weld_meaning.specs.LinearWalk.{has, some_of, after_taking, builders_of};
ghost use Rattle.weld_linear.specs.AvailableView.{view_builder, same_left, stands_below};

use crate::path::{Path, is_below, same_path};
use crate::source::Source;
use std::alloc::{AllocError, Global};
use std::marker::Model;
use weld_tree::Sym;

/// A builder of a name, by its path.
#[derive(Drop)]
pub struct Builder {
    pub name: Sym,
    pub path: Path,
}

/// The builders that are available, the newest first.
#[derive(Drop)]
pub struct Available {
    items: Vec<Builder>,
}

impl Model for Available {
    ghost use Rattle.std.specs.Prelude.{List, map, ℕ};
    ghost use Rattle.std.specs.Coded.{coded_list, coded×, coded_ℕ};

    ghost Value = { List (ℕ × List ℕ) };

    ghost coded = { coded_list (coded× coded_ℕ (coded_list coded_ℕ)) };

    ghost use Rattle.weld_linear.specs.AvailableView.{view_builder};

    ghost view = { λ a. map view_builder a.items.items };
}

impl Available {
    /// No builders. It takes no memory.
    pub fn new(alloc: Global) -> Available
        ensures { result ≡ [] }
    {
        Available {
            items: Vec::new(alloc),
        }
    }

    /// How many builders there are.
    pub fn len(&self) -> usize
        ensures { result ≡ length self.now }
    {
        self.items.len()
    }

    /// Whether there is none.
    pub fn is_empty(&self) -> bool
        ensures { result ≡ (length self.now == 0) }
    {
        self.items.is_empty()
    }

    /// Appends a builder.
    pub fn push(&mut self, name: Sym, path: Path) -> Result<(), AllocError>
        ensures { OnOk result (self.new ≡ self.old ++ (name.0, path) ∷ []) }
    {
        self.items.push(Builder { name, path })?;
        Ok(())
    }

    /// A copy of the list.
    pub fn copy(&self, alloc: Global) -> Result<Available, AllocError>
        ensures { IfOk result (λ copy. copy ≡ self.now) }
    {
        let mut copy = Available::new(alloc);
        for builder in &self.items {
            copy.push(builder.name, builder.path.copy(alloc)?)?;
        }
        Ok(copy)
    }

    /// Whether the builder is there.
    #[tactic(auto, using(crate::proofs::Lists::has_left, crate::proofs::Lists::no_has_left))]
    pub fn has(&self, name: Sym, path: &[usize]) -> bool
        ensures { result ≡ has self.now name.0 path.now }
    {
        for builder in &self.items {
            if builder.name.0 == name.0 && same_path(builder.path.as_slice(), path) {
                return true;
            }
        }
        false
    }

    /// Whether one of these isn't there.
    #[tactic(auto, using(crate::proofs::Lists::lacks_left, crate::proofs::Lists::no_lacks_left))]
    pub fn lacks(&self, wanted: &Available) -> bool
        ensures { result ≡ some_of (λ e. not (has self.now e.0 e.1)) wanted.now }
    {
        for builder in &wanted.items {
            if !self.has(builder.name, builder.path.as_slice()) {
                return true;
            }
        }
        false
    }

    /// Whether a builder of the name is there.
    #[tactic(auto, using(crate::proofs::Lists::named_left, crate::proofs::Lists::no_named_left))]
    pub fn has_name(&self, name: Sym) -> bool
        ensures { result ≡ some_of (λ e. e.0 == name.0) self.now }
    {
        for builder in &self.items {
            if builder.name.0 == name.0 {
                return true;
            }
        }
        false
    }

    /// Whether the same builders are there in the same order.
    pub fn same(&self, other: &Available) -> bool
        ensures { result ≡ same_left self.now other.now }
    {
        same_builders(&self.items, &other.items)
    }

    /// Takes the builders of the name at and below the path away, where the name has this origin.
    pub fn take(&mut self, name: Sym, path: &[usize], source: &Source)
        ensures { self.new ≡ after_taking (λ s q. stands_below name.0 path.now source.now (s, q))
            self.old }
    {
        self.items
            .retain(|builder| !stands_below(name, path, source, builder));
    }

    /// Puts the builders of a binder of this origin in front.
    pub fn bind(&mut self, name: Sym, source: &Source, alloc: Global) -> Result<(), AllocError>
        ensures { OnOk result (self.new ≡ builders_of name.0 source.now ++ self.old) }
    {
        let mut bound = source.builders(name, &Path::root(alloc), alloc)?;
        bound.items.append(&mut self.items)?;
        self.items = bound.items;
        Ok(())
    }
}

/// Whether these are the same builders in the same order.
#[tactic(auto, using(crate::proofs::Lists::same_left_left, crate::proofs::Lists::no_same_left_left, crate::proofs::Lists::other_left))]
fn same_builders(builders: &[Builder], others: &[Builder]) -> bool
    ensures { result ≡ same_left (map view_builder builders.now) (map view_builder others.now) }
{
    if builders.len() != others.len() {
        return false;
    }
    for (i, builder) in builders.iter().enumerate() {
        if !same_builder(builder, &others[i]) {
            return false;
        }
    }
    true
}

/// Whether the two are one builder.
fn same_builder(builder: &Builder, other: &Builder) -> bool
    ensures { result ≡ ((builder.now.name.0 == other.now.name.0) && same_path builder.now.path
        other.now.path) }
{
    builder.name.0 == other.name.0 && same_path(builder.path.as_slice(), other.path.as_slice())
}

/// Whether it is a builder of the name, of this origin, at or below the path.
fn stands_below(name: Sym, path: &[usize], source: &Source, builder: &Builder) -> bool
    ensures { result ≡ stands_below name.0 path.now source.now (view_builder builder.now) }
{
    name.0 == builder.name.0
        && is_below(path, builder.path.as_slice())
        && source.is_builder_path(builder.path.as_slice())
}
