ghost use Rattle.std.specs.Prelude.{◌≡◌, ◌==◌, [], ◌∷◌, ◌++◌, length, IfOk, OnOk, OnErr};

use crate::place::Place;
use crate::sym::Sym;
use crate::ty::Ty;
use std::alloc::{AllocError, Global};
use std::marker::Model;

/// Where a name is bound, with the type that is written beside it, if one is, and the place of that
/// type's first token. Of a binder without a type `note_place` says nothing.
#[derive(Drop)]
pub struct Binder {
    pub sym: Sym,
    pub place: Place,
    pub note: Option<Ty>,
    pub note_place: Place,
}

/// A list of binders.
#[derive(Drop)]
pub struct Binders {
    items: Vec<Binder>,
}

impl Model for Binders {
    ghost use Rattle.std.specs.Prelude.{List};
    ghost use Rattle.std.specs.Coded.{coded_list};
    ghost use Rattle.weld_tree.specs.LabelCode.{coded_binder};
    ghost use Rattle.weld_tree.specs.declared.binder.Binder.{Binder};

    ghost Value = { List Binder };

    ghost coded = { coded_list coded_binder };

    ghost view = { λ a. a.items.items };
}

impl Binder {
    /// A copy of the binder.
    pub fn copy(&self, alloc: Global) -> Result<Binder, AllocError>
        ensures { IfOk result (λ copy. copy ≡ self.now) }
    {
        Ok(Binder {
            sym: self.sym,
            place: self.place,
            note: match &self.note {
                None => None,
                Some(ty) => Some(ty.copy(alloc)?),
            },
            note_place: self.note_place,
        })
    }
}

impl Binders {
    /// The list without binders. It takes no memory.
    pub fn new(alloc: Global) -> Binders
        ensures { result ≡ [] }
    {
        Binders {
            items: Vec::new(alloc),
        }
    }

    /// The list of these binders, which it keeps. It takes no memory.
    pub fn from_vec(items: Vec<Binder>) -> Binders
        ensures { result ≡ items.items }
    {
        Binders { items }
    }

    /// The binders, given up. It takes no memory.
    pub fn into_vec(self) -> Vec<Binder>
        ensures { result.items ≡ self }
    {
        let Binders { items } = self;
        items
    }

    /// The binders.
    pub fn as_slice(&self) -> &[Binder]
        ensures { result.now ≡ self.now }
    {
        self.items.as_slice()
    }

    /// A copy of the list.
    pub fn copy(&self, alloc: Global) -> Result<Binders, AllocError>
        ensures { IfOk result (λ copy. copy ≡ self.now) }
    {
        let mut items = Vec::new(alloc);
        for binder in &self.items {
            items.push(binder.copy(alloc)?)?;
        }
        Ok(Binders { items })
    }

    /// How many binders there are.
    pub fn len(&self) -> usize
        ensures { result ≡ length self.now }
    {
        self.items.len()
    }

    /// Whether there is no binder.
    pub fn is_empty(&self) -> bool
        ensures { result ≡ (length self.now == 0) }
    {
        self.items.is_empty()
    }

    /// Appends a binder. Where memory is wanting, the list stays as it was and what was handed in is
    /// dropped.
    pub fn push(&mut self, item: Binder) -> Result<(), AllocError>
        ensures ok { OnOk result (self.new ≡ self.old ++ item ∷ []) }
        ensures err { OnErr result (self.new ≡ self.old) }
    {
        self.items.push(item)?;
        Ok(())
    }
}
