ghost use Rattle.std.specs.Prelude.{◌≡◌, ◌==◌, ◌<◌, ◌++◌, ◌∷◌, [], length, slice_index, IfOk, OnOk, OnErr};
ghost use Rattle.weld_lazy.specs.View.{view_ids};

use std::alloc::{AllocError, Global};
use std::marker::Model;

/// An object of a graph, by its number there, from 0.
#[derive(Clone, Copy, Debug, PartialEq, Eq, Hash)]
pub struct ObjectId(pub u32);

/// A list of objects of a graph. Contracts see the list of their numbers.
#[derive(Drop)]
pub struct Ids {
    numbers: Vec<u32>,
}

impl Model for Ids {
    ghost use Rattle.std.specs.Prelude.{ℕ, List};
    ghost use Rattle.std.specs.Coded.{coded_list, coded_ℕ};

    ghost Value = { List ℕ };

    ghost coded = { coded_list coded_ℕ };

    ghost view = { λ ids. ids.numbers.items };
}

impl Ids {
    /// The list without objects. It takes no memory.
    pub fn new(alloc: Global) -> Ids
        ensures { result ≡ [] }
    {
        Ids {
            numbers: Vec::new(alloc),
        }
    }

    /// How many there are. It takes no memory.
    pub fn len(&self) -> usize
        ensures { result ≡ length self.now }
    {
        self.numbers.len()
    }

    /// Whether there is none. It takes no memory.
    pub fn is_empty(&self) -> bool
        ensures { result ≡ (length self.now == 0) }
    {
        self.numbers.is_empty()
    }

    /// The one of that place, from 0, which is there. It takes no memory.
    pub fn at(&self, place: usize) -> ObjectId
        requires { place < length self.now }
        ensures { result.0 ≡ slice_index self.now place }
    {
        ObjectId(self.numbers[place])
    }

    /// Appends one. Where memory is wanting, the list stays as it was.
    pub fn push(&mut self, id: ObjectId) -> Result<(), AllocError>
        ensures ok { OnOk result (self.new ≡ self.old ++ id.0 ∷ []) }
        ensures err { OnErr result (self.new ≡ self.old) }
    {
        self.numbers.push(id.0)?;
        Ok(())
    }
}

/// The ids as a list.
pub(crate) fn ids_of(alloc: Global, ids: &[ObjectId]) -> Result<Ids, AllocError>
    ensures { IfOk result (λ list. list ≡ view_ids ids.now) }
{
    let mut list = Ids::new(alloc);
    for id in ids {
        list.push(*id)?;
    }
    Ok(list)
}
