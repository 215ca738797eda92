ghost use Rattle.std.specs.Prelude.{◌≡◌, ◌==◌, [], ◌∷◌, ◌++◌, length, All, ◌≤◌, OnOk, OnErr};
ghost use Rattle.weld_tree.specs.TypeTree.{pack, type_nodes, types_nodes};

use crate::ty::{Ty, Tys};
use std::alloc::{AllocError, Global};

impl Tys {
    /// The list without types. It takes no memory.
    pub fn new(alloc: Global) -> Tys
        ensures { result ≡ [] }
    {
        Tys {
            items: Vec::new(alloc),
        }
    }

    /// The list of these types, which it keeps. It takes no memory.
    pub fn from_vec(items: Vec<Ty>) -> Tys
        ensures { result ≡ items.items }
    {
        Tys { items }
    }

    /// The types, given up. It takes no memory.
    pub fn into_vec(self) -> Vec<Ty>
        ensures { result.items ≡ self }
    {
        let Tys { items } = self;
        items
    }

    /// The types. None has more nodes than all of them together.
    #[tactic(auto, using(crate::proofs::Fields::types_parts))]
    pub fn as_slice(&self) -> &[Ty]
        ensures value { result.now ≡ self.now }
        ensures parts { All (λ t. type_nodes t ≤ types_nodes (pack self.now)) result.now }
    {
        self.items.as_slice()
    }

    /// How many types there are.
    pub fn len(&self) -> usize
        ensures { result ≡ length self.now }
    {
        self.items.len()
    }

    /// Whether there is no type.
    pub fn is_empty(&self) -> bool
        ensures { result ≡ (length self.now == 0) }
    {
        self.items.is_empty()
    }

    /// Appends a type. Where memory is wanting, the list stays as it was and the type is dropped.
    pub fn push(&mut self, item: Ty) -> Result<(), AllocError>
        ensures ok { OnOk result (self.new ≡ self.old ++ item ∷ []) }
        ensures err { OnErr result (self.new ≡ self.old) }
    {
        self.items.push(item)?;
        Ok(())
    }
}
