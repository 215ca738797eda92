ghost use Rattle.std.specs.Prelude.{◌≡◌, []};

use std::alloc::Global;
use weld_tree::Tys;

/// The types of the vectors of legs, and of the bounds of all legs, in order.
#[derive(Drop)]
pub(crate) struct Strips {
    pub vectors: Tys,
    pub bounds: Tys,
}

impl Strips {
    /// Those of no leg. It takes no memory.
    pub fn new(alloc: Global) -> Strips
        ensures vectors { result.vectors ≡ [] }
        ensures bounds { result.bounds ≡ [] }
    {
        Strips {
            vectors: Tys::new(alloc),
            bounds: Tys::new(alloc),
        }
    }
}
