ghost use Rattle.std.specs.Prelude.{◌≡◌, IfOk};

use crate::ty::Ty;
use std::alloc::{AllocError, Global};

/// What is known of an expression's type: nothing, or the type.
#[derive(Drop)]
pub enum Known {
    Blank,
    Is(Ty),
}

impl Known {
    /// A copy of what is known.
    pub fn copy(&self, alloc: Global) -> Result<Known, AllocError>
        ensures { IfOk result (λ copy. copy ≡ self.now) }
    {
        match self {
            Known::Blank => Ok(Known::Blank),
            Known::Is(ty) => Ok(Known::Is(ty.copy(alloc)?)),
        }
    }
}
