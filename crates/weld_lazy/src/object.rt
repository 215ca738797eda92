ghost use Rattle.std.specs.Prelude.{◌≡◌};
ghost use Rattle.weld_objects.specs.Objects.{type_of};
ghost use Rattle.weld_lazy.specs.View.{view_object};

use crate::ids::Ids;
use weld_data::Val;
use weld_meaning::Accepted;
use weld_tree::Ty;

/// What a library hands in for a call: an accepted program, with a parameter for each object that the
/// call is made on.
#[derive(Drop)]
pub struct Fragment {
    pub program: Accepted,
}

/// An object: a value of a type, or a call with its type, the objects that it is made on, and its
/// program.
#[derive(Drop)]
pub(crate) enum Object {
    Given(Ty, Val),
    Call(Ty, Ids, Accepted),
}

impl Object {
    /// The object's type.
    pub fn ty(&self) -> &Ty
        ensures { result.now ≡ type_of (view_object self.now) }
    {
        match self {
            Object::Given(ty, _) => ty,
            Object::Call(ty, _, _) => ty,
        }
    }
}
