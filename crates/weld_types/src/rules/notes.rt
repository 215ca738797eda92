//! The rules of types that are written at binders.
ghost use Rattle.weld_tree.specs.TypeTree.{TypeTree};
ghost use Rattle.weld_types.specs.Says.{Allows};
ghost use Rattle.weld_types.specs.Walk.{Found, noted, param_type};

use crate::tests::{is_builder_free, is_well_formed, same};
use weld_tree::{Binder, Code, Refusal, Ty};

/// The written type of a binder, if there is one, is well formed and is the type found.
pub fn check_note(binder: &Binder, found: &Ty) -> Result<(), Refusal>
    ensures { (later : Found TypeTree) → Allows result (noted binder.now.note binder.now found.now
        later) later }
{
    let Some(note) = &binder.note else {
        return Ok(());
    };
    if !is_well_formed(note) {
        return Err(Refusal::At(Code::Y1, binder.note_place));
    }
    if same(note, found) {
        Ok(())
    } else {
        Err(Refusal::At(Code::Y4, binder.place))
    }
}

/// The type of a parameter is well formed and builder-free.
pub fn check_param(param: &Binder) -> Result<(), Refusal>
    ensures { (later : Found TypeTree) → Allows result (param_type param.now.note param.now later)
        later }
{
    let Some(ty) = &param.note else {
        return Err(Refusal::At(Code::Y1, param.note_place));
    };
    if !is_well_formed(ty) {
        return Err(Refusal::At(Code::Y1, param.note_place));
    }
    if is_builder_free(ty) {
        Ok(())
    } else {
        Err(Refusal::At(Code::Y2, param.note_place))
    }
}
