//! Laws of the objects of library calls, each the contract of a function that does nothing.

ghost use Rattle.std.specs.Prelude.{◌≡◌, ℕ, List, map, slice_get, Some};
ghost use Rattle.weld_tree.specs.TypeTree.{TypeTree};
ghost use Rattle.weld_builders.specs.Outcome.{and_then};
ghost use Rattle.weld_calls.specs.declared.call.Call.{Call};
ghost use Rattle.weld_calls.specs.CallTypes.{HasItsOperator, FitsCall};
ghost use Rattle.weld_calls.specs.CallPrograms.{fragment};
ghost use Rattle.weld_calls.specs.CallMeaning.{call_meaning};
ghost use Rattle.weld_objects.specs.Objects.{Object, call as call_object, all_done, denote, AreObjects};

use weld_calls::call_laws::each_call_means_its_list;
use weld_meaning::laws::typed_programs_are_never_stuck;

/// An object that is a library call comes to what the call means by plain lists on what the objects that it
/// is made on come to, and faults exactly where one of them or the call does.
pub fn library_objects_mean_their_lists()
    ensures { (os : List Object) (id : ℕ) (t : TypeTree) (ids : List ℕ) (call : Call)
        (types : List TypeTree)
        → AreObjects os → HasItsOperator call → FitsCall call types
        → slice_get os id ≡ Some (call_object t ids (fragment call types))
        → denote os id ≡ and_then (all_done (map (denote os) ids)) (call_meaning call types) }
{
    each_call_means_its_list();
    typed_programs_are_never_stuck();
}
