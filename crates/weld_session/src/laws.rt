//! Laws of this crate's definitions, each the contract of a function that does nothing.

ghost use Rattle.std.specs.Prelude.{◌≡◌, ◌↔◌, ℕ, true, List, []};
ghost use Rattle.weld_data.specs.Value.{Value};
ghost use Rattle.weld_script.specs.declared.made.Made.{Made};
ghost use Rattle.weld_script.specs.Script.{AreMade, AreInputs, IsScript, declared_of};
ghost use Rattle.weld_session.specs.Answer.{IsReached, MayBeGathered, reached};

use crate::call_objects::library_objects_mean_their_lists;
use weld_calls::laws::rows_are_short;
use weld_lazy::laws::inputs_are_given_up;
use weld_libraries::fragments::laws::{fragments_are_accepted, fragments_are_small};
use weld_meaning::laws::types_are_well_formed;
use weld_objects::laws::{objects_make_one_program, one_program_means_the_objects};
use weld_script::laws::declarations_have_types_of_values;

/// What is marked as reached is what is reached: the shown objects, and with a call those that it is
/// made on, and no others.
pub fn marks_are_exact()
    ensures { (made : List Made) (shown : List ℕ) (id : ℕ) → AreMade [] made
        → (reached made shown id ≡ true) ↔ IsReached made shown id }
{}

/// Each script is gathered to an accepted program, where there is a value for each declaration, of its type.
pub fn each_script_is_gathered()
    ensures { (made : List Made) (shown : List ℕ) (inputs : List Value) → IsScript made shown
        → AreInputs (declared_of made) inputs
        → MayBeGathered made shown inputs }
{
    declarations_have_types_of_values();
    fragments_are_accepted();
    fragments_are_small();
    types_are_well_formed();
    objects_make_one_program();
    one_program_means_the_objects();
    library_objects_mean_their_lists();
    inputs_are_given_up();
    rows_are_short();
}
