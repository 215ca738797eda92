//! Laws of this crate's definitions, each the contract of a function that does nothing.

ghost use Rattle.std.specs.Prelude.{◌≡◌, ◌⊎◌, ℕ, List};
ghost use Rattle.std.specs.List.{All};
ghost use Rattle.weld_data.specs.Value.{Value};
ghost use Rattle.weld_tree.specs.declared.code.Code.{Code};
ghost use Rattle.weld_job.specs.Job.{Job};
ghost use Rattle.weld_script.specs.declared.made.Declared.{Declared};
ghost use Rattle.weld_script.specs.Script.{AreDeclared, AreInputs};
ghost use Rattle.weld_inputs.specs.Inputs.{Inputs, IsUnfit};

use weld_table::laws::{each_table_reads_or_not, one_table, tables_have_their_type};
use weld_values::laws::{
    each_text_reads_or_not, one_reading, read_values_have_the_type, well_formed_types_are_readable,
};

/// A job's data give the declarations of a script at most one list of values; where they give one, nothing is wrong
/// with them; and at most one number and code tell what is wrong.
pub fn one_answer()
    ensures inputs { (ds : List Declared) (job : Job) (vs ws : List Value) → Inputs ds job vs
        → Inputs ds job ws → vs ≡ ws }
    ensures fits { (ds : List Declared) (job : Job) (vs : List Value) (n : ℕ) (code : Code)
        → Inputs ds job vs → IsUnfit ds job n code → ⊥ }
    ensures unfit { (ds : List Declared) (job : Job) (n m : ℕ) (code other : Code)
        → IsUnfit ds job n code → IsUnfit ds job m other → (n ≡ m) × (code ≡ other) }
{
    one_reading();
    one_table();
}

/// They give values, or something is wrong with them.
pub fn each_job_fits_or_not()
    ensures { (ds : List Declared) (job : Job) → AreDeclared ds
        → ((vs : List Value) × Inputs ds job vs) ⊎ ((n : ℕ) × (code : Code)
        × IsUnfit ds job n code) }
{
    each_text_reads_or_not();
    each_table_reads_or_not();
    well_formed_types_are_readable();
}

/// The values that they give are of the declared types.
pub fn inputs_have_their_types()
    ensures { (ds : List Declared) (job : Job) (vs : List Value) → AreDeclared ds → Inputs ds job vs
        → AreInputs ds vs }
{
    read_values_have_the_type();
    tables_have_their_type();
    well_formed_types_are_readable();
}
