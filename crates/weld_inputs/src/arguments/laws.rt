//! Laws of this crate's definitions, each the contract of a function that does nothing.

ghost use Rattle.std.specs.Prelude.{◌≡◌, ◌⊎◌, ℕ, List};
ghost use Rattle.weld_data.specs.Value.{Value};
ghost use Rattle.weld_tree.specs.declared.binder.Binder.{Binder};
ghost use Rattle.weld_tree.specs.declared.code.Code.{Code};
ghost use Rattle.weld_job.specs.Job.{Job};
ghost use Rattle.weld_meaning.specs.Typing.{ParamsFit};
ghost use Rattle.weld_meaning.specs.Meaning.{ArgumentsFit};
ghost use Rattle.weld_inputs.specs.Arguments.{Arguments, IsUnfit};

use weld_table::laws::{
    each_table_reads_or_not, one_table, table_types_have_columns, tables_have_their_type,
};
use weld_values::laws::{
    each_text_reads_or_not, one_reading, read_values_have_the_type, well_formed_types_are_readable,
};

/// A job's data give the parameters of a program at most one list of arguments; where they give one, nothing is wrong
/// with them; and at most one number and code tell what is wrong.
pub fn one_answer()
    ensures arguments { (params : List Binder) (job : Job) (vs ws : List Value)
        → Arguments params job vs → Arguments params job ws → vs ≡ ws }
    ensures fits { (params : List Binder) (job : Job) (vs : List Value) (n : ℕ) (code : Code)
        → Arguments params job vs → IsUnfit params job n code → ⊥ }
    ensures unfit { (params : List Binder) (job : Job) (n m : ℕ) (code other : Code)
        → IsUnfit params job n code → IsUnfit params job m other → (n ≡ m) × (code ≡ other) }
{
    one_reading();
    one_table();
}

/// They give arguments, or something is wrong with them.
pub fn each_job_fits_or_not()
    ensures { (params : List Binder) (job : Job) → ParamsFit params
        → ((vs : List Value) × Arguments params job vs) ⊎ ((n : ℕ) × (code : Code)
        × IsUnfit params job n code) }
{
    each_text_reads_or_not();
    each_table_reads_or_not();
    table_types_have_columns();
    well_formed_types_are_readable();
}

/// The arguments that they give are of the parameters' types.
pub fn arguments_have_their_types()
    ensures { (params : List Binder) (job : Job) (vs : List Value) → ParamsFit params
        → Arguments params job vs → ArgumentsFit params vs }
{
    read_values_have_the_type();
    tables_have_their_type();
    table_types_have_columns();
    well_formed_types_are_readable();
}
