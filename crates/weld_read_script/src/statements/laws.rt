//! Laws of this crate's definitions, each the contract of a function that does nothing.
ghost use Rattle.std.specs.Prelude.{ℕ, List};
ghost use Rattle.weld_read_script.specs.declared.statements.statement.Statement.{Statement};
ghost use Rattle.weld_read_script.specs.declared.statements.statement.Saying.TheVariants as sayings;
ghost use Rattle.weld_read_script.specs.Statements.{LineSays};
ghost use Rattle.weld_read_script.specs.Sound.{IsStatement};

/// Of the statement that a line is, an input has a type of values; a table has columns, as many as names, of
/// cells; each number among the arguments of a call is one of its kind; and some name is shown.
pub fn statements_are_sound()
    ensures { (line : List ℕ) (st : Statement) → LineSays line (sayings.States st)
        → IsStatement st }
{}
