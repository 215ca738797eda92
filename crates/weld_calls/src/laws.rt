//! Laws of this crate's definitions. Each function's contract is the law; its body does nothing.
ghost use Rattle.std.specs.Prelude.{List, ◌≤◌, length};
ghost use Rattle.weld_tree.specs.TypeTree.{TypeTree};
ghost use Rattle.weld_calls.specs.declared.call.Call.{Call};
ghost use Rattle.weld_calls.specs.CallTypes.{FitsCall, row};
ghost use Rattle.weld_calls.specs.CallRows.{IsRow};

/// The types that fit a call are those of its row in the table.
#[tactic(auto, using(crate::proofs::Table::row_of_fits, crate::proofs::Fitting::fits_of_row))]
pub fn rows_are_a_table()
    ensures table { (call : Call) (types : List TypeTree) → FitsCall call types → IsRow call types }
    ensures fits { (call : Call) (types : List TypeTree) → IsRow call types → FitsCall call types }
{}

/// A call takes at most three arguments.
#[tactic(auto, using(crate::proofs::Short::row_is_short))]
pub fn rows_are_short()
    ensures { (call : Call) → length (row call) ≤ 3 }
{}
