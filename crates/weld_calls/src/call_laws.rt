//! Laws of the library calls' programs, each the contract of a function that does nothing.

ghost use Rattle.std.specs.Prelude.{◌≡◌, ℕ, List};
ghost use Rattle.weld_data.specs.Value.{Value};
ghost use Rattle.weld_tree.specs.TypeTree.{TypeTree};
ghost use Rattle.weld_tree.specs.ExprTree.{ExprTree, LegTrees};
ghost use Rattle.weld_builders.specs.Outcome.{Outcome, done, map_out};
ghost use Rattle.weld_builders.specs.Part.{Part};
ghost use Rattle.weld_meaning.specs.Thing.{plain, building};
ghost use Rattle.weld_meaning.specs.Evaluation.{Env, eval};
ghost use Rattle.weld_meaning.specs.Meaning.{ArgumentsFit, meaning};
ghost use Rattle.weld_calls.specs.declared.call.Call.{Call};
ghost use Rattle.weld_calls.specs.CallTypes.{HasItsOperator, FitsCall};
ghost use Rattle.weld_calls.specs.CallPrograms.{gathered, fragment};
ghost use Rattle.weld_calls.specs.CallMeaning.{call_meaning};
ghost use Rattle.weld_calls.specs.Folds.{folded_result, RowsAre, BodySteps};

use crate::laws::rows_are_a_table;

/// The result of a loop, whatever its rows: where the legs give rows or fault, the builder starts as a
/// part, and the body takes a builder at a row to what a step makes of it, it is the result of the
/// steps one after another, with a fault where the legs or a step have one.
pub fn loops_fold_their_rows()
    ensures { (legs : LegTrees) (builder : ExprTree) (b n x : ℕ) (body : ExprTree) (env : Env)
        (rows : Outcome (List Value)) (row : Value → Value) (p : Part)
        (step : Part → Value → Outcome Part)
        → RowsAre legs env row rows → eval builder env ≡ done (building p)
        → BodySteps b n x body env row step
        → eval (gathered legs builder b n x body) env ≡ map_out plain (folded_result step p rows) }
{}

/// The program of each call, on arguments of the types of its parameters, comes to what the call means
/// by plain lists, or faults exactly where that does.
pub fn each_call_means_its_list()
    ensures { (call : Call) (types : List TypeTree) (arguments : List Value) → HasItsOperator call
        → FitsCall call types → ArgumentsFit (fragment call types).params arguments
        → meaning (fragment call types) arguments ≡ call_meaning call types arguments }
{
    rows_are_a_table();
}
