//! Laws of the calls' programs, each the contract of a function that does nothing.
ghost use Rattle.std.specs.Prelude.{◌≡◌, ◌≤◌, ◌++◌, List, length};
ghost use Rattle.weld_tree.specs.TypeTree.{TypeTree};
ghost use Rattle.weld_tree.specs.Program.{IsProgram, bound, loops, syms_of};
ghost use Rattle.weld_meaning.specs.Typing.{ProgramHas};
ghost use Rattle.weld_meaning.specs.Accepted.{IsAccepted};
ghost use Rattle.weld_calls.specs.declared.call.Call.{Call};
ghost use Rattle.weld_calls.specs.CallTypes.{HasItsOperator, FitsCall, AreValueTypes, answer_of};
ghost use Rattle.weld_calls.specs.CallPrograms.{fragment, loops_of};

use weld_calls::laws::rows_are_a_table;
use weld_meaning::laws::the_walk_is_linear_use;

/// The program of a call on arguments of types that fit it is a program, it is accepted, and it is of
/// the type of the call's answer.
pub fn fragments_are_accepted()
    ensures program { (call : Call) (types : List TypeTree) → HasItsOperator call
        → FitsCall call types → AreValueTypes types
        → IsProgram (fragment call types).params (fragment call types).body }
    ensures accepted { (call : Call) (types : List TypeTree) → HasItsOperator call
        → FitsCall call types → AreValueTypes types
        → IsAccepted (fragment call types) }
    ensures typed { (call : Call) (types : List TypeTree) → HasItsOperator call
        → FitsCall call types → AreValueTypes types
        → ProgramHas (fragment call types) (answer_of call types) }
{
    rows_are_a_table();
    the_walk_is_linear_use();
}

/// It has as many loops as its call says, and at most 64 binders.
#[tactic(auto, using(crate::proofs::Whole::loops_are))]
pub fn fragments_are_small()
    ensures loops { (call : Call) (types : List TypeTree)
        → loops (fragment call types).body ≡ loops_of call }
    ensures few { (call : Call) (types : List TypeTree) → HasItsOperator call → FitsCall call types
        → AreValueTypes types
        → length (syms_of (fragment call types).params ++ bound (fragment call types).body) ≤ 64 }
{
    rows_are_a_table();
}
