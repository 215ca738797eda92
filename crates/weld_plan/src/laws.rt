//! Laws of plans, each the contract of a function that does nothing.

ghost use Rattle.std.specs.Prelude.{◌≡◌, [], List};
ghost use Rattle.weld_data.specs.Value.{Value};
ghost use Rattle.weld_tree.specs.Program.{ProgramTree};
ghost use Rattle.weld_builders.specs.Outcome.{done};
ghost use Rattle.weld_meaning.specs.Accepted.{IsAccepted};
ghost use Rattle.weld_meaning.specs.Evaluation.{eval};
ghost use Rattle.weld_meaning.specs.Meaning.{ArgumentsFit, with_arguments};
ghost use Rattle.weld_meaning.specs.Thing.{Thing, no_things};
ghost use Rattle.weld_plan.specs.Leads.{Leads};
ghost use Rattle.weld_plan.specs.SharedRows.{program_rows};
ghost use Rattle.weld_plan.specs.StepRows.{rows_of_steps};
ghost use Rattle.weld_plan.specs.StepTree.{steps_of};

/// The steps of an accepted program, taken one after another from an empty stack, come to what the program's body
/// means on the arguments: each step finds what it takes, and where one faults, so does the program.
pub fn a_plan_means_its_program()
    ensures { (p : ProgramTree) (arguments : List Value) → IsAccepted p
        → ArgumentsFit p.params arguments
        → Leads (steps_of p.body 0) 0 (with_arguments p.params arguments) [] no_things
        (eval p.body (with_arguments p.params arguments)) }
{}

/// Where the body of a program comes to something, its steps come to just the shared loops that the evaluation comes to, with
/// as many rows.
pub fn a_plan_comes_to_each_shared_loop()
    ensures { (p : ProgramTree) (arguments : List Value) (t : Thing)
        → eval p.body (with_arguments p.params arguments) ≡ done t
        → rows_of_steps (steps_of p.body 0) 0 (with_arguments p.params arguments) [] no_things
        ≡ program_rows p arguments }
{}
