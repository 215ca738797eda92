//! Laws of rows and turns, each the contract of a function that does nothing.

ghost use Rattle.std.specs.Prelude.{◌≡◌, List};
ghost use Rattle.weld_data.specs.Value.{Value};
ghost use Rattle.weld_tree.specs.declared.binder.Binder.{Binder};
ghost use Rattle.weld_tree.specs.ExprTree.{ExprTree, At, LegTrees, loop, iterate};
ghost use Rattle.weld_builders.specs.Outcome.{done};
ghost use Rattle.weld_meaning.specs.Thing.{Thing, plain};
ghost use Rattle.weld_meaning.specs.Evaluation.{Env, eval, eval_legs, rows_of, turn_limit};
ghost use Rattle.weld_eval_plain.specs.Rows.{loop_over};
ghost use Rattle.weld_eval_plain.specs.Turns.{turns_from};

/// A loop whose legs have come to lists of one length is its rows, one after another, from the builder
/// that it starts with; an `iterate` is its turns, from the state that it starts with.
pub fn rows_and_turns_are_the_meaning()
    ensures rows { (a : At) (ls : LegTrees) (e : ExprTree) (b n x : Binder) (f : ExprTree)
        (env : Env) (lists : List (List Value)) (rows : List Value) (s : Thing)
        → eval_legs ls env ≡ done lists → rows_of lists ≡ done rows → eval e env ≡ done s
        → eval (loop a ls e b n x f) env ≡ loop_over (loop a ls e b n x f) env lists s }
    ensures turns { (a : At) (e : ExprTree) (b : Binder) (f : ExprTree) (env : Env) (v : Value)
        → eval e env ≡ done (plain v) → eval (iterate a e b f) env
        ≡ turns_from (iterate a e b f) env turn_limit v }
{}
