//! Laws of what is done in place, each the contract of a function that does nothing.

ghost use Rattle.std.specs.Prelude.{◌≡◌, ℕ, ◌≤◌, List, length};
ghost use Rattle.weld_data.specs.Value.{Value};
ghost use Rattle.weld_tree.specs.declared.binder.Binder.{Binder};
ghost use Rattle.weld_tree.specs.TypeTree.{TypeTree};
ghost use Rattle.weld_tree.specs.Types.{IsBuilder};
ghost use Rattle.weld_tree.specs.ExprTree.{ExprTree, At, LegTrees, loop};
ghost use Rattle.weld_builders.specs.Outcome.{done, fault};
ghost use Rattle.weld_meaning.specs.Environment.{look_for};
ghost use Rattle.weld_meaning.specs.Thing.{Thing, plain, bare_thing, after_thing};
ghost use Rattle.weld_meaning.specs.ThingType.{HasThing, EnvFits};
ghost use Rattle.weld_meaning.specs.Typing.{Types, AreFormed, HasType};
ghost use Rattle.weld_meaning.specs.Origin.{Path};
ghost use Rattle.weld_meaning.specs.Names.{IsFree, AgreeOn};
ghost use Rattle.weld_meaning.specs.Evaluation.{Env, rows_of, whole_number, with_row, eval};
ghost use Rattle.weld_eval.specs.Takes.{Join, row_of};
ghost use Rattle.weld_eval_plain.specs.Rows.{loop_over, HoldsRow};
ghost use Rattle.weld_acts.specs.Act.{Besides, Stands, IsAct, AreDirect, act};
ghost use Rattle.weld_acts.specs.Ranges.{Evaluation, range_over, HoldsEvaluation, IsAction, IsSoFar};

/// What an expression that acts on a path of a name comes to, where there stands a builder of the
/// expression's type, is what it does in place to that builder; each faults where the other does. The
/// builder's own name may stand for anything while it is done in place. So a row of a loop whose body
/// acts on the loop's own builder makes of a builder what is done to it in place.
pub fn in_place_is_the_meaning()
    ensures expression { (e : ExprTree) (b : ℕ) (p : Path) (names : Types) (t : TypeTree)
        (env before : Env) (s : Thing)
        → AreFormed names → EnvFits names env → HasType e names t → IsBuilder t → HasThing s t
        → IsAct b p e
        → Stands b p env s → AgreeOn (Besides (IsFree e) b) env before
        → eval e env ≡ act e before s }
    ensures row { (a : At) (ls : LegTrees) (e : ExprTree) (b n x : Binder) (f : ExprTree)
        (env : Env) (i : ℕ) (s own : Thing) (v : Value)
        → AreDirect (loop a ls e b n x f) → HoldsRow (loop a ls e b n x f) env s v
        → row_of b n x f env (i, v) s ≡ act f (with_row b n x own (plain (whole_number i)) (plain v)
        env) s }
{}

/// The rows of a loop may be cut anywhere: the action of the rows from a number to another joins the
/// builder that the rows before them made, and the join is what the rows up to the second make. When
/// all rows have been joined, the builder is what the loop makes. A fault of one such action is a
/// fault of the loop.
pub fn tiles_join_in_order()
    ensures start { (ev : Evaluation) (count : ℕ) → HoldsEvaluation ev count
        → IsSoFar ev 0 ev.start }
    ensures join { (ev : Evaluation) (count from to : ℕ) (j d : Thing) → HoldsEvaluation ev count
        → IsSoFar ev from j → IsAction ev from to d → Join j d }
    ensures next { (ev : Evaluation) (count from to : ℕ) (j d : Thing) → HoldsEvaluation ev count
        → from ≤ to
        → to ≤ count → IsSoFar ev from j → IsAction ev from to d → IsSoFar ev to (after_thing j d) }
    ensures whole { (ev : Evaluation) (j : Thing) (rows : List Value) → rows_of ev.lists ≡ done rows
        → IsSoFar ev (length rows) j → loop_over ev.node ev.names ev.lists ev.start ≡ done j }
    ensures fault { (ev : Evaluation) (from to : ℕ) (rows : List Value)
        → HoldsEvaluation ev (length rows)
        → rows_of ev.lists ≡ done rows → from ≤ to → to ≤ length rows
        → range_over ev.node ev.names ev.lists from to (bare_thing ev.start) ≡ fault
        → loop_over ev.node ev.names ev.lists ev.start ≡ fault }
{}
