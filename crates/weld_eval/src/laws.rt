//! Laws of evaluation, each the contract of a function that does nothing.

ghost use Rattle.std.specs.Prelude.{◌≡◌, ℕ};
ghost use Rattle.weld_data.specs.Value.{Value};
ghost use Rattle.weld_tree.specs.declared.binder.Binder.{Binder};
ghost use Rattle.weld_tree.specs.ExprTree.{ExprTree, At, LegTrees, loop, let_in, Two, two};
ghost use Rattle.weld_tree.specs.HasValue.{HasValue};
ghost use Rattle.weld_builders.specs.Outcome.{done, map_out};
ghost use Rattle.weld_meaning.specs.Thing.{Thing, plain, bare_thing, after_thing};
ghost use Rattle.weld_meaning.specs.ThingType.{HasThing};
ghost use Rattle.weld_meaning.specs.Evaluation.{Env, Row, eval};
ghost use Rattle.weld_eval.specs.Fit.{IsFit};
ghost use Rattle.weld_eval.specs.Takes.{TwoTakes, Join, row_of};

/// A row of a loop makes of a builder the join of the builder with what it makes of the one that has
/// nothing merged; and the two join.
pub fn rows_are_joined()
    ensures joined { (a : At) (ls : LegTrees) (e : ExprTree) (b n x : Binder) (f : ExprTree)
        (env : Env) (h : IsFit (loop a ls e b n x f) env) (r : Row) (s : Thing)
        → HasThing s h.answer → row_of b n x f env r s ≡ map_out (after_thing s)
        (row_of b n x f env r (bare_thing s)) }
    ensures join { (a : At) (ls : LegTrees) (e : ExprTree) (b n x : Binder) (f : ExprTree)
        (env : Env) (h : IsFit (loop a ls e b n x f) env) (i : ℕ) (v : Value) (s d : Thing)
        → HasThing s h.answer → HasValue h.typed.1 v → row_of b n x f env (i, v) (bare_thing s)
        ≡ done d → Join s d }
{}
