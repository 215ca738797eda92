//! Laws of safe expressions, each the contract of a function that does nothing.

ghost use Rattle.std.specs.Prelude.{◌≡◌};
ghost use Rattle.weld_tree.specs.TypeTree.{TypeTree};
ghost use Rattle.weld_tree.specs.ExprTree.{ExprTree};
ghost use Rattle.weld_builders.specs.Outcome.{done};
ghost use Rattle.weld_meaning.specs.Thing.{Thing};
ghost use Rattle.weld_meaning.specs.Typing.{Types, AreFormed, HasType};
ghost use Rattle.weld_meaning.specs.ThingType.{HasThing, EnvFits};
ghost use Rattle.weld_meaning.specs.Evaluation.{Env, eval};
ghost use Rattle.weld_check_types.specs.Notes.{AreNoted};
ghost use Rattle.weld_safe.specs.Safe.{IsSafe};

use weld_meaning::laws::{typed_programs_are_never_stuck, types_are_unique};

/// A safe expression that has a type, where its nodes have their types noted, comes to a thing of
/// that type in every environment that fits: never to a fault.
pub fn safe_expressions_have_values()
    ensures { (e : ExprTree) (names : Types) (t : TypeTree) (env : Env) → AreFormed names
        → EnvFits names env → HasType e names t → AreNoted e names → IsSafe e
        → (x : Thing) × (eval e env ≡ done x) × HasThing x t }
{
    types_are_unique();
    typed_programs_are_never_stuck();
}
