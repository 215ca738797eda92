//! Laws of this crate's definitions, each the contract of a function that does nothing. Most ask
//! that each binder of the expression is alone: that no other number becomes what it does.

ghost use Rattle.std.specs.Prelude.{◌≡◌, ◌↔◌, ℕ, List, map};
ghost use Rattle.weld_tree.specs.TypeTree.{TypeTree};
ghost use Rattle.weld_tree.specs.ExprTree.{ExprTree};
ghost use Rattle.weld_tree.specs.Program.{loops, bound, IsScoped, IsWellMade};
ghost use Rattle.weld_meaning.specs.Environment.{Named};
ghost use Rattle.weld_meaning.specs.Typing.{Types, HasType};
ghost use Rattle.weld_meaning.specs.Evaluation.{Env, eval};
ghost use Rattle.weld_meaning.specs.Origin.{Origin, origin};
ghost use Rattle.weld_meaning.specs.LinearWalk.{Left, refusal};
ghost use Rattle.weld_meaning.specs.Names.{Binds};
ghost use Rattle.weld_objects.specs.Renamed.{Renaming, renamed, IsAlone, HaveMoved, AgreeAt, ScopeMoves, ScopeAgrees};
ghost use Rattle.weld_objects.specs.RenamedOrigins.{renamed_origin, left_renamed, AreAlone, OriginsHaveMoved};

/// Under other numbers an expression comes to what it came to, where its names stand for what they
/// stood for.
pub fn renaming_keeps_what_is_meant()
    ensures { (r : Renaming) (e : ExprTree) (env later : Env) → Binds (IsAlone r) e
        → HaveMoved r env later → eval (renamed r e) later ≡ eval e env }
{}

/// It has the types that it had, and no others.
pub fn renaming_keeps_types()
    ensures { (r : Renaming) (e : ExprTree) (g later : Types) (t : TypeTree) → Binds (IsAlone r) e
        → HaveMoved r g later → HasType (renamed r e) later t ↔ HasType e g t }
{}

/// Its builders come from where they came from, the names in their origins under the new numbers;
/// and the walk over builders refuses it where it refused it, by the same rule at the same place.
/// Names that aren't alone are values.
pub fn renaming_keeps_use_of_builders()
    ensures origins { (r : Renaming) (e : ExprTree) (g later : Named Origin) → Binds (IsAlone r) e
        → OriginsHaveMoved r g later → origin (renamed r e) later ≡ renamed_origin r (origin e g) }
    ensures refusals { (r : Renaming) (e : ExprTree) (g later : Named Origin) (left : Left)
        → Binds (IsAlone r) e → OriginsHaveMoved r g later → AreAlone r left
        → refusal (renamed r e) later (left_renamed r left) ≡ refusal e g left }
{}

/// It has as many loops, and binds the same numbers under their new ones, in the order of the text.
pub fn renaming_keeps_the_form()
    ensures loops { (r : Renaming) (e : ExprTree) → loops (renamed r e) ≡ loops e }
    ensures binders { (r : Renaming) (e : ExprTree) → bound (renamed r e) ≡ map r (bound e) }
    ensures scoped { (r : Renaming) (e : ExprTree) (scope later : List ℕ) → ScopeMoves r scope later
        → IsScoped e scope → IsScoped (renamed r e) later }
    ensures well_made { (r : Renaming) (e : ExprTree) → IsWellMade e → IsWellMade (renamed r e) }
{}

/// Only the numbers that occur count: maps that agree on those in scope and on those that are bound
/// give one expression.
pub fn renaming_looks_at_what_occurs()
    ensures { (r other : Renaming) (e : ExprTree) (scope : List ℕ) → ScopeAgrees r other scope
        → Binds (AgreeAt r other) e → IsScoped e scope → renamed r e ≡ renamed other e }
{}
