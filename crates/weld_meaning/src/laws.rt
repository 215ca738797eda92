//! Laws of this crate's definitions, each the contract of a function that does nothing.

ghost use Rattle.std.specs.Prelude.{◌≡◌, ◌↔◌, ◌<◌, ◌++◌, ℕ, List, [], ◌∷◌, length, None};
ghost use Rattle.weld_data.specs.Value.{Value};
ghost use Rattle.weld_tree.specs.TypeTree.{TypeTree};
ghost use Rattle.weld_tree.specs.Types.{IsWellFormed};
ghost use Rattle.weld_tree.specs.ExprTree.{ExprTree};
ghost use Rattle.weld_tree.specs.Program.{ProgramTree, loops};
ghost use Rattle.weld_tree.specs.Blank.{AreSame};
ghost use Rattle.weld_tree.specs.HasValue.{HasValue};
ghost use Rattle.weld_builders.specs.Outcome.{Outcome, done, and_then};
ghost use Rattle.weld_meaning.specs.Thing.{Thing};
ghost use Rattle.weld_meaning.specs.Typing.{Types, AreFormed, HasType, ProgramHas};
ghost use Rattle.weld_meaning.specs.ThingType.{HasThing, EnvFits};
ghost use Rattle.weld_meaning.specs.Evaluation.{Env, Row, eval, run};
ghost use Rattle.weld_meaning.specs.Meaning.{GivesOrFaults, ArgumentsFit, meaning};
ghost use Rattle.weld_meaning.specs.Accepted.{IsAccepted};
ghost use Rattle.weld_meaning.specs.Linear.{Keeps};
ghost use Rattle.weld_meaning.specs.Available.{Splits, takes};
ghost use Rattle.weld_meaning.specs.Environment.{Named};
ghost use Rattle.weld_meaning.specs.Origin.{Origin, origin};
ghost use Rattle.weld_meaning.specs.LinearWalk.{linear_refusal};
ghost use Rattle.weld_meaning.specs.Loops.{Site, IsLoopOf, LawOfLoop};
ghost use Rattle.weld_meaning.specs.Names.{IsFree, AgreeOn, Binds, IsClear, put, answer_of};

use weld_builders::laws::{
    bare_is_neutral, keys_are_ordered_alike, merge_into_a_join, shapes_stay, values_are_ordered,
};

/// The type of an expression is well formed where those of its names are, and so is that of a
/// program.
pub fn types_are_well_formed()
    ensures expression { (e : ExprTree) (g : Types) (t : TypeTree) → HasType e g t → AreFormed g
        → IsWellFormed t }
    ensures program { (p : ProgramTree) (t : TypeTree) → ProgramHas p t → IsWellFormed t }
{}

/// An expression has one type at most, by the types of its names.
pub fn types_are_unique()
    ensures { (e : ExprTree) (g : Types) (t u : TypeTree) → HasType e g t → HasType e g u → t ≡ u }
{}

/// The walk over builders refuses nowhere exactly where the program keeps the rules of linear use:
/// those on origins, and that each builder is taken once on each control path.
pub fn the_walk_is_linear_use()
    ensures { (p : ProgramTree) → (linear_refusal p ≡ None) ↔ (Keeps p.body [] × Splits p.body []) }
{}

/// An expression that has a type, in an environment of fitting things, isn't stuck: it faults or
/// gives a thing of the type. So a program on arguments of its types faults or gives a value of its
/// type.
pub fn typed_programs_are_never_stuck()
    ensures expression { (e : ExprTree) (g : Types) (t : TypeTree) (env : Env) → HasType e g t
        → AreFormed g
        → EnvFits g env → GivesOrFaults (λ (x : Thing). HasThing x t) (eval e env) }
    ensures program { (p : ProgramTree) (t : TypeTree) (arguments : List Value) → ProgramHas p t
        → ArgumentsFit p.params arguments → GivesOrFaults (HasValue t) (meaning p arguments) }
{
    values_are_ordered();
    keys_are_ordered_alike();
}

/// What an expression comes to depends on the names that occur free in it, and on no others.
pub fn evaluation_depends_on_free_names()
    ensures { (e : ExprTree) (env other : Env) → AgreeOn (IsFree e) env other
        → eval e env ≡ eval e other }
{}

/// So do its types, where its builders come from, the rules on these, what it takes, and that each
/// builder is taken once.
pub fn rules_depend_on_free_names()
    ensures types { (e : ExprTree) (g other : Types) (t : TypeTree) → AgreeOn (IsFree e) g other
        → HasType e g t → HasType e other t }
    ensures origins { (e : ExprTree) (g other : Named Origin) → AgreeOn (IsFree e) g other
        → origin e g ≡ origin e other }
    ensures keeps { (e : ExprTree) (g other : Named Origin) → AgreeOn (IsFree e) g other → Keeps e g
        → Keeps e other }
    ensures taken { (e : ExprTree) (g other : Named Origin) → AgreeOn (IsFree e) g other
        → takes e g ≡ takes e other }
    ensures splits { (e : ExprTree) (g other : Named Origin) → AgreeOn (IsFree e) g other
        → Splits e g → Splits e other }
{}

/// Where an expression comes to a thing, putting it in a name's place means what the name bound to
/// the thing does. No binder may hide the name, or catch a name of what is put in.
pub fn what_is_put_in_stands_for_the_name()
    ensures { (e value : ExprTree) (s : ℕ) (x : Thing) (env : Env) → Binds (IsClear s value) e
        → eval value env ≡ done x → eval (put s value e) env ≡ eval e ((s, x) ∷ env) }
{}

/// Places, noted types and the numbers of binders don't count: programs that are the same up to
/// these have one meaning.
pub fn meaning_looks_past_spelling()
    ensures { (p q : ProgramTree) (arguments : List Value) → AreSame p q
        → length arguments ≡ length p.params
        → meaning p arguments ≡ meaning q arguments }
{}

/// Of outcomes that aren't stuck the answers say all: what answers the same, or both nothing, is one
/// outcome.
pub fn answers_say_all()
    ensures { (t u : TypeTree) (o p : Outcome Value) → GivesOrFaults (HasValue t) o
        → GivesOrFaults (HasValue u) p
        → answer_of o ≡ answer_of p → o ≡ p }
{}

/// A loop over rows and more rows is the one over the rows and then the one over the others.
pub fn loops_go_row_by_row()
    ensures { (f : Row → Thing → Outcome Thing) (rows more : List Row) (s : Thing)
        → run (rows ++ more) s f ≡ and_then (run rows s f) (λ t. run more t f) }
{}

/// Each loop of an accepted program is there under its number, and keeps the law of loops: over any
/// builders of its type it is these joined with the action of its rows, and the action over rows and
/// more rows is the join of both; each side faults exactly where the other does.
pub fn loops_join_in_order()
    ensures found { (p : ProgramTree) (k : ℕ) → IsAccepted p → k < loops p.body
        → (l : Site) × IsLoopOf p k l }
    ensures law { (p : ProgramTree) (k : ℕ) (l : Site) → IsAccepted p → IsLoopOf p k l
        → LawOfLoop l }
{
    merge_into_a_join();
    values_are_ordered();
    keys_are_ordered_alike();
    shapes_stay();
    bare_is_neutral();
}
