//! Laws of derivations. Each function's contract is the law.
ghost use Rattle.std.specs.Prelude.{◌≡◌, ◌≤◌, None, List, length};
ghost use Rattle.weld_grammar.specs.declared.terminals.token.Token.{Token};
ghost use Rattle.weld_grammar.specs.declared.rule.Rule.{Rule};
ghost use Rattle.weld_grammar.specs.declared.rule.Rule.TheVariants.{Program, AnyType};
ghost use Rattle.weld_grammar.specs.declared.item.Item.TheVariants.{Part as OfRule};
ghost use Rattle.weld_grammar.specs.Grammar.{item};
ghost use Rattle.weld_grammar.specs.Derivation.{Tree, yield, IsOf};
ghost use Rattle.weld_grammar.specs.Classes.{classes};
ghost use Rattle.weld_accept.specs.declared.step.Step.{Step};
ghost use Rattle.weld_accept.specs.Derived.{steps, IsDerivation};
ghost use Rattle.weld_spell.specs.Seen.{seen};
ghost use Rattle.weld_spell.specs.TypeOf.{type_of};
ghost use Rattle.weld_spell.specs.ProgramOf.{first_of, program_of};
ghost use Rattle.weld_spell.specs.Names.{first_misnamed};
ghost use Rattle.weld_spell.specs.Ranges.{number_out_of_range};
ghost use Rattle.weld_reduce.specs.States.{start};
ghost use Rattle.weld_reduce.specs.Runs.{run, Comes, ComesToType};
ghost use Rattle.weld_reduce.specs.Made.{binders_made};
ghost use Rattle.weld_reduce.specs.Programs.{AreOfTheirClasses, IsDerivedBy};

/// A derivation of the classes of tokens is one of the tokens, by the same steps.
pub fn derivations_are_over_tokens()
    ensures { (r : Rule) (ts : List Token) (ss : List Step) → IsDerivation r (classes ts) ss
        → IsDerivedBy r ts ss }
{}

/// What the steps of a program's derivation come to is the program that its tree spells, with the first of its names that
/// is refused, where no number is out of its range and each token has the class of its bytes. What those of a type's come to is the type that its tree spells, at the
/// place of its first token.
pub fn derivations_spell()
    ensures programs { (tree : Tree Token) → IsOf (item (OfRule Program)) (seen tree)
        → number_out_of_range tree ≡ None → AreOfTheirClasses (yield tree)
        → Comes (run (steps (item (OfRule Program)) tree) (yield tree) start) (program_of tree)
        (first_misnamed tree) }
    ensures types { (tree : Tree Token) → IsOf (item (OfRule AnyType)) (seen tree)
        → ComesToType (run (steps (item (OfRule AnyType)) tree) (yield tree) start)
        (first_of (yield tree)) (type_of tree) }
{}

/// The steps of a derivation make no more binders than it has tokens. Those of a type's make none.
pub fn binders_are_few()
    ensures few { (r : Rule) (ts : List Token) (ss : List Step) → IsDerivedBy r ts ss
        → binders_made ss ≤ length ts }
    ensures none { (ts : List Token) (ss : List Step) → IsDerivedBy AnyType ts ss
        → binders_made ss ≡ 0 }
{}
