//! Laws of programs in tokens. Each function's contract is the law.
ghost use Rattle.std.specs.Prelude.{◌≡◌, ◌⊎◌, ◌≤◌, ℕ, List, None, length};
ghost use Rattle.weld_grammar.specs.declared.terminals.class.Class.{Class};
ghost use Rattle.weld_grammar.specs.declared.terminals.token.Token.{Token};
ghost use Rattle.weld_tree.specs.Program.{IsProgram};
ghost use Rattle.weld_tokens.specs.Order.{first_number_out_of_range};
ghost use Rattle.weld_grammar.specs.declared.rule.Rule.{Rule};
ghost use Rattle.weld_grammar.specs.declared.rule.Rule.TheVariants.{Program};
ghost use Rattle.weld_grammar.specs.declared.item.Item.TheVariants.{Part as OfRule};
ghost use Rattle.weld_grammar.specs.Grammar.{item};
ghost use Rattle.weld_grammar.specs.Derivation.{Tree, yield, IsOf};
ghost use Rattle.weld_grammar.specs.Breaks.{Derives, BreaksAt};
ghost use Rattle.weld_spell.specs.Seen.{seen};
ghost use Rattle.weld_spell.specs.ProgramOf.{program_of};
ghost use Rattle.weld_spell.specs.Names.{first_misnamed};
ghost use Rattle.weld_spell.specs.Ranges.{number_out_of_range};

use crate::laws::binders_count_up;
use weld_grammar::laws::pending_is_derived;

/// A rule derives tokens, or they break it at a place.
pub fn derived_or_broken()
    ensures { (r : Rule) (xs : List Class) → Derives r xs ⊎ ((n : ℕ) × BreaksAt r xs n) }
{
    pending_is_derived();
}

/// In the tokens of a program a number stands behind a `-` that has no operand before it exactly where it is that of a
/// negative literal: the first number out of its range by the tokens is that by their tree.
pub fn numbers_by_the_tree()
    ensures { (tree : Tree Token) → IsOf (item (OfRule Program)) (seen tree)
        → first_number_out_of_range (yield tree) ≡ number_out_of_range tree }
{}

/// What at most 16,384 tokens spell is a program, where no number is out of its range and no name is refused.
pub fn spelled_programs()
    ensures { (tree : Tree Token) → IsOf (item (OfRule Program)) (seen tree)
        → number_out_of_range tree ≡ None → first_misnamed tree ≡ None → length (yield tree) ≤ 16384
        → IsProgram (program_of tree).params (program_of tree).body }
{
    binders_count_up();
}
