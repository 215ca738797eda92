//! Laws of spelling. Each function's contract is the law.
ghost use Rattle.std.specs.Prelude.{◌≡◌, ℕ, List, ◌++◌};
ghost use Rattle.weld_grammar.specs.declared.terminals.token.Token.{Token};
ghost use Rattle.weld_tree.specs.Program.{ProgramTree, bound, syms_of, AreDistinct};
ghost use Rattle.weld_grammar.specs.declared.rule.Rule.TheVariants.{Program};
ghost use Rattle.weld_grammar.specs.Breaks.{Derives};
ghost use Rattle.weld_grammar.specs.declared.rule.Rule.{Rule};
ghost use Rattle.weld_grammar.specs.declared.item.Item.TheVariants.{Part as OfRule};
ghost use Rattle.weld_grammar.specs.Grammar.{item};
ghost use Rattle.weld_grammar.specs.Derivation.{Tree, yield, IsOf};
ghost use Rattle.weld_spell.specs.Seen.{seen};
ghost use Rattle.weld_grammar.specs.Classes.{classes};
ghost use Rattle.weld_spell.specs.Spells.{Spells};
ghost use Rattle.weld_spell.specs.Numbers.{count_from};

use weld_grammar::laws::one_tree;

/// Tokens spell one program at most: its shape, its places and the numbers of its binders are fixed by
/// them.
pub fn one_program()
    ensures { (ts : List Token) (p q : ProgramTree) → Spells ts p → Spells ts q → p ≡ q }
{
    one_tree();
}

/// A rule derives tokens by one tree over them at most.
pub fn one_tree_of_tokens()
    ensures { (r : Rule) (t u : Tree Token) → IsOf (item (OfRule r)) (seen t)
        → IsOf (item (OfRule r)) (seen u) → yield t ≡ yield u → t ≡ u }
{
    one_tree();
}

/// Tokens spell a program exactly where the grammar derives one from them.
pub fn programs_are_derived()
    ensures derived { (ts : List Token) (p : ProgramTree) → Spells ts p
        → Derives Program (classes ts) }
    ensures spelled { (ts : List Token) → Derives Program (classes ts)
        → (p : ProgramTree) × Spells ts p }
{}

/// The binders of a program that tokens spell are numbered 0, 1, .. in the order of the text, so that each
/// has a number of its own.
pub fn binders_count_up()
    ensures in_order { (ts : List Token) (p : ProgramTree) → Spells ts p
        → (k : ℕ) × (syms_of p.params ++ bound p.body ≡ count_from 0 k) }
    ensures distinct { (ts : List Token) (p : ProgramTree) → Spells ts p
        → AreDistinct (syms_of p.params ++ bound p.body) }
{}
