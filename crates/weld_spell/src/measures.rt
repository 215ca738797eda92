//! Laws of limits. Each function's contract is the law.
ghost use Rattle.std.specs.Prelude.{◌≡◌};
ghost use Rattle.weld_grammar.specs.declared.terminals.token.Token.{Token};
ghost use Rattle.weld_grammar.specs.declared.rule.Rule.TheVariants.{Program};
ghost use Rattle.weld_grammar.specs.declared.item.Item.TheVariants.{Part as OfRule};
ghost use Rattle.weld_grammar.specs.Grammar.{item};
ghost use Rattle.weld_grammar.specs.Derivation.{Tree, yield, IsOf};
ghost use Rattle.weld_spell.specs.Seen.{seen};
ghost use Rattle.weld_spell.specs.ProgramOf.{program_of};
ghost use Rattle.weld_tokens.specs.Lists.{first_type_too_large, first_parameter_too_many, first_field_too_many};
ghost use Rattle.weld_spell.specs.Measures.{type_too_large, parameter_too_many, field_too_many};

/// In the tokens of a program the 17th parameter is the program's.
pub fn parameters_by_the_tree()
    ensures { (tree : Tree Token) → IsOf (item (OfRule Program)) (seen tree)
        → first_parameter_too_many (yield tree) ≡ parameter_too_many (program_of tree).params }
{}

/// In the tokens of a program the first field or leg that is the 17th of its list is that of its tree.
pub fn fields_by_the_tree()
    ensures { (tree : Tree Token) → IsOf (item (OfRule Program)) (seen tree)
        → first_field_too_many (yield tree) ≡ field_too_many tree }
{}

/// In the tokens of a program the first written type that is too large is that of its tree.
pub fn types_by_the_tree()
    ensures { (tree : Tree Token) → IsOf (item (OfRule Program)) (seen tree)
        → first_type_too_large (yield tree) ≡ type_too_large tree }
{}
