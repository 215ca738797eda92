//! Laws of this crate's definitions, each the contract of a function that does nothing.

ghost use Rattle.std.specs.Prelude.{◌≡◌, Some};
ghost use Rattle.weld_grammar.specs.declared.terminals.token.Token.{Token};
ghost use Rattle.weld_grammar.specs.Derivation.{Tree, yield};
ghost use Rattle.weld_spell.specs.Names.{Refused, StandsIn, first_misnamed};

/// The first refused name of a tree stands in its tokens: N1 at the place of one, N2 at that of a reserved word.
pub fn misnamed_stands()
    ensures { (tree : Tree Token) (refused : Refused) → first_misnamed tree ≡ Some refused
        → StandsIn refused (yield tree) }
{}
