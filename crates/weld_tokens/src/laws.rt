//! Laws of this crate's definitions, each the contract of a function that does nothing.

ghost use Rattle.std.specs.Prelude.{◌≡◌, ℕ, ◌⊎◌, List, Some};
ghost use Rattle.weld_grammar.specs.Symbols.{symbol_text};
ghost use Rattle.weld_grammar.specs.ReservedWords.{reserved_text};
ghost use Rattle.weld_grammar.specs.declared.terminals.symbol.Symbol.{Symbol};
ghost use Rattle.weld_grammar.specs.declared.terminals.reserved.Reserved.{Reserved};
ghost use Rattle.weld_grammar.specs.declared.terminals.class.Class.TheVariants as classes;
ghost use Rattle.weld_tokens.specs.Words.{class_of};
ghost use Rattle.std.specs.List.{AllByRecursion};
ghost use Rattle.weld_tree.specs.declared.place.Place.{Place};
ghost use Rattle.weld_grammar.specs.declared.terminals.token.Token.{Token};
ghost use Rattle.weld_tokens.specs.Tokens.{AreTokens, IsWrongAt};

/// A text has one list of tokens at most, one place at most where X1 refuses it, and never both.
pub fn one_reading()
    ensures tokens { (text : List ℕ) (a b : List Token) → AreTokens text a → AreTokens text b
        → a ≡ b }
    ensures wrong { (text : List ℕ) (p q : Place) → IsWrongAt text p → IsWrongAt text q → p ≡ q }
    ensures not_both { (text : List ℕ) (a : List Token) (p : Place) → AreTokens text a
        → IsWrongAt text p → ⊥ }
{}

/// A text has tokens, or a place where X1 refuses it.
pub fn some_reading()
    ensures { (text : List ℕ) → ((tokens : List Token) × AreTokens text tokens)
        ⊎ ((place : Place) × IsWrongAt text place) }
{}

/// Each symbol and each reserved word is the token of its own bytes.
pub fn spelled_tokens()
    ensures symbols { (s : Symbol) → class_of (symbol_text s) ≡ Some (classes.Symbol s) }
    ensures reserved { (r : Reserved) → class_of (reserved_text r) ≡ Some (classes.Reserved r) }
{}

/// Each token of a text has the class of its bytes.
pub fn classes_of_tokens()
    ensures { (text : List ℕ) (tokens : List Token) → AreTokens text tokens
        → AllByRecursion (λ t. class_of t.word ≡ Some t.class) tokens }
{}
