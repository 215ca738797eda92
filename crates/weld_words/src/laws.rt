//! A law of the form of words, the contract of a function that does nothing.

ghost use Rattle.std.specs.Prelude.{◌≡◌, List};
ghost use Rattle.weld_words.specs.Words.{Text, IsForm};
ghost use Rattle.weld_words.specs.declared.options.Options.{Options};

/// Words have one reading at most.
pub fn one_reading()
    ensures { (words : List Text) (o p : Options) → IsForm words o → IsForm words p → o ≡ p }
{}
