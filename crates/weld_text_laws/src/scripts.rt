//! Laws of the reading of scripts, each the contract of a function that does nothing.

ghost use Rattle.std.specs.Prelude.{◌≡◌, ◌≢◌, ◌⊎◌, ℕ, List, Ok, Err};
ghost use Rattle.weld_script.specs.Script.{PlainScript, IsScript};
ghost use Rattle.weld_read_script.specs.Reading.{IsRead};
ghost use Rattle.weld_read_script.specs.declared.read.ScriptFault.{ScriptFault};
ghost use Rattle.weld_read_script.specs.declared.read.ScriptFault.TheVariants.{Memory};
ghost use Rattle.weld_read_script.specs.declared.statements.statement.Saying.{Saying};
ghost use Rattle.weld_read_script.specs.Statements.{LineSays};

use weld_grammar::laws::one_break;
use weld_read_script::statements::laws::statements_are_sound;
use weld_read_script::steps::laws::statements_keep;
use weld_spell::laws::one_tree_of_tokens;
use weld_spell::programs::derived_or_broken;
use weld_tokens::laws::{one_reading, some_reading};

/// A line says just one thing: nothing, a statement, or what has none of the forms.
pub fn each_line_says_one_thing()
    ensures one { (line : List ℕ) (a b : Saying) → LineSays line a → LineSays line b → a ≡ b }
    ensures some { (line : List ℕ) → (said : Saying) × LineSays line said }
{
    one_reading();
    some_reading();
    one_tree_of_tokens();
    one_break();
    derived_or_broken();
}

/// A text is one script at most, is refused for one thing at most, and never both.
pub fn one_script()
    ensures script { (text : List ℕ) (s t : PlainScript) → IsRead text (Ok s) → IsRead text (Ok t)
        → s ≡ t }
    ensures fault { (text : List ℕ) (e f : ScriptFault) → e ≢ Memory → f ≢ Memory
        → IsRead text (Err e) → IsRead text (Err f) → e ≡ f }
    ensures not_both { (text : List ℕ) (s : PlainScript) (e : ScriptFault) → e ≢ Memory
        → IsRead text (Ok s) → IsRead text (Err e) → ⊥ }
{
    each_line_says_one_thing();
}

/// Each text is a script, or is refused for something other than want of memory.
pub fn each_text_is_read()
    ensures { (text : List ℕ) → ((s : PlainScript) × IsRead text (Ok s))
        ⊎ ((e : ScriptFault) × (e ≢ Memory) × IsRead text (Err e)) }
{
    each_line_says_one_thing();
}

/// What a text is read as is a script: each call is made on objects before it, whose types fit it, and there are
/// not too many of anything.
pub fn read_scripts_are_scripts()
    ensures { (text : List ℕ) (s : PlainScript) → IsRead text (Ok s) → IsScript s.made s.shown }
{
    statements_are_sound();
    statements_keep();
}
