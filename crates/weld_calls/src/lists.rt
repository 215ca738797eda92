//! Laws of this crate's definitions, each the contract of a function that does nothing.

ghost use Rattle.std.specs.Prelude.{◌≡◌, ◌≢◌, ◌↔◌, List, length};
ghost use Rattle.std.specs.FinMap as finite;
ghost use Rattle.weld_data.specs.Value.{Value};
ghost use Rattle.weld_builders.specs.Outcome.{fault};
ghost use Rattle.weld_calls.specs.Lists.{paired, beside, grouped, of_some};

/// Lists are put side by side exactly where they are of one length; else there is a fault.
pub fn lists_side_by_side()
    ensures { (xs ys : List Value) → (paired xs ys ≡ fault) ↔ (length xs ≢ length ys) }
{}

/// In a group each key has what the rule makes of the values beside it, in order; a key that nothing stands
/// beside isn't there.
pub fn each_key_has_its_rule()
    ensures { (rule : List Value → Value) (ps : List (Value × Value)) (key : Value)
        → finite.get (grouped rule ps) key ≡ of_some rule (beside key ps) }
{}
