//! Laws of this crate's definitions, each the contract of a function that does nothing.

ghost use Rattle.std.specs.Prelude.{◌≡◌, ◌++◌, List, [], ◌∷◌};
ghost use Rattle.weld_calls.specs.CallTypes.{IsValueType};
ghost use Rattle.weld_script.specs.declared.made.Declared.{Declared};
ghost use Rattle.weld_script.specs.declared.made.Made.{Made};
ghost use Rattle.weld_script.specs.Script.{AreMade, IsMade, IsDeclared, AreDeclared, declared_type, made_type, made_types, declared_of, declared_by};

/// Objects that a script may make stay such with one more behind them that is, and its type is the last.
pub fn scripts_grow()
    ensures made { (ms : List Made) (m : Made) → AreMade [] ms → IsMade (made_types ms) m
        → AreMade [] (ms ++ m ∷ []) }
    ensures types { (ms : List Made) (m : Made) → made_types (ms ++ m ∷ [])
        ≡ made_types ms ++ made_type (made_types ms) m ∷ [] }
    ensures declared { (ms : List Made) (m : Made) → declared_of (ms ++ m ∷ [])
        ≡ declared_of ms ++ declared_by m }
{}

/// What is declared is of a type of values: well formed, and without builders.
#[tactic(auto, using(crate::proofs::ValueTypes::declared_values))]
pub fn declarations_have_types_of_values()
    ensures { (d : Declared) → IsDeclared d → IsValueType (declared_type d) }
{}

/// What the objects of a script declare may be declared.
#[tactic(auto, using(crate::proofs::Growing::all_declared))]
pub fn scripts_declare()
    ensures { (ms : List Made) → AreMade [] ms → AreDeclared (declared_of ms) }
{}
