//! A law of this crate's definitions, the contract of a function that does nothing.

ghost use Rattle.std.specs.Prelude.{ℕ, ◌∷◌, []};
ghost use Rattle.weld_script.specs.Script.{AreInputs, IsScript, declared_of};
ghost use Rattle.weld_script.specs.Soak.{soak_made, soak_shown, soak_table};

/// The fixed script is a script, and the table that is made is of the type that it declares.
pub fn soak_is_a_script()
    ensures script { IsScript soak_made soak_shown }
    ensures inputs { (seed rows : ℕ) → AreInputs (declared_of soak_made)
        (soak_table seed rows ∷ []) }
{}
