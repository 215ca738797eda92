//! A law of this crate's definitions, the contract of a function that does nothing.
ghost use Rattle.std.specs.Prelude.{◌≡◌, ℕ, Bool, List};
ghost use Rattle.weld_objects.specs.Objects.{Object};
ghost use Rattle.weld_objects.specs.Lowered.{kept_values, inputs_of};
ghost use Rattle.weld_lazy.specs.Inputs.{picked};

/// The values that a graph gives up for the inputs of a lowered program are those on which it means
/// the objects.
#[tactic(auto, using(crate::proofs::Picking::picked_inputs))]
pub fn inputs_are_given_up()
    ensures { (keep : ℕ → Bool) (os : List Object) → picked 0 os (kept_values keep 0 os)
        ≡ inputs_of keep 0 os }
{}
