//! Laws of this crate's definitions, each the contract of a function that does nothing.

ghost use Rattle.std.specs.Prelude.{◌≡◌, ◌↔◌, ◌++◌, ℕ, true, List, [], ◌∷◌, map, Some};
ghost use Rattle.weld_data.specs.Value.{Value, struct as struct_value, values};
ghost use Rattle.weld_tree.specs.TypeTree.{TypeTree};
ghost use Rattle.weld_tree.specs.Program.{ProgramTree, IsProgram, loops};
ghost use Rattle.weld_tree.specs.HasValue.{HasValue};
ghost use Rattle.weld_builders.specs.Outcome.{done, fault};
ghost use Rattle.weld_meaning.specs.Typing.{ProgramHas};
ghost use Rattle.weld_meaning.specs.Meaning.{GivesOrFaults, ArgumentsFit, meaning};
ghost use Rattle.weld_meaning.specs.Accepted.{IsAccepted};
ghost use Rattle.weld_objects.specs.Objects.{Object, type_at, denote, all_done, IsObject, AreObjects};
ghost use Rattle.weld_objects.specs.Reached.{IsReached, reached};
ghost use Rattle.weld_objects.specs.Additions.{CallFault, IsRefused, MayBeAdded};
ghost use Rattle.weld_objects.specs.Lowered.{lowered, inputs_of, kept_loops, shown_answer, shown_type, MayBeLowered};

use weld_meaning::laws::typed_programs_are_never_stuck;

/// Objects that keep their rules keep them with one more behind them that does.
pub fn objects_grow()
    ensures { (os : List Object) (o : Object) → AreObjects os → IsObject (type_at os) o
        → AreObjects (os ++ o ∷ []) }
{}

/// An object comes to a value of its type, or faults.
pub fn objects_are_never_stuck()
    ensures { (os : List Object) (id : ℕ) (t : TypeTree) → AreObjects os → type_at os id ≡ Some t
        → GivesOrFaults (HasValue t) (denote os id) }
{
    typed_programs_are_never_stuck();
}

/// A call that may be added isn't refused, and one that is refused is so for one reason alone.
pub fn a_call_has_one_answer()
    ensures added { (os : List Object) (ids : List ℕ) (p : ProgramTree) (f : CallFault)
        → IsAccepted p
        → MayBeAdded os ids p.params → IsRefused os ids p.params f → ⊥ }
    ensures refused { (os : List Object) (ids : List ℕ) (p : ProgramTree) (f g : CallFault)
        → IsRefused os ids p.params f → IsRefused os ids p.params g → f ≡ g }
{}

/// What is marked as reached is what is reached: the shown objects, and with a call those that it is
/// made on, and no others.
pub fn marks_are_exact()
    ensures { (os : List Object) (shown : List ℕ) (id : ℕ) → AreObjects os
        → (reached os shown id ≡ true) ↔ IsReached os shown id }
{}

/// Objects are lowered to a program that is accepted. It is of the struct of the shown objects' types,
/// the values that are reached are arguments of its parameters' types, and it has as many loops as the
/// programs of the calls that are reached have together.
pub fn objects_make_one_program()
    ensures program { (os : List Object) (shown : List ℕ) → MayBeLowered os shown
        → IsProgram (lowered (reached os shown) os shown).params
        (lowered (reached os shown) os shown).body }
    ensures accepted { (os : List Object) (shown : List ℕ) → MayBeLowered os shown
        → IsAccepted (lowered (reached os shown) os shown) }
    ensures typed { (os : List Object) (shown : List ℕ) → MayBeLowered os shown
        → ProgramHas (lowered (reached os shown) os shown) (shown_type os shown) }
    ensures arguments { (os : List Object) (shown : List ℕ) → MayBeLowered os shown
        → ArgumentsFit (lowered (reached os shown) os shown).params
        (inputs_of (reached os shown) 0 os) }
    ensures loops { (os : List Object) (shown : List ℕ)
        → loops (lowered (reached os shown) os shown).body ≡ kept_loops (reached os shown) 0 os }
{}

/// On these values it means the struct of what the shown objects come to, or a fault exactly where an
/// object that is reached faults. What isn't reached plays no part.
pub fn one_program_means_the_objects()
    ensures whole { (os : List Object) (shown : List ℕ) → MayBeLowered os shown
        → meaning (lowered (reached os shown) os shown) (inputs_of (reached os shown) 0 os)
        ≡ shown_answer (reached os shown) os shown }
    ensures fault { (os : List Object) (shown : List ℕ) (id : ℕ) → MayBeLowered os shown
        → IsReached os shown id → denote os id ≡ fault
        → meaning (lowered (reached os shown) os shown) (inputs_of (reached os shown) 0 os)
        ≡ fault }
    ensures value { (os : List Object) (shown : List ℕ) → MayBeLowered os shown
        → ((id : ℕ) → IsReached os shown id → (v : Value) × (denote os id ≡ done v))
        → (vs : List Value) × (all_done (map (denote os) shown) ≡ done vs)
        × (meaning (lowered (reached os shown) os shown) (inputs_of (reached os shown) 0 os)
        ≡ done (struct_value (values vs))) }
{
    typed_programs_are_never_stuck();
}
