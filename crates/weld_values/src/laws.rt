//! Laws of this crate's definitions, each the contract of a function that does nothing.

ghost use Rattle.std.specs.Prelude.{◌≡◌, ◌⊎◌, ◌++◌, ◌∷◌, ℕ, List, All};
ghost use Rattle.weld_data.specs.declared.kind.Kind.{Kind};
ghost use Rattle.weld_data.specs.Value.{Value, list, values};
ghost use Rattle.weld_tree.specs.TypeTree.{TypeTree, scalar, vec};
ghost use Rattle.weld_tree.specs.Types.{IsWellFormed, IsBuilderFree};
ghost use Rattle.weld_tree.specs.HasValue.{HasValue};
ghost use Rattle.weld_values.specs.Reading.{Spells, ReadsAs, WhyNot};
ghost use Rattle.weld_values.specs.Judging.{IsReadable, IsPlain};
ghost use Rattle.weld_values.specs.Grammar.{At, Found, scalar_at};
ghost use Rattle.weld_values.specs.Pieces.{Separated, InBrackets};
ghost use Rattle.weld_values.specs.Showing.{show};

use crate::fault::DataFault;

/// When ranges and equal keys are ignored, a text is at most one value of a type.
pub fn one_spelling()
    ensures { (text : List ℕ) (t : TypeTree) (v w : Value) → Spells text t v → Spells text t w
        → v ≡ w }
{}

/// Values of a type that is well formed and has no builder in it can be read.
pub fn well_formed_types_are_readable()
    ensures { (t : TypeTree) → IsWellFormed t → IsBuilderFree t → IsReadable t }
{}

/// A text reads as at most one value; where it reads, it has no reason but want of memory not to; and it has at most one
/// reason beside that.
pub fn one_reading()
    ensures value { (text : List ℕ) (t : TypeTree) (v w : Value) → ReadsAs text t v
        → ReadsAs text t w → v ≡ w }
    ensures no_reason { (text : List ℕ) (t : TypeTree) (v : Value) (f : _) → ReadsAs text t v
        → WhyNot text t f → f ≡ DataFault.Memory }
    ensures one_reason { (text : List ℕ) (t : TypeTree) (f g : _) → WhyNot text t f
        → WhyNot text t g
        → (f ≡ DataFault.Memory) ⊎ ((g ≡ DataFault.Memory) ⊎ (f ≡ g)) }
{}

/// What reads as a value of a type is a value of it.
pub fn read_values_have_the_type()
    ensures { (text : List ℕ) (t : TypeTree) (v : Value) → IsReadable t → ReadsAs text t v
        → HasValue t v }
{}

/// What is written of a value reads as that value, and as no other.
pub fn written_values_read_back()
    ensures reads { (t : TypeTree) (v : Value) → IsReadable t → HasValue t v
        → ReadsAs (show t v) t v }
    ensures only { (t : TypeTree) (v w : Value) → IsReadable t → HasValue t v
        → ReadsAs (show t v) t w → w ≡ v }
{}

/// Each text reads as a value of the type or has a reason other than want of memory.
pub fn each_text_reads_or_not()
    ensures { (text : List ℕ) (t : TypeTree) → IsReadable t
        → ((v : Value) × ReadsAs text t v) ⊎ ((f : _) × WhyNot text t f
        × (f ≡ DataFault.Memory → ⊥)) }
{}

/// A text that is cut at a comma is scalars with commas between them just where both of its parts are; they are those of the
/// one and then those of the other.
pub fn scalars_join_at_commas()
    ensures joined { (k : Kind) (p q : List ℕ) (vs ws : List Value)
        → Separated (Found (scalar_at k)) vs p → Separated (Found (scalar_at k)) ws q
        → Separated (Found (scalar_at k)) (vs ++ ws) (p ++ 44 ∷ q) }
    ensures cut { (k : Kind) (p q : List ℕ) (us : List Value)
        → Separated (Found (scalar_at k)) us (p ++ 44 ∷ q)
        → (vs : List Value) × (ws : List Value) × (us ≡ vs ++ ws)
        × Separated (Found (scalar_at k)) vs p × Separated (Found (scalar_at k)) ws q }
{}

/// Scalars with commas between them, in brackets, read as the list of them.
pub fn scalars_in_brackets_read_as_lists()
    ensures { (k : Kind) (text body : List ℕ) (vs : List Value) → InBrackets text body
        → Separated (Found (scalar_at k)) vs body
        → All (HasValue (scalar k)) vs → ReadsAs text (vec (scalar k)) (list (values vs)) }
{}

/// Two texts of values without dictionaries, with a comma between each two, are, with a comma between them, the values of
/// the one and then those of the other.
pub fn plain_values_join_at_commas()
    ensures { (t : TypeTree) (p q : List ℕ) (vs ws : List Value) → IsPlain t → Separated (At t) vs p
        → Separated (At t) ws q
        → Separated (At t) (vs ++ ws) (p ++ 44 ∷ q) }
{}

/// Such values with commas between them, in brackets, read as the list of them.
pub fn plain_values_in_brackets_read_as_lists()
    ensures { (t : TypeTree) (text body : List ℕ) (vs : List Value) → IsPlain t
        → InBrackets text body → Separated (At t) vs body
        → All (HasValue t) vs → ReadsAs text (vec t) (list (values vs)) }
{}
