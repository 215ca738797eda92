ghost use Rattle.std.specs.Prelude.{◌≡◌, ◌<◌, ◌+◌, ℕ, IsOk, IfOk, OnOk, OnErr};
ghost use Rattle.weld_data.specs.Value.{Value};
ghost use Rattle.weld_builders.specs.Builder.{Builder, Item, bare_builder, merge_item, after_builder, builder_result, LiesInRange, SameShape};
ghost use Rattle.weld_builders.specs.Outcome.{map_out};
ghost use Rattle.weld_builders.proofs.Structs.{builder_bare_before, builder_bare_behind, after_builder-assoc, merge_item-after_builder};
ghost use Rattle.weld_pieces.specs.Answer.{Merged, NotMemory};
ghost use Rattle.weld_pieces.specs.Kept.{Kept, started, Takes};

use std::alloc::{AllocError, Global};
use weld_data::Stop;

/// What a piece of a loop has merged into a builder. Parts that are kept alike join, the earlier
/// before the later; contracts see a part as a builder of plain data, and that the laws of these
/// hold of parts.
pub trait Part: Sized {
    /// What a part is started from: how it is kept.
    type Shape;

    /// What is merged.
    type Item;

    /// What a builder's result is kept in.
    type Out;

    ghost builder: { Self → Builder };

    ghost kept: { Self → Kept };

    ghost kept_from: { Self.Shape → Kept };

    ghost is_shape: { Self.Shape → Type 0 };

    ghost as_item: { Self.Item → Item };

    ghost out: { Self.Out → Value };

    ghost spare: { Self → ℕ };

    ghost finishes: { Self → Type 0 };

    /// The part that has nothing merged.
    fn start(alloc: Global, shape: &Self::Shape) -> Result<Self, AllocError>
        requires { is_shape shape.now }
        ensures bare { IfOk result (λ p. builder p ≡ started (kept_from shape.now)) }
        ensures kept { IfOk result (λ p. kept p ≡ kept_from shape.now) }
        ensures spare { IfOk result (λ p. spare p ≡ 0) };

    /// Merges an item that the part takes. It faults exactly where the item is a number at an index
    /// outside of the cells. With room to spare it takes no memory, and there is room for one less
    /// afterwards.
    fn merge(&mut self, item: Self::Item) -> Result<(), Stop>
        requires { Takes (kept self.old) (as_item item) }
        ensures merged { Merged result (merge_item (builder self.old) (as_item item))
            (builder self.old) (builder self.new) }
        ensures kept { kept self.new ≡ kept self.old }
        ensures room { 0 < spare self.old → NotMemory result }
        ensures lower { 0 < spare self.old → spare self.new + 1 ≡ spare self.old };

    /// Appends what a later part that is kept alike has merged: this part becomes the join of both,
    /// without a copy of what it has. After want of memory it is only good to be dropped.
    fn join(&mut self, later: Self) -> Result<(), AllocError>
        requires { kept self.old ≡ kept later }
        ensures joined { OnOk result (builder self.new ≡ after_builder (builder self.old)
            (builder later)) }
        ensures kept { OnOk result (kept self.new ≡ kept self.old) };

    /// The builder's result.
    fn finish(self, alloc: Global) -> Result<Self::Out, AllocError>
        requires { finishes self }
        ensures result_of { IfOk result (λ r. out r ≡ builder_result (builder self)) };

    /// A part without what it has merged is what it started as.
    ghost bare_is: { (p : Self) → bare_builder (builder p) ≡ started (kept p) };

    /// Nothing merged is neutral, before and behind.
    ghost neutral_before: { (p : Self) → LiesInRange (builder p) → after_builder (bare_builder (builder p)) (builder p) ≡ builder p } = { λ p h. builder_bare_before (builder p) h };

    ghost neutral_behind: { (p : Self) → LiesInRange (builder p) → after_builder (builder p) (bare_builder (builder p)) ≡ builder p } = { λ p h. builder_bare_behind (builder p) h };

    /// To join is associative, of parts of one shape.
    ghost associative: { (r s d : Self) → SameShape (builder r) (builder s) → SameShape (builder s) (builder d)
        → after_builder (after_builder (builder r) (builder s)) (builder d) ≡ after_builder (builder r) (after_builder (builder s) (builder d)) } = { λ r s d g h. after_builder-assoc (builder r) (builder s) (builder d) g h };

    /// To merge into a join is to merge into its later part.
    ghost merges_behind: { (s d : Self) (i : Self.Item) → merge_item (after_builder (builder s) (builder d)) (as_item i)
        ≡ map_out (after_builder (builder s)) (merge_item (builder d) (as_item i)) } = { λ s d i. merge_item-after_builder (builder s) (builder d) (as_item i) };
}
