//! Laws of the names in expressions, each the contract of a function that does nothing.

ghost use Rattle.std.specs.Prelude.{◌≡◌, ◌≢◌, ◌↔◌, ◌<◌, ℕ};
ghost use Rattle.weld_tree.specs.ExprTree.{ExprTree};
ghost use Rattle.weld_meaning.specs.Names.{IsFree, Binds, put};
ghost use Rattle.weld_substitution.specs.Uses.{uses};

/// Where no binder in the expression has the name's number, the name is used in it exactly where it
/// occurs free; where it isn't used, nothing changes if a value is put in its place.
pub fn uses_are_free()
    ensures free { (e : ExprTree) (s : ℕ) → Binds (λ b. s ≢ b) e → (0 < uses e s) ↔ IsFree e s }
    ensures unused { (e v : ExprTree) (s : ℕ) → uses e s ≡ 0 → put s v e ≡ e }
{}
