//! Laws of the grammar. Each function's contract is the law; its body does nothing.
ghost use Rattle.std.specs.Prelude.{◌≡◌, ◌||◌, ◌∷◌, ◌++◌, ℕ, List, Some, IsSome, IsTrue};
ghost use Rattle.weld_grammar.specs.declared.terminals.class.Class.{Class};
ghost use Rattle.weld_grammar.specs.declared.rule.Rule.{Rule};
ghost use Rattle.weld_grammar.specs.declared.item.Item.{Item};
ghost use Rattle.weld_grammar.specs.declared.item.Item.TheVariants.{One, Part as OfRule, Optional, Repeated};
ghost use Rattle.weld_grammar.specs.declared.terminal.Terminal.{Terminal};
ghost use Rattle.weld_grammar.specs.Grammar.{item, all_of, one_of, body};
ghost use Rattle.weld_grammar.specs.Pending.{behind, depth, first_begun, pending, can_end};
ghost use Rattle.weld_grammar.specs.Derivation.{Tree, yield, IsOf};
ghost use Rattle.weld_grammar.specs.Breaks.{Derives, BreaksAt};
ghost use Rattle.weld_grammar.specs.Apart.{takes_order, choices_apart};

/// Where a rule derives tokens, something is pending behind every front of them, and all that is pending
/// behind the last of them can be empty.
pub fn derived_is_pending()
    ensures fronts { (r : Rule) (xs ys : List Class) → Derives r (xs ++ ys)
        → IsSome (pending r xs) }
    ensures end { (r : Rule) (xs : List Class) → Derives r xs
        → (s : List Item) × (pending r xs ≡ Some s) × IsTrue (can_end s) }
{}

/// Where all that is pending behind tokens can be empty, the rule derives them.
pub fn pending_is_derived()
    ensures { (r : Rule) (xs : List Class) (s : List Item) → pending r xs ≡ Some s
        → IsTrue (can_end s) → Derives r xs }
{}

/// A rule derives tokens by one tree at most.
pub fn one_tree()
    ensures { (r : Rule) (t u : Tree Class) → IsOf (item (OfRule r)) t → IsOf (item (OfRule r)) u
        → yield t ≡ yield u → t ≡ u }
{}

/// Tokens that a rule derives break it nowhere, and others at one place.
pub fn one_break()
    ensures derived { (r : Rule) (xs : List Class) (n : ℕ) → Derives r xs → BreaksAt r xs n → ⊥ }
    ensures once { (r : Rule) (xs : List Class) (m n : ℕ) → BreaksAt r xs m → BreaksAt r xs n
        → m ≡ n }
{}

/// But for what stands behind a minus, no token begins two alternatives of a rule.
pub fn alternatives_begin_apart()
    ensures { (r : Rule) (x : Class) → IsTrue (takes_order r || choices_apart (body r) x) }
{}

/// A part opens at a token as the table says, however deep it opens.
pub fn parts_open()
    ensures terminal { (a : Terminal) (x : Class) (s : List Item)
        → behind depth (item (One a)) x s ≡ s }
    ensures rule { (r : Rule) (x : Class) (s : List Item)
        → behind depth (item (OfRule r)) x s ≡ behind depth (body r) x s }
    ensures optional { (r : Rule) (x : Class) (s : List Item)
        → behind depth (item (Optional r)) x s ≡ behind depth (item (OfRule r)) x s }
    ensures repeated { (r : Rule) (x : Class) (s : List Item)
        → behind depth (item (Repeated r)) x s ≡ behind depth (item (OfRule r)) x (Repeated r ∷ s) }
    ensures row { (i : Item) (rest : List Item) (x : Class) (s : List Item)
        → behind depth (all_of (i ∷ rest)) x s ≡ behind depth (item i) x (rest ++ s) }
    ensures choice { (choices : List Item) (x : Class) (s : List Item)
        → behind depth (one_of choices) x s ≡ behind depth (item (first_begun choices x)) x s }
{}
