//! Laws of this crate's definitions. Each function's contract is the law; its body does nothing.
ghost use Rattle.std.specs.Prelude.{◌≡◌, ◌+◌, ◌<◌, ℕ, List, length};
ghost use Rattle.weld_tree.specs.ExprTree.{ExprTree};
ghost use Rattle.weld_tree.specs.ExprFalls.{expr_nodes};
ghost use Rattle.weld_tree.specs.Program.{ProgramTree, IsOneOf, loops};
ghost use Rattle.weld_tree.specs.Blank.{AreSame, bare, distance};

/// To be the same up to places, noted types and binder numbers is an equivalence.
pub fn sameness_is_an_equivalence()
    ensures reflexive { (p : ProgramTree) → AreSame p p }
    ensures symmetric { (p q : ProgramTree) → AreSame p q → AreSame q p }
    ensures transitive { (p q r : ProgramTree) → AreSame p q → AreSame q r → AreSame p r }
{}

/// Programs that are the same have as many nodes and loops.
#[tactic(auto, using(crate::proofs::SameLaws::same_nodes, crate::proofs::SameLaws::same_loops))]
pub fn same_programs_have_same_counts()
    ensures nodes { (p q : ProgramTree) → AreSame p q → expr_nodes p.body ≡ expr_nodes q.body }
    ensures loops { (p q : ProgramTree) → AreSame p q → loops p.body ≡ loops q.body }
{}

/// Of a name, sameness keeps which binder it is: the distance of a bound name is below the number of
/// binders in scope, and that of a free name isn't; two names with one distance are one name.
#[tactic(auto, using(crate::proofs::SameLaws::bound_is_near, crate::proofs::SameLaws::free_is_far, crate::proofs::SameLaws::distance_is_one_name))]
pub fn distance_tells_binders_apart()
    ensures bound { (scope : List ℕ) (s : ℕ) → IsOneOf scope s → distance scope s < length scope }
    ensures free { (scope : List ℕ) (s : ℕ) → ¬ (IsOneOf scope s)
        → distance scope s ≡ length scope + s }
    ensures apart { (scope : List ℕ) (s t : ℕ) → distance scope s ≡ distance scope t → s ≡ t }
{}
