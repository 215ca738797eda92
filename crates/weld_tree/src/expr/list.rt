ghost use Rattle.std.specs.Prelude.{◌≡◌, ◌==◌, [], ◌∷◌, ◌++◌, length, map, All, ◌≤◌, OnOk, OnErr};
ghost use Rattle.weld_tree.specs.ExprTree.{pack_exprs, pack_legs};
ghost use Rattle.weld_tree.specs.ExprFalls.{expr_nodes, exprs_nodes, leg_nodes, legs_nodes};
ghost use Rattle.std.specs.Borrow.{sem};
ghost use Rattle.weld_tree.specs.ExprView.{view_leg};
ghost use Rattle.weld_tree.specs.Lending.{LendsExprs, LendsLegs};

use crate::expr::{Expr, Exprs, Leg, Legs};
use std::alloc::{AllocError, Global};

impl Exprs {
    /// The list without expressions. It takes no memory.
    pub fn new(alloc: Global) -> Exprs
        ensures { result ≡ [] }
    {
        Exprs {
            items: Vec::new(alloc),
        }
    }

    /// The list of these expressions, which it keeps. It takes no memory.
    pub fn from_vec(items: Vec<Expr>) -> Exprs
        ensures { result ≡ items.items }
    {
        Exprs { items }
    }

    /// The expressions, given up. It takes no memory.
    pub fn into_vec(self) -> Vec<Expr>
        ensures { result.items ≡ self }
    {
        let Exprs { items } = self;
        items
    }

    /// The expressions. None has more nodes than all of them together.
    #[tactic(auto, using(crate::proofs::Parts::exprs_parts))]
    pub fn as_slice(&self) -> &[Expr]
        ensures value { result.now ≡ self.now }
        ensures parts { All (λ e. expr_nodes e ≤ exprs_nodes (pack_exprs self.now)) result.now }
    {
        self.items.as_slice()
    }

    /// The expressions, to be changed in place. None has more nodes than all of them together.
    #[tactic(auto, using(crate::proofs::Parts::exprs_parts))]
    pub fn as_mut_slice(&mut self) -> &mut [Expr]
        ensures* writes_back { sem 𝓛 (LendsExprs self.entry result) }
        ensures value { result.now ≡ self.old }
        ensures parts { All (λ e. expr_nodes e ≤ exprs_nodes (pack_exprs self.old)) result.now }
    {
        self.items.as_mut_slice()
    }

    /// How many expressions there are.
    pub fn len(&self) -> usize
        ensures { result ≡ length self.now }
    {
        self.items.len()
    }

    /// Whether there is no expression.
    pub fn is_empty(&self) -> bool
        ensures { result ≡ (length self.now == 0) }
    {
        self.items.is_empty()
    }

    /// Appends an expression. Where memory is wanting, the list stays as it was and what was handed in is
    /// dropped.
    pub fn push(&mut self, item: Expr) -> Result<(), AllocError>
        ensures ok { OnOk result (self.new ≡ self.old ++ item ∷ []) }
        ensures err { OnErr result (self.new ≡ self.old) }
    {
        self.items.push(item)?;
        Ok(())
    }
}

impl Legs {
    /// The list without legs. It takes no memory.
    pub fn new(alloc: Global) -> Legs
        ensures { result ≡ [] }
    {
        Legs {
            items: Vec::new(alloc),
        }
    }

    /// The list of these legs, which it keeps. It takes no memory.
    pub fn from_vec(items: Vec<Leg>) -> Legs
        ensures { result ≡ map view_leg items.items }
    {
        Legs { items }
    }

    /// The legs, given up. It takes no memory.
    pub fn into_vec(self) -> Vec<Leg>
        ensures { map view_leg result.items ≡ self }
    {
        let Legs { items } = self;
        items
    }

    /// The legs. None has more nodes than all of them together.
    #[tactic(auto, using(crate::proofs::Parts::legs_parts))]
    pub fn as_slice(&self) -> &[Leg]
        ensures value { map view_leg result.now ≡ self.now }
        ensures parts { All (λ leg. leg_nodes (view_leg leg) ≤ legs_nodes (pack_legs self.now))
            result.now }
    {
        self.items.as_slice()
    }

    /// The legs, to be changed in place. None has more nodes than all of them together.
    pub fn as_mut_slice(&mut self) -> &mut [Leg]
        ensures* writes_back { sem 𝓛 (LendsLegs self.entry result) }
        ensures value { map view_leg result.now ≡ self.old }
        ensures parts { All (λ leg. leg_nodes (view_leg leg) ≤ legs_nodes (pack_legs self.old))
            result.now }
    {
        self.items.as_mut_slice()
    }

    /// How many legs there are.
    pub fn len(&self) -> usize
        ensures { result ≡ length self.now }
    {
        self.items.len()
    }

    /// Whether there is no leg.
    pub fn is_empty(&self) -> bool
        ensures { result ≡ (length self.now == 0) }
    {
        self.items.is_empty()
    }

    /// Appends a leg. Where memory is wanting, the list stays as it was and what was handed in is
    /// dropped.
    pub fn push(&mut self, item: Leg) -> Result<(), AllocError>
        ensures ok { OnOk result (self.new ≡ self.old ++ view_leg item ∷ []) }
        ensures err { OnErr result (self.new ≡ self.old) }
    {
        self.items.push(item)?;
        Ok(())
    }
}
