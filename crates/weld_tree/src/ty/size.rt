ghost use Rattle.std.specs.Prelude.{◌≡◌, ◌↔◌, min, IsTrue};
ghost use Rattle.weld_tree.specs.TypeTree.{type_nodes, type_depth, build_nodes, build_depth};
ghost use Rattle.weld_tree.specs.TypeView.{view_build};
ghost use Rattle.weld_tree.specs.Types.{IsWithinLimits};

use crate::ty::{BuildTy, Ty, TyForm, Tys};

impl Ty {
    /// How many type nodes stand in the type, or the greatest u64 where that is less.
    #[cycle(nodes)]
    pub fn nodes(&self) -> u64
        ensures { result ≡ min (type_nodes self.now) u64.MAX }
    {
        match &self.form {
            TyForm::Scalar(_) => 1,
            TyForm::Vec(item) => item.nodes().saturating_add(1),
            TyForm::Struct(fields) => fields.nodes().saturating_add(1),
            TyForm::Dict(key, value) => key.nodes().saturating_add(value.nodes()).saturating_add(1),
            TyForm::Build(build) => build.nodes().saturating_add(1),
        }
    }

    /// How deep type nodes nest in the type, or the greatest u64 where that is less. A scalar has
    /// depth 1.
    #[cycle(depth)]
    pub fn depth(&self) -> u64
        ensures { result ≡ min (type_depth self.now) u64.MAX }
    {
        match &self.form {
            TyForm::Scalar(_) => 1,
            TyForm::Vec(item) => item.depth().saturating_add(1),
            TyForm::Struct(fields) => fields.depth().saturating_add(1),
            TyForm::Dict(key, value) => key.depth().max(value.depth()).saturating_add(1),
            TyForm::Build(build) => build.depth().saturating_add(1),
        }
    }

    /// Whether the type is within the limits on written types: depth 16 and 256 type nodes.
    pub fn is_within_limits(&self) -> bool
        ensures { IsTrue result ↔ IsWithinLimits self.now }
    {
        self.depth() <= 16 && self.nodes() <= 256
    }
}

impl BuildTy {
    #[cycle(nodes)]
    fn nodes(&self) -> u64
        ensures { result ≡ min (build_nodes (view_build self.now)) u64.MAX }
    {
        match self {
            BuildTy::List(item) | BuildTy::Total(item, _) | BuildTy::Cells(item, _) => item.nodes(),
            BuildTy::Keyed(key, value, _) | BuildTy::Groups(key, value) => {
                key.nodes().saturating_add(value.nodes())
            }
        }
    }

    #[cycle(depth)]
    fn depth(&self) -> u64
        ensures { result ≡ min (build_depth (view_build self.now)) u64.MAX }
    {
        match self {
            BuildTy::List(item) | BuildTy::Total(item, _) | BuildTy::Cells(item, _) => item.depth(),
            BuildTy::Keyed(key, value, _) | BuildTy::Groups(key, value) => {
                key.depth().max(value.depth())
            }
        }
    }
}

impl Tys {
    ghost use Rattle.weld_tree.specs.TypeTree.{pack, types_nodes, types_depth};

    #[cycle(nodes)]
    #[tactic(auto, using(crate::proofs::Fields::nodes_left, crate::proofs::Fields::no_nodes_left))]
    fn nodes(&self) -> u64
        ensures { result ≡ min (types_nodes (pack self.now)) u64.MAX }
    {
        let mut sum = 0u64;
        for ty in &self.items {
            sum = sum.saturating_add(ty.nodes());
        }
        sum
    }

    #[cycle(depth)]
    #[tactic(auto, using(crate::proofs::Fields::depth_left, crate::proofs::Fields::no_depth_left))]
    fn depth(&self) -> u64
        ensures { result ≡ min (types_depth (pack self.now)) u64.MAX }
    {
        let mut deepest = 0u64;
        for ty in &self.items {
            deepest = deepest.max(ty.depth());
        }
        deepest
    }
}
