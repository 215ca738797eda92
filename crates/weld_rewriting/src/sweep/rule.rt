//! A rule of rewriting, as a pass gives it.

ghost use Rattle.std.specs.Prelude.{◌≡◌, Option, IfOk, is_some};
ghost use Rattle.weld_tree.specs.ExprTree.{ExprTree};
ghost use Rattle.weld_rewriting.specs.Sweep.{settled};

use std::alloc::{AllocError, Global};
use weld_tree::Expr;

/// A rule of rewriting: where it matches a node, it says what takes the node's place.
pub trait Rule {
    /// The rule on plain data.
    ghost rule: { Self → ExprTree → Option ExprTree };

    /// Tries the rule at this node, and answers whether it matched. The node is what the rule says
    /// then, and else what it was. It fails for want of memory alone; the node may be anything
    /// then.
    fn try_at(&self, alloc: Global, e: &mut Expr) -> Result<bool, AllocError>
        ensures matched { IfOk result (λ matched. matched ≡ is_some (rule self.now e.old)) }
        ensures settled { IfOk result (λ _. e.new ≡ settled (rule self.now) e.old) };
}
