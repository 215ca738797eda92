//! The rounds.

ghost use Rattle.std.specs.Prelude.{◌≡◌, ℕ, IfOk};
ghost use Rattle.weld_rewriting.specs.Sweep.{swept_times, IsStill};
ghost use Rattle.weld_rewriting.specs.Rules.{Falls};

use crate::sweep::{Rule, sweep};
use std::alloc::{AllocError, Global};
use weld_tree::Expr;

/// Sweeps the expression with the rule, in place, until the rule matches nowhere in it. Since what
/// the rule answers is lighter than the node, this ends. It fails for want of memory alone; the
/// expression may be anything then.
pub fn sweep_until_still<R: Rule>(alloc: Global, rule: &R, e: &mut Expr) -> Result<(), AllocError>
    requires { Falls (R.rule rule.now) }
    ensures swept { IfOk result (λ _. (n : ℕ) × (e.new ≡ swept_times n (R.rule rule.now) e.old)) }
    ensures still { IfOk result (λ _. IsStill (R.rule rule.now) e.new) }
{
    'rounds: loop {
        let moved = sweep(alloc, rule, e)?;
        if !moved {
            return Ok(());
        }
    }
}
