//! A rule whose answer another rule settles.

ghost use Rattle.std.specs.Prelude.{◌≡◌, IfOk};
ghost use Rattle.weld_rewriting.specs.Followed.{settled_times};

use crate::sweep::Rule;
use std::alloc::{AllocError, Global};
use weld_tree::Expr;

/// The first rule, and where it matches, the second tried at its answer, as often as that matches, but so many
/// times at most: so what the first makes room for needn't wait for the next sweep.
#[derive(Clone, Copy)]
pub struct Followed<'a, A, B> {
    pub first: &'a A,
    pub second: &'a B,
    pub times: u8,
}

impl<'a, A: Rule, B: Rule> Rule for Followed<'a, A, B> {
    ghost use Rattle.weld_rewriting.specs.Followed.{followed};

    ghost rule = { λ o. followed o.times (A.rule o.first.now) (B.rule o.second.now) };

    fn try_at(&self, alloc: Global, e: &mut Expr) -> Result<bool, AllocError> {
        if !self.first.try_at(alloc, e)? {
            return Ok(false);
        }
        try_times(alloc, self.second, self.times, e)?;
        Ok(true)
    }
}

/// Tries the rule at the node, so many times, or until it doesn't match.
#[tactic(auto, using(crate::proofs::Following::no_times, crate::proofs::Following::no_match, crate::proofs::Following::one_more))]
fn try_times<R: Rule>(alloc: Global, rule: &R, times: u8, e: &mut Expr) -> Result<(), AllocError>
    ensures { IfOk result (λ _. e.new ≡ settled_times times (R.rule rule.now) e.old) }
{
    if times == 0 {
        return Ok(());
    }
    if !rule.try_at(alloc, e)? {
        return Ok(());
    }
    try_times(alloc, rule, times - 1, e)
}
