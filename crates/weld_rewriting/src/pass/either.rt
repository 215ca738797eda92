//! Two rules as one.

use crate::sweep::Rule;
use std::alloc::{AllocError, Global};
use weld_tree::Expr;

/// The first rule where it matches, else the second.
#[derive(Clone, Copy)]
pub struct Either<'a, A, B> {
    pub first: &'a A,
    pub second: &'a B,
}

impl<'a, A: Rule, B: Rule> Rule for Either<'a, A, B> {
    ghost use Rattle.weld_rewriting.specs.Either.{either};

    ghost rule = { λ o. either (A.rule o.first.now) (B.rule o.second.now) };

    fn try_at(&self, alloc: Global, e: &mut Expr) -> Result<bool, AllocError> {
        if self.first.try_at(alloc, e)? {
            return Ok(true);
        }
        self.second.try_at(alloc, e)
    }
}
