//! Lists on legs, and the legs that stand twice behind them.

use std::alloc::{AllocError, Global};
use weld_horizontal::Doubles;
use weld_rewriting::pass::Followed;
use weld_rewriting::sweep::Rule;
use weld_tree::Expr;
use weld_vertical_zip::Zips;

/// A list on a leg of a `zip` isn't made, and of the legs that come in its place those that stand there already go at
/// once: else a chain of such loops over the same vectors would gather a leg for each loop before any goes.
#[derive(Clone, Copy)]
pub(crate) struct SpareLegs;

impl Rule for SpareLegs {
    ghost use Rattle.weld_passes.specs.Normal.{spare_legs_rule};

    ghost rule = { λ _. spare_legs_rule };

    fn try_at(&self, alloc: Global, e: &mut Expr) -> Result<bool, AllocError> {
        let both = Followed {
            first: &Zips,
            second: &Doubles,
            times: 16,
        };
        both.try_at(alloc, e)
    }
}
