//! The rule of the pass.

use crate::joining::join;
use crate::pairs::is_pair;
use crate::parts::{both_types, is_within_limits};
use std::alloc::{AllocError, Global};
use weld_rewriting::sweep::Rule;
use weld_tree::Expr;

/// Two lets of loops over one name, or of their results, become one loop and lets of its fields or
/// of their results, where between them stand none but lets of results of names with field accesses.
#[derive(Clone, Copy)]
pub struct Beside;

impl Rule for Beside {
    ghost use Rattle.weld_joining.specs.Joining.{beside_rule};

    ghost rule = { λ _. beside_rule };

    fn try_at(&self, alloc: Global, e: &mut Expr) -> Result<bool, AllocError> {
        if !is_pair(&*e) {
            return Ok(false);
        }
        let all = both_types(alloc, &*e)?;
        if !is_within_limits(&all) {
            return Ok(false);
        }
        join(alloc, e)?;
        Ok(true)
    }
}
