//! The rules on the legs of a loop, and on loops side by side.

use crate::spare_legs::SpareLegs;
use std::alloc::{AllocError, Global};
use weld_horizontal::Doubles;
use weld_joining::Beside;
use weld_rewriting::pass::Either;
use weld_rewriting::sweep::Rule;
use weld_tree::Expr;
use weld_vertical_struct::Opened;
use weld_vertical_zip::Zips;
use weld_vertical_zip_held::ZipHandedOver;

/// A leg that stands twice goes, then lists on legs, also where what makes them holds its builder in pairs, and then
/// anywhere; and last two loops that may be one are joined.
#[derive(Clone, Copy)]
pub(crate) struct OfLegs;

impl Rule for OfLegs {
    ghost use Rattle.weld_passes.specs.Normal.{legs_rules};

    ghost rule = { λ _. legs_rules };

    fn try_at(&self, alloc: Global, e: &mut Expr) -> Result<bool, AllocError> {
        let held_legs = Opened { rule: Zips };
        let handed_or_beside = Either {
            first: &ZipHandedOver,
            second: &Beside,
        };
        let held_or_beside = Either {
            first: &held_legs,
            second: &handed_or_beside,
        };
        let over_one = Either {
            first: &SpareLegs,
            second: &held_or_beside,
        };
        let all = Either {
            first: &Doubles,
            second: &over_one,
        };
        all.try_at(alloc, e)
    }
}
