//! A range of the rows of a loop.

ghost use Rattle.std.specs.Prelude.{◌≡◌, true};
ghost use Rattle.weld_acts.specs.Act.{AreDirect};
ghost use Rattle.weld_acts.specs.Ranges.{HoldsRange, RangeAnswer};
ghost use Rattle.weld_eval.specs.FrameView.{env_of};
ghost use Rattle.weld_eval.specs.LegsView.{lists_of};
ghost use Rattle.weld_eval.specs.ThingView.{thing_of};

use crate::walk::hand_through;
use std::alloc::Global;
use weld_data::Stop;
use weld_eval::frame::Frame;
use weld_eval::legs::Legs;
use weld_eval::thing::Owned;
use weld_tree::Expr;

/// Hands a builder of the loop's type through the rows of the loop from a number up to, not including,
/// another, in place: it then is exactly what these rows make of it. Where each loop of the node acts
/// on its own builder, a row takes no memory but what its items want; else each row is evaluated on a
/// builder that has nothing merged, and appended. It faults exactly where one of the rows does. After
/// a fault or want of memory the builder is only good to be dropped.
#[tactic(auto, using(crate::proofs::RangeSteps::holds_loop, crate::proofs::RangeSteps::range_answers))]
pub fn run_range(
    node: &Expr,
    frame: &Frame,
    legs: &Legs,
    from: usize,
    to: usize,
    is_direct: bool,
    builder: &mut Owned,
    alloc: Global,
) -> Result<(), Stop>
    requires rows { HoldsRange node.now (env_of frame.now) (lists_of legs.now) from to
        (thing_of builder.old) }
    requires direct { is_direct ≡ true → AreDirect node.now }
    ensures { RangeAnswer result (record {
      node = node.now;
      names = env_of frame.now;
      lists = lists_of legs.now;
      start = thing_of builder.old;
    }) from to (thing_of builder.old)
        (thing_of builder.new) }
{
    hand_through(node, frame, legs, from, to, is_direct, builder, alloc)
}
