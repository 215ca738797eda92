//! Blocks of rows whose numbers are worked out.

ghost use Rattle.weld_acts.specs.Act.{Acts};
ghost use Rattle.weld_deeds.specs.Deeds.{do_of, DeedFits};
ghost use Rattle.weld_deeds.specs.Through.{done_through, FitsThrough};
ghost use Rattle.weld_eval.specs.ThingView.{thing_of};

use weld_data::Stop;
use weld_deeds::{Deed, do_through};
use weld_eval::thing::Owned;

/// Does on so many rows of a block what is worked out for them, and answers that it did.
pub(crate) fn do_block(deed: Deed, count: usize, builder: &mut Owned) -> Result<bool, Stop>
    requires { FitsThrough (do_of deed) (DeedFits deed) 0 count (thing_of builder.old) }
    ensures { Acts result (done_through (do_of deed) 0 count (thing_of builder.old))
        (thing_of builder.new) }
{
    match do_through(&deed, count, builder) {
        Ok(()) => Ok(true),
        Err(stop) => Err(stop),
    }
}
