//! Things that are done with.

use weld_eval::thing::Held;

/// Lets a thing go.
pub(crate) fn let_go(_x: Held) {}
