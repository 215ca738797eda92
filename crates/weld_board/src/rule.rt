//! The rule of the board's words, and its kinds of step.

ghost use Rattle.std.specs.Prelude.{[]};
ghost use Rattle.weld_board.specs.Draws.{fresh};
ghost use Rattle.weld_board.specs.Rule.{Shares, DrawsPlace, ShowsAll, others, first_share, both};

use crate::dealt::Dealt;
use crate::share::Share;
use atomic_table::{Join, Play, Split, TableRule};
use std::collections::LinkedList;

/// What a seat knows: shares, of which a seat at work has its own alone.
pub type View = LinkedList<Share>;

/// The rule: word k counts the draws on hand k.
pub struct Sharing;

impl TableRule<u8, View, Dealt> for Sharing {
    ghost holds = { Shares };

    ghost first = { λ d. fresh 0 d.workers };
}

/// A draw on a hand.
pub struct Draw;

impl Play<u8, View> for Draw {
    ghost then = { DrawsPlace };
}

/// A load by a seat that has all shares.
pub struct Look;

impl Play<u8, View> for Look {
    ghost then = { ShowsAll };
}

/// The first share goes to a new seat.
pub struct FirstShare;

impl Split<View> for FirstShare {
    ghost left = { others };

    ghost right = { first_share };
}

/// The shares of a seat that has done go to another.
pub struct Together;

impl Join<View> for Together {
    ghost both = { both };

    ghost spent = { [] };
}
