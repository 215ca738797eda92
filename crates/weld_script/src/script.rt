ghost use Rattle.weld_script.specs.Script.{IsScript};

use crate::made::{Ids, MadeList};
use std::marker::Model;

/// A script that was read: the objects that it makes, and those of them that it shows, in its order.
/// Contracts see the record of both, and whoever makes a script shows that `IsScript` holds of it: each call
/// is made on objects before it, whose types fit it; and there are at most 64 declarations, 200 calls and 64
/// shown objects, of which there is one at least.
#[derive(Drop)]
pub struct Script {
    pub made: MadeList,
    pub shown: Ids,
}

impl Model for Script {
    ghost use Rattle.weld_script.specs.Script.{PlainScript, IsScript};

    ghost Value = { PlainScript };

    ghost use Rattle.weld_script.specs.contracts.made.Made as of_made;
    ghost use Rattle.std.specs.Coded.{codes};

    ghost coded = { Prim.hlevel (codes, of_made.the_row.coded) };

    ghost view = { λ s. record { made = s.made; shown = s.shown } };

    ghost invariant = { λ s. IsScript s.made s.shown };
}

impl Script {
    /// What is known of every script, for callers that need it: it does nothing.
    pub fn keeps_its_rules(&self)
        ensures { IsScript self.now.made self.now.shown }
    {
        let _ = &self.made;
    }
}
