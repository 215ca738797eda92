ghost use Rattle.std.specs.Prelude.{◌≡◌};

use std::alloc::AllocError;

/// Why there is no derivation: the tokens break the rule first at the token of this number, counted from 0,
/// or at the end where it is their number; or memory was wanting.
#[derive(Clone, Copy, Debug)]
pub enum Stop {
    Break(usize),
    Memory,
}

impl From<AllocError> for Stop {
    ghost use Rattle.weld_accept.specs.declared.stop.Stop.TheVariants as stops;

    ghost from_gives = { λ _ stop. stop ≡ stops.Memory };

    fn from(_error: AllocError) -> Stop {
        Stop::Memory
    }
}
