use std::alloc::AllocError;

/// Why the machine stands still: a step doesn't fit what is there, or memory was wanting.
#[derive(Clone, Copy, Debug)]
pub enum Stop {
    Broken,
    Memory,
}

impl From<AllocError> for Stop {
    ghost use Rattle.std.specs.Prelude.{◌≡◌};
    ghost use Rattle.weld_reduce.specs.declared.stop.Stop.TheVariants as stops;

    ghost from_gives = { λ _ stop. stop ≡ stops.Memory };

    fn from(_error: AllocError) -> Stop {
        Stop::Memory
    }
}
