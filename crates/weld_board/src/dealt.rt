//! How many tiles were dealt to how many workers.

/// What the rule of the board reads: the number of the tiles and of the workers, which have a hand each.
#[derive(Clone, Copy, Debug, PartialEq, Eq)]
pub struct Dealt {
    pub tiles: u64,
    pub workers: u32,
}
