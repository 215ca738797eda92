//! How the rows of a loop are shared, and the two ways in which its stretches are run apart.

ghost use Rattle.std.specs.Prelude.{◌≤◌};

/// How the rows of a loop are shared: by how many workers, 1 to 64, and in tiles of how many rows at most, at least 1.
#[derive(Clone, Copy, Debug)]
pub(crate) struct Sharing {
    pub(crate) workers: u32,
    pub(crate) cut: u32,
    ghost some_worker: { 1 ≤ workers },
    ghost few_workers: { workers ≤ 64 },
    ghost some_rows: { 1 ≤ cut },
}

/// Stretches are mapped over the processors, or shared by workers.
#[derive(Clone, Copy, Debug, PartialEq, Eq)]
pub(crate) enum Way {
    Mapped,
    Shared,
}

/// How many stretches of a batch a worker has in its hand, where they are shared: enough that those that are left can be taken by
/// others while one takes long, and few enough that what others have taken isn't many parts.
const IN_HAND: u32 = 16;

impl Way {
    /// How many stretches of a batch come on each worker.
    pub(crate) fn each(self) -> u32
        ensures some { 1 ≤ result }
        ensures few { result ≤ 64 }
    {
        match self {
            Way::Mapped => 1,
            Way::Shared => IN_HAND,
        }
    }
}
