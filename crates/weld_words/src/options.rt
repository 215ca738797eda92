/// What the program is to do.
#[derive(Clone, Copy, Debug, PartialEq, Eq)]
pub enum Command {
    Run,
    Check,
    Show,
    Session,
    Soak,
}

/// What the words ask for.
#[derive(Clone, Copy, Debug, PartialEq, Eq)]
pub struct Options {
    /// What the program is to do.
    pub command: Command,
    /// The number of workers, 1 to 64; 4 where the words don't say.
    pub workers: u32,
    /// The most rows of a tile, 1 to 2147483647; 4096 where the words don't say.
    pub cut: u32,
    /// Whether the lines of the report are wanted.
    pub report: bool,
    /// The seed of a soak, 0 to 2147483647; 1 where the words don't say.
    pub seed: u32,
    /// The rows of a soak, 0 to 1000000; 1000 where the words don't say.
    pub rows: u32,
}

/// Why there are no options: the words aren't in form, or memory was wanting.
#[derive(Clone, Copy, Debug, PartialEq, Eq)]
pub enum WordsFault {
    Form,
    Memory,
}
