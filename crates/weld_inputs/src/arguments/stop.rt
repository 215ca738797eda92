use weld_tree::Code;

/// Why a job's data give a program no arguments.
#[derive(Clone, Copy, Debug, PartialEq, Eq)]
pub enum DataStop {
    /// The block of this number is the first that doesn't fit, for the reason of the code: MISSING, EXTRA, FORM,
    /// SYNTAX, RANGE or REPEAT. The number is that of a parameter, from 1; one more than there are parameters where a
    /// block is left; and 0 where stray bytes stand before the blocks.
    Unfit(u64, Code),
    /// Memory was wanting.
    Memory,
}
