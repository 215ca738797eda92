/// What a block's header says of it: `%value`, `%table`, or something else.
#[derive(Clone, Copy, Debug, PartialEq, Eq)]
pub enum BlockForm {
    Value,
    Table,
    Other,
}

/// A block of a job's data: what its header says, and the bytes that follow the header's line, which
/// stand in the job.
#[derive(Clone, Copy, Debug)]
pub struct Block<'a> {
    pub form: BlockForm,
    pub content: &'a [u8],
}

/// Where the content of a block stands among a job's bytes, and what the block's header says.
#[derive(Clone, Copy, Debug)]
pub(crate) struct Extent {
    pub(crate) form: BlockForm,
    pub(crate) from: usize,
    pub(crate) to: usize,
}
