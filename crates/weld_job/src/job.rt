ghost use Rattle.std.specs.Prelude.{◌≡◌, length, slice_get, option_map};
ghost use Rattle.weld_job.specs.Extents.{block_of};

use super::block::{Block, Extent};
use std::marker::Model;

/// A job: the program's text, the blocks of its data, and whether bytes other than spaces, tabs, CR
/// and LF stand before the first block. It has one buffer, the job's bytes, in which its text and its
/// blocks stand. Contracts see the parts.
#[derive(Debug, Drop)]
pub struct Job {
    pub(crate) bytes: Vec<u8>,
    pub(crate) text_len: usize,
    pub(crate) extents: Vec<Extent>,
    pub(crate) stray: bool,
}

impl Model for Job {
    ghost use Rattle.weld_job.specs.Job.{Job};

    ghost Value = { Job };

    ghost use Rattle.weld_job.specs.contracts.block.BlockForm as of_form;
    ghost use Rattle.std.specs.Coded.{codes};

    ghost coded = { Prim.hlevel (codes, of_form.the_row.coded) };

    ghost use Rattle.weld_job.specs.Extents.{job_in, AreIn};

    ghost view = { λ j. job_in j.bytes.items j.text_len j.extents.items j.stray };

    ghost invariant = { λ j. AreIn j.bytes.items j.text_len j.extents.items };
}

impl Job {
    /// The program's text.
    pub fn text(&self) -> &[u8]
        ensures { result.now ≡ self.now.text }
    {
        &self.bytes[..self.text_len]
    }

    /// Whether a byte other than a space, a tab, a CR or an LF stands before the first block.
    pub fn has_stray(&self) -> bool
        ensures { result ≡ self.now.stray }
    {
        self.stray
    }

    /// How many blocks there are.
    pub fn block_count(&self) -> usize
        ensures { result ≡ length self.now.blocks }
    {
        self.extents.len()
    }

    /// The block at a place, from 0, where there is one. It takes no memory.
    pub fn block(&self, index: usize) -> Option<Block<'_>>
        ensures { option_map block_of result ≡ slice_get self.now.blocks index }
    {
        let extent = self.extents.get(index)?;
        Some(Block {
            form: extent.form,
            content: &self.bytes[extent.from..extent.to],
        })
    }
}

/// Why no job was read: the source failed, it gave too many bytes, or memory was wanting.
#[derive(Clone, Copy, Debug, PartialEq, Eq)]
pub enum JobFault {
    Read,
    TooLong,
    Memory,
}
