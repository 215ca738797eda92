ghost use Rattle.std.specs.Prelude.{◌≡◌, ◌<◌, ◌≤◌, ◌∷◌, slice_index, length, drop, map, IfOk};
ghost use Rattle.std.specs.List.{All};
ghost use Rattle.weld_job.specs.Blocks.{lines, blocks_of, job_of};
ghost use Rattle.weld_job.specs.Extents.{block_at, LiesIn};

use super::block::Extent;
use super::job::Job;
use super::lines::{content_len, form_of, has_stray, line_len, text_len};
use std::alloc::{AllocError, Global};

/// Cuts a job's bytes, of which it makes a copy: the text before the first line that is `%%`, and the blocks
/// of the data after it. The whole job is text where no such line stands. It fails for want of memory alone.
pub fn split_blocks(alloc: Global, job: &[u8]) -> Result<Job, AllocError>
    ensures { IfOk result (λ parts. parts ≡ job_of job.now) }
{
    cut_job(alloc, Vec::from_slice(alloc, job)?)
}

/// Cuts a job's bytes, as `split_blocks` does. The job keeps them; they aren't copied.
pub(crate) fn cut_job(alloc: Global, job: Vec<u8>) -> Result<Job, AllocError>
    ensures { IfOk result (λ parts. parts ≡ job_of job.items) }
{
    let bytes = job.as_slice();
    let text = text_len(bytes);
    let rest = &bytes[text..];
    let data = text + line_len(rest);
    let after = &bytes[data..];
    let front = content_len(after);
    let stray = has_stray(&after[..front]);
    let extents = cut_blocks(alloc, bytes, data + front)?;
    Ok(Job {
        bytes: job,
        text_len: text,
        extents,
        stray,
    })
}

/// Where the first block stands, whose header is there.
fn first_block(bytes: &[u8], at: usize) -> Extent
    requires within { at < length bytes.now }
    requires header { slice_index bytes.now at ≡ 37 }
    ensures lies { LiesIn bytes.now result }
    ensures behind { at < result.to }
    ensures first { blocks_of (lines (drop at bytes.now))
        ≡ block_at bytes.now result ∷ blocks_of (lines (drop result.to bytes.now)) }
    ensures next { result.to < length bytes.now → slice_index bytes.now result.to ≡ 37 }
{
    let rest = &bytes[at..];
    let line = line_len(rest);
    let from = at + line;
    let after = &bytes[from..];
    let to = from + content_len(after);
    Extent {
        form: form_of(&rest[..line]),
        from,
        to,
    }
}

/// Where the blocks stand, from a header on or from the end.
fn cut_blocks(alloc: Global, bytes: &[u8], start: usize) -> Result<Vec<Extent>, AllocError>
    requires within { start ≤ length bytes.now }
    requires header { start < length bytes.now → slice_index bytes.now start ≡ 37 }
    ensures lie { IfOk result (λ extents. All (LiesIn bytes.now) extents.items) }
    ensures blocks { IfOk result (λ extents. map (block_at bytes.now) extents.items
        ≡ blocks_of (lines (drop start bytes.now))) }
{
    let mut extents = Vec::new(alloc);
    let mut at = start;
    while at < bytes.len() {
        let extent = first_block(bytes, at);
        extents.push(extent)?;
        at = extent.to;
    }
    Ok(extents)
}
