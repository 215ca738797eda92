//! Laws of this crate's definitions, each the contract of a function that does nothing.

ghost use Rattle.std.specs.Prelude.{◌≡◌, map};
ghost use Rattle.weld_job.specs.Blocks.{job_of, form_of};
ghost use Rattle.weld_job.specs.Whole.{joined, headers_of};

/// The parts of a job, joined in order, are the job again, byte for byte: its text, its separator line, what
/// stands before the first header, and each header with its block's content. There is a block for each
/// header, of the form that the header says.
pub fn parts_are_the_job(job: &[u8])
    ensures whole { joined job.now ≡ job.now }
    ensures forms { map (λ block. block.form) (job_of job.now).blocks
        ≡ map form_of (headers_of job.now) }
{}
