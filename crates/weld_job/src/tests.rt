ghost use Rattle.std.specs.Prelude.{None};

use super::laws::parts_are_the_job;
use super::{Block, BlockForm, JOB_LIMIT, Job, JobFault, read_job, split_blocks};
use std::test::Fail;
use weld_ports::{MemorySource, ReadFailed, Source, SureSource};

/// A job; its text, its blocks, its stray mark.
type Row = (
    &'static [u8],
    &'static [u8],
    &'static [(BlockForm, &'static [u8])],
    bool,
);

static ROWS: [Row; 13] = [
    // Texts alone.
    (b"", b"", &[], false),
    (b"a\nb", b"a\nb", &[], false),
    (b"%value\n1\n", b"%value\n1\n", &[], false),
    // The separator line, its ends and what is none.
    (b"%%x\n %%\n%%%\n", b"%%x\n %%\n%%%\n", &[], false),
    (b"a\n%%", b"a\n", &[], false),
    (b"%%\n%value\n1", b"", &[(BlockForm::Value, b"1")], false),
    (
        b"a\r\n%% \t\r\n%value\r\n1\r\n",
        b"a\r\n",
        &[(BlockForm::Value, b"1\r\n")],
        false,
    ),
    // Headers: with blanks behind them, of another form, without content, and none inside a line.
    (
        b"%%\n%table \t\na\n1\n%value\n",
        b"",
        &[(BlockForm::Table, b"a\n1\n"), (BlockForm::Value, b"")],
        false,
    ),
    (
        b"%%\n%values\n%\n%%\n",
        b"",
        &[
            (BlockForm::Other, b""),
            (BlockForm::Other, b""),
            (BlockForm::Other, b""),
        ],
        false,
    ),
    (
        b"%%\n%value\n1 %table\n2",
        b"",
        &[(BlockForm::Value, b"1 %table\n2")],
        false,
    ),
    // What stands before the first header.
    (
        b"%%\n \t\r\n\n%value\n1",
        b"",
        &[(BlockForm::Value, b"1")],
        false,
    ),
    (
        b"%%\n\nx\n%value\n1",
        b"",
        &[(BlockForm::Value, b"1")],
        true,
    ),
    (b"%%\n1\n", b"", &[], true),
];

/// Whether the block is of that form, with that content.
fn is_block(block: Option<Block<'_>>, want: &(BlockForm, &[u8])) -> bool {
    match block {
        Some(block) => block.form == want.0 && block.content == want.1,
        None => false,
    }
}

/// Whether the job's blocks are of these forms, with these contents.
fn are_blocks(job: &Job, expected: &[(BlockForm, &[u8])]) -> bool {
    for (index, want) in expected.iter().enumerate() {
        if !is_block(job.block(index), want) {
            return false;
        }
    }
    job.block_count() == expected.len() && job.block(expected.len()).is_none()
}

#[test]
fn jobs_are_cut_at_their_lines(rt: HostRuntime) -> Result<(), Fail> {
    let alloc = rt.alloc();
    for row in &ROWS {
        let job = split_blocks(alloc, row.0)?;
        assert_eq!(rt; job.text(), row.1);
        assert!(rt; are_blocks(&job, row.2));
        assert_eq!(rt; job.has_stray(), row.3);
        parts_are_the_job(row.0);
    }
    Ok(())
}

/// A text and five blocks, their forms and contents.
static FIVE: &[u8] =
    b"|v: i64| v\n%%\n%value\n[1,2,3]\n%table\na,b\n1,2\n%value\n%other\nx\n%value\n\"\x00\"";

static FIVE_BLOCKS: [(BlockForm, &[u8]); 5] = [
    (BlockForm::Value, b"[1,2,3]\n"),
    (BlockForm::Table, b"a,b\n1,2\n"),
    (BlockForm::Value, b""),
    (BlockForm::Other, b"x\n"),
    (BlockForm::Value, b"\"\x00\""),
];

static STEPS: [usize; 4] = [1, 7, 80, 1000];

#[test]
fn a_job_is_read_to_its_end(rt: HostRuntime) -> Result<(), Fail> {
    let alloc = rt.alloc();
    for step in &STEPS {
        let mut source = SureSource::new(Vec::from_slice(alloc, FIVE)?, *step);
        let Ok(job) = read_job(alloc, &mut source) else {
            return Err(Fail::from("a job was refused"));
        };
        assert_eq!(rt; job.text(), b"|v: i64| v\n".as_slice());
        assert!(rt; are_blocks(&job, &FIVE_BLOCKS));
        assert_eq!(rt; source.left().len(), 0);
    }
    Ok(())
}

/// A source that never ends. It counts what it gave.
#[derive(Drop)]
struct Endless {
    given: u64,
}

impl Source for Endless {
    ghost left = { λ _. None };

    ghost faults = { λ _. 0 };

    fn read(&mut self, into: &mut [u8]) -> Result<usize, ReadFailed> {
        self.given = self.given.saturating_add(into.len() as u64);
        Ok(into.len())
    }
}

/// How a reading ended.
fn fault_of(read: Result<Job, JobFault>) -> Option<JobFault> {
    match read {
        Ok(_) => None,
        Err(fault) => Some(fault),
    }
}

/// Which read of a job of three reads fails, that of the end included, and how many bytes are left then.
static FAILING: [(u64, usize); 4] = [(1, 5), (2, 3), (3, 1), (4, 0)];

#[test]
fn a_failing_read_and_a_long_job_are_refused(rt: HostRuntime) -> Result<(), Fail> {
    let alloc = rt.alloc();
    for (failing, left) in &FAILING {
        let bytes = Vec::from_slice(alloc, b"a\n%%\n")?;
        let mut source = MemorySource::new(bytes, 2, vec![in alloc; *failing]?);
        let fault = fault_of(read_job(alloc, &mut source));
        assert_eq!(rt; fault, Some(JobFault::Read));
        assert_eq!(rt; source.left().len(), *left);
        assert_eq!(rt; source.faults(), 1);
    }
    let mut endless = Endless { given: 0 };
    let fault = fault_of(read_job(alloc, &mut endless));
    assert_eq!(rt; fault, Some(JobFault::TooLong));
    assert_eq!(rt; endless.given, (JOB_LIMIT as u64) + 1);
    Ok(())
}
