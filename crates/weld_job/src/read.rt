ghost use Rattle.std.specs.Prelude.{◌≡◌, ◌≤◌, ◌<◌, ◌+◌, length, Err, IfSome, IfOk, OnOk};
ghost use Rattle.std.specs.Io.KnownBytes.{Consumes, IsAtEnd};
ghost use Rattle.weld_ports.specs.Faults.{Rises};
ghost use Rattle.weld_job.specs.Blocks.{job_of};
ghost use Rattle.weld_job.specs.Reading.{job_limit, Takes, TakesJust, IsOfTaken};

use super::job::{Job, JobFault};
use super::split::cut_job;
use std::alloc::{AllocError, Global};
use weld_ports::Source;

/// Reads a job to the source's end and cuts it. Of a job of more than `JOB_LIMIT` bytes it takes just one
/// byte more than that. After any refusal the bytes that were read are gone from the source.
pub fn read_job<S: Source>(alloc: Global, input: &mut S) -> Result<Job, JobFault>
    // The job is that of the bytes that were taken, and where the source tells them, of all of them.
    ensures of_taken { IfOk result (IsOfTaken (S.left input.old) (S.left input.new)) }
    ensures ok { IfOk result (λ job. IfSome (S.left input.old) (λ bytes. job ≡ job_of bytes)) }
    ensures within { OnOk result (IfSome (S.left input.old) (λ bytes. length bytes ≤ job_limit)) }
    ensures end { OnOk result (IfSome (S.left input.old) (λ _. IsAtEnd (S.left input.new))) }

    // When each refusal comes. Want of memory is free.
    ensures read { result ≡ Err JobFault.Read → Rises (S.faults input.old) (S.faults input.new) }
    ensures too_long { result ≡ Err JobFault.TooLong → IfSome (S.left input.old)
        (λ bytes. job_limit < length bytes) }
    ensures stops { result ≡ Err JobFault.TooLong → TakesJust (job_limit + 1) (S.left input.old)
        (S.left input.new) }

    // What stays of the source.
    ensures taken { Takes (S.left input.old) (S.left input.new) }
    ensures never_falls { S.faults input.old ≤ S.faults input.new }
{
    let bytes = read_bytes(alloc, input)?;
    match cut_job(alloc, bytes) {
        Ok(job) => Ok(job),
        Err(_) => Err(JobFault::Memory),
    }
}

/// The greatest number of bytes that a job may have.
pub const JOB_LIMIT: usize = 67_108_864;

/// How many bytes are asked for at once.
const PIECE: usize = 65_536;

/// So many bytes that are 0.
fn zeros(alloc: Global, count: usize) -> Result<Vec<u8>, AllocError>
    ensures { IfOk result (λ bytes. length bytes.items ≡ count) }
{
    vec![in alloc; 0; count]
}

/// Reads the bytes of a job.
fn read_bytes<S: Source>(alloc: Global, input: &mut S) -> Result<Vec<u8>, JobFault>
    ensures ok { IfOk result (λ bytes. Consumes (S.left input.old) (S.left input.new) bytes.items) }
    ensures within { IfOk result (λ bytes. length bytes.items ≤ job_limit) }
    ensures end { OnOk result (IfSome (S.left input.old) (λ _. IsAtEnd (S.left input.new))) }
    ensures read { result ≡ Err JobFault.Read → Rises (S.faults input.old) (S.faults input.new) }
    ensures stops { result ≡ Err JobFault.TooLong → TakesJust (job_limit + 1) (S.left input.old)
        (S.left input.new) }
    ensures taken { Takes (S.left input.old) (S.left input.new) }
    ensures never_falls { S.faults input.old ≤ S.faults input.new }
{
    let mut bytes = Vec::new(alloc);
    let Ok(mut buffer) = zeros(alloc, PIECE) else {
        return Err(JobFault::Memory);
    };
    let piece = buffer.as_mut_slice();
    while bytes.len() <= JOB_LIMIT {
        let asked = PIECE.min(JOB_LIMIT + 1 - bytes.len());
        let count = match input.read(&mut piece[..asked]) {
            Ok(0) => return Ok(bytes),
            Ok(count) => count,
            Err(_) => return Err(JobFault::Read),
        };
        match bytes.extend_from_slice(&piece[..count]) {
            Ok(()) => {}
            Err(_) => return Err(JobFault::Memory),
        }
    }
    Err(JobFault::TooLong)
}
