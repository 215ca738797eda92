//! The blocks of a job's data, matched with the declarations of a script.

ghost use Rattle.std.specs.Prelude.{◌<◌, length, IfOk, IfErr};
ghost use Rattle.weld_job.specs.Extents.{block_of};
ghost use Rattle.weld_inputs.specs.Arguments.{Tells};
ghost use Rattle.weld_inputs.specs.Claims.{AreClaims, IsOfDeclared, IsWhole};
ghost use Rattle.weld_script.specs.Script.{AreDeclared, AreInputs, IsDeclared, declared_of};
ghost use Rattle.weld_inputs.specs.Inputs.{BlocksGive, BlocksFail, Inputs, IsUnfit};

use crate::arguments::DataStop;
use crate::claim::Claim;
use crate::laws::inputs_have_their_types;
use crate::sharing::read_claims;
use std::alloc::{AllocError, Global};
use std::thread::Threads;
use weld_data::Vals;
use weld_job::{Block, Job};
use weld_script::laws::scripts_declare;
use weld_script::{Declared, Made, Script};
use weld_tree::Code;

/// The declaration's claim on the block.
fn claim_block<'a>(declared: &'a Declared, block: Block<'a>) -> Claim<'a>
    requires may { IsDeclared declared.now }
    ensures { IsOfDeclared declared.now (block_of block.entry) result }
{
    Claim::Declaration(declared, block)
}

/// The declarations' claims, in order, of as many as have a block; and whether all have one.
fn claim_blocks<'a>(
    alloc: Global,
    made: &'a [Made],
    job: &'a Job,
) -> Result<(Vec<Claim<'a>>, bool), AllocError>
    requires may { AreDeclared (declared_of made.now) }
    ensures claimed { IfOk result
        (λ r. AreClaims IsOfDeclared (declared_of made.now) job.now.blocks r.0.items) }
    ensures all { IfOk result
        (λ r. IsWhole (length (declared_of made.now)) (length r.0.items) r.1) }
{
    let mut claims = Vec::new(alloc);
    for object in made {
        let Made::Declared(declared) = object else {
            continue;
        };
        let Some(block) = job.block(claims.len()) else {
            return Ok((claims, false));
        };
        claims.push(claim_block(declared, block))?;
    }
    Ok((claims, true))
}

/// The values that the blocks give the declarations among the objects.
fn read_blocks(
    rt: &(impl Threads + Sync),
    alloc: Global,
    made: &[Made],
    job: &Job,
    workers: u32,
) -> Result<Vals, DataStop>
    requires may { AreDeclared (declared_of made.now) }
    requires some_worker { 0 < workers }
    ensures inputs { IfOk result (BlocksGive (declared_of made.now) job.now.blocks) }
    ensures unfit { IfErr result (Tells (BlocksFail (declared_of made.now) job.now.blocks 1)) }
{
    let Ok((claims, is_all)) = claim_blocks(alloc, made, job) else {
        return Err(DataStop::Memory);
    };
    let inputs = match read_claims(rt, alloc, claims.as_slice(), workers) {
        Ok(inputs) => inputs,
        Err(stop) => return Err(stop),
    };
    let next = claims.len() as u64 + 1;
    if !is_all {
        Err(DataStop::Unfit(next, Code::Missing))
    } else if claims.len() < job.block_count() {
        Err(DataStop::Unfit(next, Code::Extra))
    } else {
        Ok(inputs)
    }
}

/// The values that a job's data give the declarations of a script: block by block in order, the first block that doesn't
/// fit being told. An input is a value block; a table is a table block, of which each
/// declared column is the first whose name in the first record equals its own, other columns being ignored.
///
/// `Unfit` tells of stray bytes before the blocks by the number 0 and FORM; of a declaration without a block by its number,
/// from 1, and MISSING; of a block of another form than its declaration's by FORM; of a value that doesn't read as its type
/// by SYNTAX, RANGE or REPEAT, as `read_value` does; of a table by FORM, LENGTH, SYNTAX or RANGE, as `read_table` does; and
/// of a block more than there are declarations by EXTRA. Long blocks of several declarations are read side by
/// side, and a long list of scalars in pieces, by so many workers; these have no part in the answer.
pub fn read_inputs(
    rt: &(impl Threads + Sync),
    alloc: Global,
    script: &Script,
    job: &Job,
    workers: u32,
) -> Result<Vals, DataStop>
    requires some_worker { 0 < workers }
    ensures inputs { IfOk result (Inputs (declared_of script.now.made) job.now) }
    ensures typed { IfOk result (AreInputs (declared_of script.now.made)) }
    ensures unfit { IfErr result (Tells (IsUnfit (declared_of script.now.made) job.now)) }
{
    scripts_declare();
    inputs_have_their_types();
    script.keeps_its_rules();
    if job.has_stray() {
        return Err(DataStop::Unfit(0, Code::Form));
    }
    read_blocks(rt, alloc, script.made.as_slice(), job, workers)
}
