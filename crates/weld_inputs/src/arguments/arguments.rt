//! The blocks of a job's data, matched with the parameters of a program.

ghost use Rattle.std.specs.Prelude.{◌<◌, length, IfOk, IfErr};
ghost use Rattle.weld_job.specs.Extents.{block_of};
ghost use Rattle.weld_meaning.specs.Typing.{ParamFits, ParamsFit};
ghost use Rattle.weld_meaning.specs.Meaning.{ArgumentsFit};
ghost use Rattle.weld_inputs.specs.Arguments.{BlocksGive, BlocksFail, Arguments, IsUnfit, Tells};
ghost use Rattle.weld_inputs.specs.Claims.{AreClaims, IsOfParam, IsWhole};

use crate::arguments::laws::arguments_have_their_types;
use crate::arguments::stop::DataStop;
use crate::claim::Claim;
use crate::sharing::read_claims;
use std::alloc::{AllocError, Global};
use std::thread::Threads;
use weld_data::Vals;
use weld_job::{Block, Job};
use weld_tree::{Binder, Binders, Code};
use weld_values::laws::well_formed_types_are_readable;

/// The parameter's claim on the block.
fn claim_block<'a>(param: &'a Binder, block: Block<'a>) -> Claim<'a>
    requires fits { ParamFits param.now.note }
    ensures { IsOfParam param.now (block_of block.entry) result }
{
    well_formed_types_are_readable();
    let Some(ty) = &param.note else {
        unreachable!()
    };
    Claim::Param(ty, block)
}

/// The parameters' claims, in order, of as many as have a block; and whether all have one.
fn claim_blocks<'a>(
    alloc: Global,
    params: &'a [Binder],
    job: &'a Job,
) -> Result<(Vec<Claim<'a>>, bool), AllocError>
    requires fit { ParamsFit params.now }
    ensures claimed { IfOk result (λ r. AreClaims IsOfParam params.now job.now.blocks r.0.items) }
    ensures all { IfOk result (λ r. IsWhole (length params.now) (length r.0.items) r.1) }
{
    let mut claims = Vec::new(alloc);
    for param in params {
        let Some(block) = job.block(claims.len()) else {
            return Ok((claims, false));
        };
        claims.push(claim_block(param, block))?;
    }
    Ok((claims, true))
}

/// The arguments that the blocks give the parameters.
fn read_blocks(
    rt: &(impl Threads + Sync),
    alloc: Global,
    params: &[Binder],
    job: &Job,
    workers: u32,
) -> Result<Vals, DataStop>
    requires fit { ParamsFit params.now }
    requires some_worker { 0 < workers }
    ensures arguments { IfOk result (BlocksGive params.now job.now.blocks) }
    ensures unfit { IfErr result (Tells (BlocksFail params.now job.now.blocks 1)) }
{
    let Ok((claims, is_all)) = claim_blocks(alloc, params, job) else {
        return Err(DataStop::Memory);
    };
    let arguments = match read_claims(rt, alloc, claims.as_slice(), workers) {
        Ok(arguments) => arguments,
        Err(stop) => return Err(stop),
    };
    let next = claims.len() as u64 + 1;
    if !is_all {
        Err(DataStop::Unfit(next, Code::Missing))
    } else if claims.len() < job.block_count() {
        Err(DataStop::Unfit(next, Code::Extra))
    } else {
        Ok(arguments)
    }
}

/// The arguments that a job's data give the parameters of a program: block by block in order, the first block that
/// doesn't fit being told. Each parameter has its type, which is well formed and has no
/// builder in it.
///
/// `Unfit` tells of stray bytes before the blocks by the number 0 and FORM; of a parameter without a block by its number
/// and MISSING; of a block that is neither a value nor a table of the parameter's type by FORM; of a value that doesn't read
/// as that type by SYNTAX, RANGE or REPEAT, as `read_value` does; of a table by FORM, LENGTH, SYNTAX or RANGE, as `read_table`
/// does; and of a block more than there are parameters by EXTRA. Long blocks of several parameters are read side by side, and a
/// long list of scalars in pieces, by so many workers; these have no part in the answer.
pub fn read_arguments(
    rt: &(impl Threads + Sync),
    alloc: Global,
    params: &Binders,
    job: &Job,
    workers: u32,
) -> Result<Vals, DataStop>
    requires fit { ParamsFit params.now }
    requires some_worker { 0 < workers }
    ensures arguments { IfOk result (Arguments params.now job.now) }
    ensures typed { IfOk result (ArgumentsFit params.now) }
    ensures unfit { IfErr result (Tells (IsUnfit params.now job.now)) }
{
    if job.has_stray() {
        return Err(DataStop::Unfit(0, Code::Form));
    }
    arguments_have_their_types();
    read_blocks(rt, alloc, params.as_slice(), job, workers)
}
