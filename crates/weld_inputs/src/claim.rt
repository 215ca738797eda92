//! A block of a job's data with who claims it, read for that.

ghost use Rattle.std.specs.Prelude.{◌≡◌, ◌<◌, ◌+◌, ◌^◌, ℕ, length, IfOk, IfErr};
ghost use Rattle.std.specs.List.{All};
ghost use Rattle.weld_data.specs.View.{view_val};
ghost use Rattle.weld_inputs.specs.Arguments.{Tells};
ghost use Rattle.weld_inputs.specs.Claims.{MayBeRead, ClaimGives, ClaimFails, ClaimsGive, ClaimsFail};

use crate::arguments::{DataStop, read_param};
use crate::block::read_block;
use std::alloc::Global;
use std::thread::Threads;
use weld_data::{Val, Vals};
use weld_job::Block;
use weld_script::Declared;
use weld_tree::Ty;

/// A block, and who claims it: a parameter of this type, or a declaration of a script.
#[derive(Clone, Copy)]
pub(crate) enum Claim<'a> {
    Param(&'a Ty, Block<'a>),
    Declaration(&'a Declared, Block<'a>),
}

impl Claim<'_> {
    /// How many bytes the block's content has.
    pub(crate) fn size(self) -> usize {
        match self {
            Claim::Param(_, block) | Claim::Declaration(_, block) => block.content.len(),
        }
    }
}

/// The value that the block, which has this number, gives who claims it.
fn read_claim(
    rt: &(impl Threads + Sync),
    alloc: Global,
    claim: &Claim<'_>,
    number: u64,
    workers: u32,
) -> Result<Val, DataStop>
    requires may { MayBeRead claim.now }
    requires some_worker { 0 < workers }
    ensures value { IfOk result (λ v. ClaimGives claim.now (view_val v)) }
    ensures unfit { IfErr result
        (Tells (λ (n : ℕ) (code : _). (n ≡ number) × ClaimFails claim.now code)) }
{
    match claim {
        Claim::Param(ty, block) => read_param(rt, alloc, block, ty, number, workers),
        Claim::Declaration(declared, block) => {
            read_block(rt, alloc, block, declared, number, workers)
        }
    }
}

/// The values that the blocks give, read one after another, the first block having this number.
pub(crate) fn read_in_order(
    rt: &(impl Threads + Sync),
    alloc: Global,
    claims: &[Claim<'_>],
    first: u64,
    workers: u32,
) -> Result<Vals, DataStop>
    requires may { All MayBeRead claims.now }
    requires some_worker { 0 < workers }
    requires numbers { first + length claims.now < 2 ^ 64 }
    ensures values { IfOk result (ClaimsGive claims.now) }
    ensures unfit { IfErr result (Tells (ClaimsFail claims.now first)) }
{
    let mut values = Vals::new(alloc);
    let mut number = first;
    for claim in claims {
        let value = match read_claim(rt, alloc, claim, number, workers) {
            Ok(value) => value,
            Err(stop) => return Err(stop),
        };
        match values.push(value) {
            Ok(()) => {}
            Err(_) => return Err(DataStop::Memory),
        }
        number += 1;
    }
    Ok(values)
}
