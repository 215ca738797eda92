//! One block of a job's data, read for one parameter.

ghost use Rattle.std.specs.Prelude.{◌≡◌, ◌<◌, ℕ, IfOk, IfErr};
ghost use Rattle.weld_data.specs.View.{view_val};
ghost use Rattle.weld_values.specs.Judging.{IsReadable};
ghost use Rattle.weld_inputs.specs.Arguments.{Gives, Fails, IsTableCode, Tells};

use crate::arguments::stop::DataStop;
use std::alloc::Global;
use std::thread::Threads;
use weld_data::Val;
use weld_job::{Block, BlockForm};
use weld_table::laws::table_types_have_columns;
use weld_table::{TableFault, Wanted, read_table};
use weld_text_pieces::reading::read_value;
use weld_tree::{Code, Ty};
use weld_values::DataFault;

/// The value of the type that the content of a value block reads as.
fn read_content(
    rt: &(impl Threads + Sync),
    alloc: Global,
    content: &[u8],
    ty: &Ty,
    number: u64,
    workers: u32,
) -> Result<Val, DataStop>
    requires readable { IsReadable ty.now }
    requires some_worker { 0 < workers }
    ensures value { IfOk result (λ v. Gives BlockForm.Value content.now ty.now (view_val v)) }
    ensures unfit { IfErr result (Tells (λ (n : ℕ) (code : _). (n ≡ number)
        × Fails BlockForm.Value content.now ty.now code)) }
{
    match read_value(rt, alloc, content, ty, workers) {
        Ok(value) => Ok(value),
        Err(DataFault::Syntax) => Err(DataStop::Unfit(number, Code::Syntax)),
        Err(DataFault::Range) => Err(DataStop::Unfit(number, Code::Range)),
        Err(DataFault::Repeat) => Err(DataStop::Unfit(number, Code::Repeat)),
        Err(DataFault::Memory) => Err(DataStop::Memory),
    }
}

/// The code of a table's fault, beside want of memory.
fn told(fault: TableFault, number: u64) -> DataStop
    ensures { Tells (λ (n : ℕ) (code : _). (n ≡ number) × IsTableCode fault code) result }
{
    match fault {
        TableFault::Form => DataStop::Unfit(number, Code::Form),
        TableFault::Length => DataStop::Unfit(number, Code::Length),
        TableFault::Syntax => DataStop::Unfit(number, Code::Syntax),
        TableFault::Range => DataStop::Unfit(number, Code::Range),
        TableFault::Memory => DataStop::Memory,
    }
}

/// The value of the type that the content of a table block gives, its columns taken by position.
fn read_records(alloc: Global, content: &[u8], ty: &Ty, number: u64) -> Result<Val, DataStop>
    ensures value { IfOk result (λ v. Gives BlockForm.Table content.now ty.now (view_val v)) }
    ensures unfit { IfErr result (Tells (λ (n : ℕ) (code : _). (n ≡ number)
        × Fails BlockForm.Table content.now ty.now code)) }
{
    table_types_have_columns();
    let Ok(found) = Wanted::of_type(alloc, ty) else {
        return Err(DataStop::Memory);
    };
    let Some(wanted) = found else {
        return Err(DataStop::Unfit(number, Code::Form));
    };
    match read_table(alloc, content, &wanted) {
        Ok(value) => Ok(value),
        Err(fault) => Err(told(fault, number)),
    }
}

/// The value of the type that the block gives, which has this number.
pub(crate) fn read_block(
    rt: &(impl Threads + Sync),
    alloc: Global,
    block: &Block<'_>,
    ty: &Ty,
    number: u64,
    workers: u32,
) -> Result<Val, DataStop>
    requires readable { IsReadable ty.now }
    requires some_worker { 0 < workers }
    ensures value { IfOk result (λ v. Gives block.now.form block.now.content.now ty.now
        (view_val v)) }
    ensures unfit { IfErr result (Tells (λ (n : ℕ) (code : _). (n ≡ number)
        × Fails block.now.form block.now.content.now ty.now code)) }
{
    match block.form {
        BlockForm::Value => read_content(rt, alloc, block.content, ty, number, workers),
        BlockForm::Table => read_records(alloc, block.content, ty, number),
        BlockForm::Other => Err(DataStop::Unfit(number, Code::Form)),
    }
}
