//! One block of a job's data, read for one declaration.

ghost use Rattle.std.specs.Prelude.{◌≡◌, ◌<◌, ℕ, IfOk, IfErr};
ghost use Rattle.weld_data.specs.View.{view_val};
ghost use Rattle.weld_tree.specs.TypeTree.{TypeTree};
ghost use Rattle.weld_values.specs.Judging.{IsReadable};
ghost use Rattle.weld_inputs.specs.Arguments.{IsTableCode, Tells};
ghost use Rattle.weld_script.specs.declared.made.Declared.TheVariants.{Input, Table};
ghost use Rattle.weld_table.specs.declared.wanted.Wanted.TheVariants.{Named};
ghost use Rattle.weld_script.specs.Script.{IsDeclared, IsTable};
ghost use Rattle.weld_inputs.specs.Inputs.{Gives, Fails};

use crate::arguments::DataStop;
use std::alloc::{AllocError, Global};
use std::thread::Threads;
use weld_data::{Names, Text, Val};
use weld_job::{Block, BlockForm};
use weld_script::Declared;
use weld_table::{TableFault, Wanted, read_table};
use weld_text_pieces::reading::read_value;
use weld_tree::{Code, Ty, Tys};
use weld_values::DataFault;
use weld_values::laws::well_formed_types_are_readable;

/// The value of the type that the block gives, where it is a value block.
fn read_input(
    rt: &(impl Threads + Sync),
    alloc: Global,
    block: &Block<'_>,
    ty: &Ty,
    number: u64,
    workers: u32,
) -> Result<Val, DataStop>
    requires readable { IsReadable ty.now }
    requires some_worker { 0 < workers }
    ensures value { IfOk result (λ v. Gives block.now.form block.now.content.now (Input ty.now)
        (view_val v)) }
    ensures unfit { IfErr result (Tells (λ (n : ℕ) (code : _). (n ≡ number)
        × Fails block.now.form block.now.content.now (Input ty.now) code)) }
{
    if block.form != BlockForm::Value {
        return Err(DataStop::Unfit(number, Code::Form));
    }
    match read_value(rt, alloc, block.content, ty, workers) {
        Ok(value) => Ok(value),
        Err(DataFault::Syntax) => Err(DataStop::Unfit(number, Code::Syntax)),
        Err(DataFault::Range) => Err(DataStop::Unfit(number, Code::Range)),
        Err(DataFault::Repeat) => Err(DataStop::Unfit(number, Code::Repeat)),
        Err(DataFault::Memory) => Err(DataStop::Memory),
    }
}

/// The code of a table's fault, beside want of memory.
fn told(fault: TableFault, number: u64) -> DataStop
    ensures { Tells (λ (n : ℕ) (code : _). (n ≡ number) × IsTableCode fault code) result }
{
    match fault {
        TableFault::Form => DataStop::Unfit(number, Code::Form),
        TableFault::Length => DataStop::Unfit(number, Code::Length),
        TableFault::Syntax => DataStop::Unfit(number, Code::Syntax),
        TableFault::Range => DataStop::Unfit(number, Code::Range),
        TableFault::Memory => DataStop::Memory,
    }
}

/// A copy of the names.
fn copy_names(alloc: Global, names: &Names) -> Result<Names, AllocError>
    ensures { IfOk result (λ copy. copy ≡ names.now) }
{
    let mut copy = Names::new(alloc);
    for name in names.as_slice() {
        copy.push(Text::copy_of(alloc, name.as_slice())?)?;
    }
    Ok(copy)
}

/// The columns of these names.
fn named(alloc: Global, names: &Names, cells: &Tys) -> Result<Wanted, AllocError>
    ensures { IfOk result (λ wanted. wanted ≡ Named names.now cells.now) }
{
    let names = copy_names(alloc, names)?;
    Ok(Wanted::Named(names, cells.copy(alloc)?))
}

/// The columns of these names that the block's records give, where it is a table.
fn read_columns(
    alloc: Global,
    block: &Block<'_>,
    names: &Names,
    cells: &Tys,
    number: u64,
) -> Result<Val, DataStop>
    requires { IsTable names.now cells.now }
    ensures value { IfOk result (λ v. Gives block.now.form block.now.content.now
        (Table names.now cells.now) (view_val v)) }
    ensures unfit { IfErr result (Tells (λ (n : ℕ) (code : _). (n ≡ number)
        × Fails block.now.form block.now.content.now (Table names.now cells.now) code)) }
{
    if block.form != BlockForm::Table {
        return Err(DataStop::Unfit(number, Code::Form));
    }
    let Ok(wanted) = named(alloc, names, cells) else {
        return Err(DataStop::Memory);
    };
    match read_table(alloc, block.content, &wanted) {
        Ok(value) => Ok(value),
        Err(fault) => Err(told(fault, number)),
    }
}

/// The value that the block gives the declaration, which has this number.
pub(crate) fn read_block(
    rt: &(impl Threads + Sync),
    alloc: Global,
    block: &Block<'_>,
    declared: &Declared,
    number: u64,
    workers: u32,
) -> Result<Val, DataStop>
    requires may { IsDeclared declared.now }
    requires some_worker { 0 < workers }
    ensures value { IfOk result (λ v. Gives block.now.form block.now.content.now declared.now
        (view_val v)) }
    ensures unfit { IfErr result (Tells (λ (n : ℕ) (code : _). (n ≡ number)
        × Fails block.now.form block.now.content.now declared.now code)) }
{
    well_formed_types_are_readable();
    match declared {
        Declared::Input(ty) => read_input(rt, alloc, block, ty, number, workers),
        Declared::Table(names, cells) => read_columns(alloc, block, names, cells, number),
    }
}
