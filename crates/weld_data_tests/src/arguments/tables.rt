//! Tables whose columns are wanted by name, which no job asks for.

ghost use Rattle.std.specs.Prelude.{IfOk};
ghost use Rattle.weld_table.specs.Table.{AreCells};

use std::alloc::{AllocError, Global};
use std::test::Fail;
use weld_data::{Column, Kind, Names, Text, Val};
use weld_table::{TableFault, Wanted, read_table};
use weld_tree::{Ty, Tys};

/// A content; the numbers of its column `n`, or what is wrong with it.
type Case = (&'static [u8], Result<&'static [i8], TableFault>);

static CASES: [Case; 7] = [
    (b"s,n\nx,1\ny,2\n", Ok(&[1, 2])),
    (b"n,m,n,s\n1,2,3,x\n", Ok(&[1])),
    (b"s\nx\n", Err(TableFault::Form)),
    (b"", Err(TableFault::Form)),
    (b"s,n\nx,y\nx\n", Err(TableFault::Length)),
    (b"s,n\nx,128\ny,z\n", Err(TableFault::Syntax)),
    (b"s,n\nx,1\ny,128\n", Err(TableFault::Range)),
];

/// The columns `n`, of numbers of kind i8, and `s`, of strings.
fn wanted(alloc: Global) -> Result<Wanted, AllocError>
    ensures { IfOk result AreCells }
{
    let mut names = Names::new(alloc);
    names.push(Text::copy_of(alloc, b"n")?)?;
    names.push(Text::copy_of(alloc, b"s")?)?;
    let mut types = Tys::new(alloc);
    types.push(Ty::scalar(Kind::I8))?;
    types.push(Ty::vec_of(alloc, Ty::scalar(Kind::I8))?)?;
    Ok(Wanted::Named(names, types))
}

/// Whether a table's first column has these numbers.
fn has_numbers(table: &Val, numbers: &[i8]) -> bool {
    match table {
        Val::Struct(columns) => match columns.as_slice() {
            [Val::List(Column::I8(items)), _] => items.as_slice() == numbers,
            _ => false,
        },
        _ => false,
    }
}

#[test]
fn columns_are_found_by_their_names(rt: HostRuntime) -> Result<(), Fail> {
    let wanted = wanted(rt.alloc())?;
    for (content, answer) in &CASES {
        let is_so = match (read_table(rt.alloc(), content, &wanted), answer) {
            (Ok(table), Ok(numbers)) => has_numbers(&table, numbers),
            (Err(fault), Err(other)) => fault == *other,
            _ => false,
        };
        assert!(rt; is_so);
    }
    Ok(())
}
