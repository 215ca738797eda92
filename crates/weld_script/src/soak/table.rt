//! The table, row by row.
ghost use Rattle.std.specs.Prelude.{◌≡◌, ◌<◌, ◌≤◌, ◌++◌, ◌∷◌, [], ℤ, pos, List, map, IfOk, OnOk};
ghost use Rattle.weld_data.specs.View.{view_val};
ghost use Rattle.weld_script.specs.Soak.{next_number, draw_below, rows_from, soak_table};

use std::alloc::{AllocError, Global};
use weld_data::{Column, I64s, Val, Vals};

/// The columns so far, and the generator's number.
#[derive(Drop)]
struct Columns {
    k: I64s,
    x: I64s,
    y: I64s,
}

/// The generator's next number.
fn next_number(number: u64) -> u64
    requires { number < 2147483648 }
    ensures value { result ≡ next_number number }
    ensures small { result < 2147483648 }
{
    (number * 1103515245 + 12345) % 2147483648
}

/// What a draw gives, below a bound.
fn draw_below(bound: u64, number: u64) -> i64
    requires some { 0 < bound }
    requires small { bound ≤ 100 }
    ensures { result ≡ pos (draw_below bound number) }
{
    (number / 65536 % bound) as i64
}

/// One row more, by three draws: the generator's number after them.
fn add_row(columns: &mut Columns, number: u64) -> Result<u64, AllocError>
    requires { number < 2147483648 }
    ensures k { OnOk result (columns.new.k ≡ columns.old.k
        ++ pos (draw_below 8 (next_number number)) ∷ []) }
    ensures x { OnOk result (columns.new.x ≡ columns.old.x
        ++ pos (draw_below 100 (next_number (next_number number))) ∷ []) }
    ensures y { OnOk result (columns.new.y ≡ columns.old.y
        ++ pos (draw_below 100 (next_number (next_number (next_number number)))) ∷ []) }
    ensures number { IfOk result (λ n. n ≡ next_number (next_number (next_number number))) }
    ensures small { IfOk result (λ n. n < 2147483648) }
{
    let first = next_number(number);
    let second = next_number(first);
    let third = next_number(second);
    columns.k.push(draw_below(8, first))?;
    columns.x.push(draw_below(100, second))?;
    columns.y.push(draw_below(100, third))?;
    Ok(third)
}

/// The columns of so many rows.
#[tactic(auto, using(crate::proofs::Rows::nothing_yet, crate::proofs::Rows::one_more, crate::proofs::Rows::all_k, crate::proofs::Rows::all_x, crate::proofs::Rows::all_y))]
fn columns_of(alloc: Global, seed: u32, rows: u32) -> Result<Columns, AllocError>
    requires { seed < 2147483648 }
    ensures k { IfOk result (λ columns. columns.k ≡ map (λ r. pos r.k) (rows_from seed rows)) }
    ensures x { IfOk result (λ columns. columns.x ≡ map (λ r. pos r.x) (rows_from seed rows)) }
    ensures y { IfOk result (λ columns. columns.y ≡ map (λ r. pos r.y) (rows_from seed rows)) }
{
    let mut columns = Columns {
        k: I64s::new(alloc),
        x: I64s::new(alloc),
        y: I64s::new(alloc),
    };
    let mut number = seed as u64;
    for i in 0..rows {
        let _ = i;
        number = add_row(&mut columns, number)?;
    }
    Ok(columns)
}

/// The table of so many rows that is made from the seed.
#[tactic(auto, using(crate::proofs::Rows::columns_are))]
pub(crate) fn make_table(alloc: Global, seed: u32, rows: u32) -> Result<Val, AllocError>
    requires { seed < 2147483648 }
    ensures { IfOk result (λ table. view_val table ≡ soak_table seed rows) }
{
    let Columns { k, x, y } = columns_of(alloc, seed, rows)?;
    let mut fields = Vals::new(alloc);
    fields.push(Val::List(Column::I64(k)))?;
    fields.push(Val::List(Column::I64(x)))?;
    fields.push(Val::List(Column::I64(y)))?;
    Ok(Val::Struct(fields))
}
