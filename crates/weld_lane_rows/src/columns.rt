//! The columns under the rows of a loop.

ghost use Rattle.std.specs.Prelude.{◌≡◌, ◌≤◌, length, map, IfSome};
ghost use Rattle.weld_data.specs.View.{view_column};
ghost use Rattle.weld_eval.specs.LegsView.{lists_of};
ghost use Rattle.weld_lane_rows.specs.Columns.{AreRows, AreCells};

use crate::words::Word;
use weld_data::Column;
use weld_eval::legs::Legs;

/// The numbers of the one leg, which are handed over twice, or those of two; and whether there are two.
#[derive(Drop)]
pub(crate) struct Columns<'a, L> {
    pub first: &'a [L],
    pub second: &'a [L],
    pub is_pair: bool,
}

/// The columns of one or two legs of numbers of the kind, where they have the rows below a number. It takes no memory.
pub(crate) fn columns_of<'a, L: Word>(legs: &'a Legs<'a>, to: usize) -> Option<Columns<'a, L>>
    ensures { IfSome result (λ c. AreRows L.kind c.is_pair (lists_of legs.now)
        (map L.number c.first.now) (map L.number c.second.now) to) }
{
    let (column, rest) = match legs {
        Legs::And(column, rest) => (column, rest),
        Legs::End => return None,
    };
    let first = match cells_of(column, to) {
        Some(first) => first,
        None => return None,
    };
    match rest {
        Legs::End => Some(Columns {
            first,
            second: first,
            is_pair: false,
        }),
        Legs::And(column, more) => match more {
            Legs::End => match cells_of(column, to) {
                Some(second) => Some(Columns {
                    first,
                    second,
                    is_pair: true,
                }),
                None => None,
            },
            Legs::And(_, _) => None,
        },
    }
}

/// The elements of a column, where they are numbers of the kind and there are so many at least.
fn cells_of<'a, L: Word>(column: &'a Column, count: usize) -> Option<&'a [L]>
    ensures { IfSome result (λ cells. AreCells L.number L.kind (view_column column.now) cells.now
        count) }
{
    match L::cells(column) {
        Some(cells) => {
            if count <= cells.len() {
                Some(cells)
            } else {
                None
            }
        }
        None => None,
    }
}
