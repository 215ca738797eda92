//! The numbers among values and elements, in 64 bits.

ghost use Rattle.std.specs.Prelude.{◌<◌, length as length_of, slice_get};
ghost use Rattle.weld_data.specs.View.{view_val, view_column, view_packed};
ghost use Rattle.weld_eval.specs.NumberAnswers.{NumberAnswer, ElementNumber, PairAnswer};

use crate::short::Short;
use weld_data::{Column, Kind, Packed, Val};

/// The number that a value is; there is none where it isn't a number. It takes no memory.
#[inline(always)]
pub fn number_of(v: &Val) -> Option<Short>
    ensures { NumberAnswer result (view_val v.now) }
{
    match v {
        Val::Num(number) => Some(Short::of_num(*number)),
        _ => None,
    }
}

/// The number that the element at a place is, from 0; there is none where it isn't a number. It takes
/// no memory.
#[inline(always)]
#[tactic(auto, using(crate::proofs::PackedLemmas::no_number))]
pub fn number_at(column: &Column, place: usize) -> Option<Short>
    requires { place < length_of (view_column column.now) }
    ensures { ElementNumber result (slice_get (view_column column.now) place) }
{
    match column {
        Column::I64(items) => Some(Short::of_i64(items.as_slice()[place])),
        Column::I32(items) => Some(Short {
            kind: Kind::I32,
            word: i64::from(items.as_slice()[place]),
        }),
        Column::Bool(items) => Some(Short::of_truth(items.as_slice()[place])),
        Column::I8(items) => Some(Short {
            kind: Kind::I8,
            word: i64::from(items.as_slice()[place]),
        }),
        Column::I16(items) => Some(Short {
            kind: Kind::I16,
            word: i64::from(items.as_slice()[place]),
        }),
        Column::U8(items) => Some(Short {
            kind: Kind::U8,
            word: i64::from(items.as_slice()[place]),
        }),
        Column::U16(items) => Some(Short {
            kind: Kind::U16,
            word: i64::from(items.as_slice()[place]),
        }),
        Column::U32(items) => Some(Short {
            kind: Kind::U32,
            word: i64::from(items.as_slice()[place]),
        }),
        Column::U64(items) => Some(Short::of_u64(items.as_slice()[place])),
        Column::Structs(items) => {
            items.holds_struct(place);
            None
        }
        Column::Nest(items) => number_of(items.at(place)),
    }
}

/// The two numbers of which a value is a struct, where they are looked for. It takes no memory.
#[tactic(auto, using(crate::proofs::Pairs::fields_are))]
pub fn pair_of(v: &Val) -> Option<(Short, Short)>
    ensures { PairAnswer result (view_val v.now) }
{
    match v {
        Val::Struct(fields) => {
            if fields.len() == 2 {
                match number_of(fields.at(0)) {
                    Some(first) => match number_of(fields.at(1)) {
                        Some(second) => Some((first, second)),
                        None => None,
                    },
                    None => None,
                }
            } else {
                None
            }
        }
        _ => None,
    }
}

/// The two numbers of which a struct of numbers consists, where it consists of two. It takes no memory.
#[tactic(auto, using(crate::proofs::PackedLemmas::two_there))]
pub fn pair_of_packed(row: Packed) -> Option<(Short, Short)>
    ensures { PairAnswer result (view_packed row.entry) }
{
    match row.number(2) {
        Some(_) => None,
        None => match row.number(0) {
            Some(first) => match row.number(1) {
                Some(second) => Some((Short::of_num(first), Short::of_num(second))),
                None => None,
            },
            None => None,
        },
    }
}
