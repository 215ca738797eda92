//! Elements of vectors and values of keys.

ghost use Rattle.std.specs.Prelude.{◌≡◌, ◌<◌, length as length_of, slice_get, Some, IfOk};
ghost use Rattle.weld_data.specs.Order.{IsNumber};
ghost use Rattle.weld_data.specs.Value.{number};
ghost use Rattle.weld_data.specs.View.{view_val, view_column, view_packed};
ghost use Rattle.weld_builders.specs.Outcome.{done};
ghost use Rattle.weld_meaning.specs.Evaluation.{looked_up, has_key as has_key_value, truth_value};
ghost use Rattle.weld_meaning.specs.Thing.{value_field};
ghost use Rattle.weld_eval.specs.Answers.{Answers, IsSure};
ghost use Rattle.weld_eval.specs.Elements.{view_element, PlaceAnswer};
ghost use Rattle.weld_eval.specs.Fits.{IsLookUp, IsKeyLookUp, HasField};

use weld_data::{Column, Num, Packed, Stop, Val};

/// An element of a vector or a dictionary: lent where it stands, a number, or a struct of numbers where it stands.
pub enum Element<'a> {
    Lent(&'a Val),
    Number(Num),
    Packed(Packed<'a>),
}

/// The element at a place, from 0. It takes no memory.
pub fn element_of<'a>(column: &'a Column, place: usize) -> Element<'a>
    requires { place < length_of (view_column column.now) }
    ensures { slice_get (view_column column.now) place ≡ Some (view_element result) }
{
    match column {
        Column::Bool(items) => Element::Number(Num::of_bool(items.as_slice()[place])),
        Column::I8(items) => Element::Number(Num::of_i8(items.as_slice()[place])),
        Column::I16(items) => Element::Number(Num::of_i16(items.as_slice()[place])),
        Column::I32(items) => Element::Number(Num::of_i32(items.as_slice()[place])),
        Column::I64(items) => Element::Number(Num::of_i64(items.as_slice()[place])),
        Column::U8(items) => Element::Number(Num::of_u8(items.as_slice()[place])),
        Column::U16(items) => Element::Number(Num::of_u16(items.as_slice()[place])),
        Column::U32(items) => Element::Number(Num::of_u32(items.as_slice()[place])),
        Column::U64(items) => Element::Number(Num::of_u64(items.as_slice()[place])),
        Column::Structs(items) => Element::Packed(items.at(place)),
        Column::Nest(items) => Element::Lent(items.at(place)),
    }
}

/// The place that a number is, if it is one below a count; else there is a fault. It takes no memory.
pub fn place_of(index: &Val, count: usize) -> Result<usize, Stop>
    requires { IsNumber (view_val index.now) }
    ensures { PlaceAnswer result (view_val index.now) count }
{
    match index {
        Val::Num(number) => {
            if number.value >= 0 && number.value < count as i128 {
                Ok(number.value as usize)
            } else {
                Err(Stop::Fault)
            }
        }
        _ => unreachable!(),
    }
}

/// An element of a vector by its place, or the value of a key in a dictionary, lent. It faults where
/// there is none. It takes no memory.
#[tactic(auto, using(crate::proofs::VectorLemmas::element_there, crate::proofs::VectorLemmas::element_outside))]
pub fn look_up<'a>(v: &'a Val, w: &Val) -> Result<Element<'a>, Stop>
    requires { IsLookUp (view_val v.now) (view_val w.now) }
    ensures value { Answers view_element result (looked_up (view_val v.now) (view_val w.now)) }
    ensures sure { IsSure result }
{
    match v {
        Val::List(column) => match place_of(w, column.len()) {
            Ok(place) => Ok(element_of(column, place)),
            Err(stop) => Err(stop),
        },
        Val::Dict(pairs) => match pairs.get(w) {
            Some(value) => Ok(Element::Lent(value)),
            None => Err(Stop::Fault),
        },
        _ => unreachable!(),
    }
}

/// Whether a dictionary has a key. It takes no memory.
pub fn has_key(v: &Val, w: &Val) -> bool
    requires { IsKeyLookUp (view_val v.now) (view_val w.now) }
    ensures { has_key_value (view_val v.now) (view_val w.now) ≡ done (truth_value result) }
{
    match v {
        Val::Dict(pairs) => pairs.contains_key(w),
        _ => unreachable!(),
    }
}

/// The number in the field of a struct of numbers, from 0. It takes no memory.
#[inline(always)]
#[tactic(auto, using(crate::proofs::PackedLemmas::field_there, crate::proofs::PackedLemmas::field_ends))]
pub fn field_of_packed(row: Packed, field: u32) -> Num
    requires { HasField field (view_packed row) }
    ensures { value_field field (view_packed row.entry) ≡ done (number result.kind result.value) }
{
    match row.number(field as usize) {
        Some(n) => n,
        None => unreachable!(),
    }
}

/// The field of a struct, from 0, lent. It takes no memory.
pub fn field_of<'a>(v: &'a Val, field: u32) -> &'a Val
    requires { HasField field (view_val v.now) }
    ensures { value_field field (view_val v.now) ≡ done (view_val result.now) }
{
    match v {
        Val::Struct(fields) => fields.at(field as usize),
        _ => unreachable!(),
    }
}
