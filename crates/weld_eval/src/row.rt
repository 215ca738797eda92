//! Rows of a loop that aren't built.

ghost use Rattle.std.specs.Prelude.{IsTrue};
ghost use Rattle.weld_eval.specs.LegsView.{lists_of};
ghost use Rattle.weld_eval.specs.RowLists.{has_row};

use crate::legs::{
    Legs, element_in, field_in, is_one_leg, number_field_in, number_in_legs, pair_in_legs, value_in,
};
use crate::short::Short;
use crate::values::Element;
use std::alloc::{AllocError, Global};
use weld_data::Val;

/// A row of a loop by its number, from 0, which isn't built: it is the element of the one leg, or the
/// struct of the elements of more legs. Each leg has an element of that number.
#[derive(Clone, Copy)]
pub struct RowAt<'a> {
    pub legs: &'a Legs<'a>,
    pub number: usize,
    ghost there: { IsTrue (has_row number (lists_of legs.now)) },
}

impl<'a> RowAt<'a> {
    ghost use Rattle.std.specs.Prelude.{◌≡◌, ◌<◌, length, slice_get, Some, IfOk};
    ghost use Rattle.weld_data.specs.View.{view_val};
    ghost use Rattle.weld_builders.specs.Outcome.{done};
    ghost use Rattle.weld_meaning.specs.Thing.{value_field};
    ghost use Rattle.weld_eval.specs.Elements.{view_element};
    ghost use Rattle.weld_eval.specs.Fits.{HasField};
    ghost use Rattle.weld_eval.specs.RowLists.{rows_in, is_one};
    ghost use Rattle.weld_eval.specs.RowView.{row_value};
    ghost use Rattle.weld_eval.specs.NumberAnswers.{NumberAnswer, FieldNumber, PairAnswer};

    /// The row of a number below the count of rows. It takes no memory.
    #[inline(always)]
    #[tactic(auto, using(crate::proofs::RowLists::row_stands, crate::proofs::RowLists::row_is))]
    pub fn new(legs: &'a Legs<'a>, number: usize) -> RowAt<'a>
        requires { number < length (rows_in (lists_of legs.now)) }
        ensures number { result.number ≡ number }
        ensures lists { lists_of result.legs.now ≡ lists_of legs.now }
        ensures row { slice_get (rows_in (lists_of legs.now)) number ≡ Some (row_value result) }
    {
        RowAt { legs, number }
    }

    /// Whether the row is the element of one leg. It takes no memory.
    #[inline]
    pub fn is_element(&self) -> bool
        ensures { result ≡ is_one (lists_of self.now.legs.now) }
    {
        is_one_leg(self.legs)
    }

    /// The row of a loop of one leg: the element, lent or a number. It takes no memory.
    #[inline]
    pub fn element(&self) -> Element<'a>
        requires { IsTrue (is_one (lists_of self.now.legs.now)) }
        ensures { row_value self.now ≡ view_element result }
    {
        element_in(self.legs, self.number)
    }

    /// A field of the row, from 0, lent or a number. It takes no memory.
    #[inline]
    pub fn field(&self, field: u32) -> Element<'a>
        requires { HasField field (row_value self.now) }
        ensures { value_field field (row_value self.now) ≡ done (view_element result) }
    {
        field_in(self.legs, self.number, field)
    }

    /// The row where it is a number. It takes no memory.
    #[inline(always)]
    pub fn number(&self) -> Option<Short>
        ensures { NumberAnswer result (row_value self.now) }
    {
        number_in_legs(self.legs, self.number)
    }

    /// A field of the row, from 0, where it is a number. It takes no memory.
    #[inline(always)]
    pub fn number_field(&self, field: u32) -> Option<Short>
        requires { HasField field (row_value self.now) }
        ensures { FieldNumber result (value_field field (row_value self.now)) }
    {
        number_field_in(self.legs, self.number, field)
    }

    /// The two numbers of which the row is a struct, where they are looked for. It takes no memory.
    #[inline(always)]
    pub fn pair(&self) -> Option<(Short, Short)>
        ensures { PairAnswer result (row_value self.now) }
    {
        pair_in_legs(self.legs, self.number)
    }

    /// The row, built.
    pub fn to_value(&self, alloc: Global) -> Result<Val, AllocError>
        ensures { IfOk result (λ v. view_val v ≡ row_value self.now) }
    {
        value_in(self.legs, self.number, alloc)
    }
}
