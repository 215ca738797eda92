//! Totals of the fields of a struct.

ghost use Rattle.std.specs.Prelude.{◌≡◌, map, IfOk, OnOk};
ghost use Rattle.weld_data.specs.Order.{IsNumber};
ghost use Rattle.weld_data.specs.Value.{number, struct, and_value, no_values};
ghost use Rattle.weld_data.specs.View.{view_val};
ghost use Rattle.weld_builders.specs.Outcome.{done};
ghost use Rattle.weld_builders.specs.Part.{kinds_of, merge_part};
ghost use Rattle.weld_pieces.specs.Kept.{IsStructOfNumbers};
ghost use Rattle.weld_pieces.specs.Totals.{part_of_totals, totals_in, number_in};
ghost use Rattle.weld_built.specs.Fields.{AreSomeNumbers};
ghost use Rattle.weld_built.specs.Pair.{pair};

use std::alloc::{AllocError, Global};
use weld_data::{Num, Val, Vals};
use weld_pieces::TotalsPart;
use weld_pieces::fields::as_number;

/// Merges a struct of numbers.
#[tactic(auto, using(crate::proofs::TotalsLemmas::kinds_are, crate::proofs::TotalsLemmas::merge_is))]
pub(crate) fn merge_fields(
    alloc: Global,
    totals: &mut TotalsPart,
    item: Val,
) -> Result<(), AllocError>
    requires { IsStructOfNumbers (kinds_of totals.old.totals) (view_val item) }
    ensures { OnOk result (merge_part (part_of_totals totals.old) (view_val item)
        ≡ done (part_of_totals totals.new)) }
{
    match item {
        Val::Struct(fields) => {
            let numbers = numbers_of(alloc, &fields)?;
            totals.merge_numbers(&numbers);
            Ok(())
        }
        _ => unreachable!(),
    }
}

/// Merges a struct of two numbers. It takes no memory.
pub(crate) fn merge_two(totals: &mut TotalsPart, first: Val, second: Val)
    requires { IsStructOfNumbers (kinds_of totals.old.totals)
        (pair (view_val first) (view_val second)) }
    ensures { merge_part (part_of_totals totals.old) (pair (view_val first) (view_val second))
        ≡ done (part_of_totals totals.new) }
{
    let numbers = [as_number(first), as_number(second)];
    totals.merge_numbers(&numbers);
}

/// The fields of a struct of numbers.
#[tactic(auto, using(crate::proofs::TotalsLemmas::is_number_there, crate::proofs::TotalsLemmas::number_taken, crate::proofs::TotalsLemmas::numbers_taken))]
pub fn numbers_of(alloc: Global, fields: &Vals) -> Result<Vec<Num>, AllocError>
    requires { AreSomeNumbers fields.now }
    ensures { IfOk result (λ ns. map number_in (totals_in ns.items) ≡ fields.now) }
{
    let mut numbers = Vec::with_capacity(alloc, fields.len())?;
    for i in 0..fields.len() {
        numbers.push(number_in_field(fields.at(i)))?;
    }
    Ok(numbers)
}

/// The number that a field is. It takes no memory.
fn number_in_field(field: &Val) -> Num
    requires { IsNumber (view_val field.now) }
    ensures { view_val field.now ≡ number result.kind result.value }
{
    match field {
        Val::Num(n) => *n,
        _ => unreachable!(),
    }
}
