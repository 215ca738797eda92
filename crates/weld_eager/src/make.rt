//! Answers made of plain numbers and truths.

ghost use Rattle.std.specs.Prelude.{◌≡◌, IfOk};
ghost use Rattle.weld_data.specs.View.{view_val};
ghost use Rattle.weld_builders.specs.Range.{AllInRange};
ghost use Rattle.weld_calls.specs.Lists.{number_vector, truth_vector};

use std::alloc::{AllocError, Global};
use weld_data::{Column, Items, Kind, Num, Val};
use weld_pieces::ListPart;

/// The vector of these numbers, as a column of their kind.
pub fn vector_of(alloc: Global, kind: Kind, xs: &[i128]) -> Result<Val, AllocError>
    requires { AllInRange kind xs.now }
    ensures { IfOk result (λ v. view_val v ≡ number_vector kind xs.now) }
{
    let mut list = ListPart::empty(alloc, Some(kind));
    for x in xs {
        list.push(Val::Num(Num { kind, value: *x }))?;
    }
    Ok(Val::List(list.into_column()))
}

/// The vector of these truths. It takes no memory.
pub fn truth_vector_of(bs: Vec<bool>) -> Val
    ensures { view_val result ≡ truth_vector bs.items }
{
    Val::List(Column::Bool(Items::from_vec(bs)))
}
