//! The two fields of an item.

ghost use Rattle.std.specs.Prelude.{◌≡◌};
ghost use Rattle.weld_data.specs.Value.{struct, and_value, no_values, number};
ghost use Rattle.weld_data.specs.View.{view_val};
ghost use Rattle.weld_data.specs.Order.{IsNumber};
ghost use Rattle.weld_pieces.specs.Fields.{IsOfTwoFields};

use weld_data::{Num, Val};

/// The two fields of a struct. It takes no memory.
pub fn two_fields(item: Val) -> (Val, Val)
    requires { IsOfTwoFields (view_val item) }
    ensures { view_val item ≡ struct (and_value (view_val result.0)
        (and_value (view_val result.1) no_values)) }
{
    match item {
        Val::Struct(fields) => {
            let mut items = fields.into_vec();
            let second = items.pop();
            let first = items.pop();
            match first {
                Some(a) => match second {
                    Some(b) => (a, b),
                    None => unreachable!(),
                },
                None => unreachable!(),
            }
        }
        _ => unreachable!(),
    }
}

/// The number that a value is. It takes no memory.
pub fn as_number(value: Val) -> Num
    requires { IsNumber (view_val value) }
    ensures { view_val value ≡ number result.kind result.value }
{
    match value {
        Val::Num(n) => n,
        _ => unreachable!(),
    }
}
