//! A dictionary built by rising keys, and a key looked up in it.

ghost use Rattle.std.specs.Prelude.{◌≡◌, ℕ, pos, IfOk, is_some};
ghost use Rattle.weld_data.specs.declared.kind.Kind.TheVariants as kinds;
ghost use Rattle.weld_data.specs.Value.{number};
ghost use Rattle.weld_data.specs.Order.{IsKeyFor};
ghost use Rattle.weld_data.specs.Lookup.{value_of_key};
ghost use Rattle.weld_data_tests.specs.Dictionaries.{small_numbers};

use std::alloc::{AllocError, Global};
use weld_data::{Num, Pair, Pairs, Val};

/// The dictionary of the numbers below n, each its own key and value.
pub fn build(alloc: Global, n: u8) -> Result<Pairs, AllocError>
    ensures entries { IfOk result (λ pairs. pairs ≡ small_numbers n) }
    ensures keys { IfOk result (λ pairs. (k : ℕ) → IsKeyFor pairs (number kinds.U8 (pos k))) }
{
    let mut pairs = Pairs::new(alloc);
    for k in 0..n {
        let key = Val::Num(Num::of_u8(k));
        let value = Val::Num(Num::of_u8(k));
        pairs.push(Pair { key, value })?;
    }
    Ok(pairs)
}

/// Whether a number is a key of it, asked in both ways.
pub fn find(pairs: &Pairs, k: u8) -> (bool, bool)
    requires { IsKeyFor pairs.now (number kinds.U8 (pos k)) }
    ensures got { result.0 ≡ is_some (value_of_key pairs.now (number kinds.U8 (pos k))) }
    ensures contained { result.1 ≡ is_some (value_of_key pairs.now (number kinds.U8 (pos k))) }
{
    let key = Val::Num(Num::of_u8(k));
    (pairs.get(&key).is_some(), pairs.contains_key(&key))
}
