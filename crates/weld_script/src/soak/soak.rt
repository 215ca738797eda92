ghost use Rattle.std.specs.Prelude.{◌≡◌, ◌<◌, ◌≤◌, ◌∷◌, [], IfOk};
ghost use Rattle.weld_script.specs.Script.{AreInputs, declared_of};
ghost use Rattle.weld_script.specs.Soak.{soak_made, soak_shown, soak_table};

use crate::Script;
use crate::soak::script::soak_script;
use crate::soak::table::make_table;
use std::alloc::{AllocError, Global};
use weld_data::Vals;

/// The fixed script, and the value of its one declaration.
#[derive(Drop)]
pub struct Soak {
    pub script: Script,
    pub inputs: Vals,
}

/// The fixed script with a table of so many rows, made from the seed by a generator of numbers: each
/// row takes three draws, for `k` below 8 and for `x` and `y` below 100. The seed is below
/// 2,147,483,648, and there are at most 1,000,000 rows.
#[tactic(auto, using(crate::proofs::Rows::inputs_fit))]
pub fn make_soak(alloc: Global, seed: u32, rows: u32) -> Result<Soak, AllocError>
    requires seed { seed < 2147483648 }
    requires rows { rows ≤ 1000000 }
    ensures made { IfOk result (λ soak. soak.script.made ≡ soak_made) }
    ensures shown { IfOk result (λ soak. soak.script.shown ≡ soak_shown) }
    ensures table { IfOk result (λ soak. soak.inputs ≡ soak_table seed rows ∷ []) }
    ensures fit { IfOk result (λ soak. AreInputs (declared_of soak.script.made) soak.inputs) }
{
    let script = soak_script(alloc)?;
    let table = make_table(alloc, seed, rows)?;
    let mut inputs = Vals::new(alloc);
    inputs.push(table)?;
    Ok(Soak { script, inputs })
}
