//! A whole text as one scalar: a cell of a table.

ghost use Rattle.std.specs.Prelude.{◌≡◌, ℕ, List, [], IfOk, IfErr};
ghost use Rattle.weld_tree.specs.TypeTree.{scalar};
ghost use Rattle.weld_values.specs.Tokens as tokens;
ghost use Rattle.weld_values.specs.Grammar.{Found, scalar_at};
ghost use Rattle.weld_values.specs.Reading.{ReadsAs, WhyNot};
ghost use Rattle.weld_values.specs.Judging.{IsRead, IsOfCell};

use crate::cell::Cell;
use crate::fault::DataFault;
use crate::flaw::Flaw;
use crate::tokens::after_blanks;

/// The scalar that a whole text was read as, if nothing is wrong with it.
fn judged<T: Cell>(value: T, flaw: Flaw) -> Result<T, DataFault>
    ensures value { (text rest : List ℕ) → IsRead (Found (scalar_at T.kind)) text flaw
        (T.value value) rest
        → tokens.after_blanks rest ≡ [] → IfOk result (λ x. ReadsAs text (scalar T.kind)
        (T.value x)) }
    ensures fault { (text rest : List ℕ) → IsRead (Found (scalar_at T.kind)) text flaw
        (T.value value) rest
        → tokens.after_blanks rest ≡ [] → IfErr result (λ f. WhyNot text (scalar T.kind) f
        × IsOfCell f) }
{
    match flaw {
        Flaw::Fine => Ok(value),
        Flaw::Range => Err(DataFault::Range),
        Flaw::Repeat => Err(DataFault::Repeat),
    }
}

/// The content as a scalar of one kind, or why it is none: `Syntax` or `Range`, as `read_value` tells it of that kind's
/// type. It takes no memory.
pub fn read_cell<T: Cell>(content: &[u8]) -> Result<T, DataFault>
    ensures value { IfOk result (λ x. ReadsAs content.now (scalar T.kind) (T.value x)) }
    ensures fault { IfErr result (λ f. WhyNot content.now (scalar T.kind) f × IsOfCell f) }
{
    match T::read(content) {
        Some((value, flaw, rest)) => {
            if after_blanks(rest).is_empty() {
                judged(value, flaw)
            } else {
                Err(DataFault::Syntax)
            }
        }
        None => Err(DataFault::Syntax),
    }
}
