ghost use Rattle.std.specs.Prelude.{◌≡◌, ◌≤◌, map, string_bytes, IfOk, IfSome, IfNone};
ghost use Rattle.weld_front.specs.Asking.{Asks, AreServed};

use crate::asked::Asked;
use std::alloc::{AllocError, Global};
use weld_words::{WordsFault, read_words};

/// What is written where the words aren't in form.
pub const USAGE: &[u8] =
    b"usage: weld run|check|show|session|soak [--workers N] [--cut N] [--report] [--seed N] [--rows N]\n";

/// What the words after the program's name ask for, where they are in form. It fails for want of memory
/// alone.
#[tactic(auto, using(crate::proofs::Asking::workers_asked, crate::proofs::Asking::few_asked, crate::proofs::Asking::rows_asked, crate::proofs::Asking::seed_asked, crate::proofs::Asking::few_rows_asked))]
pub fn read_asked(alloc: Global, words: &[String]) -> Result<Option<Asked>, AllocError>
    ensures found { IfOk result (λ asked. IfSome asked (λ a. Asks (map string_bytes words.now)
        a.options)) }
    ensures none { IfOk result (λ asked. IfNone asked (AreServed (map string_bytes words.now)
        → ⊥)) }
{
    match read_words(alloc, words) {
        Ok(options) => Ok(Some(Asked { options })),
        Err(WordsFault::Form) => Ok(None),
        Err(WordsFault::Memory) => Err(AllocError),
    }
}
