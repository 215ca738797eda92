//! Guarded merges.

ghost use Rattle.std.specs.Prelude.{◌≡◌};
ghost use Rattle.weld_predicate.specs.Guard.{is_guard, is_guarded};

use crate::chains::same_chain;
use crate::mergers::merger_of;
use weld_safe::never_faults;
use weld_tree::{Expr, Form, ThreeForm, TwoForm};

/// Whether the expression is an `if` of which one arm merges a safe value into a path of a `merger`
/// and the other is that path. It takes no memory.
pub(crate) fn is_guard(e: &Expr) -> bool
    ensures { result ≡ is_guard e.now }
{
    match &e.form {
        Form::Three(ThreeForm::If, _, then, otherwise) => {
            is_guarded(then, otherwise) || is_guarded(otherwise, then)
        }
        _ => false,
    }
}

/// Whether the first is such a merge and the second its path.
pub(crate) fn is_guarded(e: &Expr, other: &Expr) -> bool
    ensures { result ≡ is_guarded e.now other.now }
{
    match &e.form {
        Form::Two(TwoForm::Merge, builder, value) => {
            same_chain(builder, other) && (merger_of(&builder.ty).is_some() && never_faults(value))
        }
        _ => false,
    }
}
