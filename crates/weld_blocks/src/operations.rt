//! What gives the numbers of rows and of forms of one part, and which operators take which kinds.

ghost use Rattle.std.specs.Prelude.{◌≡◌, IfSome};
ghost use Rattle.weld_data.specs.Value.{Value};
ghost use Rattle.weld_builders.specs.Outcome.{done};
ghost use Rattle.weld_meaning.specs.Thing.{plain};
ghost use Rattle.weld_meaning.specs.Evaluation.{one_thing, whole_number as whole_number_value};
ghost use Rattle.weld_data.specs.Operation.{TakesKind};
ghost use Rattle.weld_data.specs.Kind.{IsInteger};
ghost use Rattle.weld_tree.specs.ExprView.{view_one};
ghost use Rattle.weld_eval.specs.ShortView.{view_short};
ghost use Rattle.weld_blocks.specs.Numbers.{number_at};
ghost use Rattle.std.specs.Prelude.{true};

use crate::gather::Gives;
use crate::numbers::Numbers;
use crate::scalar::{cast, contrary, negated, whole_number};
use weld_data::{BinOp, Kind};
use weld_eval::short::Short;
use weld_tree::OneForm;

/// The numbers of rows from one on.
#[derive(Clone, Copy)]
pub(crate) struct Counted {
    pub(crate) from: usize,
}

impl Gives for Counted {
    ghost use Rattle.std.specs.Prelude.{◌+◌};

    ghost gives = { λ c place v. v ≡ whole_number_value (c.from + place) };

    #[inline(always)]
    fn at(&self, place: usize) -> Option<Short> {
        Some(whole_number(self.from.wrapping_add(place)))
    }
}

/// Whether the operator takes numbers of the kind: truth values can only be tested for equality.
#[inline(always)]
pub(crate) fn takes(op: BinOp, kind: Kind) -> bool
    ensures { result ≡ true → TakesKind op kind }
{
    match op {
        BinOp::Eq | BinOp::Ne => true,
        _ => is_integer(kind),
    }
}

/// Whether the kind is one of integers.
#[inline(always)]
pub(crate) fn is_integer(kind: Kind) -> bool
    ensures { result ≡ true → IsInteger kind }
{
    match kind {
        Kind::Bool => false,
        _ => true,
    }
}

/// What a form of one part makes of a number at each place.
#[derive(Clone, Copy)]
pub(crate) struct Altered<'a> {
    pub(crate) form: &'a OneForm,
    pub(crate) part: &'a Numbers,
}

impl<'a> Gives for Altered<'a> {
    ghost gives = { λ a place v. one_thing (view_one a.form.now) (plain (number_at a.part.now place)) ≡ done (plain v) };

    #[inline(always)]
    fn at(&self, place: usize) -> Option<Short> {
        if place < self.part.len() {
            alteration_of(self.form, self.part.at(place))
        } else {
            None
        }
    }
}

/// What a form of one part makes of a number, where it is `-`, `!` or a cast and the number is one that it takes.
#[inline(always)]
fn alteration_of(form: &OneForm, x: Short) -> Option<Short>
    ensures { IfSome result (λ n. one_thing (view_one form.now) (plain (view_short x))
        ≡ done (plain (view_short n))) }
{
    match form {
        OneForm::Neg if is_integer(x.kind) => Some(negated(x)),
        OneForm::Not if x.kind == Kind::Bool => Some(contrary(x)),
        OneForm::Cast(kind) if is_integer(*kind) => Some(cast(*kind, x)),
        _ => None,
    }
}
