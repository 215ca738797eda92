//! Numbers that lie in an array of their own type.

ghost use Rattle.std.specs.Prelude.{◌≡◌, ◌+◌, pos, Some, slice_get, map};
ghost use Rattle.weld_data.specs.Value.{Value, number};
ghost use Rattle.weld_data.specs.Operation.{truth};
ghost use Rattle.weld_data.specs.declared.kind.Kind.TheVariants as kinds;
ghost use Rattle.weld_blocks.specs.Numbers.{MayGive};

use crate::gather::{Gives, gather};
use crate::numbers::Numbers;
use std::alloc::Global;
use weld_data::Kind;
use weld_eval::short::Short;

/// An element of an array of numbers of one kind, which is known where a loop is compiled.
pub(crate) trait Item: Copy {
    ghost use Rattle.std.specs.Prelude.{◌≡◌};
    ghost use Rattle.weld_data.specs.Value.{Value};
    ghost use Rattle.weld_eval.specs.ShortView.{view_short};

    ghost value: { Self → Value };

    /// The number that it is. It takes no memory.
    fn number(self) -> Short
        ensures { view_short result ≡ value self };
}

impl Item for bool {
    ghost value = { λ b. number kinds.Bool (truth b) };

    #[inline(always)]
    fn number(self) -> Short {
        Short::of_truth(self)
    }
}

impl Item for i8 {
    ghost value = { number kinds.I8 };

    #[inline(always)]
    fn number(self) -> Short {
        Short {
            kind: Kind::I8,
            word: i64::from(self),
        }
    }
}

impl Item for i16 {
    ghost value = { number kinds.I16 };

    #[inline(always)]
    fn number(self) -> Short {
        Short {
            kind: Kind::I16,
            word: i64::from(self),
        }
    }
}

impl Item for i32 {
    ghost value = { number kinds.I32 };

    #[inline(always)]
    fn number(self) -> Short {
        Short {
            kind: Kind::I32,
            word: i64::from(self),
        }
    }
}

impl Item for i64 {
    ghost value = { number kinds.I64 };

    #[inline(always)]
    fn number(self) -> Short {
        Short::of_i64(self)
    }
}

impl Item for u8 {
    ghost value = { λ n. number kinds.U8 (pos n) };

    #[inline(always)]
    fn number(self) -> Short {
        Short {
            kind: Kind::U8,
            word: i64::from(self),
        }
    }
}

impl Item for u16 {
    ghost value = { λ n. number kinds.U16 (pos n) };

    #[inline(always)]
    fn number(self) -> Short {
        Short {
            kind: Kind::U16,
            word: i64::from(self),
        }
    }
}

impl Item for u32 {
    ghost value = { λ n. number kinds.U32 (pos n) };

    #[inline(always)]
    fn number(self) -> Short {
        Short {
            kind: Kind::U32,
            word: i64::from(self),
        }
    }
}

impl Item for u64 {
    ghost value = { λ n. number kinds.U64 (pos n) };

    #[inline(always)]
    fn number(self) -> Short {
        Short::of_u64(self)
    }
}

/// The elements of an array.
#[derive(Clone, Copy)]
struct Elements<'a, T> {
    items: &'a [T],
}

impl<'a, T: Item> Gives for Elements<'a, T> {
    ghost gives = { λ e place v. slice_get (map T.value e.items.now) place ≡ Some v };

    #[inline(always)]
    fn at(&self, place: usize) -> Option<Short> {
        if place < self.items.len() {
            Some(self.items[place].number())
        } else {
            None
        }
    }
}

/// So many elements of an array from a place on, where they are there.
#[tactic(auto, using(crate::proofs::WorkLemmas::part_given))]
pub(crate) fn items_of<T: Item>(
    items: &[T],
    from: usize,
    count: usize,
    alloc: Global,
) -> Option<Numbers>
    ensures { MayGive (λ place v. slice_get (map T.value items.now) (from + place) ≡ Some v) result
        count }
{
    if from > items.len() || count > items.len() - from {
        return None;
    }
    let of = Elements {
        items: &items[from..from + count],
    };
    gather(alloc, count, &of)
}
