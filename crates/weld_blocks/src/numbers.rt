//! Numbers of one kind.

ghost use Rattle.std.specs.Prelude.{◌≡◌, ◌<◌, ℕ, pos, true, length, get_or};
ghost use Rattle.weld_data.specs.Kind.{InRange};
ghost use Rattle.weld_eval.specs.Word.{of_word};

use std::alloc::Global;
use weld_data::Kind;
use weld_eval::short::Short;

/// Numbers of one kind, one for each row of a block, the first row first, each in a word of 64 bits: of
/// kind u64 by its bits, of each other kind as it is. Each lies in the kind's range.
#[derive(Drop)]
pub struct Numbers {
    pub kind: Kind,
    pub items: Vec<i64>,
    pub(crate) ghost in_range: { (place : ℕ) → InRange kind (of_word kind (get_or items.items place (pos 0))) },
}

impl Numbers {
    ghost use Rattle.std.specs.Prelude.{◌≡◌, ◌<◌, IfSome};
    ghost use Rattle.weld_eval.specs.ShortView.{view_short};
    ghost use Rattle.weld_blocks.specs.Numbers.{number_at, count_of, AreSame};

    /// How many numbers there are. It takes no memory.
    #[inline(always)]
    pub fn len(&self) -> usize
        ensures { result ≡ count_of self.now }
    {
        self.items.len()
    }

    /// The number at a place, from 0. It takes no memory.
    #[inline(always)]
    pub fn at(&self, place: usize) -> Short
        requires { place < count_of self.now }
        ensures { view_short result ≡ number_at self.now place }
    {
        Short {
            kind: self.kind,
            word: self.items[place],
        }
    }

    /// What gave the memory. It takes none.
    #[inline(always)]
    pub fn memory(&self) -> Global {
        *self.items.allocator()
    }

    /// The same numbers, where there is memory for them.
    pub fn copy(&self, alloc: Global) -> Option<Numbers>
        ensures { IfSome result (λ copy. AreSame copy self.now) }
    {
        match Vec::from_slice(alloc, &self.items) {
            Ok(items) => Some(Numbers {
                kind: self.kind,
                items,
            }),
            Err(_) => None,
        }
    }
}

/// The word at a place, from 0.
#[inline(always)]
pub fn word_at(words: &[i64], place: usize) -> i64
    requires { place < length words.now }
    ensures { result ≡ get_or words.now place (pos 0) }
{
    words[place]
}

/// The word of a number.
#[inline(always)]
pub fn word_of(n: Short) -> i64
    ensures { result ≡ n.word }
{
    n.word
}

/// Whether two kinds are the same.
#[inline(always)]
pub fn is_same(kind: Kind, other: Kind) -> bool
    ensures { result ≡ true → kind ≡ other }
{
    kind == other
}
