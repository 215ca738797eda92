//! Numbers that come as words of 64 bits, appended to an array of their kind's own width.

ghost use Rattle.std.specs.Prelude.{◌≡◌, ◌++◌, length, map, pos, OnOk};
ghost use Rattle.weld_data.specs.Kind.{IsNarrow};
ghost use Rattle.weld_data.specs.Operation.{truth};
ghost use Rattle.weld_data.specs.Value.{number};
ghost use Rattle.weld_data.specs.declared.kind.Kind.TheVariants as kinds;
ghost use Rattle.weld_builders.specs.Range.{AllInRange};

use std::alloc::AllocError;

/// A number of one kind, whose numbers all lie within an i64, as an array keeps it.
pub(crate) trait FromWord: Copy + Default {
    ghost use Rattle.std.specs.Prelude.{◌≡◌};
    ghost use Rattle.weld_data.specs.Kind.{IsNarrow, InRange};
    ghost use Rattle.weld_data.specs.Value.{Value, number};
    ghost use Rattle.weld_data.specs.declared.kind.Kind.{Kind};

    ghost kind: { Kind };

    ghost value: { Self → Value };

    /// The number in a word, false being 0 and true 1. It takes no memory.
    fn of_word(x: i64) -> Self
        requires { InRange kind x }
        ensures { value result ≡ number kind x };
}

impl FromWord for bool {
    ghost kind = { kinds.Bool };

    ghost value = { λ b. number kinds.Bool (truth b) };

    #[inline(always)]
    fn of_word(x: i64) -> bool {
        x == 1
    }
}

impl FromWord for i8 {
    ghost kind = { kinds.I8 };

    ghost value = { number kinds.I8 };

    #[inline(always)]
    fn of_word(x: i64) -> i8 {
        x as i8
    }
}

impl FromWord for i16 {
    ghost kind = { kinds.I16 };

    ghost value = { number kinds.I16 };

    #[inline(always)]
    fn of_word(x: i64) -> i16 {
        x as i16
    }
}

impl FromWord for i32 {
    ghost kind = { kinds.I32 };

    ghost value = { number kinds.I32 };

    #[inline(always)]
    fn of_word(x: i64) -> i32 {
        x as i32
    }
}

impl FromWord for u8 {
    ghost kind = { kinds.U8 };

    ghost value = { λ n. number kinds.U8 (pos n) };

    #[inline(always)]
    fn of_word(x: i64) -> u8 {
        x as u8
    }
}

impl FromWord for u16 {
    ghost kind = { kinds.U16 };

    ghost value = { λ n. number kinds.U16 (pos n) };

    #[inline(always)]
    fn of_word(x: i64) -> u16 {
        x as u16
    }
}

impl FromWord for u32 {
    ghost kind = { kinds.U32 };

    ghost value = { λ n. number kinds.U32 (pos n) };

    #[inline(always)]
    fn of_word(x: i64) -> u32 {
        x as u32
    }
}

/// Appends the numbers in words, the first one first: room for all is made at once.
pub(crate) fn append_words<T: FromWord>(own: &mut Vec<T>, words: &[i64]) -> Result<(), AllocError>
    requires narrow { IsNarrow T.kind }
    requires in_range { AllInRange T.kind words.now }
    ensures { OnOk result (map T.value own.new.items ≡ map T.value own.old.items
        ++ map (number T.kind) words.now) }
{
    let start = own.len();
    let Some(len) = start.checked_add(words.len()) else {
        return Err(AllocError);
    };
    own.resize(len, T::default())?;
    let (_, room) = own.as_mut_slice().split_at_mut(start);
    write_words(room, words);
    Ok(())
}

/// Writes the numbers in words over as many others.
fn write_words<T: FromWord>(room: &mut [T], words: &[i64])
    requires narrow { IsNarrow T.kind }
    requires in_range { AllInRange T.kind words.now }
    requires long { length words.now ≡ length room.old }
    ensures { map T.value room.new ≡ map (number T.kind) words.now }
{
    for place in 0..words.len() {
        room[place] = T::of_word(words[place]);
    }
}
