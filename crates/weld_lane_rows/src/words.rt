//! Numbers of lanes as words of 64 bits.

ghost use Rattle.std.specs.Prelude.{◌≡◌, ◌+◌, ◌<◌, ◌≤◌, length, map};
ghost use Rattle.weld_data.specs.Value.{number as value_of};
ghost use Rattle.weld_builders.specs.Range.{AllInRange};
ghost use Rattle.weld_built.specs.Merges.{merge_all, TakesNumbers};
ghost use Rattle.weld_built.specs.State.{MergeAnswer};

use std::alloc::AllocError;
use weld_built::Built;
use weld_data::{Column, Kind, Stop};
use weld_lanes::Lane;

/// A number of a kind whose numbers all lie within an i64.
pub trait Narrow: Lane {
    ghost use Rattle.std.specs.Prelude.{◌≡◌};

    /// The number in a word. It takes no memory.
    fn to_word(self) -> i64
        ensures { result ≡ Self.number self };
}

/// A number of such a kind, in a column or among words.
pub trait Word: Narrow {
    ghost use Rattle.std.specs.Prelude.{◌≡◌, ◌≤◌, length, map, IfSome};
    ghost use Rattle.weld_data.specs.Kind.{IsNarrow};
    ghost use Rattle.weld_data.specs.Value.{number as value_of};
    ghost use Rattle.weld_data.specs.View.{view_column};
    ghost use Rattle.weld_builders.specs.Outcome.{done};
    ghost use Rattle.weld_built.specs.Merges.{merge_all, MayAppend};

    /// The kind. It takes no memory.
    fn kind_of() -> Kind
        ensures kind { result ≡ Self.kind }
        ensures narrow { IsNarrow result };

    /// The elements of a column, where they are numbers of the kind. It takes no memory.
    fn cells<'a>(column: &'a Column) -> Option<&'a [Self]>
        ensures { IfSome result (λ cells. view_column column.now
            ≡ map (λ x. value_of Self.kind (Self.number x)) cells.now) };

    /// Numbers in words, which are written into the room where they aren't words themselves. It takes no memory.
    fn words<'a>(numbers: &'a [Self], room: &'a mut [i64]) -> &'a [i64]
        requires { length numbers.now ≡ length room.old }
        ensures { result.now ≡ map Self.number numbers.now };

    /// Appends numbers to a builder that is a list which keeps them in the width of their kind, where
    /// that is less than a word; tells whether it did. Else nothing changes.
    fn append(built: &mut Built, numbers: &[Self]) -> Result<bool, AllocError>
        ensures { MayAppend result built.old (λ all. merge_all built.old
            (map (λ x. value_of Self.kind (Self.number x)) numbers.now) ≡ done all) built.new };
}

impl Narrow for i64 {
    #[inline(always)]
    fn to_word(self) -> i64 {
        self
    }
}

impl Word for i64 {
    #[inline(always)]
    fn kind_of() -> Kind {
        Kind::I64
    }

    fn cells<'a>(column: &'a Column) -> Option<&'a [i64]> {
        match column {
            Column::I64(items) => Some(items.as_slice()),
            _ => None,
        }
    }

    fn words<'a>(numbers: &'a [i64], _room: &'a mut [i64]) -> &'a [i64] {
        numbers
    }

    fn append(_built: &mut Built, _numbers: &[i64]) -> Result<bool, AllocError> {
        Ok(false)
    }
}

impl Narrow for i32 {
    #[inline(always)]
    fn to_word(self) -> i64 {
        i64::from(self)
    }
}

impl Word for i32 {
    #[inline(always)]
    fn kind_of() -> Kind {
        Kind::I32
    }

    fn cells<'a>(column: &'a Column) -> Option<&'a [i32]> {
        match column {
            Column::I32(items) => Some(items.as_slice()),
            _ => None,
        }
    }

    fn words<'a>(numbers: &'a [i32], room: &'a mut [i64]) -> &'a [i64] {
        widen(numbers, room);
        room
    }

    fn append(built: &mut Built, numbers: &[i32]) -> Result<bool, AllocError> {
        built.append_own(numbers)
    }
}

impl Narrow for u8 {
    #[inline(always)]
    fn to_word(self) -> i64 {
        i64::from(self)
    }
}

impl Word for u8 {
    #[inline(always)]
    fn kind_of() -> Kind {
        Kind::U8
    }

    fn cells<'a>(column: &'a Column) -> Option<&'a [u8]> {
        match column {
            Column::U8(items) => Some(items.as_slice()),
            _ => None,
        }
    }

    fn words<'a>(numbers: &'a [u8], room: &'a mut [i64]) -> &'a [i64] {
        widen(numbers, room);
        room
    }

    fn append(built: &mut Built, numbers: &[u8]) -> Result<bool, AllocError> {
        built.append_own(numbers)
    }
}

impl Narrow for u32 {
    #[inline(always)]
    fn to_word(self) -> i64 {
        i64::from(self)
    }
}

impl Word for u32 {
    #[inline(always)]
    fn kind_of() -> Kind {
        Kind::U32
    }

    fn cells<'a>(column: &'a Column) -> Option<&'a [u32]> {
        match column {
            Column::U32(items) => Some(items.as_slice()),
            _ => None,
        }
    }

    fn words<'a>(numbers: &'a [u32], room: &'a mut [i64]) -> &'a [i64] {
        widen(numbers, room);
        room
    }

    fn append(built: &mut Built, numbers: &[u32]) -> Result<bool, AllocError> {
        built.append_own(numbers)
    }
}

/// Writes each number as a word.
fn widen<L: Narrow>(numbers: &[L], room: &mut [i64])
    requires { length numbers.now ≡ length room.old }
    ensures { room.new ≡ map L.number numbers.now }
{
    for place in 0..numbers.len() {
        room[place] = numbers[place].to_word();
    }
}

/// Merges numbers into a builder, the first one first: in the width of their kind where it keeps them
/// so, else as words.
pub(crate) fn merge_numbers<L: Word>(
    built: &mut Built,
    numbers: &[L],
    room: &mut [i64],
) -> Result<(), Stop>
    requires room { length numbers.now ≡ length room.old }
    requires in_range { AllInRange L.kind (map L.number numbers.now) }
    requires items { TakesNumbers built.old L.kind }
    ensures { MergeAnswer result (merge_all built.old (map (value_of L.kind)
        (map L.number numbers.now))) built.new }
{
    match L::append(built, numbers) {
        Ok(true) => Ok(()),
        Ok(false) => built.merge_numbers(L::kind_of(), L::words(numbers, room)),
        Err(_) => Err(Stop::Memory),
    }
}
