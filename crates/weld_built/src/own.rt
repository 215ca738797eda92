//! Numbers in the width of their kind, appended to the array of a list that keeps them so.

ghost use Rattle.std.specs.Prelude.{◌≡◌, map, pos};
ghost use Rattle.weld_builders.specs.Outcome.{done};
ghost use Rattle.weld_built.specs.Merges.{merge_all, MayAppend};
ghost use Rattle.weld_built.specs.State.{part_of_state, IsState};
ghost use Rattle.weld_data.specs.Value.{number};
ghost use Rattle.weld_data.specs.declared.kind.Kind.TheVariants as kinds;

use crate::built::State;
use std::alloc::AllocError;
use weld_pieces::ListPart;

/// A number of one kind as an array of numbers of that kind keeps it.
pub trait Own: Copy {
    ghost use Rattle.std.specs.Prelude.{◌≡◌, ◌++◌, map};
    ghost use Rattle.weld_data.specs.Value.{Value};
    ghost use Rattle.weld_pieces.specs.Items.{items_of_list};
    ghost use Rattle.weld_built.specs.Merges.{MayAppend};

    ghost value: { Self → Value };

    /// Appends numbers to a list that keeps its items so, the first one first, and tells whether it does.
    fn append(list: &mut ListPart, numbers: &[Self]) -> Result<bool, AllocError>
        ensures { MayAppend result (items_of_list list.old)
            (λ items. items ≡ items_of_list list.old ++ map value numbers.now)
            (items_of_list list.new) };
}

impl Own for i32 {
    ghost value = { number kinds.I32 };

    fn append(list: &mut ListPart, numbers: &[i32]) -> Result<bool, AllocError> {
        match list {
            ListPart::I32(own) => match own.extend_from_slice(numbers) {
                Ok(()) => Ok(true),
                Err(e) => Err(e),
            },
            _ => Ok(false),
        }
    }
}

impl Own for u8 {
    ghost value = { λ n. number kinds.U8 (pos n) };

    fn append(list: &mut ListPart, numbers: &[u8]) -> Result<bool, AllocError> {
        match list {
            ListPart::U8(own) => match own.extend_from_slice(numbers) {
                Ok(()) => Ok(true),
                Err(e) => Err(e),
            },
            _ => Ok(false),
        }
    }
}

impl Own for u32 {
    ghost value = { λ n. number kinds.U32 (pos n) };

    fn append(list: &mut ListPart, numbers: &[u32]) -> Result<bool, AllocError> {
        match list {
            ListPart::U32(own) => match own.extend_from_slice(numbers) {
                Ok(()) => Ok(true),
                Err(e) => Err(e),
            },
            _ => Ok(false),
        }
    }
}

/// Appends numbers in the width of their kind to a builder, where it is a list that keeps such.
#[tactic(auto, using(crate::proofs::ManyLemmas::merged_list))]
pub(crate) fn own_into<T: Own>(state: &mut State, numbers: &[T]) -> Result<bool, AllocError>
    requires { IsState state.old }
    ensures answer { MayAppend result (part_of_state state.old)
        (λ all. merge_all (part_of_state state.old) (map T.value numbers.now) ≡ done all)
        (part_of_state state.new) }
    ensures state { IsState state.new }
{
    match state {
        State::List(_, list) => match T::append(list, numbers) {
            Ok(told) => return Ok(told),
            Err(e) => return Err(e),
        },
        _ => return Ok(false),
    }
}
