ghost use Rattle.std.specs.Prelude.{◌≡◌, ◌<◌, ◌+◌, ◌∷◌, ◌++◌, [], OnOk, OnErr, IsOk};
ghost use Rattle.std.specs.Vec.{vec_len, vec_capacity};

use std::alloc::AllocError;

/// Appends an item. Where there is room it takes no memory, and the room shrinks by just that item.
pub(crate) fn append_item<T: Drop>(items: &mut Vec<T>, item: T) -> Result<(), AllocError>
    ensures ok { OnOk result (items.new.items ≡ items.old.items ++ item ∷ []) }
    ensures len { OnOk result (vec_len items.new ≡ vec_len items.old + 1) }
    ensures err { OnErr result (items.new.items ≡ items.old.items) }
    ensures room { vec_len items.old < vec_capacity items.old → IsOk result }
    ensures in_place { vec_len items.old < vec_capacity items.old
        → vec_capacity items.new ≡ vec_capacity items.old }
{
    if items.len() < items.capacity() {
        items.push_reserved(item);
        return Ok(());
    }
    items.push(item)?;
    Ok(())
}
