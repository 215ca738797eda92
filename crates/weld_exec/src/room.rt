//! Room for what the rows of a tile append to a list.

ghost use Rattle.std.specs.Prelude.{◌≡◌};
ghost use Rattle.weld_eval.specs.ThingView.{thing_of};

use std::alloc::AllocError;
use weld_data::Kind;
use weld_eval::thing::Owned;
use weld_sizes::has_sized_form;
use weld_tiles::Tile;
use weld_tree::{BuildTy, Expr, Form, LeafForm, TyForm};

/// Makes room for the items of a tile's rows where the loop appends to one list once a row. The
/// builder holds what it held. It fails for want of memory alone.
pub(crate) fn make_room(node: &Expr, tile: Tile, builder: &mut Owned) -> Result<(), AllocError>
    ensures { thing_of builder.new ≡ thing_of builder.old }
{
    if !has_sized_form(node) {
        return Ok(());
    }
    let rows = tile.hi.saturating_sub(tile.lo);
    match builder {
        Owned::Built(built) => built.reserve(kind_of_items(node), rows),
        Owned::Value(_) | Owned::Several(_) => Ok(()),
    }
}

/// The kind of the items of the list from which a loop starts, where they are numbers. It takes no
/// memory.
fn kind_of_items(node: &Expr) -> Option<Kind> {
    match &node.form {
        Form::For(_, builder, _, _, _, _) => kind_in_list(builder),
        _ => None,
    }
}

/// The same of a `vecbuilder`.
fn kind_in_list(builder: &Expr) -> Option<Kind> {
    match &builder.form {
        Form::Leaf(LeafForm::Builder(BuildTy::List(item))) => match &item.form {
            TyForm::Scalar(kind) => Some(*kind),
            _ => None,
        },
        _ => None,
    }
}
