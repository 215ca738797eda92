//! The board's parts.

ghost use Rattle.std.specs.Prelude.{◌≡◌, ◌≤◌, length};

use crate::dealt::Dealt;
use crate::rule::{Sharing, View};
use atomic_table::Table;
use std::alloc::Global;
use weld_tiles::Tile;

/// Tiles dealt to workers, and a word for each hand that counts the draws on it. Threads share it by reference.
#[derive(Drop)]
pub struct Board {
    pub(crate) table: Table<u8, View, Dealt, Sharing, Global>,
    pub(crate) tiles: Vec<Tile>,
    pub(crate) dealt: Dealt,
    ghost key: { table.shared.key ≡ dealt },
    ghost words: { table.shared.table_id.words ≡ dealt.workers },
    ghost counted: { length tiles.items ≡ dealt.tiles },
    ghost some_worker: { 1 ≤ dealt.workers },
    ghost workers: { dealt.workers ≤ 64 },
}
