//! One wanted column of a table while its records are read.

ghost use Rattle.std.specs.Prelude.{◌≡◌, ◌<◌, ◌++◌, ◌∷◌, [], List, length, OnOk};
ghost use Rattle.csv.specs.Records.{fields_of};
ghost use Rattle.weld_table.specs.Table.{Row, IsCell};
ghost use Rattle.weld_table.specs.Cells.{place_of, view_cells, IsSoFar};

use crate::cells::Cells;
use crate::verdict::Verdict;
use csv::ByteRecord;
use std::alloc::{AllocError, Global};
use weld_tree::Ty;

/// A wanted column: the place of its fields in the records, its cells so far, and what is said of them.
#[derive(Drop)]
pub(crate) struct TableColumn {
    pub(crate) place: usize,
    pub(crate) cells: Cells,
    pub(crate) verdict: Verdict,
}

impl TableColumn {
    /// The column of these cells at this place of the records; it has read nothing yet. It takes no memory.
    pub(crate) fn new(alloc: Global, place: usize, ty: &Ty) -> TableColumn
        requires { IsCell ty.now }
        ensures place { place_of result ≡ record { at = place; cell = ty.now } }
        ensures fresh { (result.verdict ≡ Verdict.Fine) × (view_cells result.cells ≡ []) }
    {
        TableColumn {
            place,
            cells: Cells::of(alloc, ty),
            verdict: Verdict::Fine,
        }
    }

    /// Reads the column's field of one record more.
    #[tactic(auto, using(crate::proofs::SoFar::so_far_more))]
    pub(crate) fn add(&mut self, alloc: Global, row: &ByteRecord) -> Result<(), AllocError>
        requires { self.old.place < length (fields_of row.now) }
        ensures place { OnOk result (place_of self.new ≡ place_of self.old) }
        ensures read { OnOk result ((rows : List Row) → IsSoFar rows self.old
            → IsSoFar (rows ++ fields_of row.now ∷ []) self.new) }
    {
        let Some(field) = row.get(self.place) else {
            unreachable!()
        };
        let verdict = self.cells.add(alloc, field)?;
        self.verdict = self.verdict.and(verdict);
        Ok(())
    }
}
