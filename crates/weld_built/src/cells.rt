//! Cells, for which memory is taken at the first merge.

ghost use Rattle.std.specs.Prelude.{◌≡◌, IfOk, length, zip};
ghost use Rattle.weld_data.specs.Kind.{InRange, IsInteger, IsNarrow};
ghost use Rattle.weld_data.specs.Value.{number};
ghost use Rattle.weld_data.specs.View.{view_val};
ghost use Rattle.weld_data.specs.declared.kind.Kind.TheVariants as kinds;
ghost use Rattle.weld_builders.specs.Part.{shape_of, cells_shape, merge_part, after_part, result_of};
ghost use Rattle.weld_builders.specs.Range.{AllInRange, IsInRange};
ghost use Rattle.weld_pieces.specs.Total.{part_of_cells};
ghost use Rattle.weld_built.specs.Merges.{merge_all};
ghost use Rattle.weld_built.specs.Pair.{pair, number_pairs};
ghost use Rattle.weld_built.specs.CellsState.{part_of_cells_state, kind_of_cells, AreFormed};
ghost use Rattle.weld_built.specs.State.{MergeAnswer};

use std::alloc::{AllocError, Global};
use weld_data::{Stop, Val};
use weld_pieces::cells::CellsShape;
use weld_pieces::{CellsPart, Part};

/// Cells that have nothing merged, or with what was merged.
#[derive(Drop)]
pub(crate) enum Cells {
    Bare(Global, CellsShape),
    Kept(CellsPart),
}

/// Merges a number into the cell at an index. It faults exactly where the index is outside.
#[inline]
#[tactic(auto, using(crate::proofs::CellsLemmas::cell_merged))]
pub(crate) fn merge_cell(cells: &mut Cells, index: i64, x: i128) -> Result<(), Stop>
    requires formed { AreFormed cells.old }
    requires in_range { InRange (kind_of_cells cells.old) x }
    ensures answer { MergeAnswer result (merge_part (part_of_cells_state cells.old)
        (pair (number kinds.I64 index) (number (kind_of_cells cells.old) x)))
        (part_of_cells_state cells.new) }
    ensures formed { AreFormed cells.new }
{
    match cells {
        Cells::Kept(part) => part.merge_wide(index, x),
        Cells::Bare(alloc, shape) => {
            let mut part = match CellsPart::neutral(*alloc, shape.op, shape.kind, shape.count) {
                Ok(part) => part,
                Err(_) => return Err(Stop::Memory),
            };
            let answer = part.merge_wide(index, x);
            *cells = Cells::Kept(part);
            answer
        }
    }
}

/// Merges numbers into the cells at indexes, the first one first. It faults exactly where one of the
/// indexes is outside.
#[tactic(auto, using(crate::proofs::CellsLemmas::cells_merged))]
pub(crate) fn merge_cells(cells: &mut Cells, indexes: &[i64], numbers: &[i64]) -> Result<(), Stop>
    requires formed { AreFormed cells.old }
    requires narrow { IsNarrow (kind_of_cells cells.old) }
    requires in_range { AllInRange (kind_of_cells cells.old) numbers.now }
    requires count { length indexes.now ≡ length numbers.now }
    ensures answer { MergeAnswer result (merge_all (part_of_cells_state cells.old)
        (number_pairs kinds.I64 (kind_of_cells cells.old) (zip indexes.now numbers.now)))
        (part_of_cells_state cells.new) }
    ensures formed { AreFormed cells.new }
{
    match cells {
        Cells::Kept(part) => part.merge_numbers(indexes, numbers),
        Cells::Bare(alloc, shape) => {
            let mut made = match CellsPart::neutral(*alloc, shape.op, shape.kind, shape.count) {
                Ok(made) => made,
                Err(_) => return Err(Stop::Memory),
            };
            let answer = made.merge_numbers(indexes, numbers);
            *cells = Cells::Kept(made);
            answer
        }
    }
}

/// The operator, the kind and the number of the cells. It takes no memory.
pub(crate) fn shape_of_cells(cells: &Cells) -> CellsShape
    requires { AreFormed cells.now }
    ensures shape { cells_shape result.op result.kind result.count
        ≡ shape_of (part_of_cells_state cells.now) }
    ensures integer { IsInteger result.kind }
{
    match cells {
        Cells::Bare(_, shape) => *shape,
        Cells::Kept(part) => part.shape(),
    }
}

/// Cells that equal these.
pub(crate) fn copy_of_cells(cells: &Cells, alloc: Global) -> Result<Cells, AllocError>
    requires { AreFormed cells.now }
    ensures copy { IfOk result (λ copy. part_of_cells_state copy ≡ part_of_cells_state cells.now) }
    ensures formed { IfOk result AreFormed }
{
    match cells {
        Cells::Bare(_, shape) => Ok(Cells::Bare(alloc, *shape)),
        Cells::Kept(part) => Ok(Cells::Kept(part.copy(alloc)?)),
    }
}

/// Appends what later cells of the same shape have merged. It takes no memory.
pub(crate) fn join_cells(cells: &mut Cells, later: Cells)
    requires formed { AreFormed cells.old }
    requires shape { shape_of (part_of_cells_state cells.old)
        ≡ shape_of (part_of_cells_state later) }
    requires in_range { IsInRange (part_of_cells_state cells.old) }
    ensures joined { part_of_cells_state cells.new ≡ after_part (part_of_cells_state cells.old)
        (part_of_cells_state later) }
    ensures formed { AreFormed cells.new }
{
    match later {
        Cells::Bare(_, _) => {}
        Cells::Kept(more) => append(cells, more),
    }
}

/// Appends what later cells have merged.
fn append(cells: &mut Cells, later: CellsPart)
    requires shape { shape_of (part_of_cells_state cells.old)
        ≡ cells_shape later.op later.kind (length later.cells) }
    ensures joined { part_of_cells_state cells.new ≡ after_part (part_of_cells_state cells.old)
        (part_of_cells later) }
    ensures formed { AreFormed cells.new }
{
    match cells {
        Cells::Kept(part) => part.append(&later),
        Cells::Bare(_, _) => {
            let _shape = later.shape();
            *cells = Cells::Kept(later);
        }
    }
}

/// The cells as a list.
pub(crate) fn finish_cells(cells: Cells, alloc: Global) -> Result<Val, AllocError>
    requires { AreFormed cells }
    ensures { IfOk result (λ v. view_val v ≡ result_of (part_of_cells_state cells)) }
{
    match cells {
        Cells::Kept(part) => part.finish(alloc),
        Cells::Bare(_, shape) => {
            CellsPart::neutral(alloc, shape.op, shape.kind, shape.count)?.finish(alloc)
        }
    }
}
