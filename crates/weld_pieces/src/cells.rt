ghost use Rattle.std.specs.Prelude.{◌≡◌, ◌<◌, pos, length, map, IfOk, MatchOption};
ghost use Rattle.weld_data.specs.Value.{number};
ghost use Rattle.weld_pieces.specs.Items.{items_of_list};
ghost use Rattle.weld_pieces.specs.Answer.{IsOutside};
ghost use Rattle.weld_pieces.specs.Word.{word};
ghost use Rattle.weld_data.specs.Kind.{IsInteger, InRange};
ghost use Rattle.weld_builders.specs.Part.{join_cells};
ghost use Rattle.weld_builders.specs.Range.{AllInRange};

use crate::list::ListPart;
use crate::many::merge_cells;
use crate::number::{combine_words, to_word, wide};
use crate::part::Part;
use std::alloc::{AllocError, Global};
use std::marker::Model;
use weld_data::{Column, Items, Kind, MergeOp, Num, Stop, Val, neutral};

/// The operator, the integer kind and the number of cells.
#[derive(Clone, Copy, Debug, PartialEq, Eq)]
pub struct CellsShape {
    pub op: MergeOp,
    pub kind: Kind,
    pub count: usize,
}

/// A number for the cell at an index, from 0.
#[derive(Clone, Copy, Debug, PartialEq, Eq)]
pub struct CellItem {
    pub index: i64,
    pub number: Num,
}

/// Numbers of an integer kind by places, combined by an operator. Each is kept as a word of 64 bits
/// with a sign, for which those of kind u64 are kept less an offset.
#[derive(Debug, Drop)]
pub struct CellsPart {
    op: MergeOp,
    kind: Kind,
    cells: Vec<i64>,
}

impl Model for CellsPart {
    ghost use Rattle.std.specs.Prelude.{map};
    ghost use Rattle.weld_pieces.specs.Total.{Cells, AreCells};
    ghost use Rattle.weld_pieces.specs.Word.{word};

    ghost Value = { Cells };

    ghost view = { λ c. record { op = c.op; kind = c.kind; cells = map (word c.kind) c.cells.items } };

    ghost invariant = { λ c. AreCells c.kind (map (word c.kind) c.cells.items) };
}

impl CellsPart {
    ghost use Rattle.std.specs.Prelude.{◌≡◌, IfOk, map, length, zip};
    ghost use Rattle.weld_data.specs.Value.{number};
    ghost use Rattle.weld_data.specs.View.{view_column};
    ghost use Rattle.weld_data.specs.Kind.{IsInteger, IsNarrow, InRange};
    ghost use Rattle.weld_data.specs.Operation.{combination, start_of};
    ghost use Rattle.weld_builders.specs.Part.{merge_cell, join_cells, repeated};
    ghost use Rattle.weld_builders.specs.Range.{AllInRange};
    ghost use Rattle.weld_pieces.specs.Total.{Cells};
    ghost use Rattle.weld_pieces.specs.Answer.{CellAnswer};
    ghost use Rattle.weld_pieces.specs.Many.{merged_cells, CellsAnswer};
    ghost use Rattle.weld_pieces.specs.Word.{word};

    /// So many cells with the neutral number of the operator.
    pub fn neutral(
        alloc: Global,
        op: MergeOp,
        kind: Kind,
        count: usize,
    ) -> Result<CellsPart, AllocError>
        requires { IsInteger kind }
        ensures op { IfOk result (λ c. c.op ≡ op) }
        ensures kind { IfOk result (λ c. c.kind ≡ kind) }
        ensures cells { IfOk result (λ c. c.cells ≡ repeated (start_of op kind) count) }
        ensures count { IfOk result (λ c. length c.cells ≡ count) }
    {
        let start = to_word(kind, neutral(op, kind));
        let cells = Vec::from_elem(alloc, start, count)?;
        Ok(CellsPart { op, kind, cells })
    }

    /// The cells that start with numbers of an integer kind, which they keep. It takes no memory.
    pub fn from_numbers(op: MergeOp, kind: Kind, cells: Vec<i64>) -> CellsPart
        requires integer { IsInteger kind }
        requires narrow { IsNarrow kind }
        requires in_range { AllInRange kind cells.items }
        ensures op { result.op ≡ op }
        ensures kind { result.kind ≡ kind }
        ensures cells { result.cells ≡ cells.items }
    {
        CellsPart { op, kind, cells }
    }

    /// Merges a number of the cells' kind that lies within an i64 into the cell at an index, from 0.
    /// It faults exactly where the index is outside, and takes no memory.
    #[inline(always)]
    pub fn merge_number(&mut self, index: i64, x: i64) -> Result<(), Stop>
        requires { InRange self.old.kind x }
        ensures op { self.new.op ≡ self.old.op }
        ensures kind { self.new.kind ≡ self.old.kind }
        ensures cells { CellAnswer result (merge_cell self.old.op self.old.kind self.old.cells index
            x) self.old.cells self.new.cells }
    {
        self.merge_wide(index, i128::from(x))
    }

    /// Merges a number of the cells' kind into the cell at an index, from 0. It faults exactly where
    /// the index is outside, and takes no memory.
    #[inline(always)]
    pub fn merge_wide(&mut self, index: i64, x: i128) -> Result<(), Stop>
        requires { InRange self.old.kind x }
        ensures op { self.new.op ≡ self.old.op }
        ensures kind { self.new.kind ≡ self.old.kind }
        ensures cells { CellAnswer result (merge_cell self.old.op self.old.kind self.old.cells index
            x) self.old.cells self.new.cells }
    {
        match place_of(index, self.cells.len()) {
            None => Err(Stop::Fault),
            Some(place) => {
                let old = self.cells[place];
                self.cells[place] = combine_words(self.op, self.kind, old, to_word(self.kind, x));
                Ok(())
            }
        }
    }

    /// Merges numbers of the cells' kind into the cells at indexes, from 0, the first one first. It
    /// faults exactly where one of the indexes is outside, what stands before it being merged. It takes
    /// no memory.
    pub fn merge_numbers(&mut self, indexes: &[i64], numbers: &[i64]) -> Result<(), Stop>
        requires narrow { IsNarrow self.old.kind }
        requires in_range { AllInRange self.old.kind numbers.now }
        requires count { length indexes.now ≡ length numbers.now }
        ensures op { self.new.op ≡ self.old.op }
        ensures kind { self.new.kind ≡ self.old.kind }
        ensures cells { CellsAnswer result (merged_cells self.old.op self.old.kind self.old.cells
            (zip indexes.now numbers.now)) self.new.cells }
    {
        merge_cells(self.op, self.kind, &mut self.cells, indexes, numbers)
    }

    /// Appends what later cells, as many and of the same operator and kind, have merged. It takes no memory.
    pub fn append(&mut self, later: &CellsPart)
        requires kind { self.old.kind ≡ later.now.kind }
        requires count { length self.old.cells ≡ length later.now.cells }
        ensures op { self.new.op ≡ self.old.op }
        ensures kind { self.new.kind ≡ self.old.kind }
        ensures cells { self.new.cells ≡ join_cells self.old.op self.old.kind self.old.cells
            later.now.cells }
        ensures count { length self.new.cells ≡ length self.old.cells }
    {
        add_cells(self.op, self.kind, &mut self.cells, &later.cells);
    }

    /// The cells as a column of their kind. At 64 bits it keeps their memory.
    pub fn into_column(self, alloc: Global) -> Result<Column, AllocError>
        ensures { IfOk result (λ c. view_column c ≡ map (number self.kind) self.cells) }
    {
        let CellsPart { op: _, kind, cells } = self;
        if kind == Kind::I64 {
            return Ok(Column::I64(Items::from_vec(cells)));
        }
        Ok(list_of(alloc, kind, &cells)?.into_column())
    }

    /// The operator, the kind and the number of cells. It takes no memory.
    pub fn shape(&self) -> CellsShape
        ensures op { result.op ≡ self.now.op }
        ensures kind { result.kind ≡ self.now.kind }
        ensures count { result.count ≡ length self.now.cells }
        ensures integer { IsInteger self.now.kind }
        ensures in_range { AllInRange self.now.kind self.now.cells }
    {
        CellsShape {
            op: self.op,
            kind: self.kind,
            count: self.cells.len(),
        }
    }

    /// Cells that equal these.
    pub fn copy(&self, alloc: Global) -> Result<CellsPart, AllocError>
        ensures { IfOk result (λ c. c ≡ self.now) }
    {
        Ok(CellsPart {
            op: self.op,
            kind: self.kind,
            cells: Vec::from_slice(alloc, &self.cells)?,
        })
    }

    /// How many cells there are. It takes no memory.
    pub fn count(&self) -> usize
        ensures { result ≡ length self.now.cells }
    {
        self.cells.len()
    }
}

/// The numbers that words stand for as a list.
fn list_of(alloc: Global, kind: Kind, words: &[i64]) -> Result<ListPart, AllocError>
    requires { AllInRange kind (map (word kind) words.now) }
    ensures { IfOk result (λ list. items_of_list list ≡ map (number kind)
        (map (word kind) words.now)) }
{
    let mut list = ListPart::empty(alloc, Some(kind));
    for x in words {
        list.push_wide(kind, wide(kind, *x))?;
    }
    Ok(list)
}

/// The place that an index names among so many cells.
#[inline(always)]
pub(crate) fn place_of(index: i64, count: usize) -> Option<usize>
    ensures { MatchOption result (IsOutside index count)
        (λ place. (index ≡ pos place) × (place < count)) }
{
    if index < 0 || index as u64 >= count as u64 {
        return None;
    }
    Some(index as usize)
}

/// Combines cells with later ones, place by place.
fn add_cells(op: MergeOp, kind: Kind, cells: &mut [i64], later: &[i64])
    requires integer { IsInteger kind }
    requires cells { AllInRange kind (map (word kind) cells.old) }
    requires later { AllInRange kind (map (word kind) later.now) }
    requires count { length cells.old ≡ length later.now }
    ensures cells { map (word kind) cells.new ≡ join_cells op kind (map (word kind) cells.old)
        (map (word kind) later.now) }
    ensures in_range { AllInRange kind (map (word kind) cells.new) }
{
    for i in 0..cells.len() {
        cells[i] = combine_words(op, kind, cells[i], later[i]);
    }
}

impl Part for CellsPart {
    ghost use Rattle.std.specs.Prelude.{refl, length};
    ghost use Rattle.weld_data.specs.Kind.{IsInteger};
    ghost use Rattle.weld_data.specs.Value.{number, struct, and_value, no_values};
    ghost use Rattle.weld_data.specs.View.{view_val};
    ghost use Rattle.weld_data.specs.declared.kind.Kind.TheVariants as kinds;
    ghost use Rattle.weld_builders.specs.Builder.{one_part, item};
    ghost use Rattle.weld_pieces.specs.Total.{part_of_cells};
    ghost use Rattle.weld_pieces.specs.Kept.{kept_cells};

    type Shape = CellsShape;

    type Item = CellItem;

    type Out = Val;

    ghost builder = { λ c. one_part (part_of_cells c) };

    ghost kept = { λ c. kept_cells c.op c.kind (length c.cells) };

    ghost kept_from = { λ s. kept_cells s.op s.kind s.count };

    ghost is_shape = { λ s. IsInteger s.kind };

    ghost as_item = { λ i. item (struct (and_value (number kinds.I64 i.index) (and_value (number i.number.kind i.number.value) no_values))) };

    ghost out = { view_val };

    ghost spare = { λ _. 0 };

    ghost finishes = { λ _. Unit {0} };

    fn start(alloc: Global, shape: &CellsShape) -> Result<CellsPart, AllocError> {
        CellsPart::neutral(alloc, shape.op, shape.kind, shape.count)
    }

    fn merge(&mut self, item: CellItem) -> Result<(), Stop> {
        self.merge_wide(item.index, item.number.value)
    }

    fn join(&mut self, later: CellsPart) -> Result<(), AllocError> {
        self.append(&later);
        Ok(())
    }

    fn finish(self, alloc: Global) -> Result<Val, AllocError> {
        Ok(Val::List(self.into_column(alloc)?))
    }

    ghost bare_is = { λ c. refl };
}
