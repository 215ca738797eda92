ghost use Rattle.std.specs.Prelude.{◌≡◌, map, IfOk, OnOk};
ghost use Rattle.weld_data.specs.Kind.{IsNarrow, InRange};
ghost use Rattle.weld_data.specs.Structs.{structs_in, AreKeptStructs};
ghost use Rattle.weld_data.specs.Value.{number};
ghost use Rattle.weld_data.specs.View.{view_val};
ghost use Rattle.weld_builders.specs.Part.{shape_of, bare, merge_part, after_part, result_of};
ghost use Rattle.weld_builders.specs.Range.{AllInRange, IsInRange};
ghost use Rattle.weld_builders.specs.Outcome.{done};
ghost use Rattle.weld_built.specs.Merges.{merge_all, TakesNumbers, MayAppend};
ghost use Rattle.weld_built.specs.Logged.{IsItemOf, HasResult};
ghost use Rattle.weld_built.specs.State.{MergeAnswer, part_of_state, IsState};

use crate::cells::{Cells, copy_of_cells, finish_cells, join_cells, shape_of_cells};
use crate::fitting::number_of;
use crate::groups::join_groups;
use crate::keyed::join_keyed;
use crate::list;
use crate::own::{Own, own_into};
use crate::pairs::{pair_into, pairs_into, values_into};
use crate::rows::rows_into;
use crate::totals::merge_fields;
use std::alloc::{AllocError, Global};
use std::marker::Model;
use weld_data::{Kind, MergeOp, Num, Stop, Val};
use weld_groups::GroupsPart;
use weld_pieces::cells::CellsShape;
use weld_pieces::fields::{as_number, two_fields};
use weld_pieces::{KeyedPart, ListPart, Part, TotalPart, TotalsPart};

/// A builder of one of the kinds with what was merged into it. Contracts see it as plain data.
#[derive(Drop)]
pub struct Built {
    state: State,
}

/// What was merged. The memory that may be wanted lies beside it.
#[derive(Drop)]
pub(crate) enum State {
    Total(TotalPart),
    Totals(Global, TotalsPart),
    List(Global, ListPart),
    Cells(Cells),
    Keyed(Global, KeyedPart),
    Groups(Global, GroupsPart),
}

impl Model for Built {
    ghost use Rattle.weld_builders.specs.Part as parts;
    ghost use Rattle.weld_built.specs.PartCode.{coded_part};

    ghost Value = { parts.Part };

    ghost coded = { coded_part };

    ghost use Rattle.weld_built.specs.State.{part_of_state, IsState};

    ghost view = { λ b. part_of_state b.state };

    ghost invariant = { λ b. IsState b.state };
}

impl Built {
    ghost use Rattle.std.specs.Prelude.{◌≡◌, map, length, zip, IfOk, OnOk};
    ghost use Rattle.weld_data.specs.Kind.{IsInteger, IsNarrow, InRange};
    ghost use Rattle.weld_data.specs.Structs.{structs_in, AreKeptStructs};
    ghost use Rattle.weld_data.specs.Value.{number};
    ghost use Rattle.weld_data.specs.View.{view_val};
    ghost use Rattle.weld_builders.specs.Part.{total_part, list_shape, total_shape, cells_shape, keyed_shape, groups_shape, start_part, shape_of, bare, merge_part, after_part, result_of};
    ghost use Rattle.weld_builders.specs.Range.{AllInRange, IsInRange};
    ghost use Rattle.weld_builders.specs.Outcome.{done};
    ghost use Rattle.weld_built.specs.Merges.{merge_all, TakesNumbers, TakesPairs, MayAppend};
    ghost use Rattle.weld_built.specs.Logged.{IsItemOf, HasResult};
    ghost use Rattle.weld_built.specs.Pair.{pair, number_pairs};
    ghost use Rattle.weld_built.specs.State.{MergeAnswer};
    ghost use Rattle.weld_pieces.specs.Totals.{part_of_totals};

    /// A list without items. It takes no memory.
    pub fn list(alloc: Global) -> Built
        ensures { result ≡ start_part list_shape }
    {
        Built {
            state: State::List(alloc, ListPart::empty(alloc, None)),
        }
    }

    /// The total that starts with a number of an integer kind. It takes no memory.
    pub fn total(op: MergeOp, start: Num) -> Built
        requires { IsInteger start.kind }
        ensures { result ≡ total_part op start.kind start.value }
    {
        Built {
            state: State::Total(TotalPart::from_number(op, start.kind, start.value)),
        }
    }

    /// The total of no numbers of an integer kind. It takes no memory.
    pub fn empty_total(op: MergeOp, kind: Kind) -> Built
        requires { IsInteger kind }
        ensures { result ≡ start_part (total_shape op kind) }
    {
        Built {
            state: State::Total(TotalPart::neutral(op, kind)),
        }
    }

    /// A total for each field of a struct. It takes no memory.
    pub fn totals(alloc: Global, totals: TotalsPart) -> Built
        ensures { result ≡ part_of_totals totals }
    {
        Built {
            state: State::Totals(alloc, totals),
        }
    }

    /// So many cells with the neutral number of the operator. It takes no memory.
    pub fn cells(alloc: Global, op: MergeOp, kind: Kind, count: usize) -> Built
        requires { IsInteger kind }
        ensures { result ≡ start_part (cells_shape op kind count) }
    {
        Built {
            state: State::Cells(Cells::Bare(alloc, CellsShape { op, kind, count })),
        }
    }

    /// Numbers by keys, without keys. It takes no memory.
    pub fn keyed(alloc: Global, op: MergeOp, kind: Kind) -> Built
        requires { IsInteger kind }
        ensures { result ≡ start_part (keyed_shape op kind) }
    {
        Built {
            state: State::Keyed(alloc, KeyedPart::empty(alloc, None, op, kind)),
        }
    }

    /// Lists by keys, without keys. It takes no memory.
    pub fn groups(alloc: Global) -> Built
        ensures { result ≡ start_part groups_shape }
    {
        Built {
            state: State::Groups(alloc, GroupsPart::empty(alloc, None, None)),
        }
    }

    /// The builder of the same shape that has nothing merged. It takes memory for totals of fields alone.
    pub fn bare(&self, alloc: Global) -> Result<Built, AllocError>
        ensures { IfOk result (λ b. b ≡ bare self.now) }
    {
        match bare_state(&self.state, alloc) {
            Ok(state) => Ok(Built { state }),
            Err(e) => Err(e),
        }
    }

    /// A builder that equals this one.
    pub fn copy(&self, alloc: Global) -> Result<Built, AllocError>
        ensures { IfOk result (λ copy. copy ≡ self.now) }
    {
        match copied_state(&self.state, alloc) {
            Ok(state) => Ok(Built { state }),
            Err(e) => Err(e),
        }
    }

    /// Merges an item of the builder. It faults exactly where the item is a number at an index
    /// outside of the cells.
    #[inline(always)]
    pub fn merge(&mut self, item: Val) -> Result<(), Stop>
        requires { IsItemOf self.old (view_val item) }
        ensures { MergeAnswer result (merge_part self.old (view_val item)) self.new }
    {
        merge_into(&mut self.state, item)
    }

    /// Merges an item that is a number of a kind and lies within an i64. It makes no value where the
    /// builder keeps numbers of that kind.
    #[inline]
    pub fn merge_number(&mut self, kind: Kind, x: i64) -> Result<(), Stop>
        requires number { InRange kind x }
        requires item { IsItemOf self.old (number kind x) }
        ensures { MergeAnswer result (merge_part self.old (number kind x)) self.new }
    {
        number_into(&mut self.state, kind, x)
    }

    /// Merges items that are numbers of a kind, the first one first. It makes no values where the
    /// builder keeps numbers of that kind.
    pub fn merge_numbers(&mut self, kind: Kind, items: &[i64]) -> Result<(), Stop>
        requires narrow { IsNarrow kind }
        requires numbers { AllInRange kind items.now }
        requires items { TakesNumbers self.old kind }
        ensures { MergeAnswer result (merge_all self.old (map (number kind) items.now)) self.new }
    {
        numbers_into(&mut self.state, kind, items)
    }

    /// Appends items that are numbers in the width of their kind, the first one first, where the builder
    /// is a list that keeps them so; it tells whether it is. Else nothing changes.
    pub fn append_own<T: Own>(&mut self, numbers: &[T]) -> Result<bool, AllocError>
        ensures { MayAppend result self.old
            (λ all. merge_all self.old (map T.value numbers.now) ≡ done all) self.new }
    {
        own_into(&mut self.state, numbers)
    }

    /// Merges an item that is a struct of two numbers that lie within an i64, as a number at an index
    /// or at a key. It faults exactly where the first is an index outside of the cells.
    #[inline]
    pub fn merge_pair(&mut self, key_kind: Kind, key: i64, kind: Kind, x: i64) -> Result<(), Stop>
        requires key { InRange key_kind key }
        requires number { InRange kind x }
        requires item { IsItemOf self.old (pair (number key_kind key) (number kind x)) }
        ensures { MergeAnswer result (merge_part self.old
            (pair (number key_kind key) (number kind x))) self.new }
    {
        pair_into(&mut self.state, key_kind, key, kind, x)
    }

    /// Merges items that are structs of two numbers, which are given side by side, the first one first.
    /// It faults exactly where one of them does, and makes no values where the builder keeps numbers so.
    pub fn merge_pairs(
        &mut self,
        key_kind: Kind,
        keys: &[i64],
        kind: Kind,
        numbers: &[i64],
    ) -> Result<(), Stop>
        requires narrow_key { IsNarrow key_kind }
        requires keys { AllInRange key_kind keys.now }
        requires narrow { IsNarrow kind }
        requires numbers { AllInRange kind numbers.now }
        requires count { length keys.now ≡ length numbers.now }
        requires items { TakesPairs self.old key_kind kind }
        ensures { MergeAnswer result (merge_all self.old
            (number_pairs key_kind kind (zip keys.now numbers.now))) self.new }
    {
        pairs_into(&mut self.state, key_kind, keys, kind, numbers)
    }

    /// Merges an item that is a struct of a value and a number that lies within an i64, as a number at
    /// a key. It faults exactly where the first is an index outside of the cells.
    pub fn merge_at(&mut self, key: Val, kind: Kind, x: i64) -> Result<(), Stop>
        requires number { InRange kind x }
        requires item { IsItemOf self.old (pair (view_val key) (number kind x)) }
        ensures { MergeAnswer result (merge_part self.old (pair (view_val key) (number kind x)))
            self.new }
    {
        values_into(&mut self.state, key, number_of(kind, x))
    }

    /// Whether it may take structs of numbers at once: as a list, or as totals of fields. It takes no memory.
    pub fn takes_rows(&self) -> bool {
        match &self.state {
            State::List(_, _) | State::Totals(_, _) => true,
            _ => false,
        }
    }

    /// Merges so many items that are structs of numbers of these kinds, whose numbers stand one after another, where the builder
    /// is a list, or totals of fields of these kinds; it tells whether it is. Else nothing changes.
    pub fn merge_rows(
        &mut self,
        kinds: &[Kind],
        numbers: &[i64],
        count: usize,
    ) -> Result<bool, AllocError>
        requires { AreKeptStructs count kinds.now numbers.now }
        ensures { MayAppend result self.old
            (λ all. merge_all self.old (structs_in count kinds.now numbers.now) ≡ done all)
            self.new }
    {
        rows_into(&mut self.state, kinds, numbers, count)
    }

    /// Makes room for so many more items where it is a list: of numbers of the kind, where one is
    /// given. It holds what it held, whether there is room or not.
    pub fn reserve(&mut self, kind: Option<Kind>, items: u64) -> Result<(), AllocError>
        ensures { self.new ≡ self.old }
    {
        reserve_in(&mut self.state, kind, items)
    }

    /// Appends what a later builder of the same shape has merged. After want of memory it is only
    /// good to be dropped.
    pub fn join(&mut self, later: Built) -> Result<(), AllocError>
        requires shape { shape_of self.old ≡ shape_of later }
        requires in_range { IsInRange self.old }
        ensures { OnOk result (self.new ≡ after_part self.old later) }
    {
        let Built { state: later } = later;
        join_into(&mut self.state, later)
    }

    /// The result.
    pub fn finish(self, alloc: Global) -> Result<Val, AllocError>
        requires { HasResult self }
        ensures { IfOk result (λ v. view_val v ≡ result_of self) }
    {
        let Built { state } = self;
        match state {
            State::Total(total) => Ok(Val::Num(total.number())),
            State::Totals(_, totals) => totals.into_value(alloc),
            State::List(_, list) => list.finish(alloc),
            State::Cells(cells) => finish_cells(cells, alloc),
            State::Keyed(_, part) => part.finish(alloc),
            State::Groups(_, part) => part.finish(alloc),
        }
    }
}

/// The state that has nothing merged. It keeps items and keys alike.
fn bare_state(state: &State, alloc: Global) -> Result<State, AllocError>
    requires { IsState state.now }
    ensures bare { IfOk result (λ s. part_of_state s ≡ bare (part_of_state state.now)) }
    ensures state { IfOk result IsState }
{
    match state {
        State::Total(total) => {
            let empty = TotalPart::neutral(total.op(), total.number().kind);
            Ok(State::Total(empty))
        }
        State::Totals(_, totals) => Ok(State::Totals(alloc, totals.bare(alloc)?)),
        State::List(_, list) => Ok(State::List(alloc, ListPart::empty(alloc, list.kind()))),
        State::Cells(cells) => Ok(State::Cells(Cells::Bare(alloc, shape_of_cells(cells)))),
        State::Keyed(_, part) => {
            let shape = part.shape();
            let empty = KeyedPart::empty(alloc, shape.key, shape.op, shape.kind);
            Ok(State::Keyed(alloc, empty))
        }
        State::Groups(_, part) => {
            let empty = GroupsPart::empty(alloc, part.key(), part.items());
            Ok(State::Groups(alloc, empty))
        }
    }
}

/// A state that equals this one.
#[tactic(auto, using(crate::proofs::KeyLemmas::keeps_alike))]
fn copied_state(state: &State, alloc: Global) -> Result<State, AllocError>
    requires { IsState state.now }
    ensures copy { IfOk result (λ copy. part_of_state copy ≡ part_of_state state.now) }
    ensures state { IfOk result IsState }
{
    match state {
        State::Total(total) => {
            let number = total.number();
            let copy = TotalPart::from_number(total.op(), number.kind, number.value);
            Ok(State::Total(copy))
        }
        State::Totals(_, totals) => Ok(State::Totals(alloc, totals.copy(alloc)?)),
        State::List(_, list) => Ok(State::List(alloc, list.copy(alloc)?)),
        State::Cells(cells) => Ok(State::Cells(copy_of_cells(cells, alloc)?)),
        State::Keyed(_, part) => Ok(State::Keyed(alloc, part.copy_as(alloc, part.key())?)),
        State::Groups(_, part) => Ok(State::Groups(
            alloc,
            part.copy_as(alloc, part.key(), part.items())?,
        )),
    }
}

/// Merges a number.
#[inline(always)]
fn number_into(state: &mut State, kind: Kind, x: i64) -> Result<(), Stop>
    requires state { IsState state.old }
    requires number { InRange kind x }
    requires item { IsItemOf (part_of_state state.old) (number kind x) }
    ensures answer { MergeAnswer result (merge_part (part_of_state state.old) (number kind x))
        (part_of_state state.new) }
    ensures state { IsState state.new }
{
    match state {
        State::Total(total) => {
            total.merge_number(x);
            return Ok(());
        }
        State::List(alloc, items) => match list::push_number(*alloc, items, kind, x) {
            Ok(()) => return Ok(()),
            Err(_) => return Err(Stop::Memory),
        },
        _ => unreachable!(),
    }
}

/// Merges numbers.
#[tactic(auto, using(crate::proofs::ManyLemmas::merged_list, crate::proofs::ManyLemmas::merged_total))]
fn numbers_into(state: &mut State, kind: Kind, items: &[i64]) -> Result<(), Stop>
    requires state { IsState state.old }
    requires narrow { IsNarrow kind }
    requires numbers { AllInRange kind items.now }
    requires items { TakesNumbers (part_of_state state.old) kind }
    ensures answer { MergeAnswer result (merge_all (part_of_state state.old)
        (map (number kind) items.now)) (part_of_state state.new) }
    ensures state { IsState state.new }
{
    match state {
        State::Total(total) => {
            total.merge_numbers(items);
            return Ok(());
        }
        State::List(alloc, list) => match list::push_numbers(*alloc, list, kind, items) {
            Ok(()) => return Ok(()),
            Err(_) => return Err(Stop::Memory),
        },
        _ => unreachable!(),
    }
}

/// Merges an item. A list's next one needs no call.
#[inline(always)]
fn merge_into(state: &mut State, item: Val) -> Result<(), Stop>
    requires state { IsState state.old }
    requires item { IsItemOf (part_of_state state.old) (view_val item) }
    ensures answer { MergeAnswer result (merge_part (part_of_state state.old) (view_val item))
        (part_of_state state.new) }
    ensures state { IsState state.new }
{
    if let State::List(alloc, items) = state {
        match list::push_item(*alloc, items, item) {
            Ok(()) => return Ok(()),
            Err(_) => return Err(Stop::Memory),
        }
    }
    merge_other(state, item)
}

/// Merges an item of any builder.
#[inline(never)]
fn merge_other(state: &mut State, item: Val) -> Result<(), Stop>
    requires state { IsState state.old }
    requires item { IsItemOf (part_of_state state.old) (view_val item) }
    ensures answer { MergeAnswer result (merge_part (part_of_state state.old) (view_val item))
        (part_of_state state.new) }
    ensures state { IsState state.new }
{
    match state {
        State::Total(total) => {
            total.merge_wide(as_number(item).value);
            return Ok(());
        }
        State::Totals(alloc, totals) => match merge_fields(*alloc, totals, item) {
            Ok(()) => return Ok(()),
            Err(_) => return Err(Stop::Memory),
        },
        State::List(alloc, items) => match list::push_item(*alloc, items, item) {
            Ok(()) => return Ok(()),
            Err(_) => return Err(Stop::Memory),
        },
        _ => {
            let (first, second) = two_fields(item);
            return values_into(state, first, second);
        }
    }
}

/// Makes room for so many more items of a list.
fn reserve_in(state: &mut State, kind: Option<Kind>, items: u64) -> Result<(), AllocError>
    requires { IsState state.old }
    ensures same { part_of_state state.new ≡ part_of_state state.old }
    ensures state { IsState state.new }
{
    match state {
        State::List(alloc, list) => return list::reserve(*alloc, list, kind, items),
        _ => return Ok(()),
    }
}

/// Appends what a later builder of the same shape has merged.
fn join_into(state: &mut State, later: State) -> Result<(), AllocError>
    requires state { IsState state.old }
    requires later { IsState later }
    requires shape { shape_of (part_of_state state.old) ≡ shape_of (part_of_state later) }
    requires in_range { IsInRange (part_of_state state.old) }
    ensures joined { OnOk result (part_of_state state.new
        ≡ after_part (part_of_state state.old) (part_of_state later)) }
    ensures state { IsState state.new }
{
    match (state, later) {
        (State::Total(total), State::Total(more)) => {
            total.append(&more);
            return Ok(());
        }
        (State::Totals(_, totals), State::Totals(_, more)) => {
            totals.append(&more);
            return Ok(());
        }
        (State::List(alloc, items), State::List(_, more)) => {
            return list::join_lists(*alloc, items, more);
        }
        (State::Cells(cells), State::Cells(more)) => {
            join_cells(cells, more);
            return Ok(());
        }
        (State::Keyed(alloc, part), State::Keyed(_, more)) => return join_keyed(*alloc, part, more),
        (State::Groups(alloc, part), State::Groups(_, more)) => {
            return join_groups(*alloc, part, more);
        }
        _ => unreachable!(),
    }
}
