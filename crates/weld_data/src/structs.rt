//! Lists of structs whose fields are numbers.

ghost use Rattle.std.specs.Prelude.{◌≡◌, ◌∷◌, ◌++◌, [], ◌+◌, ◌<◌, ◌≤◌, Some, slice_get, true, length, map, IfOk, IfSome};
ghost use Rattle.std.specs.Vec.{vec_len, vec_capacity};
ghost use Rattle.weld_data.specs.Kind.{InRange};
ghost use Rattle.weld_data.specs.Value.{number, struct, values, list_of_values};
ghost use Rattle.weld_data.specs.View.{view_val};
ghost use Rattle.weld_data.specs.Structs.{fields_in, structs_in, AreFields, AreStructs, AreKeptStructs, FieldAnswer, FitKinds, HasStructAt, MayTake, StandsAt, value_there, kinds_of, numbers_of};

use crate::kind::Kind;
use crate::num::Num;
use crate::packed::Packed;
use crate::value::{Val, Vals};
use std::alloc::{AllocError, Global};
use std::marker::Model;

/// A list of structs whose fields are numbers of one kind each, of which each number lies within an i64, at least one field.
/// The numbers stand one after another, those of the first struct first, so that a struct takes no memory of its own.
/// Contracts see it as the list of the structs.
#[derive(Debug, Drop)]
pub struct Structs {
    kept: Box<Kept>,
}

/// The kinds of the fields, the numbers, and how many structs there are.
#[derive(Debug, Drop)]
struct Kept {
    kinds: Vec<Kind>,
    numbers: Vec<i64>,
    count: usize,
}

impl Model for Structs {
    ghost use Rattle.weld_data.specs.Value.{ValueList};
    ghost use Rattle.weld_data.specs.ValueCode.{coded_values};
    ghost use Rattle.weld_data.specs.Structs.{structs_in, AreKeptStructs};

    ghost Value = { ValueList };

    ghost coded = { coded_values };

    ghost view = { λ s. structs_in s.kept.value.count s.kept.value.kinds.items s.kept.value.numbers.items };

    ghost invariant = { λ s. AreKeptStructs s.kept.value.count s.kept.value.kinds.items s.kept.value.numbers.items };
}

impl Structs {
    ghost use Rattle.std.specs.Prelude.{◌≡◌, ◌∷◌, ◌++◌, [], ◌==◌, ◌<◌, length, map, slice_get, Some, IfOk, IfSome};
    ghost use Rattle.weld_data.specs.Value.{struct, values};
    ghost use Rattle.weld_data.specs.View.{view_val, view_packed};
    ghost use Rattle.weld_data.specs.Structs.{structs_in, AreKeptStructs, FieldAnswer, HasStructAt, MayTake, value_there};

    /// The list of so many structs of these kinds, whose numbers stand one after another.
    pub fn from_numbers(
        alloc: Global,
        kinds: Vec<Kind>,
        numbers: Vec<i64>,
        count: usize,
    ) -> Result<Structs, AllocError>
        requires { AreKeptStructs count kinds.items numbers.items }
        ensures { IfOk result (λ list. list ≡ structs_in count kinds.items numbers.items) }
    {
        let kept = Box::new(
            alloc,
            Kept {
                kinds,
                numbers,
                count,
            },
        )?;
        Ok(Structs { kept })
    }

    /// The list without structs that takes such as have these fields, where they are numbers that are kept so.
    pub fn like(alloc: Global, fields: &[Val]) -> Result<Option<Structs>, AllocError>
        ensures { IfOk result (λ r. IfSome r (λ list. list ≡ [])) }
    {
        let width = fields.len();
        if width < 1 {
            return Ok(None);
        }
        if !are_numbers(fields) {
            return Ok(None);
        }
        let mut kinds = Vec::with_capacity(alloc, width)?;
        put_kinds(&mut kinds, fields);
        match Structs::from_numbers(alloc, kinds, Vec::new(alloc), 0) {
            Ok(list) => Ok(Some(list)),
            Err(e) => Err(e),
        }
    }

    /// The memory that the list takes more of. It takes none itself.
    pub fn allocator(&self) -> Global {
        *self.kept.kinds.allocator()
    }

    /// How many structs there are. It takes no memory.
    #[tactic(auto, using(crate::proofs::StructLemmas::counted))]
    pub fn len(&self) -> usize
        ensures { result ≡ length self.now }
    {
        self.kept.count
    }

    /// Whether there is no struct. It takes no memory.
    #[tactic(auto, using(crate::proofs::StructLemmas::counted))]
    pub fn is_empty(&self) -> bool
        ensures { result ≡ (length self.now == 0) }
    {
        self.kept.count == 0
    }

    /// Makes room for so many more structs, and leaves those that are there.
    pub fn reserve(&mut self, more: usize) -> Result<(), AllocError>
        ensures { self.new ≡ self.old }
    {
        match more.checked_mul(self.kept.kinds.len()) {
            Some(numbers) => self.kept.numbers.reserve(numbers),
            None => Ok(()),
        }
    }

    /// Appends the struct of these fields, where they are numbers of the list's kinds; tells whether it did. Else nothing
    /// changes.
    pub fn push(&mut self, fields: &[Val]) -> Result<bool, AllocError>
        ensures { MayTake result self.old (struct (values (map view_val fields.now)) ∷ [])
            self.new }
    {
        push_in(&mut self.kept, fields)
    }

    /// Appends the structs of a later list, where they are of the same kinds; tells whether it did. Else nothing changes.
    pub fn append(&mut self, later: &Structs) -> Result<bool, AllocError>
        ensures { MayTake result self.old later.now self.new }
    {
        append_in(
            &mut self.kept,
            &later.kept.kinds,
            &later.kept.numbers,
            later.kept.count,
        )
    }

    /// Appends so many structs of these kinds, whose numbers stand one after another, where the list's are of the same kinds; tells
    /// whether it did. Else nothing changes.
    pub fn append_numbers(
        &mut self,
        kinds: &[Kind],
        numbers: &[i64],
        count: usize,
    ) -> Result<bool, AllocError>
        requires { AreKeptStructs count kinds.now numbers.now }
        ensures { MayTake result self.old (structs_in count kinds.now numbers.now) self.new }
    {
        append_in(&mut self.kept, kinds, numbers, count)
    }

    /// A list that equals this one.
    pub fn copy(&self, alloc: Global) -> Result<Structs, AllocError>
        ensures { IfOk result (λ copy. copy ≡ self.now) }
    {
        let kinds = Vec::from_slice(alloc, &self.kept.kinds)?;
        let numbers = Vec::from_slice(alloc, &self.kept.numbers)?;
        Structs::from_numbers(alloc, kinds, numbers, self.kept.count)
    }

    /// The struct at a place, from 0, as a value.
    #[tactic(auto, using(crate::proofs::StructLemmas::counted))]
    pub fn copy_at(&self, alloc: Global, place: usize) -> Result<Val, AllocError>
        requires { place < length self.now }
        ensures { IfOk result (λ v. slice_get self.now place ≡ Some (view_val v)) }
    {
        copy_from(alloc, &self.kept, place)
    }

    /// What stands at a place, from 0, is a struct: it tells a caller so who looks for something else. It takes no memory.
    #[inline(always)]
    pub fn holds_struct(&self, place: usize)
        requires { place < length self.now }
        ensures { HasStructAt self.now place }
    {
        struct_from(&self.kept, place)
    }

    /// The number in a field, from 0, of the struct at a place, from 0, where there is such a field. It takes no memory.
    #[inline(always)]
    #[tactic(auto, using(crate::proofs::StructLemmas::counted))]
    pub fn number_at(&self, place: usize, field: usize) -> Option<Num>
        requires { place < length self.now }
        ensures { FieldAnswer result field (value_there (slice_get self.now place)) }
    {
        field_from(&self.kept, place, field)
    }

    /// The struct at a place, from 0, lent. It takes no memory.
    #[inline(always)]
    #[tactic(auto, using(crate::proofs::StructLemmas::value_stands))]
    pub fn at<'a>(&'a self, place: usize) -> Packed<'a>
        requires { place < length self.now }
        ensures { slice_get self.now place ≡ Some (view_packed result) }
    {
        Packed { list: self, place }
    }
}

/// Appends the struct of these fields to those that are kept, where they fit.
#[tactic(auto)]
fn push_in(kept: &mut Kept, fields: &[Val]) -> Result<bool, AllocError>
    requires { AreKeptStructs kept.old.count kept.old.kinds.items kept.old.numbers.items }
    ensures kept { AreKeptStructs kept.new.count kept.new.kinds.items kept.new.numbers.items }
    ensures taken { MayTake result
        (structs_in kept.old.count kept.old.kinds.items kept.old.numbers.items)
        (struct (values (map view_val fields.now)) ∷ [])
        (structs_in kept.new.count kept.new.kinds.items kept.new.numbers.items) }
{
    if !fit_kinds(&kept.kinds, fields) {
        return Ok(false);
    }
    kept.numbers.reserve(fields.len())?;
    put_numbers(&kept.kinds, &mut kept.numbers, fields);
    let _total = kept.numbers.len();
    kept.count += 1;
    Ok(true)
}

/// Appends so many structs of these kinds to those that are kept, where those are of the same kinds.
#[tactic(auto)]
fn append_in(
    kept: &mut Kept,
    kinds: &[Kind],
    numbers: &[i64],
    count: usize,
) -> Result<bool, AllocError>
    requires kept { AreKeptStructs kept.old.count kept.old.kinds.items kept.old.numbers.items }
    requires later { AreKeptStructs count kinds.now numbers.now }
    ensures kept { AreKeptStructs kept.new.count kept.new.kinds.items kept.new.numbers.items }
    ensures taken { MayTake result
        (structs_in kept.old.count kept.old.kinds.items kept.old.numbers.items)
        (structs_in count kinds.now numbers.now)
        (structs_in kept.new.count kept.new.kinds.items kept.new.numbers.items) }
{
    if !are_same(&kept.kinds, kinds) {
        return Ok(false);
    }
    kept.numbers.extend_from_slice(numbers)?;
    let _total = kept.numbers.len();
    kept.count += count;
    Ok(true)
}

/// Where the numbers of the struct at a place begin. It takes no memory.
#[inline(always)]
fn start_of(kinds: &[Kind], numbers: &[i64], count: usize, place: usize) -> usize
    requires kept { AreStructs count kinds.now numbers.now }
    requires place { place < count }
    ensures { StandsAt count place kinds.now numbers.now result }
{
    place * kinds.len()
}

/// The struct at a place among those that are kept.
fn copy_from(alloc: Global, kept: &Kept, place: usize) -> Result<Val, AllocError>
    requires kept { AreKeptStructs kept.now.count kept.now.kinds.items kept.now.numbers.items }
    requires place { place < kept.now.count }
    ensures { IfOk result (λ v. slice_get
        (structs_in kept.now.count kept.now.kinds.items kept.now.numbers.items) place
        ≡ Some (view_val v)) }
{
    copy_struct(alloc, &kept.kinds, &kept.numbers, kept.count, place)
}

/// The struct at a place among so many.
#[tactic(auto, using(crate::proofs::StructLemmas::fields_are))]
fn copy_struct(
    alloc: Global,
    kinds: &[Kind],
    numbers: &[i64],
    count: usize,
    place: usize,
) -> Result<Val, AllocError>
    requires kept { AreStructs count kinds.now numbers.now }
    requires place { place < count }
    ensures { IfOk result (λ v. slice_get (structs_in count kinds.now numbers.now) place
        ≡ Some (view_val v)) }
{
    let from = start_of(kinds, numbers, count, place);
    let mut fields = Vec::with_capacity(alloc, kinds.len())?;
    let (_, behind) = numbers.split_at(from);
    put_values(kinds, behind, &mut fields);
    Ok(Val::Struct(Vals::from_vec(fields)))
}

/// What stands at a place among those that are kept is a struct.
#[inline(always)]
#[tactic(auto, using(crate::proofs::StructLemmas::struct_stands))]
fn struct_from(kept: &Kept, place: usize)
    requires { place < length (structs_in kept.now.count kept.now.kinds.items
        kept.now.numbers.items) }
    ensures { HasStructAt
        (structs_in kept.now.count kept.now.kinds.items kept.now.numbers.items) place }
{
    let _count = kept.count;
}

/// The number in a field of the struct at a place among those that are kept.
#[inline(always)]
#[tactic(auto, using(crate::proofs::StructLemmas::field_stands))]
fn field_from(kept: &Kept, place: usize, field: usize) -> Option<Num>
    requires kept { AreKeptStructs kept.now.count kept.now.kinds.items kept.now.numbers.items }
    requires place { place < kept.now.count }
    ensures { FieldAnswer result field (value_there (slice_get
        (structs_in kept.now.count kept.now.kinds.items kept.now.numbers.items) place)) }
{
    let kinds = kept.kinds.as_slice();
    let from = start_of(kinds, &kept.numbers, kept.count, place);
    let (_, behind) = kept.numbers.split_at(from);
    field_in(kinds, behind, field)
}

/// The number in a field, where there is such a field.
#[inline(always)]
#[tactic(auto, using(crate::proofs::StructLemmas::fields_many, crate::proofs::StructLemmas::fields_within))]
fn field_in(kinds: &[Kind], numbers: &[i64], field: usize) -> Option<Num>
    requires { AreFields kinds.now numbers.now }
    ensures { FieldAnswer result field (struct (fields_in kinds.now numbers.now)) }
{
    if field < kinds.len() {
        let kind = kinds[field];
        let x = numbers[field];
        Some(number_of(kind, x))
    } else {
        None
    }
}

/// The number of a kind.
#[inline(always)]
fn number_of(kind: Kind, x: i64) -> Num
    requires { InRange kind x }
    ensures kind { result.kind ≡ kind }
    ensures value { result.value ≡ x }
{
    Num {
        kind,
        value: i128::from(x),
    }
}

/// Whether each value is a number that lies within an i64 by its kind. It takes no memory.
fn are_numbers(fields: &[Val]) -> bool
    ensures { result ≡ true → FitKinds (kinds_of (map view_val fields.now))
        (map view_val fields.now) }
{
    match fields.split_first() {
        None => true,
        Some((first, rest)) => match first {
            Val::Num(n) => n.kind.is_narrow() && are_numbers(rest),
            _ => false,
        },
    }
}

/// Whether each value is a number of its kind. It takes no memory.
fn fit_kinds(kinds: &[Kind], fields: &[Val]) -> bool
    ensures { result ≡ true → FitKinds kinds.now (map view_val fields.now) }
{
    match kinds.split_first() {
        None => fields.is_empty(),
        Some((kind, more)) => match fields.split_first() {
            None => false,
            Some((first, rest)) => match first {
                Val::Num(n) => n.kind == *kind && kind.is_narrow() && fit_kinds(more, rest),
                _ => false,
            },
        },
    }
}

/// Whether the kinds are the same. It takes no memory.
fn are_same(kinds: &[Kind], others: &[Kind]) -> bool
    ensures { result ≡ true → kinds.now ≡ others.now }
{
    match kinds.split_first() {
        None => others.is_empty(),
        Some((kind, more)) => match others.split_first() {
            None => false,
            Some((other, rest)) => kind == other && are_same(more, rest),
        },
    }
}

/// Puts the kinds of numbers behind others: there is room for them.
fn put_kinds(kinds: &mut Vec<Kind>, fields: &[Val])
    requires { vec_len kinds.old + length fields.now ≤ vec_capacity kinds.old }
    ensures { kinds.new.items ≡ kinds.old.items ++ kinds_of (map view_val fields.now) }
{
    if let Some((first, rest)) = fields.split_first() {
        if let Val::Num(n) = first {
            kinds.push_reserved(n.kind);
        }
        put_kinds(kinds, rest);
    }
}

/// Puts the numbers behind others: there is room for them.
fn put_numbers(kinds: &[Kind], numbers: &mut Vec<i64>, fields: &[Val])
    requires fit { FitKinds kinds.now (map view_val fields.now) }
    requires room { vec_len numbers.old + length fields.now ≤ vec_capacity numbers.old }
    ensures { numbers.new.items ≡ numbers.old.items ++ numbers_of (map view_val fields.now) }
{
    match kinds.split_first() {
        None => {}
        Some((_, more)) => match fields.split_first() {
            None => {}
            Some((first, rest)) => {
                match first {
                    Val::Num(n) => numbers.push_reserved(n.value as i64),
                    _ => unreachable!(),
                }
                put_numbers(more, numbers, rest);
            }
        },
    }
}

/// Puts the numbers of these kinds behind others as values: there is room for them.
fn put_values(kinds: &[Kind], numbers: &[i64], fields: &mut Vec<Val>)
    requires are { AreFields kinds.now numbers.now }
    requires room { vec_len fields.old + length kinds.now ≤ vec_capacity fields.old }
    ensures { map view_val fields.new.items ≡ map view_val fields.old.items
        ++ list_of_values (fields_in kinds.now numbers.now) }
{
    match kinds.split_first() {
        None => {}
        Some((kind, more)) => match numbers.split_first() {
            None => unreachable!(),
            Some((x, rest)) => {
                fields.push_reserved(Val::Num(number_of(*kind, *x)));
                put_values(more, rest, fields);
            }
        },
    }
}
