//! Totals of the fields of a struct.

ghost use Rattle.std.specs.Prelude.{◌≡◌, map, true, IfOk};
ghost use Rattle.weld_data.specs.Kind.{IsInteger, InRange};
ghost use Rattle.weld_data.specs.Operation.{combination, start_of};
ghost use Rattle.weld_data.specs.Structs.{AreFields, AreStructs};
ghost use Rattle.weld_builders.specs.Part.{kinds_of, neutral_totals, join_totals};
ghost use Rattle.weld_pieces.specs.Totals.{totals_in, number_in, kinded, rows_joined, AreIntegers};

use crate::number::combine_wide;
use std::alloc::{AllocError, Global};
use std::marker::Model;
use weld_data::{Kind, MergeOp, Num, Val, Vals, combine, neutral};

/// A number of an integer kind for each field of a struct, combined by one operator.
#[derive(Debug, Drop)]
pub struct TotalsPart {
    op: MergeOp,
    totals: Vec<Num>,
}

impl Model for TotalsPart {
    ghost use Rattle.weld_builders.specs.Part.{kinds_of};
    ghost use Rattle.weld_pieces.specs.Totals.{FieldTotals, totals_in, AreIntegers};

    ghost Value = { FieldTotals };

    ghost view = { λ t. record { op = t.op; totals = totals_in t.totals.items } };

    ghost invariant = { λ t. AreIntegers (kinds_of (totals_in t.totals.items)) };
}

impl TotalsPart {
    ghost use Rattle.std.specs.Prelude.{◌≡◌, true, IfOk};
    ghost use Rattle.weld_data.specs.Structs.{AreStructs};
    ghost use Rattle.weld_data.specs.View.{view_val};
    ghost use Rattle.weld_builders.specs.Part.{kinds_of, neutral_totals, join_totals, result_of};
    ghost use Rattle.weld_pieces.specs.Totals.{FieldTotals, totals_in, part_of_totals, rows_joined, AreIntegers};

    /// The totals that start with numbers of integer kinds. It takes no memory.
    pub fn from_numbers(op: MergeOp, totals: Vec<Num>) -> TotalsPart
        requires { AreIntegers (kinds_of (totals_in totals.items)) }
        ensures op { result.op ≡ op }
        ensures totals { result.totals ≡ totals_in totals.items }
    {
        TotalsPart { op, totals }
    }

    /// Totals of the same operator and kinds that have nothing merged.
    pub fn bare(&self, alloc: Global) -> Result<TotalsPart, AllocError>
        ensures op { IfOk result (λ t. t.op ≡ self.now.op) }
        ensures totals { IfOk result (λ t. t.totals ≡ neutral_totals self.now.op
            (kinds_of self.now.totals)) }
    {
        Ok(TotalsPart {
            op: self.op,
            totals: neutral_numbers(alloc, self.op, &self.totals)?,
        })
    }

    /// Totals that equal these.
    pub fn copy(&self, alloc: Global) -> Result<TotalsPart, AllocError>
        ensures { IfOk result (λ t. t ≡ self.now) }
    {
        Ok(TotalsPart {
            op: self.op,
            totals: Vec::from_slice(alloc, &self.totals)?,
        })
    }

    /// Merges a number of its kind for each field. It takes no memory.
    pub fn merge_numbers(&mut self, items: &[Num])
        requires { kinds_of self.old.totals ≡ kinds_of (totals_in items.now) }
        ensures op { self.new.op ≡ self.old.op }
        ensures totals { self.new.totals ≡ join_totals self.old.op self.old.totals
            (totals_in items.now) }
    {
        add_numbers(self.op, &mut self.totals, items);
    }

    /// Whether its numbers are of these kinds, one for each. It takes no memory.
    pub fn has_kinds(&self, kinds: &[Kind]) -> bool
        ensures { result ≡ true → kinds_of self.now.totals ≡ kinds.now }
    {
        are_of_kinds(&self.totals, kinds)
    }

    /// Merges so many structs of numbers of its kinds, which lie within an i64 and stand one after another. It takes no memory.
    pub fn merge_rows(&mut self, numbers: &[i64], count: usize)
        requires { AreStructs count (kinds_of self.old.totals) numbers.now }
        ensures op { self.new.op ≡ self.old.op }
        ensures totals { self.new.totals ≡ rows_joined self.old.op self.old.totals numbers.now
            count }
    {
        add_rows(self.op, &mut self.totals, numbers, count);
    }

    /// Appends what later totals of the same operator and kinds have merged. It takes no memory.
    pub fn append(&mut self, later: &TotalsPart)
        requires { kinds_of self.old.totals ≡ kinds_of later.now.totals }
        ensures op { self.new.op ≡ self.old.op }
        ensures totals { self.new.totals ≡ join_totals self.old.op self.old.totals
            later.now.totals }
    {
        add_numbers(self.op, &mut self.totals, &later.totals);
    }

    /// The struct of the totals.
    pub fn into_value(self, alloc: Global) -> Result<Val, AllocError>
        ensures { IfOk result (λ v. view_val v ≡ result_of (part_of_totals self)) }
    {
        let TotalsPart { op: _, totals } = self;
        Ok(Val::Struct(fields_of(alloc, &totals)?))
    }
}

/// Two numbers of one integer kind combined.
fn combined(op: MergeOp, x: Num, y: Num) -> Num
    requires integer { IsInteger y.kind }
    requires kind { x.kind ≡ y.kind }
    ensures kind { result.kind ≡ y.kind }
    ensures value { result.value ≡ combination op y.kind x.value y.value }
{
    Num {
        kind: y.kind,
        value: combine(op, y.kind, x.value, y.value),
    }
}

/// Combines numbers with later ones of the same kinds, field by field.
fn add_numbers(op: MergeOp, totals: &mut [Num], later: &[Num])
    requires integers { AreIntegers (kinds_of (totals_in totals.old)) }
    requires kinds { kinds_of (totals_in totals.old) ≡ kinds_of (totals_in later.now) }
    ensures totals { totals_in totals.new ≡ join_totals op (totals_in totals.old)
        (totals_in later.now) }
    ensures integers { AreIntegers (kinds_of (totals_in totals.new)) }
{
    for i in 0..totals.len() {
        totals[i] = combined(op, totals[i], later[i]);
    }
}

/// Whether the numbers are of these kinds, one for each.
fn are_of_kinds(totals: &[Num], kinds: &[Kind]) -> bool
    ensures { result ≡ true → kinds_of (totals_in totals.now) ≡ kinds.now }
{
    match totals.split_first() {
        None => kinds.is_empty(),
        Some((total, rest)) => match kinds.split_first() {
            None => false,
            Some((kind, later)) => total.kind == *kind && are_of_kinds(rest, later),
        },
    }
}

/// Combines numbers with so many rows of others of the same kinds, which stand one after another.
fn add_rows(op: MergeOp, totals: &mut [Num], numbers: &[i64], count: usize)
    requires integers { AreIntegers (kinds_of (totals_in totals.old)) }
    requires rows { AreStructs count (kinds_of (totals_in totals.old)) numbers.now }
    ensures totals { totals_in totals.new ≡ rows_joined op (totals_in totals.old) numbers.now
        count }
    ensures integers { AreIntegers (kinds_of (totals_in totals.new)) }
{
    let mut left = numbers;
    'rows: for i in 0..count {
        let (_, later) = left.split_at(totals.len());
        add_words(op, totals, left);
        left = later;
    }
}

/// Combines numbers with the first words, one for each, which are numbers of the same kinds.
#[inline(always)]
fn add_words(op: MergeOp, totals: &mut [Num], words: &[i64])
    requires integers { AreIntegers (kinds_of (totals_in totals.old)) }
    requires words { AreFields (kinds_of (totals_in totals.old)) words.now }
    ensures totals { totals_in totals.new ≡ join_totals op (totals_in totals.old)
        (kinded (kinds_of (totals_in totals.old)) words.now) }
    ensures integers { AreIntegers (kinds_of (totals_in totals.new)) }
{
    for i in 0..totals.len() {
        totals[i] = with_word(op, totals[i], words[i]);
    }
}

/// A number combined with another of its kind that lies within an i64.
#[inline(always)]
fn with_word(op: MergeOp, total: Num, x: i64) -> Num
    requires integer { IsInteger total.kind }
    requires in_range { InRange total.kind x }
    ensures kind { result.kind ≡ total.kind }
    ensures value { result.value ≡ combination op total.kind total.value x }
{
    Num {
        kind: total.kind,
        value: combine_wide(op, total.kind, total.value, i128::from(x)),
    }
}

/// The number of an integer kind that changes nothing under the operator. It takes no memory.
pub fn neutral_number(op: MergeOp, kind: Kind) -> Num
    requires { IsInteger kind }
    ensures kind { result.kind ≡ kind }
    ensures value { result.value ≡ start_of op kind }
{
    Num {
        kind,
        value: neutral(op, kind),
    }
}

/// The neutral number of the kind of each.
fn neutral_numbers(alloc: Global, op: MergeOp, totals: &[Num]) -> Result<Vec<Num>, AllocError>
    requires { AreIntegers (kinds_of (totals_in totals.now)) }
    ensures totals { IfOk result (λ ns. totals_in ns.items
        ≡ neutral_totals op (kinds_of (totals_in totals.now))) }
    ensures integers { IfOk result (λ ns. AreIntegers (kinds_of (totals_in ns.items))) }
{
    let mut numbers = Vec::with_capacity(alloc, totals.len())?;
    for i in 0..totals.len() {
        numbers.push(neutral_number(op, totals[i].kind))?;
    }
    Ok(numbers)
}

/// The numbers as fields of a struct.
fn fields_of(alloc: Global, totals: &[Num]) -> Result<Vals, AllocError>
    ensures { IfOk result (λ vs. vs ≡ map number_in (totals_in totals.now)) }
{
    let mut fields = Vals::new(alloc);
    for i in 0..totals.len() {
        fields.push(Val::Num(totals[i]))?;
    }
    Ok(fields)
}
