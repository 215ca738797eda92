use crate::number::{combine_all, combine_wide, narrow};
use crate::part::Part;
use std::alloc::{AllocError, Global};
use std::marker::Model;
use weld_data::{Kind, MergeOp, Num, Stop, neutral};

/// The operator and the integer kind of a total.
#[derive(Clone, Copy, Debug, PartialEq, Eq)]
pub struct TotalShape {
    pub op: MergeOp,
    pub kind: Kind,
}

/// One number of an integer kind, combined by an operator.
#[derive(Debug, Drop)]
pub struct TotalPart {
    op: MergeOp,
    kind: Kind,
    value: i128,
}

impl Model for TotalPart {
    ghost use Rattle.weld_pieces.specs.Total.{Total, IsTotal};

    ghost Value = { Total };

    ghost view = { λ t. record { op = t.op; kind = t.kind; value = t.value } };

    ghost invariant = { λ t. IsTotal t.kind t.value };
}

impl TotalPart {
    ghost use Rattle.std.specs.Prelude.{◌≡◌};
    ghost use Rattle.weld_data.specs.Kind.{IsInteger, IsNarrow, InRange};
    ghost use Rattle.weld_data.specs.Operation.{combination, start_of};
    ghost use Rattle.weld_builders.specs.Range.{AllInRange};
    ghost use Rattle.weld_pieces.specs.Total.{Total, part_of_total, combined_all};

    /// The total of no numbers: the neutral number of the operator. It takes no memory.
    pub fn neutral(op: MergeOp, kind: Kind) -> TotalPart
        requires { IsInteger kind }
        ensures op { result.op ≡ op }
        ensures kind { result.kind ≡ kind }
        ensures value { result.value ≡ start_of op kind }
    {
        let value = neutral(op, kind);
        TotalPart { op, kind, value }
    }

    /// The total that starts with a number of an integer kind. It takes no memory.
    pub fn from_number(op: MergeOp, kind: Kind, value: i128) -> TotalPart
        requires integer { IsInteger kind }
        requires in_range { InRange kind value }
        ensures op { result.op ≡ op }
        ensures kind { result.kind ≡ kind }
        ensures value { result.value ≡ value }
    {
        TotalPart { op, kind, value }
    }

    /// Merges a number of the total's kind that lies within an i64. It takes no memory.
    #[inline(always)]
    pub fn merge_number(&mut self, x: i64)
        requires { InRange self.old.kind x }
        ensures op { self.new.op ≡ self.old.op }
        ensures kind { self.new.kind ≡ self.old.kind }
        ensures value { self.new.value ≡ combination self.old.op self.old.kind self.old.value x }
    {
        self.value = combine_wide(self.op, self.kind, self.value, i128::from(x));
    }

    /// Merges a number of the total's kind. It takes no memory.
    #[inline(always)]
    pub fn merge_wide(&mut self, x: i128)
        requires { InRange self.old.kind x }
        ensures op { self.new.op ≡ self.old.op }
        ensures kind { self.new.kind ≡ self.old.kind }
        ensures value { self.new.value ≡ combination self.old.op self.old.kind self.old.value x }
    {
        self.value = combine_wide(self.op, self.kind, self.value, x);
    }

    /// Merges numbers of the total's kind, the first one first. It takes no memory.
    pub fn merge_numbers(&mut self, items: &[i64])
        requires narrow { IsNarrow self.old.kind }
        requires in_range { AllInRange self.old.kind items.now }
        ensures op { self.new.op ≡ self.old.op }
        ensures kind { self.new.kind ≡ self.old.kind }
        ensures value { self.new.value ≡ combined_all self.old.op self.old.kind self.old.value
            items.now }
    {
        let before = narrow(self.kind, self.value);
        self.value = i128::from(combine_all(self.op, self.kind, before, items));
    }

    /// Appends what a later total of the same operator and kind has merged. It takes no memory.
    pub fn append(&mut self, later: &TotalPart)
        requires kind { self.old.kind ≡ later.now.kind }
        ensures op { self.new.op ≡ self.old.op }
        ensures kind { self.new.kind ≡ self.old.kind }
        ensures value { self.new.value ≡ combination self.old.op self.old.kind self.old.value
            later.now.value }
    {
        self.value = combine_wide(self.op, self.kind, self.value, later.value);
    }

    /// The operator. It takes no memory.
    pub fn op(&self) -> MergeOp
        ensures { result ≡ self.now.op }
    {
        self.op
    }

    /// The number. It takes no memory.
    pub fn number(&self) -> Num
        ensures kind { result.kind ≡ self.now.kind }
        ensures value { result.value ≡ self.now.value }
        ensures integer { IsInteger self.now.kind }
    {
        Num {
            kind: self.kind,
            value: self.value,
        }
    }
}

impl Part for TotalPart {
    ghost use Rattle.std.specs.Prelude.{refl};
    ghost use Rattle.weld_data.specs.Kind.{IsInteger};
    ghost use Rattle.weld_data.specs.Value.{number};
    ghost use Rattle.weld_builders.specs.Builder.{one_part, item};
    ghost use Rattle.weld_pieces.specs.Total.{part_of_total};
    ghost use Rattle.weld_pieces.specs.Kept.{kept_total};

    type Shape = TotalShape;

    type Item = Num;

    type Out = Num;

    ghost builder = { λ t. one_part (part_of_total t) };

    ghost kept = { λ t. kept_total t.op t.kind };

    ghost kept_from = { λ s. kept_total s.op s.kind };

    ghost is_shape = { λ s. IsInteger s.kind };

    ghost as_item = { λ n. item (number n.kind n.value) };

    ghost out = { λ n. number n.kind n.value };

    ghost spare = { λ _. 0 };

    ghost finishes = { λ _. Unit {0} };

    fn start(_alloc: Global, shape: &TotalShape) -> Result<TotalPart, AllocError> {
        Ok(TotalPart::neutral(shape.op, shape.kind))
    }

    fn merge(&mut self, item: Num) -> Result<(), Stop> {
        self.merge_wide(item.value);
        Ok(())
    }

    fn join(&mut self, later: TotalPart) -> Result<(), AllocError> {
        self.append(&later);
        Ok(())
    }

    fn finish(self, _alloc: Global) -> Result<Num, AllocError> {
        Ok(self.number())
    }

    ghost bare_is = { λ t. refl };
}
