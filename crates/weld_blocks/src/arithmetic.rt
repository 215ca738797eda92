//! Arithmetic and comparisons of numbers of a block: the kind and the operator are looked at once.

ghost use Rattle.std.specs.Prelude.{◌≡◌, true, false, pos};
ghost use Rattle.std.specs.List.{Contains};
ghost use Rattle.weld_data.specs.declared.kind.Kind.TheVariants as kind_names;
ghost use Rattle.weld_data.specs.declared.op.BinOp.TheVariants as op_names;
ghost use Rattle.weld_data.specs.Kind.{IsInteger};
ghost use Rattle.weld_data.specs.Operation.{TakesKind};
ghost use Rattle.weld_builders.specs.Outcome.{done};
ghost use Rattle.weld_meaning.specs.Evaluation.{operated as operated_value};
ghost use Rattle.weld_blocks.specs.Numbers.{number_at, MayGive};

use crate::numbers::Numbers;
use crate::works::{Works, worked};
use std::alloc::Global;
use weld_data::{BinOp, Kind};
use weld_eval::word_arithmetic::{
    difference, is_at_most, is_equal, is_less, number_of, product, quotient, remainder, sum,
};

/// A kind of integers that is known where a loop is compiled.
trait OfKind {
    ghost use Rattle.std.specs.Prelude.{◌≡◌};
    ghost use Rattle.weld_data.specs.declared.kind.Kind.{Kind as GhostKind};
    ghost use Rattle.weld_data.specs.Kind.{IsInteger};

    ghost named: { Self → GhostKind };

    /// The kind. It takes no memory.
    fn kind(&self) -> Kind
        ensures kind { result ≡ named self.now }
        ensures integer { IsInteger result };
}

#[derive(Clone, Copy)]
struct Wide;

impl OfKind for Wide {
    ghost named = { λ _. kind_names.I64 };

    #[inline(always)]
    fn kind(&self) -> Kind {
        Kind::I64
    }
}

#[derive(Clone, Copy)]
struct Signed32;

impl OfKind for Signed32 {
    ghost named = { λ _. kind_names.I32 };

    #[inline(always)]
    fn kind(&self) -> Kind {
        Kind::I32
    }
}

#[derive(Clone, Copy)]
struct Unsigned8;

impl OfKind for Unsigned8 {
    ghost named = { λ _. kind_names.U8 };

    #[inline(always)]
    fn kind(&self) -> Kind {
        Kind::U8
    }
}

#[derive(Clone, Copy)]
struct Signed8;

impl OfKind for Signed8 {
    ghost named = { λ _. kind_names.I8 };

    #[inline(always)]
    fn kind(&self) -> Kind {
        Kind::I8
    }
}

#[derive(Clone, Copy)]
struct Signed16;

impl OfKind for Signed16 {
    ghost named = { λ _. kind_names.I16 };

    #[inline(always)]
    fn kind(&self) -> Kind {
        Kind::I16
    }
}

#[derive(Clone, Copy)]
struct Unsigned16;

impl OfKind for Unsigned16 {
    ghost named = { λ _. kind_names.U16 };

    #[inline(always)]
    fn kind(&self) -> Kind {
        Kind::U16
    }
}

#[derive(Clone, Copy)]
struct Unsigned32;

impl OfKind for Unsigned32 {
    ghost named = { λ _. kind_names.U32 };

    #[inline(always)]
    fn kind(&self) -> Kind {
        Kind::U32
    }
}

#[derive(Clone, Copy)]
struct Unsigned64;

impl OfKind for Unsigned64 {
    ghost named = { λ _. kind_names.U64 };

    #[inline(always)]
    fn kind(&self) -> Kind {
        Kind::U64
    }
}

/// The wrapped sum.
#[derive(Clone, Copy)]
struct Sum<K> {
    kind: K,
}

impl<K: OfKind> Works for Sum<K> {
    ghost op = { λ _. op_names.Add };

    ghost kind = { λ w. K.named w.kind };

    #[inline(always)]
    fn of(&self, x: i64, y: i64) -> i64 {
        sum(self.kind.kind(), x, y)
    }
}

/// The wrapped difference.
#[derive(Clone, Copy)]
struct Difference<K> {
    kind: K,
}

impl<K: OfKind> Works for Difference<K> {
    ghost op = { λ _. op_names.Sub };

    ghost kind = { λ w. K.named w.kind };

    #[inline(always)]
    fn of(&self, x: i64, y: i64) -> i64 {
        difference(self.kind.kind(), x, y)
    }
}

/// The wrapped product.
#[derive(Clone, Copy)]
struct Product<K> {
    kind: K,
}

impl<K: OfKind> Works for Product<K> {
    ghost op = { λ _. op_names.Mul };

    ghost kind = { λ w. K.named w.kind };

    #[inline(always)]
    fn of(&self, x: i64, y: i64) -> i64 {
        product(self.kind.kind(), x, y)
    }
}

/// The wrapped quotient, truncated.
#[derive(Clone, Copy)]
struct Quotient<K> {
    kind: K,
}

impl<K: OfKind> Works for Quotient<K> {
    ghost op = { λ _. op_names.Div };

    ghost kind = { λ w. K.named w.kind };

    #[tactic(auto, using(crate::proofs::WorkLemmas::quotient_given))]
    #[inline(always)]
    fn of(&self, x: i64, y: i64) -> i64 {
        quotient(self.kind.kind(), x, y)
    }
}

/// The remainder, with the sign of the dividend.
#[derive(Clone, Copy)]
struct Remainder<K> {
    kind: K,
}

impl<K: OfKind> Works for Remainder<K> {
    ghost op = { λ _. op_names.Rem };

    ghost kind = { λ w. K.named w.kind };

    #[tactic(auto, using(crate::proofs::WorkLemmas::remainder_given))]
    #[inline(always)]
    fn of(&self, x: i64, y: i64) -> i64 {
        remainder(self.kind.kind(), x, y)
    }
}

#[derive(Clone, Copy)]
struct Equal {
    kind: Kind,
}

impl Works for Equal {
    ghost op = { λ _. op_names.Eq };

    ghost kind = { λ w. w.kind };

    #[inline(always)]
    fn of(&self, x: i64, y: i64) -> i64 {
        number_of(is_equal(self.kind, x, y))
    }
}

#[derive(Clone, Copy)]
struct Unequal {
    kind: Kind,
}

impl Works for Unequal {
    ghost op = { λ _. op_names.Ne };

    ghost kind = { λ w. w.kind };

    #[inline(always)]
    fn of(&self, x: i64, y: i64) -> i64 {
        number_of(!is_equal(self.kind, x, y))
    }
}

#[derive(Clone, Copy)]
struct Less {
    kind: Kind,
}

impl Works for Less {
    ghost op = { λ _. op_names.Lt };

    ghost kind = { λ w. w.kind };

    #[inline(always)]
    fn of(&self, x: i64, y: i64) -> i64 {
        number_of(is_less(self.kind, x, y))
    }
}

#[derive(Clone, Copy)]
struct AtMost {
    kind: Kind,
}

impl Works for AtMost {
    ghost op = { λ _. op_names.Le };

    ghost kind = { λ w. w.kind };

    #[inline(always)]
    fn of(&self, x: i64, y: i64) -> i64 {
        number_of(is_at_most(self.kind, x, y))
    }
}

#[derive(Clone, Copy)]
struct Greater {
    kind: Kind,
}

impl Works for Greater {
    ghost op = { λ _. op_names.Gt };

    ghost kind = { λ w. w.kind };

    #[inline(always)]
    fn of(&self, x: i64, y: i64) -> i64 {
        number_of(is_less(self.kind, y, x))
    }
}

#[derive(Clone, Copy)]
struct AtLeast {
    kind: Kind,
}

impl Works for AtLeast {
    ghost op = { λ _. op_names.Ge };

    ghost kind = { λ w. w.kind };

    #[inline(always)]
    fn of(&self, x: i64, y: i64) -> i64 {
        number_of(is_at_most(self.kind, y, x))
    }
}

/// The numbers that `+`, `-`, `*`, `/` or `%` makes of numbers of one kind of integers. There are none
/// for other operators and kinds, nor where it divides by 0.
pub(crate) fn arithmetic(
    op: BinOp,
    left: &Numbers,
    right: &Numbers,
    count: usize,
    alloc: Global,
) -> Option<Numbers>
    requires { left.now.kind ≡ right.now.kind }
    ensures { MayGive (λ place v. operated_value op (number_at left.now place)
        (number_at right.now place) ≡ done v) result count }
{
    match left.kind {
        Kind::Bool => None,
        Kind::I8 => arithmetic_of(op, Signed8, left, right, count, alloc),
        Kind::I16 => arithmetic_of(op, Signed16, left, right, count, alloc),
        Kind::I32 => arithmetic_of(op, Signed32, left, right, count, alloc),
        Kind::I64 => arithmetic_of(op, Wide, left, right, count, alloc),
        Kind::U8 => arithmetic_of(op, Unsigned8, left, right, count, alloc),
        Kind::U16 => arithmetic_of(op, Unsigned16, left, right, count, alloc),
        Kind::U32 => arithmetic_of(op, Unsigned32, left, right, count, alloc),
        Kind::U64 => arithmetic_of(op, Unsigned64, left, right, count, alloc),
    }
}

/// The same at a kind that is known where it is compiled.
fn arithmetic_of<K: OfKind + Drop>(
    op: BinOp,
    of: K,
    left: &Numbers,
    right: &Numbers,
    count: usize,
    alloc: Global,
) -> Option<Numbers>
    requires same { left.now.kind ≡ right.now.kind }
    requires kind { left.now.kind ≡ K.named of }
    ensures { MayGive (λ place v. operated_value op (number_at left.now place)
        (number_at right.now place) ≡ done v) result count }
{
    let kind = of.kind();
    match op {
        BinOp::Add => worked(&Sum { kind: of }, kind, left, right, count, alloc),
        BinOp::Sub => worked(&Difference { kind: of }, kind, left, right, count, alloc),
        BinOp::Mul => worked(&Product { kind: of }, kind, left, right, count, alloc),
        _ => divided(op, of, left, right, count, alloc),
    }
}

/// The same of `/` and `%`, where no number on the right is 0. There are none for other operators.
fn divided<K: OfKind + Drop>(
    op: BinOp,
    of: K,
    left: &Numbers,
    right: &Numbers,
    count: usize,
    alloc: Global,
) -> Option<Numbers>
    requires same { left.now.kind ≡ right.now.kind }
    requires kind { left.now.kind ≡ K.named of }
    ensures { MayGive (λ place v. operated_value op (number_at left.now place)
        (number_at right.now place) ≡ done v) result count }
{
    if has_zero(&right.items) {
        return None;
    }
    let kind = of.kind();
    match op {
        BinOp::Div => worked(&Quotient { kind: of }, kind, left, right, count, alloc),
        BinOp::Rem => worked(&Remainder { kind: of }, kind, left, right, count, alloc),
        _ => None,
    }
}

/// Whether one of the words is 0, which stands for the number 0 of each kind.
fn has_zero(words: &[i64]) -> bool
    ensures { result ≡ false → Contains words.now (pos 0) → ⊥ }
{
    words.contains(&0)
}

/// The truth values of a comparison of numbers of one kind that it takes. There are none for other
/// operators.
pub(crate) fn compared(
    op: BinOp,
    left: &Numbers,
    right: &Numbers,
    count: usize,
    alloc: Global,
) -> Option<Numbers>
    requires same { left.now.kind ≡ right.now.kind }
    requires takes { TakesKind op left.now.kind }
    ensures { MayGive (λ place v. operated_value op (number_at left.now place)
        (number_at right.now place) ≡ done v) result count }
{
    let kind = left.kind;
    let truths = Kind::Bool;
    match op {
        BinOp::Eq => worked(&Equal { kind }, truths, left, right, count, alloc),
        BinOp::Ne => worked(&Unequal { kind }, truths, left, right, count, alloc),
        BinOp::Lt => worked(&Less { kind }, truths, left, right, count, alloc),
        BinOp::Le => worked(&AtMost { kind }, truths, left, right, count, alloc),
        BinOp::Gt => worked(&Greater { kind }, truths, left, right, count, alloc),
        BinOp::Ge => worked(&AtLeast { kind }, truths, left, right, count, alloc),
        _ => None,
    }
}
