//! The numbers that go side by side: those of five kinds, each in its own width.

ghost use Rattle.std.specs.Prelude.{pos};
ghost use Rattle.weld_data.specs.declared.kind.Kind.TheVariants as kinds;

/// A number of one kind, kept in the width of its kind.
pub trait Lane: Copy {
    ghost use Rattle.std.specs.Prelude.{◌≡◌, ℤ, pos, ◌+ℤ◌, ◌-ℤ◌, ◌*ℤ◌, int_lt, int_le};
    ghost use Rattle.std.specs.Ordering.{int_eq};
    ghost use Rattle.weld_data.specs.declared.kind.Kind.{Kind as GhostKind};
    ghost use Rattle.weld_data.specs.Kind.{InRange};
    ghost use Rattle.weld_data.specs.Operation.{truth};
    ghost use Rattle.weld_data.specs.Wrapped.{wrapped};

    // The kind, and the number that is kept.
    ghost kind: { GhostKind };

    ghost number: { Self → ℤ };

    /// The number. It takes no memory.
    fn to_wide(self) -> i128
        ensures { result ≡ number self };

    /// The number of the kind, which lies in its range. It takes no memory.
    fn from_wide(x: i128) -> Self
        requires { InRange kind x }
        ensures { number result ≡ x };

    /// 1 for true, 0 for false. It takes no memory.
    fn of_truth(test: bool) -> Self
        ensures { number result ≡ truth test };

    /// The wrapped sum. It takes no memory.
    fn sum(self, other: Self) -> Self
        ensures { number result ≡ wrapped kind (number self +ℤ number other) };

    /// The wrapped difference. It takes no memory.
    fn difference(self, other: Self) -> Self
        ensures { number result ≡ wrapped kind (number self -ℤ number other) };

    /// The wrapped product. It takes no memory.
    fn product(self, other: Self) -> Self
        ensures { number result ≡ wrapped kind (number self *ℤ number other) };

    /// Whether the numbers are the same. It takes no memory.
    fn is_equal(self, other: Self) -> bool
        ensures { result ≡ int_eq (number self) (number other) };

    /// Whether the number is less than the other one. It takes no memory.
    fn is_less(self, other: Self) -> bool
        ensures { result ≡ int_lt (number self) (number other) };

    /// Whether the number is at most the other one. It takes no memory.
    fn is_at_most(self, other: Self) -> bool
        ensures { result ≡ int_le (number self) (number other) };

    /// Whether the number stands for true. It takes no memory.
    fn is_true(self) -> bool
        ensures { result ≡ int_eq (number self) (pos 1) };
}

impl Lane for i32 {
    ghost kind = { kinds.I32 };

    ghost number = { λ x. x };

    #[inline(always)]
    fn to_wide(self) -> i128 {
        i128::from(self)
    }

    #[inline(always)]
    fn from_wide(x: i128) -> i32 {
        x as i32
    }

    #[inline(always)]
    fn of_truth(test: bool) -> i32 {
        if test { 1 } else { 0 }
    }

    #[inline(always)]
    fn sum(self, other: i32) -> i32 {
        self.wrapping_add(other)
    }

    #[inline(always)]
    fn difference(self, other: i32) -> i32 {
        self.wrapping_sub(other)
    }

    #[inline(always)]
    fn product(self, other: i32) -> i32 {
        self.wrapping_mul(other)
    }

    #[inline(always)]
    fn is_equal(self, other: i32) -> bool {
        self == other
    }

    #[inline(always)]
    fn is_less(self, other: i32) -> bool {
        self < other
    }

    #[inline(always)]
    fn is_at_most(self, other: i32) -> bool {
        self <= other
    }

    #[inline(always)]
    fn is_true(self) -> bool {
        self == 1
    }
}

impl Lane for i64 {
    ghost kind = { kinds.I64 };

    ghost number = { λ x. x };

    #[inline(always)]
    fn to_wide(self) -> i128 {
        i128::from(self)
    }

    #[inline(always)]
    fn from_wide(x: i128) -> i64 {
        x as i64
    }

    #[inline(always)]
    fn of_truth(test: bool) -> i64 {
        if test { 1 } else { 0 }
    }

    #[inline(always)]
    fn sum(self, other: i64) -> i64 {
        self.wrapping_add(other)
    }

    #[inline(always)]
    fn difference(self, other: i64) -> i64 {
        self.wrapping_sub(other)
    }

    #[inline(always)]
    fn product(self, other: i64) -> i64 {
        self.wrapping_mul(other)
    }

    #[inline(always)]
    fn is_equal(self, other: i64) -> bool {
        self == other
    }

    #[inline(always)]
    fn is_less(self, other: i64) -> bool {
        self < other
    }

    #[inline(always)]
    fn is_at_most(self, other: i64) -> bool {
        self <= other
    }

    #[inline(always)]
    fn is_true(self) -> bool {
        self == 1
    }
}

impl Lane for u8 {
    ghost kind = { kinds.U8 };

    ghost number = { pos };

    #[inline(always)]
    fn to_wide(self) -> i128 {
        i128::from(self)
    }

    #[inline(always)]
    fn from_wide(x: i128) -> u8 {
        x as u8
    }

    #[inline(always)]
    fn of_truth(test: bool) -> u8 {
        if test { 1 } else { 0 }
    }

    #[inline(always)]
    fn sum(self, other: u8) -> u8 {
        self.wrapping_add(other)
    }

    #[inline(always)]
    fn difference(self, other: u8) -> u8 {
        self.wrapping_sub(other)
    }

    #[inline(always)]
    fn product(self, other: u8) -> u8 {
        self.wrapping_mul(other)
    }

    #[inline(always)]
    fn is_equal(self, other: u8) -> bool {
        self == other
    }

    #[inline(always)]
    fn is_less(self, other: u8) -> bool {
        self < other
    }

    #[inline(always)]
    fn is_at_most(self, other: u8) -> bool {
        self <= other
    }

    #[inline(always)]
    fn is_true(self) -> bool {
        self == 1
    }
}

impl Lane for u32 {
    ghost kind = { kinds.U32 };

    ghost number = { pos };

    #[inline(always)]
    fn to_wide(self) -> i128 {
        i128::from(self)
    }

    #[inline(always)]
    fn from_wide(x: i128) -> u32 {
        x as u32
    }

    #[inline(always)]
    fn of_truth(test: bool) -> u32 {
        if test { 1 } else { 0 }
    }

    #[inline(always)]
    fn sum(self, other: u32) -> u32 {
        self.wrapping_add(other)
    }

    #[inline(always)]
    fn difference(self, other: u32) -> u32 {
        self.wrapping_sub(other)
    }

    #[inline(always)]
    fn product(self, other: u32) -> u32 {
        self.wrapping_mul(other)
    }

    #[inline(always)]
    fn is_equal(self, other: u32) -> bool {
        self == other
    }

    #[inline(always)]
    fn is_less(self, other: u32) -> bool {
        self < other
    }

    #[inline(always)]
    fn is_at_most(self, other: u32) -> bool {
        self <= other
    }

    #[inline(always)]
    fn is_true(self) -> bool {
        self == 1
    }
}

impl Lane for u64 {
    ghost kind = { kinds.U64 };

    ghost number = { pos };

    #[inline(always)]
    fn to_wide(self) -> i128 {
        i128::from(self)
    }

    #[inline(always)]
    fn from_wide(x: i128) -> u64 {
        x as u64
    }

    #[inline(always)]
    fn of_truth(test: bool) -> u64 {
        if test { 1 } else { 0 }
    }

    #[inline(always)]
    fn sum(self, other: u64) -> u64 {
        self.wrapping_add(other)
    }

    #[inline(always)]
    fn difference(self, other: u64) -> u64 {
        self.wrapping_sub(other)
    }

    #[inline(always)]
    fn product(self, other: u64) -> u64 {
        self.wrapping_mul(other)
    }

    #[inline(always)]
    fn is_equal(self, other: u64) -> bool {
        self == other
    }

    #[inline(always)]
    fn is_less(self, other: u64) -> bool {
        self < other
    }

    #[inline(always)]
    fn is_at_most(self, other: u64) -> bool {
        self <= other
    }

    #[inline(always)]
    fn is_true(self) -> bool {
        self == 1
    }
}
