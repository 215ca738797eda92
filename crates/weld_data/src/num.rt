ghost use Rattle.weld_data.specs.Kind.{InRange};

use crate::kind::Kind;

/// A number of a program with its kind. It lies in the kind's range; false is 0 and true is 1.
#[derive(Clone, Copy, Debug, PartialEq, Eq)]
pub struct Num {
    pub kind: Kind,
    pub value: i128,
    ghost in_range: { InRange kind value },
}

impl Num {
    ghost use Rattle.std.specs.Prelude.{◌≡◌, pos};
    ghost use Rattle.weld_data.specs.Operation.{truth};
    ghost use Rattle.weld_data.specs.declared.kind.Kind.TheVariants as kinds;

    /// The number of a truth value.
    pub fn of_bool(x: bool) -> Num
        ensures kind { result.kind ≡ kinds.Bool }
        ensures value { result.value ≡ truth x }
    {
        Num {
            kind: Kind::Bool,
            value: if x { 1 } else { 0 },
        }
    }

    /// The number of kind i8.
    pub fn of_i8(x: i8) -> Num
        ensures kind { result.kind ≡ kinds.I8 }
        ensures value { result.value ≡ x }
    {
        Num {
            kind: Kind::I8,
            value: i128::from(x),
        }
    }

    /// The number of kind i16.
    pub fn of_i16(x: i16) -> Num
        ensures kind { result.kind ≡ kinds.I16 }
        ensures value { result.value ≡ x }
    {
        Num {
            kind: Kind::I16,
            value: i128::from(x),
        }
    }

    /// The number of kind i32.
    pub fn of_i32(x: i32) -> Num
        ensures kind { result.kind ≡ kinds.I32 }
        ensures value { result.value ≡ x }
    {
        Num {
            kind: Kind::I32,
            value: i128::from(x),
        }
    }

    /// The number of kind i64.
    pub fn of_i64(x: i64) -> Num
        ensures kind { result.kind ≡ kinds.I64 }
        ensures value { result.value ≡ x }
    {
        Num {
            kind: Kind::I64,
            value: i128::from(x),
        }
    }

    /// The number of kind u8.
    pub fn of_u8(x: u8) -> Num
        ensures kind { result.kind ≡ kinds.U8 }
        ensures value { result.value ≡ pos x }
    {
        Num {
            kind: Kind::U8,
            value: i128::from(x),
        }
    }

    /// The number of kind u16.
    pub fn of_u16(x: u16) -> Num
        ensures kind { result.kind ≡ kinds.U16 }
        ensures value { result.value ≡ pos x }
    {
        Num {
            kind: Kind::U16,
            value: i128::from(x),
        }
    }

    /// The number of kind u32.
    pub fn of_u32(x: u32) -> Num
        ensures kind { result.kind ≡ kinds.U32 }
        ensures value { result.value ≡ pos x }
    {
        Num {
            kind: Kind::U32,
            value: i128::from(x),
        }
    }

    /// The number of kind u64.
    pub fn of_u64(x: u64) -> Num
        ensures kind { result.kind ≡ kinds.U64 }
        ensures value { result.value ≡ pos x }
    {
        Num {
            kind: Kind::U64,
            value: i128::from(x),
        }
    }
}
