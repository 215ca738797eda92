//! Scalars, each written as its kind is.

ghost use Rattle.std.specs.Prelude.{◌≡◌, ◌++◌, pos, ℕ, OnOk};
ghost use Rattle.weld_data.specs.Value.{Value, number};
ghost use Rattle.weld_data.specs.Operation.{truth};
ghost use Rattle.weld_data.specs.declared.kind.Kind.TheVariants as kinds;
ghost use Rattle.weld_write_value.specs.Showing.{shown_scalar};

use itoa::Buffer;
use std::alloc::AllocError;
use weld_data::Text;

/// A scalar of one kind, as an array of that kind keeps it.
pub(crate) trait Cell: Copy + Drop {
    ghost value: { Self → Value };

    /// Appends the scalar's text.
    fn write(self, out: &mut Text) -> Result<(), AllocError>
        ensures { OnOk result (out.new ≡ out.old ++ shown_scalar (value self)) };
}

impl Cell for bool {
    ghost use Rattle.std.specs.Prelude.{Bool};

    ghost value = { λ (b : Bool). number kinds.Bool (truth b) };

    fn write(self, out: &mut Text) -> Result<(), AllocError> {
        if self {
            out.push_all(b"true")
        } else {
            out.push_all(b"false")
        }
    }
}

impl Cell for i8 {
    ghost value = { number kinds.I8 };

    fn write(self, out: &mut Text) -> Result<(), AllocError> {
        out.push_all(Buffer::new().format(i64::from(self)).as_bytes())
    }
}

impl Cell for i16 {
    ghost value = { number kinds.I16 };

    fn write(self, out: &mut Text) -> Result<(), AllocError> {
        out.push_all(Buffer::new().format(i64::from(self)).as_bytes())
    }
}

impl Cell for i32 {
    ghost value = { number kinds.I32 };

    fn write(self, out: &mut Text) -> Result<(), AllocError> {
        out.push_all(Buffer::new().format(i64::from(self)).as_bytes())
    }
}

impl Cell for i64 {
    ghost value = { number kinds.I64 };

    fn write(self, out: &mut Text) -> Result<(), AllocError> {
        out.push_all(Buffer::new().format(i64::from(self)).as_bytes())
    }
}

impl Cell for u8 {
    ghost value = { λ (n : ℕ). number kinds.U8 (pos n) };

    fn write(self, out: &mut Text) -> Result<(), AllocError> {
        out.push_all(Buffer::new().format(u64::from(self)).as_bytes())
    }
}

impl Cell for u16 {
    ghost value = { λ (n : ℕ). number kinds.U16 (pos n) };

    fn write(self, out: &mut Text) -> Result<(), AllocError> {
        out.push_all(Buffer::new().format(u64::from(self)).as_bytes())
    }
}

impl Cell for u32 {
    ghost value = { λ (n : ℕ). number kinds.U32 (pos n) };

    fn write(self, out: &mut Text) -> Result<(), AllocError> {
        out.push_all(Buffer::new().format(u64::from(self)).as_bytes())
    }
}

impl Cell for u64 {
    ghost value = { λ (n : ℕ). number kinds.U64 (pos n) };

    fn write(self, out: &mut Text) -> Result<(), AllocError> {
        out.push_all(Buffer::new().format(self).as_bytes())
    }
}
