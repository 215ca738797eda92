//! Scalars, each with a comma before it.

ghost use Rattle.std.specs.Prelude.{◌≡◌, ◌<◌, ◌≤◌, ◌+◌, ◌++◌, ◌∷◌, pos, ℕ, length, drop};
ghost use Rattle.std.specs.Fmt.{signed_decimal};
ghost use Rattle.weld_data.specs.Value.{Value, number};
ghost use Rattle.weld_data.specs.Operation.{truth};
ghost use Rattle.weld_data.specs.declared.kind.Kind.TheVariants as kinds;
ghost use Rattle.weld_write_value.specs.Showing.{shown_scalar};

use itoa::write_digits;

/// The most bytes that a comma and a scalar have.
pub(crate) const LONGEST: usize = 21;

/// A scalar of one kind, as an array of that kind keeps it.
pub(crate) trait Cell: Copy + Drop {
    ghost value: { Self → Value };

    /// Writes a comma and the scalar's text so that they end at this place, and answers where they begin.
    fn write_before(self, bytes: &mut [u8], end: usize) -> usize
        requires room { (21 ≤ end) × (end ≤ length bytes.old) }
        ensures begin { (result < end) × (end ≤ result + 21) }
        ensures written { drop result bytes.new ≡ 44 ∷ shown_scalar (value self)
            ++ drop end bytes.old };
}

/// Writes a byte right before this place, and answers where it stands.
fn put_before(byte: u8, bytes: &mut [u8], end: usize) -> usize
    requires room { (0 < end) × (end ≤ length bytes.old) }
    ensures begin { result + 1 ≡ end }
    ensures written { drop result bytes.new ≡ byte ∷ drop end bytes.old }
{
    bytes[end - 1] = byte;
    end - 1
}

/// Writes a comma and the number.
fn put_number(number: i64, bytes: &mut [u8], end: usize) -> usize
    requires room { (21 ≤ end) × (end ≤ length bytes.old) }
    ensures begin { (result < end) × (end ≤ result + 21) }
    ensures written { drop result bytes.new ≡ 44 ∷ signed_decimal number ++ drop end bytes.old }
{
    let digits = write_digits(number.unsigned_abs(), bytes, end);
    if number < 0 {
        let minus = put_before(b'-', bytes, digits);
        return put_before(b',', bytes, minus);
    }
    put_before(b',', bytes, digits)
}

/// Writes a comma and the number, which has no sign.
fn put_natural(number: u64, bytes: &mut [u8], end: usize) -> usize
    requires room { (21 ≤ end) × (end ≤ length bytes.old) }
    ensures begin { (result < end) × (end ≤ result + 21) }
    ensures written { drop result bytes.new ≡ 44 ∷ signed_decimal (pos number)
        ++ drop end bytes.old }
{
    let digits = write_digits(number, bytes, end);
    put_before(b',', bytes, digits)
}

/// Writes a comma and `true`.
fn put_true(bytes: &mut [u8], end: usize) -> usize
    requires room { (21 ≤ end) × (end ≤ length bytes.old) }
    ensures begin { (result < end) × (end ≤ result + 21) }
    ensures written { drop result bytes.new ≡ 44 ∷ 116 ∷ 114 ∷ 117 ∷ 101 ∷ drop end bytes.old }
{
    let e = put_before(b'e', bytes, end);
    let u = put_before(b'u', bytes, e);
    let r = put_before(b'r', bytes, u);
    let t = put_before(b't', bytes, r);
    put_before(b',', bytes, t)
}

/// Writes a comma and `false`.
fn put_false(bytes: &mut [u8], end: usize) -> usize
    requires room { (21 ≤ end) × (end ≤ length bytes.old) }
    ensures begin { (result < end) × (end ≤ result + 21) }
    ensures written { drop result bytes.new ≡ 44 ∷ 102 ∷ 97 ∷ 108 ∷ 115 ∷ 101 ∷ drop end bytes.old }
{
    let e = put_before(b'e', bytes, end);
    let s = put_before(b's', bytes, e);
    let l = put_before(b'l', bytes, s);
    let a = put_before(b'a', bytes, l);
    let f = put_before(b'f', bytes, a);
    put_before(b',', bytes, f)
}

impl Cell for bool {
    ghost use Rattle.std.specs.Prelude.{Bool};

    ghost value = { λ (b : Bool). number kinds.Bool (truth b) };

    fn write_before(self, bytes: &mut [u8], end: usize) -> usize {
        if self {
            put_true(bytes, end)
        } else {
            put_false(bytes, end)
        }
    }
}

impl Cell for i16 {
    ghost value = { number kinds.I16 };

    fn write_before(self, bytes: &mut [u8], end: usize) -> usize {
        put_number(i64::from(self), bytes, end)
    }
}

impl Cell for i32 {
    ghost value = { number kinds.I32 };

    fn write_before(self, bytes: &mut [u8], end: usize) -> usize {
        put_number(i64::from(self), bytes, end)
    }
}

impl Cell for i64 {
    ghost value = { number kinds.I64 };

    fn write_before(self, bytes: &mut [u8], end: usize) -> usize {
        put_number(self, bytes, end)
    }
}

impl Cell for u8 {
    ghost value = { λ (n : ℕ). number kinds.U8 (pos n) };

    fn write_before(self, bytes: &mut [u8], end: usize) -> usize {
        put_natural(u64::from(self), bytes, end)
    }
}

impl Cell for u16 {
    ghost value = { λ (n : ℕ). number kinds.U16 (pos n) };

    fn write_before(self, bytes: &mut [u8], end: usize) -> usize {
        put_natural(u64::from(self), bytes, end)
    }
}

impl Cell for u32 {
    ghost value = { λ (n : ℕ). number kinds.U32 (pos n) };

    fn write_before(self, bytes: &mut [u8], end: usize) -> usize {
        put_natural(u64::from(self), bytes, end)
    }
}

impl Cell for u64 {
    ghost value = { λ (n : ℕ). number kinds.U64 (pos n) };

    fn write_before(self, bytes: &mut [u8], end: usize) -> usize {
        put_natural(self, bytes, end)
    }
}
