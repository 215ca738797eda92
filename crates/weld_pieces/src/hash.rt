//! Keys as words of 64 bits, so that equal keys have one word, however their lists are kept.

ghost use Rattle.std.specs.Prelude.{◌≡◌, map};
ghost use Rattle.weld_data.specs.Kind.{InRange};
ghost use Rattle.weld_data.specs.Value.{number, values};
ghost use Rattle.weld_data.specs.declared.kind.Kind.TheVariants as kinds;
ghost use Rattle.weld_data.specs.View.{view_val, view_column};
ghost use Rattle.weld_data.specs.Order.{IsKey, IsKeyField, HaveOneKind, AreKeyFields};
ghost use Rattle.weld_pieces.specs.KeyHash.{own_word, mixed, mixed_value, mixed_values, key_word};

use crate::number::combine_i64;
use weld_data::{Column, Kind, MergeOp, Num, Val, Vals};

/// The word of a key. It takes no memory.
pub(crate) fn word_of(key: &Val) -> i64
    requires { IsKey (view_val key.now) }
    ensures { result ≡ key_word (view_val key.now) }
{
    match key {
        Val::Num(n) => mix_number(1, *n),
        Val::List(items) => mix_column(1, items),
        Val::Struct(fields) => mix_fields(1, fields),
        Val::Dict(_) => unreachable!(),
    }
}

/// A word with one more mixed in.
#[inline(always)]
fn mix(word: i64, x: i64) -> i64
    ensures { result ≡ mixed word x }
{
    let spread = combine_i64(MergeOp::Mul, word, 6_364_136_223_846_793_005);
    combine_i64(MergeOp::Add, spread, x)
}

/// The same of a number of any kind.
fn mix_number(word: i64, n: Num) -> i64
    ensures { result ≡ mixed_value word (number n.kind n.value) }
{
    mix(word, number_word(n))
}

/// The word of a number.
fn number_word(n: Num) -> i64
    ensures { result ≡ own_word n.kind n.value }
{
    match n.kind {
        Kind::U64 => (n.value - (1 << 63)) as i64,
        _ => n.value as i64,
    }
}

/// The same of the numbers of a list.
fn mix_column(word: i64, column: &Column) -> i64
    requires { HaveOneKind (values (view_column column.now)) }
    ensures { result ≡ mixed_values word (values (view_column column.now)) }
{
    match column {
        Column::I8(items) => mix_i8s(word, items.as_slice()),
        _ => mix_elements(word, column),
    }
}

/// The same of numbers of kind i8, as texts are.
fn mix_i8s(word: i64, items: &[i8]) -> i64
    ensures { result ≡ mixed_values word (values (map (number kinds.I8) items.now)) }
{
    let mut word = word;
    for x in items {
        word = mix(word, i64::from(*x));
    }
    word
}

/// The same of numbers that are kept in any way.
fn mix_elements(word: i64, column: &Column) -> i64
    requires { HaveOneKind (values (view_column column.now)) }
    ensures { result ≡ mixed_values word (values (view_column column.now)) }
{
    let mut word = word;
    for i in 0..column.len() {
        word = mix_number(word, column.number_at(i));
    }
    word
}

/// The same of the fields of a struct.
fn mix_fields(word: i64, fields: &Vals) -> i64
    requires { AreKeyFields (values fields.now) }
    ensures { result ≡ mixed_values word (values fields.now) }
{
    let mut word = word;
    for i in 0..fields.len() {
        word = mix_field(word, fields.at(i));
    }
    word
}

/// The same of one field.
fn mix_field(word: i64, field: &Val) -> i64
    requires { IsKeyField (view_val field.now) }
    ensures { result ≡ mixed_value word (view_val field.now) }
{
    match field {
        Val::Num(n) => mix_number(word, *n),
        Val::List(items) => mix_column(word, items),
        _ => unreachable!(),
    }
}
