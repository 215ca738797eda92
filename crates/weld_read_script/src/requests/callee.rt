//! Calls by their words.
ghost use Rattle.std.specs.Prelude.{◌≡◌};
ghost use Rattle.std.specs.Str.{bytes_eq};
ghost use Rattle.weld_read_script.specs.Callees as plain;

use weld_calls::Call;
use weld_data::BinOp;

/// What a call's words name: a call that is fixed by them, or one of those three that an argument decides.
#[derive(Clone, Copy, Debug, PartialEq, Eq)]
pub enum Callee {
    /// A call that takes objects alone.
    Fixed(Call),
    /// `columns.column`, whose second argument names the column.
    Column,
    /// `columns.compare`, whose second argument is a comparison.
    Compare,
    /// `columns.arith`, whose second argument is an operator of arithmetic.
    Arith,
}

/// The calls of the library of vectors.
static VECTOR_CALLS: [Callee; 13] = [
    Callee::Fixed(Call::Add),
    Callee::Fixed(Call::Sub),
    Callee::Fixed(Call::Mul),
    Callee::Fixed(Call::Scale),
    Callee::Fixed(Call::Where),
    Callee::Fixed(Call::Dot),
    Callee::Fixed(Call::Sum),
    Callee::Fixed(Call::Min),
    Callee::Fixed(Call::Max),
    Callee::Fixed(Call::Slice),
    Callee::Fixed(Call::Take),
    Callee::Fixed(Call::Histogram),
    Callee::Fixed(Call::RowsDot),
];

/// The calls of the library of columns.
static COLUMN_CALLS: [Callee; 11] = [
    Callee::Column,
    Callee::Fixed(Call::Filter),
    Callee::Compare,
    Callee::Arith,
    Callee::Fixed(Call::Sum),
    Callee::Fixed(Call::Min),
    Callee::Fixed(Call::Max),
    Callee::Fixed(Call::Count),
    Callee::Fixed(Call::GroupSum),
    Callee::Fixed(Call::GroupList),
    Callee::Fixed(Call::GroupCount),
];

/// The word of a call.
fn call_text(call: Call) -> &'static str
    ensures { result.now ≡ plain.call_text call }
{
    match call {
        Call::Add => "add",
        Call::Sub => "sub",
        Call::Mul => "mul",
        Call::Scale => "scale",
        Call::Where => "where_",
        Call::Dot => "dot",
        Call::Sum => "sum",
        Call::Min => "min",
        Call::Max => "max",
        Call::Slice => "slice",
        Call::Take => "take",
        Call::Histogram => "histogram",
        Call::RowsDot => "rows_dot",
        Call::Column(_) => "column",
        Call::Filter => "filter",
        Call::Compare(_) => "compare",
        Call::Arith(_) => "arith",
        Call::Count => "count",
        Call::GroupSum => "group_sum",
        Call::GroupList => "group_list",
        Call::GroupCount => "group_count",
    }
}

fn callee_text(callee: Callee) -> &'static str
    ensures { result.now ≡ plain.callee_text callee }
{
    match callee {
        Callee::Fixed(call) => call_text(call),
        Callee::Column => "column",
        Callee::Compare => "compare",
        Callee::Arith => "arith",
    }
}

/// The one of these calls that is written so.
fn named_among(word: &[u8], callees: &[Callee]) -> Option<Callee>
    ensures { result ≡ plain.named_among word.now callees.now }
{
    for callee in callees {
        if callee_text(*callee).as_bytes() == word {
            return Some(*callee);
        }
    }
    None
}

/// Whether the bytes are the text.
fn is_text(text: &[u8], bytes: &[u8]) -> bool
    ensures { result ≡ bytes_eq text.now bytes.now }
{
    text == bytes
}

/// The call of that word in the library of that word, where there is one. It takes no memory.
pub fn callee_of(library: &[u8], call: &[u8]) -> Option<Callee>
    ensures { result ≡ plain.callee_of library.now call.now }
{
    if is_text(b"vectors", library) {
        named_among(call, &VECTOR_CALLS)
    } else if is_text(b"columns", library) {
        named_among(call, &COLUMN_CALLS)
    } else {
        None
    }
}

/// The comparison that is written so.
pub(crate) fn comparison_of(text: &[u8]) -> Option<BinOp>
    ensures { result ≡ plain.comparison_of text.now }
{
    if is_text(b"==", text) {
        Some(BinOp::Eq)
    } else if is_text(b"!=", text) {
        Some(BinOp::Ne)
    } else if is_text(b"<", text) {
        Some(BinOp::Lt)
    } else if is_text(b"<=", text) {
        Some(BinOp::Le)
    } else if is_text(b">", text) {
        Some(BinOp::Gt)
    } else if is_text(b">=", text) {
        Some(BinOp::Ge)
    } else {
        None
    }
}

/// The operator of arithmetic that is written so.
pub(crate) fn arithmetic_of(text: &[u8]) -> Option<BinOp>
    ensures { result ≡ plain.arithmetic_of text.now }
{
    if is_text(b"+", text) {
        Some(BinOp::Add)
    } else if is_text(b"-", text) {
        Some(BinOp::Sub)
    } else if is_text(b"*", text) {
        Some(BinOp::Mul)
    } else if is_text(b"/", text) {
        Some(BinOp::Div)
    } else if is_text(b"%", text) {
        Some(BinOp::Rem)
    } else {
        None
    }
}
