//! Names, literals and fixed pieces of text, appended to one buffer.

ghost use Rattle.std.specs.Prelude.{◌≡◌, ◌<◌, ◌++◌, codes, OnOk, if◌then◌else◌};
ghost use Rattle.std.specs.Fmt.{decimal, signed_decimal};
ghost use Rattle.weld_tree.specs.ExprView.{view_leaf, view_one, view_two, view_three, view_many};
ghost use Rattle.weld_print.specs.PrintText.{name_text, binder_text, kind_end, items_text, leaf_text, one_front, one_back, op_between, two_front, two_between, two_back, three_front};

use crate::names::Names;
use crate::types::{kind_word, write_build, write_type};
use itoa::Buffer;
use std::alloc::AllocError;
use weld_data::{BinOp, Kind, Text};
use weld_tree::{Binder, LeafForm, OneForm, Sym, ThreeForm, TwoForm};
use weld_write_value::write_byte;

/// Appends the bytes of a string, with the escapes of value text.
fn write_items(bytes: &[u8], out: &mut Text) -> Result<(), AllocError>
    ensures { OnOk result (out.new ≡ out.old ++ items_text bytes.now) }
{
    'items: for byte in bytes {
        write_byte(*byte, out)?;
    }
    Ok(())
}

/// Appends a string.
fn write_chars(bytes: &[u8], out: &mut Text) -> Result<(), AllocError>
    ensures { OnOk result (out.new ≡ out.old ++ (codes "\"" ++ items_text bytes.now
        ++ codes "\"")) }
{
    out.push(b'"')?;
    write_items(bytes, out)?;
    out.push(b'"')
}

/// Appends a number literal.
fn write_int(kind: Kind, value: i128, out: &mut Text) -> Result<(), AllocError>
    ensures { OnOk result (out.new ≡ out.old ++ (signed_decimal value ++ kind_end kind)) }
{
    out.push_all(Buffer::new().format(value).as_bytes())?;
    match kind {
        Kind::I64 => out.push(b'L'),
        _ => Ok(()),
    }
}

/// Appends a truth value.
fn write_truth(value: bool, out: &mut Text) -> Result<(), AllocError>
    ensures { OnOk result (out.new ≡ out.old ++ (if value then codes "true" else codes "false")) }
{
    if value {
        out.push_all(b"true")
    } else {
        out.push_all(b"false")
    }
}

/// Appends a name.
fn write_name(sym: Sym, names: &Names, out: &mut Text) -> Result<(), AllocError>
    ensures { OnOk result (out.new ≡ out.old ++ name_text names.now sym.0) }
{
    out.push(b'x')?;
    out.push_all(Buffer::new().format(names.number_of(sym)).as_bytes())
}

/// Appends a name where it is bound, with its note where it has one.
pub fn write_binder(binder: &Binder, names: &Names, out: &mut Text) -> Result<(), AllocError>
    ensures { OnOk result (out.new ≡ out.old ++ binder_text names.now binder.now) }
{
    write_name(binder.sym, names, out)?;
    match &binder.note {
        None => Ok(()),
        Some(ty) => {
            out.push_all(b": ")?;
            write_type(ty, out)
        }
    }
}

/// Appends a form without parts.
pub fn write_leaf(leaf: &LeafForm, names: &Names, out: &mut Text) -> Result<(), AllocError>
    ensures { OnOk result (out.new ≡ out.old ++ leaf_text names.now (view_leaf leaf.now)) }
{
    match leaf {
        LeafForm::Int(kind, value) => write_int(*kind, *value, out),
        LeafForm::Truth(value) => write_truth(*value, out),
        LeafForm::Chars(text) => write_chars(text.as_slice(), out),
        LeafForm::Name(sym) => write_name(*sym, names, out),
        LeafForm::Builder(build) => write_build(build, out),
    }
}

/// Appends what stands before the part of a form of one part.
pub fn write_one_front(form: &OneForm, out: &mut Text) -> Result<(), AllocError>
    ensures { OnOk result (out.new ≡ out.old ++ one_front (view_one form.now)) }
{
    match form {
        OneForm::Neg => out.push(b'-'),
        OneForm::Not => out.push(b'!'),
        OneForm::Cast(kind) => {
            out.push_all(kind_word(*kind).as_bytes())?;
            out.push(b'(')
        }
        OneForm::Len => out.push_all(b"len("),
        OneForm::Field(_) => Ok(()),
        OneForm::Finish => out.push_all(b"result("),
        OneForm::Builder(build) => {
            write_build(build, out)?;
            out.push(b'(')
        }
    }
}

/// Appends what stands behind it.
pub fn write_one_back(form: &OneForm, out: &mut Text) -> Result<(), AllocError>
    ensures { OnOk result (out.new ≡ out.old ++ one_back (view_one form.now)) }
{
    match form {
        OneForm::Neg | OneForm::Not => Ok(()),
        OneForm::Field(number) => {
            out.push_all(b".$")?;
            out.push_all(Buffer::new().format(*number).as_bytes())
        }
        OneForm::Cast(_) | OneForm::Len | OneForm::Finish | OneForm::Builder(_) => out.push(b')'),
    }
}

/// An operator between spaces.
fn op_between(op: BinOp) -> &'static str
    ensures { result.now ≡ op_between op }
{
    match op {
        BinOp::Add => " + ",
        BinOp::Sub => " - ",
        BinOp::Mul => " * ",
        BinOp::Div => " / ",
        BinOp::Rem => " % ",
        BinOp::Eq => " == ",
        BinOp::Ne => " != ",
        BinOp::Lt => " < ",
        BinOp::Le => " <= ",
        BinOp::Gt => " > ",
        BinOp::Ge => " >= ",
    }
}

/// What stands before the parts of a form of two parts.
pub fn two_front(form: TwoForm) -> &'static str
    ensures { result.now ≡ two_front (view_two form) }
{
    match form {
        TwoForm::Binary(_) | TwoForm::And | TwoForm::Or => "",
        TwoForm::LookUp => "lookup(",
        TwoForm::KeyExists => "keyexists(",
        TwoForm::Merge => "merge(",
    }
}

/// What stands between them.
pub fn two_between(form: TwoForm) -> &'static str
    ensures { result.now ≡ two_between (view_two form) }
{
    match form {
        TwoForm::Binary(op) => op_between(op),
        TwoForm::And => " && ",
        TwoForm::Or => " || ",
        TwoForm::LookUp | TwoForm::KeyExists | TwoForm::Merge => ", ",
    }
}

/// What stands behind them.
pub fn two_back(form: TwoForm) -> &'static str
    ensures { result.now ≡ two_back (view_two form) }
{
    match form {
        TwoForm::Binary(_) | TwoForm::And | TwoForm::Or => "",
        TwoForm::LookUp | TwoForm::KeyExists | TwoForm::Merge => ")",
    }
}

/// What stands before the parts of a form of three parts.
pub fn three_front(form: ThreeForm) -> &'static str
    ensures { result.now ≡ three_front (view_three form) }
{
    match form {
        ThreeForm::If => "if(",
        ThreeForm::Select => "select(",
        ThreeForm::Slice => "slice(",
    }
}
