//! Types as text, appended to one buffer.

ghost use Rattle.std.specs.Prelude.{◌≡◌, ◌++◌, codes, IfOk, OnOk};
ghost use Rattle.weld_tree.specs.TypeTree.{pack};
ghost use Rattle.weld_tree.specs.TypeView.{view_build};
ghost use Rattle.weld_print.specs.TypeText.{kind_text, op_text, type_text, build_text, fields_text, PrintType};

use std::alloc::{AllocError, Global};
use weld_data::{Kind, MergeOp, Text};
use weld_tree::{BuildTy, Ty, TyForm, Tys};

/// The text of a type, as the one printed spelling has it: without spaces, the builders of lists as
/// `vecbuilder` and `groupbuilder`. It fails for want of memory alone.
pub fn print_ty(alloc: Global, ty: &Ty) -> Result<Text, AllocError>
    ensures { IfOk result (PrintType ty.now) }
{
    let mut out = Text::new(alloc);
    write_type(ty, &mut out)?;
    Ok(out)
}

/// The word of a kind. It takes no memory.
pub fn kind_word(kind: Kind) -> &'static str
    ensures { result.now ≡ kind_text kind }
{
    match kind {
        Kind::Bool => "bool",
        Kind::I8 => "i8",
        Kind::I16 => "i16",
        Kind::I32 => "i32",
        Kind::I64 => "i64",
        Kind::U8 => "u8",
        Kind::U16 => "u16",
        Kind::U32 => "u32",
        Kind::U64 => "u64",
    }
}

/// How an operator of a builder is written. It takes no memory.
fn op_word(op: MergeOp) -> &'static str
    ensures { result.now ≡ op_text op }
{
    match op {
        MergeOp::Add => "+",
        MergeOp::Mul => "*",
        MergeOp::Min => "min",
        MergeOp::Max => "max",
    }
}

/// Appends `,`, the operator and `]`.
fn write_op(op: MergeOp, out: &mut Text) -> Result<(), AllocError>
    ensures { OnOk result (out.new ≡ out.old ++ (codes "," ++ op_text op ++ codes "]")) }
{
    out.push(b',')?;
    out.push_all(op_word(op).as_bytes())?;
    out.push(b']')
}

/// Appends the text of a type. It fails for want of memory alone.
#[cycle(write)]
pub fn write_type(ty: &Ty, out: &mut Text) -> Result<(), AllocError>
    ensures { OnOk result (out.new ≡ out.old ++ type_text ty.now) }
{
    match &ty.form {
        TyForm::Scalar(kind) => out.push_all(kind_word(*kind).as_bytes()),
        TyForm::Vec(item) => {
            out.push_all(b"vec[")?;
            write_type(item, out)?;
            out.push(b']')
        }
        TyForm::Struct(fields) => write_fields(fields, out),
        TyForm::Dict(key, value) => {
            out.push_all(b"dict[")?;
            write_two(key, value, out)?;
            out.push(b']')
        }
        TyForm::Build(build) => write_build(build, out),
    }
}

/// Appends two types with a comma between them.
#[cycle(write)]
fn write_two(first: &Ty, second: &Ty, out: &mut Text) -> Result<(), AllocError>
    ensures { OnOk result (out.new ≡ out.old ++ (type_text first.now ++ codes ","
        ++ type_text second.now)) }
{
    write_type(first, out)?;
    out.push(b',')?;
    write_type(second, out)
}

/// Appends the text of a builder's type. It fails for want of memory alone.
#[cycle(write)]
pub fn write_build(build: &BuildTy, out: &mut Text) -> Result<(), AllocError>
    ensures { OnOk result (out.new ≡ out.old ++ build_text (view_build build.now)) }
{
    match build {
        BuildTy::List(item) => {
            out.push_all(b"vecbuilder[")?;
            write_type(item, out)?;
            out.push(b']')
        }
        BuildTy::Total(item, op) => {
            out.push_all(b"merger[")?;
            write_type(item, out)?;
            write_op(*op, out)
        }
        BuildTy::Keyed(key, value, op) => {
            out.push_all(b"dictmerger[")?;
            write_two(key, value, out)?;
            write_op(*op, out)
        }
        BuildTy::Cells(item, op) => {
            out.push_all(b"vecmerger[")?;
            write_type(item, out)?;
            write_op(*op, out)
        }
        BuildTy::Groups(key, value) => {
            out.push_all(b"groupbuilder[")?;
            write_two(key, value, out)?;
            out.push(b']')
        }
    }
}

/// Appends the text of a struct of these fields.
#[cycle(write)]
fn write_fields(fields: &Tys, out: &mut Text) -> Result<(), AllocError>
    ensures { OnOk result (out.new ≡ out.old ++ (fields_text 123 (pack fields.now) ++ codes "}")) }
{
    let mut lead = b'{';
    'fields: for field in fields.as_slice() {
        out.push(lead)?;
        write_type(field, out)?;
        lead = b',';
    }
    out.push(b'}')
}
