//! A tree written out: each node with its parts behind it in parentheses, and the column of its place.

use std::alloc::{AllocError, Global};
use weld_data::BinOp;
use weld_tree::{Expr, Exprs, Form, LeafForm, Leg, Legs, ManyForm, OneForm, ThreeForm, TwoForm};

type Text = Vec<u8>;

fn put(text: &mut Text, bytes: &[u8]) -> Result<(), AllocError> {
    text.extend_from_slice(bytes)
}

fn put_number(text: &mut Text, number: u32) -> Result<(), AllocError> {
    if number >= 10 {
        put_number(text, number / 10)?;
    }
    text.push(b'0' + (number % 10) as u8)?;
    Ok(())
}

fn leaf_name(leaf: &LeafForm) -> &'static str {
    match leaf {
        LeafForm::Int(_, value) => { if *value < 0 { "negative" } else { "int" } }
        LeafForm::Truth(true) => "true",
        LeafForm::Truth(false) => "false",
        LeafForm::Chars(_) => "chars",
        LeafForm::Name(_) => "name",
        LeafForm::Builder(_) => "fresh",
    }
}

fn one_name(form: &OneForm) -> &'static str {
    match form {
        OneForm::Neg => "neg",
        OneForm::Not => "not",
        OneForm::Cast(_) => "cast",
        OneForm::Len => "len",
        OneForm::Field(_) => "field",
        OneForm::Finish => "result",
        OneForm::Builder(_) => "started",
    }
}

fn two_name(form: TwoForm) -> &'static str {
    match form {
        TwoForm::Binary(op) => match op {
            BinOp::Add => "+",
            BinOp::Sub => "-",
            BinOp::Mul => "*",
            BinOp::Div => "/",
            BinOp::Rem => "%",
            BinOp::Eq => "==",
            BinOp::Ne => "!=",
            BinOp::Lt => "<",
            BinOp::Le => "<=",
            BinOp::Gt => ">",
            BinOp::Ge => ">=",
        },
        TwoForm::And => "&&",
        TwoForm::Or => "||",
        TwoForm::LookUp => "lookup",
        TwoForm::KeyExists => "keyexists",
        TwoForm::Merge => "merge",
    }
}

fn three_name(form: ThreeForm) -> &'static str {
    match form {
        ThreeForm::If => "if",
        ThreeForm::Select => "select",
        ThreeForm::Slice => "slice",
    }
}

fn many_name(form: ManyForm) -> &'static str {
    match form {
        ManyForm::Vec => "vec",
        ManyForm::Struct => "struct",
    }
}

#[cycle(put)]
fn put_list(list: &Exprs, text: &mut Text) -> Result<(), AllocError> {
    for item in list.as_slice() {
        put_expr(item, text)?;
    }
    Ok(())
}

#[cycle(put)]
fn put_leg(leg: &Leg, text: &mut Text) -> Result<(), AllocError> {
    match leg {
        Leg::Whole(vector) => put_expr(vector, text),
        Leg::Strided(vector, start, below, stride) => {
            put(text, b"iter ")?;
            put_expr(vector, text)?;
            put_expr(start, text)?;
            put_expr(below, text)?;
            put_expr(stride, text)
        }
    }
}

#[cycle(put)]
fn put_legs(legs: &Legs, text: &mut Text) -> Result<(), AllocError> {
    for leg in legs.as_slice() {
        put_leg(leg, text)?;
    }
    Ok(())
}

fn put_leaf(leaf: &LeafForm, text: &mut Text) -> Result<(), AllocError> {
    put(text, leaf_name(leaf).as_bytes())?;
    match leaf {
        LeafForm::Name(sym) => put_number(text, sym.0),
        _ => Ok(()),
    }
}

/// Appends the form of the node, with its parts.
#[cycle(put)]
fn put_form(e: &Expr, text: &mut Text) -> Result<(), AllocError> {
    match &e.form {
        Form::Leaf(leaf) => put_leaf(leaf, text),
        Form::One(form, part) => {
            put(text, one_name(form).as_bytes())?;
            put_expr(part, text)
        }
        Form::Two(form, first, second) => {
            put(text, two_name(*form).as_bytes())?;
            put_expr(first, text)?;
            put_expr(second, text)
        }
        Form::Three(form, first, second, third) => {
            put(text, three_name(*form).as_bytes())?;
            put_expr(first, text)?;
            put_expr(second, text)?;
            put_expr(third, text)
        }
        Form::Many(form, parts) => {
            put(text, many_name(*form).as_bytes())?;
            put_list(parts, text)
        }
        Form::Let(binder, value, body) => {
            put(text, b"let")?;
            put_number(text, binder.sym.0)?;
            put_expr(value, text)?;
            put_expr(body, text)
        }
        Form::For(legs, builder, first, second, third, body) => {
            put(text, b"for")?;
            put_legs(legs, text)?;
            put_expr(builder, text)?;
            put_number(text, first.sym.0)?;
            put_number(text, second.sym.0)?;
            put_number(text, third.sym.0)?;
            put_expr(body, text)
        }
        Form::Iterate(state, binder, body) => {
            put(text, b"iterate")?;
            put_expr(state, text)?;
            put_number(text, binder.sym.0)?;
            put_expr(body, text)
        }
    }
}

/// Appends the tree to the text.
#[cycle(put)]
pub fn put_expr(e: &Expr, text: &mut Text) -> Result<(), AllocError> {
    put(text, b"(")?;
    put_form(e, text)?;
    put(text, b"@")?;
    put_number(text, e.place.column)?;
    put(text, b")")
}
