//! Programs as text, appended to one buffer.

ghost use Rattle.std.specs.Prelude.{◌≡◌, ◌++◌, codes, map, IfOk, OnOk};
ghost use Rattle.weld_tree.specs.ExprTree.{pack_exprs, pack_legs, many, three, two, one};
ghost use Rattle.weld_tree.specs.ExprView.{view_one, view_two, view_three, view_many, view_leg};
ghost use Rattle.weld_print.specs.PrintText.{binder_text, parens, one_front, one_back, two_front, two_between, two_back, three_front, many_front, many_back, expr_text, exprs_text, rows_text, legs_text, leg_text, binders_text, params_text, Print};
ghost use Rattle.weld_print.specs.Operands.{part_in_parens, side_in_parens, value_in_parens};

use crate::leaves::{
    three_front, two_back, two_between, two_front, write_binder, write_leaf, write_one_back,
    write_one_front,
};
use crate::names::{Names, binders_of};
use crate::operands::{part_in_parens, side_in_parens, value_in_parens};
use std::alloc::{AllocError, Global};
use weld_data::Text;
use weld_tree::{
    Binder, Expr, Exprs, Form, Leg, Legs, ManyForm, OneForm, Program, ThreeForm, TwoForm,
};

/// The text of a program, as the one printed spelling has it. It fails for want of memory alone.
pub fn print(alloc: Global, program: &Program) -> Result<Text, AllocError>
    ensures { IfOk result (Print program.now) }
{
    let names = binders_of(alloc, program)?;
    let mut out = Text::new(alloc);
    write_params(program.params.as_slice(), &names, &mut out)?;
    write_expr(&program.body, &names, &mut out)?;
    Ok(out)
}

/// Appends the parameters, where there are some.
fn write_params(params: &[Binder], names: &Names, out: &mut Text) -> Result<(), AllocError>
    ensures { OnOk result (out.new ≡ out.old ++ params_text names.now params.now) }
{
    if params.is_empty() {
        return Ok(());
    }
    write_binders(params, names, out)?;
    out.push_all(b"| ")
}

/// Appends binders, a `|` before the first and a comma and a space before each further one.
fn write_binders(binders: &[Binder], names: &Names, out: &mut Text) -> Result<(), AllocError>
    ensures { OnOk result (out.new ≡ out.old ++ binders_text names.now (codes "|") binders.now) }
{
    let mut lead: &[u8] = b"|";
    'binders: for binder in binders {
        out.push_all(lead)?;
        write_binder(binder, names, out)?;
        lead = b", ";
    }
    Ok(())
}

/// Appends an expression. The calls below append its parts; all of them fail for want of memory alone.
#[cycle(write)]
fn write_expr(e: &Expr, names: &Names, out: &mut Text) -> Result<(), AllocError>
    ensures { OnOk result (out.new ≡ out.old ++ expr_text names.now e.now) }
{
    match &e.form {
        Form::Leaf(leaf) => write_leaf(leaf, names, out),
        Form::One(form, part) => write_one(form, part, names, out),
        Form::Two(form, left, right) => write_two(*form, left, right, names, out),
        Form::Three(form, first, second, third) => {
            out.push_all(three_front(*form).as_bytes())?;
            write_three(first, second, third, names, out)?;
            out.push(b')')
        }
        Form::Many(form, parts) => write_many(*form, parts, names, out),
        Form::Let(binder, value, body) => write_let(binder, value, body, names, out),
        Form::For(legs, builder, b, n, x, body) => {
            write_rows(legs, builder, names, out)?;
            write_lambda(b, n, x, names, out)?;
            write_expr(body, names, out)?;
            out.push(b')')
        }
        Form::Iterate(state, binder, body) => write_iterate(state, binder, body, names, out),
    }
}

/// Appends an expression, in parentheses where it is said so.
#[cycle(write)]
fn write_part(e: &Expr, in_parens: bool, names: &Names, out: &mut Text) -> Result<(), AllocError>
    ensures { OnOk result (out.new ≡ out.old ++ parens in_parens (expr_text names.now e.now)) }
{
    if !in_parens {
        return write_expr(e, names, out);
    }
    out.push(b'(')?;
    write_expr(e, names, out)?;
    out.push(b')')
}

#[cycle(write)]
fn write_one(form: &OneForm, part: &Expr, names: &Names, out: &mut Text) -> Result<(), AllocError>
    ensures { OnOk result (out.new ≡ out.old ++ (one_front (view_one form.now)
        ++ parens (part_in_parens (view_one form.now) part.now) (expr_text names.now part.now)
        ++ one_back (view_one form.now))) }
{
    write_one_front(form, out)?;
    write_part(part, part_in_parens(form, part), names, out)?;
    write_one_back(form, out)
}

#[cycle(write)]
fn write_two(
    form: TwoForm,
    left: &Expr,
    right: &Expr,
    names: &Names,
    out: &mut Text,
) -> Result<(), AllocError>
    ensures { OnOk result (out.new ≡ out.old ++ (two_front (view_two form)
        ++ parens (side_in_parens (view_two form) left.now) (expr_text names.now left.now)
        ++ two_between (view_two form) ++ parens (side_in_parens (view_two form) right.now)
        (expr_text names.now right.now) ++ two_back (view_two form))) }
{
    out.push_all(two_front(form).as_bytes())?;
    write_part(left, side_in_parens(form, left), names, out)?;
    out.push_all(two_between(form).as_bytes())?;
    write_part(right, side_in_parens(form, right), names, out)?;
    out.push_all(two_back(form).as_bytes())
}

/// Appends three expressions with a comma and a space between each two.
#[cycle(write)]
fn write_three(
    first: &Expr,
    second: &Expr,
    third: &Expr,
    names: &Names,
    out: &mut Text,
) -> Result<(), AllocError>
    ensures { OnOk result (out.new ≡ out.old ++ (expr_text names.now first.now ++ codes ", "
        ++ expr_text names.now second.now ++ codes ", " ++ expr_text names.now third.now)) }
{
    write_expr(first, names, out)?;
    out.push_all(b", ")?;
    write_expr(second, names, out)?;
    out.push_all(b", ")?;
    write_expr(third, names, out)
}

#[cycle(write)]
fn write_many(
    form: ManyForm,
    parts: &Exprs,
    names: &Names,
    out: &mut Text,
) -> Result<(), AllocError>
    ensures { OnOk result (out.new ≡ out.old ++ (exprs_text names.now (many_front (view_many form))
        (pack_exprs parts.now) ++ many_back (view_many form))) }
{
    let (front, back): (&[u8], u8) = match form {
        ManyForm::Vec => (b"[", b']'),
        ManyForm::Struct => (b"{", b'}'),
    };
    write_parts(front, parts, names, out)?;
    out.push(back)
}

/// Appends expressions, `front` before the first and a comma and a space before each further one.
#[cycle(write)]
fn write_parts(front: &[u8], parts: &Exprs, names: &Names, out: &mut Text) -> Result<(), AllocError>
    ensures { OnOk result (out.new ≡ out.old ++ exprs_text names.now front.now
        (pack_exprs parts.now)) }
{
    let mut lead = front;
    'parts: for part in parts.as_slice() {
        out.push_all(lead)?;
        write_expr(part, names, out)?;
        lead = b", ";
    }
    Ok(())
}

#[cycle(write)]
fn write_let(
    binder: &Binder,
    value: &Expr,
    body: &Expr,
    names: &Names,
    out: &mut Text,
) -> Result<(), AllocError>
    ensures { OnOk result (out.new ≡ out.old ++ (codes "let " ++ binder_text names.now binder.now
        ++ codes " = " ++ parens (value_in_parens value.now) (expr_text names.now value.now)
        ++ codes "; " ++ expr_text names.now body.now)) }
{
    out.push_all(b"let ")?;
    write_binder(binder, names, out)?;
    out.push_all(b" = ")?;
    write_part(value, value_in_parens(value), names, out)?;
    out.push_all(b"; ")?;
    write_expr(body, names, out)
}

#[cycle(write)]
fn write_iterate(
    state: &Expr,
    binder: &Binder,
    body: &Expr,
    names: &Names,
    out: &mut Text,
) -> Result<(), AllocError>
    ensures { OnOk result (out.new ≡ out.old ++ (codes "iterate(" ++ expr_text names.now state.now
        ++ codes ", |" ++ binder_text names.now binder.now ++ codes "| "
        ++ expr_text names.now body.now ++ codes ")")) }
{
    out.push_all(b"iterate(")?;
    write_expr(state, names, out)?;
    out.push_all(b", |")?;
    write_binder(binder, names, out)?;
    out.push_all(b"| ")?;
    write_expr(body, names, out)?;
    out.push(b')')
}

/// Appends the legs and the builder of a loop.
#[cycle(write)]
fn write_rows(legs: &Legs, builder: &Expr, names: &Names, out: &mut Text) -> Result<(), AllocError>
    ensures { OnOk result (out.new ≡ out.old ++ (codes "for("
        ++ rows_text names.now (pack_legs legs.now) ++ codes ", "
        ++ expr_text names.now builder.now)) }
{
    out.push_all(b"for(")?;
    write_legs(legs.as_slice(), names, out)?;
    out.push_all(b", ")?;
    write_expr(builder, names, out)
}

/// Appends the legs of a loop: one by itself, more in a `zip`.
#[cycle(write)]
fn write_legs(legs: &[Leg], names: &Names, out: &mut Text) -> Result<(), AllocError>
    ensures { OnOk result (out.new ≡ out.old ++ rows_text names.now
        (pack_legs (map view_leg legs.now))) }
{
    let Some((first, further)) = legs.split_first() else {
        return Ok(());
    };
    if further.is_empty() {
        return write_leg(first, names, out);
    }
    out.push_all(b"zip(")?;
    write_leg(first, names, out)?;
    write_further(further, names, out)?;
    out.push(b')')
}

/// Appends legs, each behind a comma and a space.
#[cycle(write)]
fn write_further(legs: &[Leg], names: &Names, out: &mut Text) -> Result<(), AllocError>
    ensures { OnOk result (out.new ≡ out.old ++ legs_text names.now
        (pack_legs (map view_leg legs.now))) }
{
    'legs: for leg in legs {
        out.push_all(b", ")?;
        write_leg(leg, names, out)?;
    }
    Ok(())
}

#[cycle(write)]
fn write_leg(leg: &Leg, names: &Names, out: &mut Text) -> Result<(), AllocError>
    ensures { OnOk result (out.new ≡ out.old ++ leg_text names.now (view_leg leg.now)) }
{
    match leg {
        Leg::Whole(vector) => write_expr(vector, names, out),
        Leg::Strided(vector, start, end, stride) => {
            out.push_all(b"iter(")?;
            write_three(vector, start, end, names, out)?;
            out.push_all(b", ")?;
            write_expr(stride, names, out)?;
            out.push(b')')
        }
    }
}

/// Appends the binders of a loop's lambda.
fn write_lambda(
    b: &Binder,
    n: &Binder,
    x: &Binder,
    names: &Names,
    out: &mut Text,
) -> Result<(), AllocError>
    ensures { OnOk result (out.new ≡ out.old ++ (codes ", |" ++ binder_text names.now b.now
        ++ codes ", " ++ binder_text names.now n.now ++ codes ", " ++ binder_text names.now x.now
        ++ codes "| ")) }
{
    out.push_all(b", |")?;
    write_binder(b, names, out)?;
    out.push_all(b", ")?;
    write_binder(n, names, out)?;
    out.push_all(b", ")?;
    write_binder(x, names, out)?;
    out.push_all(b"| ")
}
