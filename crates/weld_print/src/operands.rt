//! Which operands stand in parentheses.

ghost use Rattle.std.specs.Prelude.{◌≡◌};
ghost use Rattle.weld_tree.specs.ExprView.{view_leaf, view_one, view_two};
ghost use Rattle.weld_print.specs.Operands as operands;

use weld_tree::{Expr, Form, LeafForm, OneForm, TwoForm};

/// Whether it is a number literal that is negative.
fn is_negative(leaf: &LeafForm) -> bool
    ensures { result ≡ operands.is_negative (view_leaf leaf.now) }
{
    match leaf {
        LeafForm::Int(_, value) => *value < 0,
        _ => false,
    }
}

/// Whether it is a number literal that isn't.
fn is_natural(leaf: &LeafForm) -> bool
    ensures { result ≡ operands.is_natural (view_leaf leaf.now) }
{
    match leaf {
        LeafForm::Int(_, value) => !(*value < 0),
        _ => false,
    }
}

/// Whether it is a number, a truth value or a string.
fn is_literal(leaf: &LeafForm) -> bool
    ensures { result ≡ operands.is_literal (view_leaf leaf.now) }
{
    matches!(
        leaf,
        LeafForm::Int(_, _) | LeafForm::Truth(_) | LeafForm::Chars(_)
    )
}

/// Whether it is a negation or a `!`.
fn is_sign(form: &OneForm) -> bool
    ensures { result ≡ operands.is_sign (view_one form.now) }
{
    matches!(form, OneForm::Neg | OneForm::Not)
}

/// Whether it is a binary node.
fn is_binary(form: TwoForm) -> bool
    ensures { result ≡ operands.is_binary (view_two form) }
{
    matches!(form, TwoForm::Binary(_) | TwoForm::And | TwoForm::Or)
}

/// Whether an operand of a binary operator, of `!` or of `.` stands in parentheses.
pub fn in_parens(e: &Expr) -> bool
    ensures { result ≡ operands.in_parens e.now }
{
    match &e.form {
        Form::Leaf(leaf) => is_negative(leaf),
        Form::One(form, _) => is_sign(form),
        Form::Two(form, _, _) => is_binary(*form),
        Form::Let(_, _, _) => true,
        _ => false,
    }
}

/// Whether it is a number literal that isn't negative, or field accesses on one.
fn is_natural_or_field(e: &Expr) -> bool
    ensures { result ≡ operands.is_natural_or_field e.now }
{
    match &e.form {
        Form::Leaf(leaf) => is_natural(leaf),
        Form::One(OneForm::Field(_), base) => is_natural_or_field(base),
        _ => false,
    }
}

/// Whether the operand of a `-` stands in parentheses.
pub fn in_parens_behind_minus(e: &Expr) -> bool
    ensures { result ≡ operands.in_parens_behind_minus e.now }
{
    match &e.form {
        Form::Leaf(leaf) => is_literal(leaf),
        Form::One(form, _) => is_sign(form) || is_natural_or_field(e),
        Form::Two(form, _, _) => is_binary(*form),
        Form::Let(_, _, _) => true,
        _ => false,
    }
}

/// Whether the part of a form of one part stands in parentheses of its own.
pub fn part_in_parens(form: &OneForm, e: &Expr) -> bool
    ensures { result ≡ operands.part_in_parens (view_one form.now) e.now }
{
    match form {
        OneForm::Neg => in_parens_behind_minus(e),
        OneForm::Not | OneForm::Field(_) => in_parens(e),
        _ => false,
    }
}

/// Whether a part of a form of two parts stands in parentheses of its own.
pub fn side_in_parens(form: TwoForm, e: &Expr) -> bool
    ensures { result ≡ operands.side_in_parens (view_two form) e.now }
{
    is_binary(form) && in_parens(e)
}

/// Whether the value of a `let` stands in parentheses: where it is a `let`.
pub fn value_in_parens(e: &Expr) -> bool
    ensures { result ≡ operands.value_in_parens e.now }
{
    matches!(&e.form, Form::Let(_, _, _))
}
