//! Plain values: names, names followed by field accesses, number and truth literals.

ghost use Rattle.std.specs.Prelude.{◌≡◌};
ghost use Rattle.weld_substitution.specs.Redex.{is_chain, is_field, is_name_leaf, is_plain, is_plain_leaf};
ghost use Rattle.weld_tree.specs.ExprView.{view_leaf, view_one};

use weld_tree::{Expr, Form, LeafForm, OneForm};

/// Whether the expression is a plain value.
pub(crate) fn is_plain(e: &Expr) -> bool
    ensures { result ≡ is_plain e.now }
{
    match &e.form {
        Form::Leaf(leaf) => is_plain_leaf(leaf),
        Form::One(one, part) => is_field(one) && is_chain(part),
        Form::Two(_, _, _) | Form::Three(_, _, _, _) | Form::Many(_, _) => false,
        Form::Let(_, _, _) | Form::For(_, _, _, _, _, _) | Form::Iterate(_, _, _) => false,
    }
}

fn is_plain_leaf(leaf: &LeafForm) -> bool
    ensures { result ≡ is_plain_leaf (view_leaf leaf.now) }
{
    match leaf {
        LeafForm::Int(_, _) | LeafForm::Truth(_) | LeafForm::Name(_) => true,
        LeafForm::Chars(_) | LeafForm::Builder(_) => false,
    }
}

/// Whether the expression is a name, or a name followed by field accesses.
fn is_chain(e: &Expr) -> bool
    ensures { result ≡ is_chain e.now }
{
    match &e.form {
        Form::Leaf(leaf) => is_name(leaf),
        Form::One(one, part) => is_field(one) && is_chain(part),
        Form::Two(_, _, _) | Form::Three(_, _, _, _) | Form::Many(_, _) => false,
        Form::Let(_, _, _) | Form::For(_, _, _, _, _, _) | Form::Iterate(_, _, _) => false,
    }
}

fn is_name(leaf: &LeafForm) -> bool
    ensures { result ≡ is_name_leaf (view_leaf leaf.now) }
{
    match leaf {
        LeafForm::Name(_) => true,
        LeafForm::Int(_, _) | LeafForm::Truth(_) => false,
        LeafForm::Chars(_) | LeafForm::Builder(_) => false,
    }
}

fn is_field(one: &OneForm) -> bool
    ensures { result ≡ is_field (view_one one.now) }
{
    match one {
        OneForm::Field(_) => true,
        OneForm::Neg | OneForm::Not | OneForm::Cast(_) | OneForm::Len => false,
        OneForm::Finish | OneForm::Builder(_) => false,
    }
}
