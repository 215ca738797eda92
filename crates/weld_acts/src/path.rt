//! A name followed by field accesses.

ghost use Rattle.std.specs.Prelude.{◌≡◌};
ghost use Rattle.weld_acts.specs.PathView.{path_of};
ghost use Rattle.weld_acts.specs.Test.{follows, leaf_follows, is_field};
ghost use Rattle.weld_tree.specs.ExprView.{view_leaf, view_one};

use weld_tree::{Expr, Form, LeafForm, OneForm, Sym};

/// The numbers of the field accesses that lead to a builder, the outermost last.
#[derive(Clone, Copy)]
pub(crate) enum Path<'a> {
    Root,
    Field(usize, &'a Path<'a>),
}

/// Whether the expression is the name followed by just these field accesses.
pub(crate) fn follows(e: &Expr, name: Sym, path: &Path) -> bool
    ensures { result ≡ follows e.now name.0 (path_of path.now) }
{
    match &e.form {
        Form::Leaf(leaf) => leaf_follows(leaf, name, path),
        Form::One(one, part) => match path {
            Path::Root => false,
            Path::Field(number, rest) => is_field(one, *number) && follows(part, name, rest),
        },
        Form::Two(_, _, _) | Form::Three(_, _, _, _) | Form::Many(_, _) => false,
        Form::Let(_, _, _) | Form::For(_, _, _, _, _, _) | Form::Iterate(_, _, _) => false,
    }
}

/// Whether the node is the name, and there are no field accesses.
pub(crate) fn leaf_follows(leaf: &LeafForm, name: Sym, path: &Path) -> bool
    ensures { result ≡ leaf_follows (view_leaf leaf.now) name.0 (path_of path.now) }
{
    match leaf {
        LeafForm::Name(other) => match path {
            Path::Root => other.0 == name.0,
            Path::Field(_, _) => false,
        },
        LeafForm::Int(_, _) | LeafForm::Truth(_) => false,
        LeafForm::Chars(_) | LeafForm::Builder(_) => false,
    }
}

/// Whether the form accesses the field of that number.
fn is_field(one: &OneForm, number: usize) -> bool
    ensures { result ≡ is_field (view_one one.now) number }
{
    match one {
        OneForm::Field(other) => *other as usize == number,
        OneForm::Neg | OneForm::Not | OneForm::Cast(_) | OneForm::Len => false,
        OneForm::Finish | OneForm::Builder(_) => false,
    }
}
