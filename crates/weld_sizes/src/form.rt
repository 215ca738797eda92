//! The sized form of a loop.

ghost use Rattle.std.specs.Prelude.{◌≡◌};
ghost use Rattle.weld_tree.specs.TypeView.{view_build};
ghost use Rattle.weld_sizes.specs.Sized.{has_sized_form as has_form, is_list, is_new_list, is_that_name, merges_once};

use weld_tree::{BuildTy, Expr, Form, LeafForm, Sym, ThreeForm, TwoForm};

/// Whether the expression is a loop of the sized form: its builder is one `vecbuilder`, and each
/// row merges into it exactly once. It takes no memory.
pub fn has_sized_form(e: &Expr) -> bool
    ensures { result ≡ has_form e.now }
{
    match &e.form {
        Form::For(_, builder, binder, _, _, body) => {
            is_new_list(builder) && merges_once(body, binder.sym)
        }
        _ => false,
    }
}

/// Whether the expression is one `vecbuilder`.
fn is_new_list(e: &Expr) -> bool
    ensures { result ≡ is_new_list e.now }
{
    match &e.form {
        Form::Leaf(LeafForm::Builder(build)) => is_list(build),
        Form::Leaf(_) | Form::One(_, _) | Form::Two(_, _, _) | Form::Three(_, _, _, _) => false,
        Form::Many(_, _) | Form::Let(_, _, _) => false,
        Form::For(_, _, _, _, _, _) | Form::Iterate(_, _, _) => false,
    }
}

fn is_list(build: &BuildTy) -> bool
    ensures { result ≡ is_list (view_build build.now) }
{
    match build {
        BuildTy::List(_) => true,
        BuildTy::Total(_, _) | BuildTy::Keyed(_, _, _) => false,
        BuildTy::Cells(_, _) | BuildTy::Groups(_, _) => false,
    }
}

/// Whether the expression merges once into the name.
fn merges_once(e: &Expr, binder: Sym) -> bool
    ensures { result ≡ merges_once e.now binder.0 }
{
    match &e.form {
        Form::Two(TwoForm::Merge, builder, _) => is_that_name(builder, binder),
        Form::Three(ThreeForm::If, _, then, otherwise) => {
            merges_once(then, binder) && merges_once(otherwise, binder)
        }
        Form::Let(_, _, body) => merges_once(body, binder),
        Form::Leaf(_) | Form::One(_, _) | Form::Two(_, _, _) | Form::Three(_, _, _, _) => false,
        Form::Many(_, _) | Form::For(_, _, _, _, _, _) | Form::Iterate(_, _, _) => false,
    }
}

/// Whether the expression is the name.
pub(crate) fn is_that_name(e: &Expr, name: Sym) -> bool
    ensures { result ≡ is_that_name e.now name.0 }
{
    match &e.form {
        Form::Leaf(LeafForm::Name(other)) => name.0 == other.0,
        Form::Leaf(_) | Form::One(_, _) | Form::Two(_, _, _) | Form::Three(_, _, _, _) => false,
        Form::Many(_, _) | Form::Let(_, _, _) => false,
        Form::For(_, _, _, _, _, _) | Form::Iterate(_, _, _) => false,
    }
}
