ghost use Rattle.std.specs.Prelude.{◌≡◌};
ghost use Rattle.weld_plan.specs.StepTree.{is_path as is_a_path};

use weld_tree::{Expr, Form, LeafForm, OneForm};

/// Whether the expression is a name, or a field of such: its thing stands somewhere already. It takes no memory.
pub fn is_path(e: &Expr) -> bool
    ensures { result ≡ is_a_path e.now }
{
    match &e.form {
        Form::Leaf(LeafForm::Name(_)) => true,
        Form::One(OneForm::Field(_), part) => is_path(part),
        Form::Leaf(_) | Form::One(_, _) | Form::Two(_, _, _) | Form::Three(_, _, _, _) => false,
        Form::Many(_, _) | Form::Let(_, _, _) | Form::For(_, _, _, _, _, _) => false,
        Form::Iterate(_, _, _) => false,
    }
}
