//! Whether a loop stands in an expression.

ghost use Rattle.std.specs.Prelude.{◌≡◌};
ghost use Rattle.weld_substitution.specs.Redex.{has_loop, some_has_loop};
ghost use Rattle.weld_tree.specs.ExprTree.{pack_exprs};

use weld_tree::{Expr, Exprs, Form};

/// Whether a `for` or an `iterate` stands in the expression. It takes no memory.
#[cycle(loops)]
pub fn has_loop(e: &Expr) -> bool
    ensures { result ≡ has_loop e.now }
{
    match &e.form {
        Form::Leaf(_) => false,
        Form::One(_, part) => has_loop(part),
        Form::Two(_, first, second) | Form::Let(_, first, second) => {
            has_loop(first) || has_loop(second)
        }
        Form::Three(_, first, second, third) => {
            has_loop(first) || (has_loop(second) || has_loop(third))
        }
        Form::Many(_, parts) => some_has_loop(parts),
        Form::For(_, _, _, _, _, _) | Form::Iterate(_, _, _) => true,
    }
}

#[cycle(loops)]
fn some_has_loop(parts: &Exprs) -> bool
    ensures { result ≡ some_has_loop (pack_exprs parts.now) }
{
    for part in parts.as_slice() {
        if has_loop(part) {
            return true;
        }
    }
    false
}
