ghost use Rattle.std.specs.Prelude.{◌≡◌};
ghost use Rattle.weld_tokens.specs.Lets as lets;

use crate::text_limits::nodes::nodes_of;
use weld_tree::Expr;

/// Whether an expression has too many `let` nodes: more than 1,024 (M5).
pub fn has_too_many_lets(e: &Expr) -> bool
    ensures { result ≡ lets.has_too_many_lets e.now }
{
    nodes_of(e, 100).lets > 1_024
}
