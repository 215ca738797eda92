ghost use Rattle.std.specs.Prelude.{◌≡◌};
ghost use Rattle.weld_tokens.specs.Depth as depth;

use crate::text_limits::nodes::nodes_of;
use weld_tree::{Expr, Place};

/// The place of the first node, in the order of the text, that stands deeper than 100 in an expression (M4). The root
/// has depth 1, a child one more than its node; the body of a `let` has the depth of the `let`.
pub fn first_deep_node(e: &Expr) -> Option<Place>
    ensures { result ≡ depth.first_deep_node e.now }
{
    nodes_of(e, 100).too_deep
}

/// The earlier of two places, where there are any.
pub(crate) fn earlier(first: Option<Place>, second: Option<Place>) -> Option<Place>
    ensures { result ≡ depth.earlier first second }
{
    match (first, second) {
        (None, place) => place,
        (Some(p), None) => Some(p),
        (Some(p), Some(q)) => {
            if q.line < p.line || (q.line == p.line && q.column < p.column) {
                Some(q)
            } else {
                Some(p)
            }
        }
    }
}

/// The place of a node for which no level is left.
pub(crate) fn if_deep(levels: u32, place: Place) -> Option<Place>
    ensures { result ≡ depth.if_deep levels place }
{
    if levels == 0 { Some(place) } else { None }
}
