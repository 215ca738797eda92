ghost use Rattle.std.specs.Prelude.{◌≡◌, ◌<◌};
ghost use Rattle.weld_tree.specs.Program.{loops};
ghost use Rattle.weld_meaning.specs.Loops.{Site, IsLoopOf, LawOfLoop};

use weld_meaning::laws::loops_join_in_order;
use weld_meaning::{Accepted, LoopId};

/// The action of the body of a loop, which it names: what the body makes, over rows, of a builder
/// that has nothing merged.
#[derive(Clone, Copy, Debug, PartialEq, Eq, Hash)]
pub struct Action {
    pub at: LoopId,
}

/// The action of the body of that loop of the program. The loop, over any builders of its type and in
/// any environment, is these builders joined with the action of its rows; where names and rows are of
/// their types, the action over rows and more rows is the join of both. Each side is a fault exactly
/// where the other is. It takes no memory.
pub fn body_action(p: &Accepted, at: LoopId) -> Action
    requires { at.0 < loops p.now.body }
    ensures names { result.at ≡ at }
    ensures found { (l : Site) × IsLoopOf p.now at.0 l }
    ensures law { (l : Site) → IsLoopOf p.now at.0 l → LawOfLoop l }
{
    let _program = p.program();
    loops_join_in_order();
    Action { at }
}
