ghost use Rattle.std.specs.Prelude.{◌≡◌, None, IfOk, IfErr};
ghost use Rattle.weld_tree.specs.TypeTree.{TypeTree};
ghost use Rattle.weld_meaning.specs.Typing.{ProgramHas};
ghost use Rattle.weld_meaning.specs.LinearWalk.{linear_refusal};
ghost use Rattle.weld_uses.specs.Walks.{Fails};

use crate::rules::walk;
use std::alloc::Global;
use weld_linear::{Available, Scope};
use weld_meaning::Accepted;
use weld_meaning::laws::the_walk_is_linear_use;
use weld_tree::{Program, Refusal};

/// Whether the program uses builders linearly, by the rules: a refusal is the first in the walk, L1 to L6 with its place, or want of memory.
pub fn check_uses(alloc: Global, p: &Program) -> Result<(), Refusal>
    ensures linear { IfOk result (λ _. linear_refusal p.now ≡ None) }
    ensures first_refusal { IfErr result (λ r. Fails r (linear_refusal p.now)) }
{
    let scope = Scope::empty();
    let mut left = Available::new(alloc);
    match walk(&p.body, &scope, &mut left, alloc) {
        Err(refusal) => Err(refusal),
        Ok(_) => Ok(()),
    }
}

/// The program, which has a type, as an accepted one, where it uses builders linearly. A refusal is the first in the
/// walk, L1 to L6 with its place, or want of memory; then the program is dropped.
pub fn accept(alloc: Global, p: Program) -> Result<Accepted, Refusal>
    requires { (t : TypeTree) × ProgramHas p t }
    ensures same { IfOk result (λ a. a ≡ p) }
    ensures linear { IfOk result (λ _. linear_refusal p ≡ None) }
    ensures first_refusal { IfErr result (λ r. Fails r (linear_refusal p)) }
{
    check_uses(alloc, &p)?;
    the_walk_is_linear_use();
    Ok(Accepted { program: p })
}
