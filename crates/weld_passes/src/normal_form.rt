//! The optimiser.

ghost use Rattle.std.specs.Prelude.{◌≡◌, ◌≤◌, ℕ, List, IfOk};
ghost use Rattle.weld_tree.specs.Blank.{AreSame};
ghost use Rattle.weld_tree.specs.Program.{ProgramTree};
ghost use Rattle.weld_check_types.specs.Unnoted.{IsSameButNotes};
ghost use Rattle.weld_check_types.specs.Notes.{ProgramIsNoted};
ghost use Rattle.weld_print.specs.PrintText.{program_text};
ghost use Rattle.weld_print.specs.Texts.{TextSpells, TextSpellsSoundly};
ghost use Rattle.weld_rewriting.specs.Within.{legs};
ghost use Rattle.weld_rewriting.specs.Sweep.{IsStill};
ghost use Rattle.weld_passes.specs.Normal.{all_rules, optimised_body, IsOptimised};

use crate::laws::{all_rules_may_be_tried, bodies_are_rewritten};
use crate::normal::Normal;
use crate::of_legs::OfLegs;
use std::alloc::{AllocError, Global};
use weld_inline::Lets;
use weld_meaning::Accepted;
use weld_predicate::Guards;
use weld_print::reads_back::{printed_programs_read_back, texts_spell_the_spellable};
use weld_rewriting::pass::Either;
use weld_rewriting::replacing::{rewritten_programs, tidiness_is_kept};
use weld_rewriting::rounds::sweep_until_still;
use weld_tree::{Expr, Program};
use weld_vertical::{Loops, fuse_chain};
use weld_vertical_held::HandedOver;
use weld_vertical_struct::Opened;

/// The program in normal form (as far as this project goes): no `let` stands in it that can be put in
/// place, no guarded merge that can be merged always, no loop over what another loop makes that merges
/// once, wherever it holds its builder, no such list on a leg of a `zip` that is merged into in every
/// row, no leg that stands twice in one loop, and no two lets of loops over one name or of their
/// results with none but results of names between them. It means the same on all
/// arguments that fit, faults included, and has no more legs and loops; where it was a chain of loops,
/// each but the first is gone; and where some text spelled it, noted types apart, its printed text
/// spells it. It asks for a program whose nodes have their types noted, as the checker leaves it. It
/// fails for want of memory alone, and the program is spent then.
pub fn optimise(alloc: Global, p: Accepted) -> Result<Normal, AllocError>
    requires { ProgramIsNoted p }
    ensures optimised { IfOk result (λ q. IsOptimised q p) }
    ensures noted { IfOk result (λ q. ProgramIsNoted q) }
    ensures spelled { IfOk result (λ q. (text : List ℕ) (s : ProgramTree)
        → TextSpells text s → IsSameButNotes s p
        → (r : ProgramTree) × TextSpellsSoundly (program_text q) r × AreSame q r) }
    ensures legs { IfOk result (λ q. legs q.body ≤ legs p.body) }
{
    all_rules_may_be_tried();
    bodies_are_rewritten();
    tidiness_is_kept();
    rewritten_programs();
    texts_spell_the_spellable();
    printed_programs_read_back();
    let Accepted { program } = p;
    let Program { params, body } = program;
    let mut body = body;
    optimise_body(alloc, &mut body)?;
    let program = Program { params, body };
    let program = Accepted { program };
    Ok(Normal { program })
}

/// Fuses the body's chain of loops, and then tries the rules of all passes at each node, in rounds, until
/// none matches.
fn optimise_body(alloc: Global, body: &mut Expr) -> Result<(), AllocError>
    ensures optimised { IfOk result (λ _. (n : ℕ) × (body.new ≡ optimised_body n body.old)) }
    ensures still { IfOk result (λ _. IsStill all_rules body.new) }
{
    all_rules_may_be_tried();
    fuse_chain(alloc, body)?;
    let held = Opened { rule: Loops };
    let of_handing = Either {
        first: &HandedOver,
        second: &OfLegs,
    };
    let of_held = Either {
        first: &held,
        second: &of_handing,
    };
    let of_loops = Either {
        first: &Loops,
        second: &of_held,
    };
    let others = Either {
        first: &Guards,
        second: &of_loops,
    };
    let all = Either {
        first: &Lets,
        second: &others,
    };
    sweep_until_still(alloc, &all, body)?;
    Ok(())
}
