//! Laws of the rules of all passes and of normal forms, each the contract of a function that does nothing.

ghost use Rattle.std.specs.Prelude.{◌≡◌, ◌+◌, ◌≤◌, ℕ, List, None};
ghost use Rattle.weld_tree.specs.ExprTree.{ExprTree};
ghost use Rattle.weld_tree.specs.TypeTree.{TypeTree};
ghost use Rattle.weld_tree.specs.Program.{ProgramTree, IsProgram, loops};
ghost use Rattle.weld_meaning.specs.Accepted.{IsAccepted};
ghost use Rattle.weld_meaning.specs.LinearWalk.{linear_refusal};
ghost use Rattle.weld_check_types.specs.Unnoted.{IsSameButNotes};
ghost use Rattle.weld_types.specs.Walk.{found, program_type};
ghost use Rattle.weld_print.specs.Texts.{TextSpells};
ghost use Rattle.weld_rewriting.specs.Tidy.{IsTidy};
ghost use Rattle.weld_rewriting.specs.Rewriting.{Rewrites};
ghost use Rattle.weld_rewriting.specs.Rules.{Falls, IsSound};
ghost use Rattle.weld_rewriting.specs.Sweep.{IsStill};
ghost use Rattle.weld_vertical.specs.Chains.{IsChainProgram};
ghost use Rattle.weld_passes.specs.Normal.{all_rules, optimised_body, IsNormal, HasNormalForm, CanBeOptimised};

use weld_check_types::unnoted::notes_play_no_part;
use weld_horizontal::laws::legs_may_stand_once;
use weld_inline::laws::lets_may_be_rewritten;
use weld_joining::laws::loops_may_be_joined;
use weld_meaning::laws::{the_walk_is_linear_use, types_are_unique};
use weld_predicate::laws::guards_may_be_rewritten;
use weld_print::reads_back::{printed_programs_read_back, texts_spell_the_spellable};
use weld_rewriting::pass::laws::{rules_are_tests, rules_may_be_joined, rules_may_follow};
use weld_rewriting::replacing::{rewriting_is_an_order, rewritten_programs, tidiness_is_kept};
use weld_rewriting::rounds::laws::{rounds_rewrite, sweeps_fall};
use weld_types::laws::the_walk_is_typing;
use weld_vertical::laws::{chains_are_one_loop, loops_may_be_fused};
use weld_vertical_held::laws::lists_may_be_handed_over;
use weld_vertical_struct::laws::{held_loops_may_be_fused, rules_may_be_tried_on_parts};
use weld_vertical_zip::laws::made_legs_may_be_spliced;
use weld_vertical_zip_held::laws::zip_lists_may_be_handed_over;

/// The rules of all passes as one make lighter and are sound; and where none of them matches, a program is in
/// normal form.
pub fn all_rules_may_be_tried()
    ensures falls { Falls all_rules }
    ensures sound { IsSound all_rules }
    ensures normal { (p : ProgramTree) → IsStill all_rules p.body → IsNormal p }
{
    lets_may_be_rewritten();
    guards_may_be_rewritten();
    loops_may_be_fused();
    held_loops_may_be_fused();
    lists_may_be_handed_over();
    rules_may_be_tried_on_parts();
    made_legs_may_be_spliced();
    zip_lists_may_be_handed_over();
    legs_may_stand_once();
    loops_may_be_joined();
    rules_are_tests();
    rules_may_be_joined();
    rules_may_follow();
}

/// A tidy body is rewritten by fusing its chain of loops and sweeping it with the rules then, as often as it may be;
/// and where it is a chain of loops, each loop but the first is gone.
pub fn bodies_are_rewritten()
    ensures rewrites { (n : ℕ) (e : ExprTree) → IsTidy e → Rewrites (optimised_body n e) e }
    ensures chain { (n k : ℕ) (e : ExprTree) → IsTidy e → IsChainProgram k e
        → loops (optimised_body n e) + k ≤ loops e }
{
    all_rules_may_be_tried();
    chains_are_one_loop();
    rounds_rewrite();
    rewriting_is_an_order();
    tidiness_is_kept();
}

/// Each program that a text spells and no rule refuses has a normal form.
pub fn each_program_has_a_normal_form()
    ensures { (text : List ℕ) (p : ProgramTree) (t : TypeTree) → TextSpells text p
        → IsProgram p.params p.body → program_type p ≡ found t → linear_refusal p ≡ None
        → HasNormalForm p }
{
    all_rules_may_be_tried();
    bodies_are_rewritten();
    sweeps_fall();
    tidiness_is_kept();
    rewritten_programs();
    the_walk_is_typing();
    types_are_unique();
    the_walk_is_linear_use();
    notes_play_no_part();
    texts_spell_the_spellable();
    printed_programs_read_back();
}

/// Each accepted program whose types keep their sizes can be optimised, whether a text spells it or not.
pub fn each_accepted_program_can_be_optimised()
    ensures { (p : ProgramTree) (t : TypeTree) → IsProgram p.params p.body → IsAccepted p
        → program_type p ≡ found t → CanBeOptimised p }
{
    all_rules_may_be_tried();
    bodies_are_rewritten();
    sweeps_fall();
    tidiness_is_kept();
    rewritten_programs();
    the_walk_is_typing();
    types_are_unique();
    the_walk_is_linear_use();
    notes_play_no_part();
}

/// The types that are noted at the nodes of a program play no part in whether it is a chain of loops.
pub fn chains_look_past_notes()
    ensures { (p q : ProgramTree) → IsSameButNotes p q → (k : ℕ) → IsChainProgram k q.body
        → IsChainProgram k p.body }
{}
