//! Laws of this crate's definitions, each the contract of a function that does nothing.

ghost use Rattle.std.specs.Prelude.{◌≡◌, ℕ, List};
ghost use Rattle.weld_front.specs.Answer.{Answers, HasOneText};
ghost use Rattle.weld_front.specs.Asking.{Asks};
ghost use Rattle.weld_front.specs.declared.status.Status.{Status};
ghost use Rattle.weld_words.specs.declared.options.Options.{Options};

use weld_check_types::unnoted::notes_play_no_part;
use weld_meaning::laws::{meaning_looks_past_spelling, typed_programs_are_never_stuck};
use weld_passes::laws::{
    chains_look_past_notes, each_accepted_program_can_be_optimised, each_program_has_a_normal_form,
};
use weld_script::laws::scripts_declare;
use weld_script::soak::laws::soak_is_a_script;
use weld_session::laws::each_script_is_gathered;
use weld_text_laws::scripts::{each_text_is_read, one_script, read_scripts_are_scripts};
use weld_tree::laws::same_programs_have_same_counts;
use weld_types::laws::the_walk_is_typing;

/// Words ask for one thing at most.
pub fn one_task()
    ensures { (words : List (List ℕ)) (o p : Options) → Asks words o → Asks words p → o ≡ p }
{
    weld_words::laws::one_reading();
}

/// A job has one status at most, and one text where the job alone tells it, so that each answer comes exactly
/// where its rule says, for every command.
pub fn one_answer()
    ensures status { (o : Options) (job : List ℕ) (s t : Status) (x y : List ℕ)
        → Answers o job s x → Answers o job t y → s ≡ t }
    ensures text { (o : Options) (job : List ℕ) (s t : Status) (x y : List ℕ)
        → HasOneText o → Answers o job s x → Answers o job t y → x ≡ y }
{
    weld_parse::laws::one_answer();
    weld_inputs::arguments::laws::one_answer();
    weld_inputs::laws::one_answer();
    one_script();
}

/// Each list of bytes has an answer to each command, so that no job is left out of the rules.
#[tactic(auto, using(crate::proofs::Asking::rows_asked))]
pub fn each_job_has_an_answer()
    ensures { (words : List (List ℕ)) (o : Options) (job : List ℕ) → Asks words o
        → (status : Status) × (text : List ℕ) × Answers o job status text }
{
    weld_parse::laws::parsed_or_refused();
    weld_parse::laws::parsed_programs();
    the_walk_is_typing();
    weld_inputs::arguments::laws::each_job_fits_or_not();
    weld_inputs::arguments::laws::arguments_have_their_types();
    typed_programs_are_never_stuck();
    each_program_has_a_normal_form();
    notes_play_no_part();
    meaning_looks_past_spelling();
    same_programs_have_same_counts();
    chains_look_past_notes();
    each_text_is_read();
    read_scripts_are_scripts();
    scripts_declare();
    weld_inputs::laws::each_job_fits_or_not();
    weld_inputs::laws::inputs_have_their_types();
    each_script_is_gathered();
    each_accepted_program_can_be_optimised();
    soak_is_a_script();
}
