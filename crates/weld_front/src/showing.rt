ghost use Rattle.std.specs.Prelude.{◌≡◌, ℕ, List, IfOk};
ghost use Rattle.weld_tree.specs.Program.{ProgramTree};
ghost use Rattle.weld_check_types.specs.Notes.{ProgramIsNoted};
ghost use Rattle.weld_print.specs.Texts.{TextSpells};
ghost use Rattle.weld_check_types.specs.Unnoted.{IsSameButNotes};
ghost use Rattle.weld_front.specs.Answer.{IsShown, ShowAnswers};

use crate::accepting::{Checked, accept_text};
use crate::answer::{Answer, refused};
use crate::status::Status;
use std::alloc::{AllocError, Global};
use weld_check_types::unnoted::notes_play_no_part;
use weld_data::Text;
use weld_job::Job;
use weld_meaning::Accepted;
use weld_meaning::laws::meaning_looks_past_spelling;
use weld_passes::laws::chains_look_past_notes;
use weld_passes::optimise;
use weld_print::print;
use weld_tree::laws::same_programs_have_same_counts;

/// The text of the optimised program.
fn shown_text(alloc: Global, program: Accepted) -> Result<Text, AllocError>
    requires { ProgramIsNoted program }
    ensures { IfOk result (λ shown. (text : List ℕ) (s : ProgramTree) → TextSpells text s
        → IsSameButNotes s program → IsShown program shown) }
{
    let optimised = optimise(alloc, program)?;
    let mut text = print(alloc, optimised.accepted().program())?;
    text.push(b'\n')?;
    Ok(text)
}

/// The optimised program of an accepted one.
fn show(alloc: Global, checked: Checked) -> Result<Answer, AllocError>
    requires { ProgramIsNoted checked.program }
    ensures status { IfOk result (λ answer. answer.status ≡ Status.Done) }
    ensures text { IfOk result (λ answer. (text : List ℕ) (s : ProgramTree) → TextSpells text s
        → IsSameButNotes s checked.program → IsShown checked.program answer.text) }
{
    let text = shown_text(alloc, checked.program)?;
    Ok(Answer {
        status: Status::Done,
        text,
    })
}

/// What `show` answers to a job that isn't too long.
pub(crate) fn answer_show(alloc: Global, job: &Job) -> Result<Answer, AllocError>
    ensures { IfOk result (λ answer. ShowAnswers job.now answer.status answer.text) }
{
    notes_play_no_part();
    meaning_looks_past_spelling();
    same_programs_have_same_counts();
    chains_look_past_notes();
    match accept_text(alloc, job.text()) {
        Ok(checked) => show(alloc, checked),
        Err(refusal) => refused(alloc, refusal),
    }
}
