ghost use Rattle.std.specs.Prelude.{◌≡◌, IfOk, map};
ghost use Rattle.std.specs.String.{string_bytes};
ghost use Rattle.weld_data.specs.View.{view_val};
ghost use Rattle.weld_tree.specs.HasValue.{HasValue};
ghost use Rattle.weld_front.specs.Concluding.{IsTold};
ghost use Rattle.weld_front.specs.Texts.{refusal_text, script_refusal_text, unfit_text, value_text, report_text, ok_text, fault_text};

use crate::asked::Asked;
use crate::report::push_report;
use crate::status::Status;
use std::alloc::{AllocError, Global};
use std::thread::Threads;
use weld_data::{Text, Val};
use weld_print::types::print_ty;
use weld_read_script::ScriptFault;
use weld_share::RunNote;
use weld_text_pieces::writing::write_value;
use weld_tree::{Code, Refusal, Ty};

/// What is written, and the status that the program ends with.
#[derive(Debug, Drop)]
pub struct Answer {
    pub status: Status,
    pub text: Text,
}

/// Why there is no answer: a read failed, or memory was wanting.
#[derive(Clone, Copy, Debug, PartialEq, Eq)]
pub enum NoAnswer {
    Read,
    Memory,
}

/// The answer with this text.
fn answer_of(status: Status, text: String) -> Answer
    ensures status { result.status ≡ status }
    ensures text { result.text ≡ string_bytes text }
{
    Answer {
        status,
        text: Text::from_vec(text.into_bytes()),
    }
}

/// The refusal of a text. Where memory was wanting there is none.
pub(crate) fn refused(alloc: Global, refusal: Refusal) -> Result<Answer, AllocError>
    ensures status { IfOk result (λ answer. answer.status ≡ Status.Refused) }
    ensures text { IfOk result (λ answer. answer.text ≡ refusal_text refusal) }
    ensures said { IfOk result (λ answer. refusal ≡ Refusal.Memory → ⊥) }
{
    match refusal {
        Refusal::At(code, place) => {
            let letters = code.text();
            let line = place.line;
            let column = place.column;
            Ok(answer_of(
                Status::Refused,
                format!(in alloc; "refused {letters} at {line}:{column}\n")?,
            ))
        }
        Refusal::Size(code) => {
            let letters = code.text();
            Ok(answer_of(Status::Refused, format!(in alloc; "refused {letters}\n")?))
        }
        Refusal::Memory => Err(AllocError),
    }
}

/// The refusal of a script. Where memory was wanting there is none.
pub(crate) fn script_refused(alloc: Global, fault: ScriptFault) -> Result<Answer, AllocError>
    ensures status { IfOk result (λ answer. answer.status ≡ Status.Refused) }
    ensures text { IfOk result (λ answer. answer.text ≡ script_refusal_text fault) }
    ensures said { IfOk result (λ answer. fault ≡ ScriptFault.Memory → ⊥) }
{
    match fault {
        ScriptFault::At(code, number) => {
            let letters = code.text();
            Ok(answer_of(
                Status::Refused,
                format!(in alloc; "refused {letters} at {number}:1\n")?,
            ))
        }
        ScriptFault::Size(code) => {
            let letters = code.text();
            Ok(answer_of(Status::Refused, format!(in alloc; "refused {letters}\n")?))
        }
        ScriptFault::Memory => Err(AllocError),
    }
}

/// What is said of data that don't fit.
pub(crate) fn unfit(alloc: Global, number: u64, code: Code) -> Result<Answer, AllocError>
    ensures status { IfOk result (λ answer. answer.status ≡ Status.Unfit) }
    ensures text { IfOk result (λ answer. answer.text ≡ unfit_text number code) }
{
    let letters = code.text();
    Ok(answer_of(
        Status::Unfit,
        format!(in alloc; "parameter {number}: {letters}\n")?,
    ))
}

/// A value's text, written by as many workers as are asked for.
fn shown(
    rt: &(impl Threads + Sync),
    alloc: Global,
    value: &Val,
    ty: &Ty,
    asked: Asked,
) -> Result<Text, AllocError>
    requires { HasValue ty.now (view_val value.now) }
    ensures { IfOk result (λ text. text ≡ value_text ty.now (view_val value.now)) }
{
    let mut text = write_value(rt, alloc, value, ty, asked.options.workers)?;
    text.push(b'\n')?;
    Ok(text)
}

/// A program's value, with the report behind it where one is wanted: what a run counted, of a program that had
/// so many loops. The text is the same for all workers.
pub(crate) fn done(
    rt: &(impl Threads + Sync),
    alloc: Global,
    value: &Val,
    ty: &Ty,
    asked: Asked,
    loops: u64,
    note: RunNote,
) -> Result<Answer, AllocError>
    requires { HasValue ty.now (view_val value.now) }
    ensures status { IfOk result (λ answer. answer.status ≡ Status.Done) }
    ensures text { IfOk result (λ answer. IsTold asked.options.report
        (λ lines. lines ≡ report_text loops note) (value_text ty.now (view_val value.now))
        answer.text) }
{
    let mut text = shown(rt, alloc, value, ty, asked)?;
    if asked.options.report {
        push_report(alloc, &mut text, loops, note)?;
    }
    Ok(Answer {
        status: Status::Done,
        text,
    })
}

/// The type of an accepted program.
pub(crate) fn told(alloc: Global, ty: &Ty) -> Result<Answer, AllocError>
    ensures status { IfOk result (λ answer. answer.status ≡ Status.Done) }
    ensures text { IfOk result (λ answer. answer.text ≡ ok_text ty.now) }
{
    let mut text = Text::copy_of(alloc, b"ok ")?;
    let spelled = print_ty(alloc, ty)?;
    text.push_all(spelled.as_slice())?;
    text.push(b'\n')?;
    Ok(Answer {
        status: Status::Done,
        text,
    })
}

/// The fault of a program.
pub(crate) fn fault(alloc: Global) -> Result<Answer, AllocError>
    ensures status { IfOk result (λ answer. answer.status ≡ Status.Fault) }
    ensures text { IfOk result (λ answer. answer.text ≡ fault_text) }
{
    Ok(Answer {
        status: Status::Fault,
        text: Text::copy_of(alloc, b"fault\n")?,
    })
}
