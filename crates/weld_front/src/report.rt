//! The lines of a report.

ghost use Rattle.std.specs.Prelude.{◌≡◌, ◌++◌, IfOk, OnOk, string_bytes};
ghost use Rattle.weld_front.specs.Texts.{loops_line, marks_line, tiles_line, report_text};

use std::alloc::{AllocError, Global};
use weld_data::Text;
use weld_share::RunNote;

/// The loops of the program that was given and of the one that ran.
fn loops_line(alloc: Global, before: u64, after: u64) -> Result<String, AllocError>
    ensures { IfOk result (λ s. string_bytes s ≡ loops_line before after) }
{
    Ok(format!(in alloc; "loops {before} -> {after}\n")?)
}

/// The loops that append to one list once a row, and those that ran by lanes.
fn marks_line(alloc: Global, sized: u64, lanes: u64) -> Result<String, AllocError>
    ensures { IfOk result (λ s. string_bytes s ≡ marks_line sized lanes) }
{
    Ok(format!(in alloc; "sized {sized} lanes {lanes}\n")?)
}

/// The tiles and the rows of all evaluations of shared loops.
fn tiles_line(alloc: Global, tiles: u128, turns: u128) -> Result<String, AllocError>
    ensures { IfOk result (λ s. string_bytes s ≡ tiles_line tiles turns) }
{
    Ok(format!(in alloc; "tiles {tiles} turns {turns}\n")?)
}

/// Appends what a run counted, of a program that had so many loops.
pub(crate) fn push_report(
    alloc: Global,
    text: &mut Text,
    loops: u64,
    note: RunNote,
) -> Result<(), AllocError>
    ensures { OnOk result (text.new ≡ text.old ++ report_text loops note) }
{
    let first = loops_line(alloc, loops, note.loops)?;
    let second = marks_line(alloc, note.sized, note.lanes)?;
    let third = tiles_line(alloc, note.tiles, note.turns)?;
    text.push_all(first.as_bytes())?;
    text.push_all(second.as_bytes())?;
    text.push_all(third.as_bytes())
}
