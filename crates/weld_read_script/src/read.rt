//! The reader.
ghost use Rattle.std.specs.Prelude.{◌≡◌, ◌≤◌, length, map, All, IfOk};
ghost use Rattle.weld_read_script.specs.Keeping.{IsKnown};
ghost use Rattle.weld_read_script.specs.Reading as plain;

use crate::line::take_line;
use crate::steps::{Known, LineFault};
use std::alloc::{AllocError, Global};
use weld_script::Script;
use weld_tokens::has_too_many_bytes;
use weld_tree::Code;

/// Why a text is no script: a rule refuses a line, from 1; the text has too many bytes; or memory was wanting.
#[derive(Clone, Copy, Debug, PartialEq, Eq)]
pub enum ScriptFault {
    At(Code, u32),
    Size(Code),
    Memory,
}

/// The lines of a text of at most 262,144 bytes.
fn lines_of<'a>(alloc: Global, text: &'a [u8]) -> Result<Vec<&'a [u8]>, AllocError>
    requires { length text.now ≤ 262144 }
    ensures lines { IfOk result (λ v. map (λ x. x.now) v.items ≡ plain.lines text.now) }
    ensures few { IfOk result (λ v. length v.items ≤ 262145) }
    ensures short { IfOk result (λ v. All (λ x. length x.now ≤ 262144) v.items) }
{
    text.split(|byte| *byte == b'\n').collect(alloc)
}

/// The script of what is known behind the last line.
fn finish(known: Known, number: u32) -> Result<Script, ScriptFault>
    requires { IsKnown known }
    ensures { plain.Ends number known result }
{
    if known.shown.is_empty() {
        return Err(ScriptFault::At(Code::S7, number));
    }
    let Known {
        bound,
        made,
        types,
        declarations,
        calls,
        shown,
    } = known;
    Ok(Script { made, shown })
}

/// Takes the lines, one after another.
fn read_lines(alloc: Global, lines: &[&[u8]]) -> Result<Script, ScriptFault>
    requires few { length lines.now ≤ 262145 }
    requires short { All (λ x. length x.now ≤ 262144) lines.now }
    ensures { plain.LinesRead (map (λ x. x.now) lines.now) result }
{
    let mut known = Known::new(alloc);
    let mut number = 0u32;
    for line in lines {
        number += 1;
        match take_line(alloc, &mut known, line) {
            Ok(()) => {}
            Err(LineFault::Refused(code)) => return Err(ScriptFault::At(code, number)),
            Err(LineFault::Memory) => return Err(ScriptFault::Memory),
        }
    }
    finish(known, number)
}

/// Reads a script of library calls: the objects that its lines make, in order, and those that it shows. It is
/// refused with `Size` where the text has more than 262,144 bytes (M2), and else at the first line, from 1,
/// that breaks a rule: S1 where the line has none of the forms, S2 where a name is bound a second time, S3
/// where a name isn't bound, S4 where there is no such library or call, S5 where the arguments have a wrong
/// number or form, S6 where the types don't fit the call, S8 where there are too many calls, declarations or
/// shown names; of those at one line the lower number comes. S7 comes at the text's end, where nothing was
/// shown. `Memory` comes for want of memory alone.
pub fn read_script(alloc: Global, text: &[u8]) -> Result<Script, ScriptFault>
    ensures { plain.IsRead text.now result }
{
    if has_too_many_bytes(text) {
        return Err(ScriptFault::Size(Code::M2));
    }
    match lines_of(alloc, text) {
        Ok(lines) => read_lines(alloc, lines.as_slice()),
        Err(_) => Err(ScriptFault::Memory),
    }
}
