//! The words as clap reads them: one flat command without help or a program's name.

ghost use Rattle.std.specs.Prelude.{◌≡◌, IfOk, map, string_bytes, true, false, Err};
ghost use Rattle.clap.specs.Words.{app_of, rule_of};
ghost use Rattle.weld_words.specs.Words.{IsForm};
ghost use Rattle.weld_words.specs.Line.{line, word_rule, value_rule, report_rule, may_stand};
ghost use Rattle.weld_words.specs.Found.{Finds};
ghost use Rattle.weld_words.specs.declared.options.Options.{Options};
ghost use Rattle.std.specs.List.{list_all};

use crate::options::WordsFault;
use clap::error::ErrorKind;
use clap::{Arg, ArgAction, ArgMatches, Command};
use std::alloc::{AllocError, Global};

/// An option with a value.
fn value_option<'a>(alloc: Global, name: &'a str) -> Arg<'a>
    ensures rule { rule_of result ≡ value_rule name.entry.now }
    ensures global { result.global ≡ false }
{
    Arg::new(alloc, name).long(name).action(ArgAction::Set)
}

/// The word of its own.
fn word_argument<'a>(alloc: Global) -> Arg<'a>
    ensures rule { rule_of result ≡ word_rule }
    ensures global { result.global ≡ false }
{
    Arg::new(alloc, "command").action(ArgAction::Set)
}

/// The option without a value.
fn report_option<'a>(alloc: Global) -> Arg<'a>
    ensures rule { rule_of result ≡ report_rule }
    ensures global { result.global ≡ false }
{
    Arg::new(alloc, "report")
        .long("report")
        .action(ArgAction::SetTrue)
}

/// The command line as clap is told of it.
fn command_line<'a>(alloc: Global) -> Result<Command<'a>, AllocError>
    ensures { IfOk result (λ c. app_of c ≡ line) }
{
    let command = Command::new(alloc, "weld")
        .no_binary_name(true)
        .disable_help_flag(true)
        .arg(word_argument(alloc))?
        .arg(value_option(alloc, "workers"))?
        .arg(value_option(alloc, "cut"))?
        .arg(value_option(alloc, "seed"))?
        .arg(value_option(alloc, "rows"))?
        .arg(report_option(alloc))?;
    Ok(command)
}

/// What clap finds in words that it may be asked to read.
pub(crate) fn find_in<'a>(alloc: Global, words: &'a [String]) -> Result<ArgMatches<'a>, WordsFault>
    requires { list_all (λ w. may_stand (string_bytes w)) words.now ≡ true }
    ensures ok { IfOk result (Finds (map string_bytes words.entry.now)) }
    ensures form { (result ≡ Err WordsFault.Form) → (o : Options)
        → IsForm (map string_bytes words.entry.now) o → ⊥ }
{
    let command = match command_line(alloc) {
        Ok(command) => command,
        Err(_) => return Err(WordsFault::Memory),
    };
    match command.try_get_matches_from(words) {
        Ok(matches) => Ok(matches),
        Err(error) => Err(fault_of(error.kind())),
    }
}

/// Why clap refused the words.
fn fault_of(kind: ErrorKind) -> WordsFault
    ensures { kind ≡ ErrorKind.OutOfMemory → result ≡ WordsFault.Memory }
{
    match kind {
        ErrorKind::OutOfMemory => WordsFault::Memory,
        _ => WordsFault::Form,
    }
}
