ghost use Rattle.std.specs.Prelude.{◌≡◌, IfOk, Err, map, string_bytes};
ghost use Rattle.std.specs.List.{list_all};
ghost use Rattle.weld_words.specs.Words.{IsForm};
ghost use Rattle.weld_words.specs.Found.{AllOf};
ghost use Rattle.weld_words.specs.Line.{may_stand};
ghost use Rattle.weld_words.specs.declared.options.Options.{Options};

use crate::command_line::find_in;
use crate::numbers::{command_of, number_of};
use crate::options::{Command, Options, WordsFault};
use std::alloc::Global;

/// Whether a word may be handed to clap: it doesn't begin with a hyphen, or it is two hyphens and more.
/// No option here has a short form, and `--` is no word of ours.
fn stands(word: &str) -> bool
    ensures { result ≡ may_stand word.now }
{
    match word.as_bytes() {
        [b'-', b'-', _, ..] => true,
        [b'-', ..] => false,
        _ => true,
    }
}

/// Whether each word may be.
fn all_stand(words: &[String]) -> bool
    ensures { result ≡ list_all (λ w. may_stand (string_bytes w)) words.now }
{
    words.iter().all(|word| stands(word.as_str()))
}

/// Reads the words that follow the program's name: exactly one command, `run`, `check`, `show`,
/// `session` or `soak`, and before or after it, each at most once and in any order, the options
/// `--workers` (1 to 64, else 4), `--cut` (1 to 2147483647, else 4096), `--seed` (0 to 2147483647,
/// else 1), `--rows` (0 to 1000000, else 1000), written `--name N` or `--name=N`, and `--report`. A
/// number is read as std reads an `i64`; where it is a word of its own it doesn't begin with `-`.
///
/// `Form` comes exactly where the words aren't of this form, `Memory` where memory is wanting.
pub fn read_words(alloc: Global, words: &[String]) -> Result<Options, WordsFault>
    ensures ok { IfOk result (IsForm (map string_bytes words.now)) }
    ensures form { result ≡ Err WordsFault.Form → (o : Options)
        → IsForm (map string_bytes words.now) o → ⊥ }
{
    if !all_stand(words) {
        return Err(WordsFault::Form);
    }
    let matches = match find_in(alloc, words) {
        Ok(matches) => matches,
        Err(fault) => return Err(fault),
    };
    let command = command_of(matches.get_str("command"));
    let workers = number_of(matches.get_str("workers"), 1, 64, 4);
    let cut = number_of(matches.get_str("cut"), 1, 2147483647, 4096);
    let seed = number_of(matches.get_str("seed"), 0, 2147483647, 1);
    let rows = number_of(matches.get_str("rows"), 0, 1000000, 1000);
    let report = matches.get_flag("report");
    match together(command, workers, cut, seed, rows, report) {
        Some(options) => Ok(options),
        None => Err(WordsFault::Form),
    }
}

/// The options, where each of the five is there.
fn together(
    command: Option<Command>,
    workers: Option<u32>,
    cut: Option<u32>,
    seed: Option<u32>,
    rows: Option<u32>,
    report: bool,
) -> Option<Options>
    ensures { AllOf command workers cut seed rows report result }
{
    match command {
        None => None,
        Some(command) => match (workers, cut, seed, rows) {
            (Some(workers), Some(cut), Some(seed), Some(rows)) => Some(Options {
                command,
                workers,
                cut,
                report,
                seed,
                rows,
            }),
            _ => None,
        },
    }
}
