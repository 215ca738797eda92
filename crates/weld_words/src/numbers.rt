//! Numbers and commands among the words.

ghost use Rattle.std.specs.Prelude.{Some};
ghost use Rattle.weld_words.specs.Found.{Names, Asks, text_in};

use crate::options::Command;

/// The command that a word names.
pub(crate) fn command_of(word: Option<&str>) -> Option<Command>
    ensures { Names (text_in word.entry) result }
{
    match word {
        Some("run") => Some(Command::Run),
        Some("check") => Some(Command::Check),
        Some("show") => Some(Command::Show),
        Some("session") => Some(Command::Session),
        Some("soak") => Some(Command::Soak),
        _ => None,
    }
}

/// The number that a text asks for, from `least` to `most`; the default where there is no text.
pub(crate) fn number_of(text: Option<&str>, least: u32, most: u32, default: u32) -> Option<u32>
    ensures { Asks least most default (text_in text.entry) result }
{
    match text {
        Some(text) => in_range(text, least, most),
        None => Some(default),
    }
}

/// The number that a text is, if it lies from `least` to `most`.
fn in_range(text: &str, least: u32, most: u32) -> Option<u32>
    ensures { Asks least most 0 (Some text.now) result }
{
    match text.parse::<i64>() {
        Ok(x) => {
            if x < i64::from(least) || x > i64::from(most) {
                return None;
            }
            Some(x as u32)
        }
        Err(_) => None,
    }
}
