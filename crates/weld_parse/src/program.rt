//! Programs from tokens.
ghost use Rattle.std.specs.Prelude.{◌≡◌, ◌<◌, None, IfOk, IfErr, length};
ghost use Rattle.weld_tokens.specs.Order.{first_number_out_of_range as first_out_of_range};
ghost use Rattle.weld_reduce.specs.Programs.{AreOfTheirClasses, IsRead};
ghost use Rattle.weld_parse.specs.Unread.{WhyUnread};

use std::alloc::Global;
use weld_accept::{Stop, derive};
use weld_grammar::Rule;
use weld_grammar::terminals::Token;
use weld_reduce::laws::derivations_are_over_tokens;
use weld_reduce::{Read, spell};
use weld_tokens::first_number_out_of_range;
use weld_tree::Place;

/// Why tokens aren't read as a program.
#[derive(Clone, Copy, Debug, PartialEq, Eq)]
pub enum Unread {
    /// They break the grammar first at the token of this number, counted from 0; at the end where that is their number.
    Broken(usize),
    /// The number at this place is the first that its kind doesn't have.
    OutOfRange(Place),
    /// Memory is wanting.
    Memory,
}

/// The program that tokens spell, each of which has the class of its bytes, with the first of its names that is refused. There are fewer tokens than binders have numbers.
pub fn read_program(alloc: Global, tokens: &[Token]) -> Result<Read, Unread>
    requires classes { AreOfTheirClasses tokens.now }
    requires few { length tokens.now < 4294967296 }
    ensures read { IfOk result (λ read. IsRead tokens.now read.params read.body.value
        read.misnamed) }
    ensures ranged { IfOk result (λ _. first_out_of_range tokens.now ≡ None) }
    ensures unread { IfErr result (λ why. WhyUnread tokens.now why) }
{
    derivations_are_over_tokens();
    match derive(alloc, Rule::Program, tokens) {
        Err(Stop::Memory) => Err(Unread::Memory),
        Err(Stop::Break(number)) => Err(Unread::Broken(number)),
        Ok(steps) => {
            // (a number out of its range has no value)
            if let Some(place) = first_number_out_of_range(tokens) {
                return Err(Unread::OutOfRange(place));
            }
            match spell(alloc, tokens, steps.as_slice()) {
                Ok(read) => Ok(read),
                Err(_) => Err(Unread::Memory),
            }
        }
    }
}
