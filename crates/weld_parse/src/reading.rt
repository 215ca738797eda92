ghost use Rattle.std.specs.Prelude.{◌≡◌, ◌≢◌, false, None, IfOk, IfErr};
ghost use Rattle.weld_tokens.specs.Order.{first_number_out_of_range};
ghost use Rattle.weld_tokens.specs.Tokens.{AreTokens};
ghost use Rattle.weld_tokens.specs.TokenLimits as limits;
ghost use Rattle.weld_reduce.specs.Programs.{IsRead};
ghost use Rattle.weld_parse.specs.Parses.{Parses, IsRefused};
ghost use Rattle.weld_parse.specs.Judged.{IsAccepted, IsRefusedTree};

use crate::findings::{found_in, place_at};
use crate::program::{Unread, read_program};
use std::alloc::Global;
use weld_grammar::terminals::Token;
use weld_reduce::Read;
use weld_spell::laws::programs_are_derived;
use weld_spell::measures::{fields_by_the_tree, parameters_by_the_tree, types_by_the_tree};
use weld_spell::programs::{derived_or_broken, numbers_by_the_tree, spelled_programs};
use weld_tokens::laws::classes_of_tokens;
use weld_tokens::{
    end_of, first_refusal_within, has_too_many_bytes, has_too_many_tokens, read_tokens,
};
use weld_tree::{Code, Program, Refusal};

/// The program that a text spells, its binders numbered in the order of the text. The text is refused by the first rule
/// that speaks, with its place where it has one: M2; X1; M3; X2; X3; M4 to M9; N1 and N2, the first in the text (with
/// the limits). Only want of memory may come in place of that.
pub fn parse(alloc: Global, text: &[u8]) -> Result<Program, Refusal>
    ensures program { IfOk result (λ program. Parses text.now program) }
    ensures refused { IfErr result (λ refusal. refusal ≢ Refusal.Memory
        → IsRefused text.now refusal) }
{
    if has_too_many_bytes(text) {
        return Err(Refusal::Size(Code::M2));
    }
    match read_tokens(alloc, text) {
        Err(refusal) => Err(refusal),
        Ok(tokens) => parse_tokens(alloc, text, tokens.as_slice()),
    }
}

/// The same of a text of these tokens, which isn't too long.
fn parse_tokens(alloc: Global, text: &[u8], tokens: &[Token]) -> Result<Program, Refusal>
    requires fits { limits.has_too_many_bytes text.now ≡ false }
    requires tokens_of { AreTokens text.now tokens.now }
    ensures program { IfOk result (λ program. Parses text.now program) }
    ensures refused { IfErr result (λ refusal. refusal ≢ Refusal.Memory
        → IsRefused text.now refusal) }
{
    derived_or_broken();
    programs_are_derived();
    numbers_by_the_tree();
    classes_of_tokens();
    if has_too_many_tokens(tokens) {
        return Err(Refusal::Size(Code::M3));
    }
    match read_program(alloc, tokens) {
        Ok(read) => judge(tokens, read),
        Err(Unread::Memory) => Err(Refusal::Memory),
        Err(Unread::Broken(number)) => {
            Err(Refusal::At(Code::X2, place_at(tokens, number, end_of(text))))
        }
        Err(Unread::OutOfRange(place)) => Err(Refusal::At(Code::X3, place)),
    }
}

/// The program that is read of tokens, few enough and whose numbers are of their kinds, or the first rule that refuses it.
fn judge(tokens: &[Token], read: Read) -> Result<Program, Refusal>
    requires few { limits.has_too_many_tokens tokens.now ≡ false }
    requires ranged { first_number_out_of_range tokens.now ≡ None }
    requires read { IsRead tokens.now read.params read.body.value read.misnamed }
    ensures program { IfOk result (λ program. IsAccepted tokens.now program) }
    ensures refused { IfErr result (λ refusal. IsRefusedTree tokens.now refusal) }
{
    numbers_by_the_tree();
    parameters_by_the_tree();
    fields_by_the_tree();
    types_by_the_tree();
    spelled_programs();
    let found = found_in(tokens, &read);
    match first_refusal_within(tokens, &found) {
        Some(refusal) => Err(refusal),
        None => {
            let Read { params, body, .. } = read;
            Ok(Program { params, body })
        }
    }
}
