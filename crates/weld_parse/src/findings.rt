//! What the grammar finds in tokens.
ghost use Rattle.std.specs.Prelude.{◌≡◌, None};
ghost use Rattle.weld_parse.specs.Findings as findings;
ghost use Rattle.weld_tokens.specs.Order as order;
ghost use Rattle.weld_tokens.specs.Depth as depth;
ghost use Rattle.weld_tokens.specs.Lets as lets;
ghost use Rattle.weld_tokens.specs.Lists as lists;

use weld_grammar::terminals::Token;
use weld_reduce::Read;
use weld_tokens::Findings;
use weld_tokens::text_limits::{
    first_field_too_many, first_parameter_too_many, first_type_too_large, node_limits,
};
use weld_tree::Place;

/// The place of the token of this number, counted from 0; the end where there are no more tokens.
#[tactic(auto, using(crate::proofs::Order::at_token, crate::proofs::Order::at_end))]
pub(crate) fn place_at(tokens: &[Token], number: usize, end: Place) -> Place
    ensures { result ≡ findings.place_at tokens.now number end }
{
    if number < tokens.len() {
        tokens[number].place
    } else {
        end
    }
}

/// What is found in the tokens of a program, all of whose numbers are of their kinds, by the tokens and by what is read of
/// them.
pub(crate) fn found_in(tokens: &[Token], read: &Read) -> Findings
    requires { order.first_number_out_of_range tokens.now ≡ None }
    ensures ungrammatical { result.ungrammatical ≡ None }
    ensures out_of_range { result.out_of_range ≡ order.first_number_out_of_range tokens.now }
    ensures too_deep { result.too_deep ≡ depth.first_deep_node read.now.body.value }
    ensures too_many_lets { result.too_many_lets ≡ lets.has_too_many_lets read.now.body.value }
    ensures too_large_type { result.too_large_type ≡ lists.first_type_too_large tokens.now }
    ensures too_many_parameters { result.too_many_parameters
        ≡ lists.first_parameter_too_many tokens.now }
    ensures too_many_fields { result.too_many_fields ≡ lists.first_field_too_many tokens.now }
    ensures misnamed { result.misnamed ≡ read.now.misnamed }
{
    let (too_deep, too_many_lets) = node_limits(&read.body);
    Findings {
        ungrammatical: None,
        out_of_range: None,
        too_deep,
        too_many_lets,
        too_large_type: first_type_too_large(tokens),
        too_many_parameters: first_parameter_too_many(tokens),
        too_many_fields: first_field_too_many(tokens),
        misnamed: read.misnamed,
    }
}
