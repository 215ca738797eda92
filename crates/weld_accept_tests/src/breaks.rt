use std::alloc::{AllocError, Global};
use weld_accept::{Stop, derive};
use weld_grammar::Rule;
use weld_grammar::terminals::Token;

/// Where the tokens break the rule first; none where it derives them.
pub(crate) fn first_break(
    alloc: Global,
    rule: Rule,
    tokens: &[Token],
) -> Result<Option<usize>, AllocError> {
    match derive(alloc, rule, tokens) {
        Ok(_) => Ok(None),
        Err(Stop::Break(place)) => Ok(Some(place)),
        Err(Stop::Memory) => Err(AllocError),
    }
}
