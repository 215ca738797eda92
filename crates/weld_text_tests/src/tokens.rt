//! Tests of `weld_tokens`: texts and their tokens, wrong texts and the place where each is refused, and values at the
//! edges of their ranges.

#[cfg(test)]
mod limits;
#[cfg(test)]
mod literals;
#[cfg(test)]
mod texts;
