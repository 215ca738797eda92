//! Tests of `weld_tokens`: each limit at it and one past it.

#[cfg(test)]
mod lists;
#[cfg(test)]
mod trees;
