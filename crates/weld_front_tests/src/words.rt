//! Tests of the words of the command line.

#[cfg(test)]
mod tests;
