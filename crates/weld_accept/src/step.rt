use weld_grammar::{Rule, Terminal};

/// A step of a derivation in the order of the text: the next token is taken, as this terminal, or the rule ends, whose
/// tokens and rules are all behind.
#[derive(Clone, Copy)]
pub enum Step {
    Shift(Terminal),
    Reduce(Rule),
}
