use crate::rule::Rule;
use crate::terminal::Terminal;

/// One item of a production: a terminal, a rule, a rule that may be left out, or a rule any number of
/// times.
#[derive(Clone, Copy)]
pub enum Item {
    One(Terminal),
    Part(Rule),
    Optional(Rule),
    Repeated(Rule),
}
