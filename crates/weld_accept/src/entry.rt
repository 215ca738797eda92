use weld_grammar::{Item, Rule};

/// What is pending: an item that is still to come, or the end of a rule that was opened.
#[derive(Clone, Copy)]
pub enum Entry {
    Due(Item),
    End(Rule),
}
