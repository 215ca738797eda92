use crate::terminals::class::Class;
use crate::terminals::word::Word;
use weld_tree::Place;

/// A token of a program's text: its class, all its bytes, and the place of the first of them.
#[derive(Debug, Drop)]
pub struct Token {
    pub class: Class,
    pub word: Word,
    pub place: Place,
}
