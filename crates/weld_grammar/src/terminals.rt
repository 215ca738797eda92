//! Tokens of Weld programs: their classes, and a token with its bytes and its place.

pub mod class;
pub mod reserved;
pub mod symbol;
pub mod token;
pub mod word;

pub use class::Class;
pub use reserved::Reserved;
pub use symbol::Symbol;
pub use token::Token;
pub use word::Word;
