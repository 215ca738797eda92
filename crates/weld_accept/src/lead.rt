//! What may begin an item, as a test.
ghost use Rattle.std.specs.Prelude.{◌≡◌};
ghost use Rattle.weld_grammar.specs.Symbols.{symbol_number};
ghost use Rattle.weld_grammar.specs.ReservedWords.{reserved_number};
ghost use Rattle.weld_grammar.specs.Grammar.{is_of as is_of_class};
ghost use Rattle.weld_grammar.specs.Begins.{is_sign as is_sign_class, is_fixed as is_fixed_class};

use weld_grammar::Terminal;
use weld_grammar::terminals::{Class, Reserved, Symbol};

/// The symbol's place among all.
fn number_of_symbol(symbol: Symbol) -> u8
    ensures { result ≡ symbol_number symbol }
{
    match symbol {
        Symbol::LeftParen => 0,
        Symbol::RightParen => 1,
        Symbol::LeftBracket => 2,
        Symbol::RightBracket => 3,
        Symbol::LeftBrace => 4,
        Symbol::RightBrace => 5,
        Symbol::Comma => 6,
        Symbol::Semicolon => 7,
        Symbol::Colon => 8,
        Symbol::Dot => 9,
        Symbol::Bar => 10,
        Symbol::BarBar => 11,
        Symbol::AndAnd => 12,
        Symbol::Bang => 13,
        Symbol::Equals => 14,
        Symbol::EqualsEquals => 15,
        Symbol::BangEquals => 16,
        Symbol::Less => 17,
        Symbol::LessEquals => 18,
        Symbol::Greater => 19,
        Symbol::GreaterEquals => 20,
        Symbol::Plus => 21,
        Symbol::Minus => 22,
        Symbol::Star => 23,
        Symbol::Slash => 24,
        Symbol::Percent => 25,
    }
}

/// The word's place among all.
fn number_of_reserved(reserved: Reserved) -> u8
    ensures { result ≡ reserved_number reserved }
{
    match reserved {
        Reserved::Let => 0,
        Reserved::If => 1,
        Reserved::Select => 2,
        Reserved::Lookup => 3,
        Reserved::Keyexists => 4,
        Reserved::Len => 5,
        Reserved::Slice => 6,
        Reserved::Merge => 7,
        Reserved::Result => 8,
        Reserved::For => 9,
        Reserved::Iterate => 10,
        Reserved::Zip => 11,
        Reserved::Iter => 12,
        Reserved::Vec => 13,
        Reserved::Dict => 14,
        Reserved::Bool => 15,
        Reserved::I8 => 16,
        Reserved::I16 => 17,
        Reserved::I32 => 18,
        Reserved::I64 => 19,
        Reserved::U8 => 20,
        Reserved::U16 => 21,
        Reserved::U32 => 22,
        Reserved::U64 => 23,
        Reserved::Vecbuilder => 24,
        Reserved::Appender => 25,
        Reserved::Merger => 26,
        Reserved::Dictmerger => 27,
        Reserved::Vecmerger => 28,
        Reserved::Groupbuilder => 29,
        Reserved::Groupmerger => 30,
        Reserved::True => 31,
        Reserved::False => 32,
        Reserved::Min => 33,
        Reserved::Max => 34,
        Reserved::Macro => 35,
    }
}

pub fn is_sign(symbol: Symbol, class: Class) -> bool
    ensures { result ≡ is_sign_class symbol class }
{
    match class {
        Class::Symbol(other) => number_of_symbol(symbol) == number_of_symbol(other),
        _ => false,
    }
}

pub fn is_fixed(reserved: Reserved, class: Class) -> bool
    ensures { result ≡ is_fixed_class reserved class }
{
    match class {
        Class::Reserved(other) => number_of_reserved(reserved) == number_of_reserved(other),
        _ => false,
    }
}

/// Whether a token of the class is the terminal.
pub fn is_of(terminal: Terminal, class: Class) -> bool
    ensures { result ≡ is_of_class terminal class }
{
    match terminal {
        Terminal::Sign(symbol) => is_sign(symbol, class),
        Terminal::Fixed(reserved) => is_fixed(reserved, class),
        Terminal::Word => matches!(class, Class::Name | Class::Reserved(_)),
        Terminal::Name => matches!(class, Class::Name),
        Terminal::Number => matches!(class, Class::Int | Class::Long),
        Terminal::Field => matches!(class, Class::Field),
        Terminal::Chars => matches!(class, Class::Chars),
    }
}
