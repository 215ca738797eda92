//! What a token that begins an operand opens, as data, and what an operator between two does: with these begins most of
//! what is opened.
ghost use Rattle.std.specs.Prelude.{◌≡◌, Some, None, reverse, MatchOption, IfSome, IsTrue};
ghost use Rattle.weld_grammar.specs.declared.terminals.class.Class.TheVariants as classes;
ghost use Rattle.weld_grammar.specs.Begins.{begins as begins_class};
ghost use Rattle.weld_accept.specs.Operand.{operand as operand_of, operator as operator_of, primary as primary_of};

use crate::entry::Entry;
use weld_grammar::terminals::{Class, Reserved, Symbol};
use weld_grammar::{Item, Rule, Terminal};

/// What an operand that begins an expression leaves on the stack, the next entry last.
static ENTRIES: [Entry; 17] = [
    Entry::End(Rule::Expr),
    Entry::End(Rule::Or),
    Entry::Due(Item::Repeated(Rule::OrPart)),
    Entry::End(Rule::And),
    Entry::Due(Item::Repeated(Rule::AndPart)),
    Entry::End(Rule::Equality),
    Entry::Due(Item::Repeated(Rule::EqualityPart)),
    Entry::End(Rule::Relation),
    Entry::Due(Item::Repeated(Rule::RelationPart)),
    Entry::End(Rule::Sum),
    Entry::Due(Item::Repeated(Rule::SumPart)),
    Entry::End(Rule::Product),
    Entry::Due(Item::Repeated(Rule::ProductPart)),
    Entry::End(Rule::Unary),
    Entry::End(Rule::Post),
    Entry::Due(Item::Repeated(Rule::FieldPart)),
    Entry::End(Rule::Primary),
];

/// What an operand that begins the rule leaves on the stack, the next entry last, where the rule is one of those that are
/// mostly begun so.
pub fn operand(rule: Rule) -> Option<&'static [Entry]>
    ensures { MatchOption result
        (operand_of rule ≡ None) (λ entries. operand_of rule ≡ Some (reverse entries.now)) }
{
    match rule {
        Rule::Expr => Some(&ENTRIES),
        Rule::Or => Some(&ENTRIES[1..]),
        Rule::Sum => Some(&ENTRIES[9..]),
        Rule::Product => Some(&ENTRIES[11..]),
        Rule::Unary => Some(&ENTRIES[13..]),
        Rule::Post => Some(&ENTRIES[14..]),
        Rule::Primary => Some(&ENTRIES[16..]),
        _ => None,
    }
}

/// What an operator of products leaves on the stack, the next entry last.
static PRODUCT: [Entry; 4] = [
    Entry::Due(Item::Repeated(Rule::ProductPart)),
    Entry::End(Rule::ProductPart),
    Entry::Due(Item::Part(Rule::Unary)),
    Entry::End(Rule::ProductOp),
];

static SUM: [Entry; 4] = [
    Entry::Due(Item::Repeated(Rule::SumPart)),
    Entry::End(Rule::SumPart),
    Entry::Due(Item::Part(Rule::Product)),
    Entry::End(Rule::SumOp),
];

static RELATION: [Entry; 4] = [
    Entry::Due(Item::Repeated(Rule::RelationPart)),
    Entry::End(Rule::RelationPart),
    Entry::Due(Item::Part(Rule::Sum)),
    Entry::End(Rule::RelationOp),
];

static EQUALITY: [Entry; 4] = [
    Entry::Due(Item::Repeated(Rule::EqualityPart)),
    Entry::End(Rule::EqualityPart),
    Entry::Due(Item::Part(Rule::Relation)),
    Entry::End(Rule::EqualityOp),
];

/// What an operator leaves on the stack, the next entry last, where it begins another operand of the rule's line.
pub fn operator(rule: Rule) -> Option<&'static [Entry]>
    ensures { MatchOption result
        (operator_of rule ≡ None) (λ entries. operator_of rule ≡ Some (reverse entries.now)) }
{
    match rule {
        Rule::ProductPart => Some(&PRODUCT),
        Rule::SumPart => Some(&SUM),
        Rule::RelationPart => Some(&RELATION),
        Rule::EqualityPart => Some(&EQUALITY),
        _ => None,
    }
}

/// What the token is that begins an operand: a terminal, or the first of a rule. None where it begins none.
pub fn primary(class: Class) -> Option<Item>
    ensures is { result ≡ primary_of class }
    ensures begins { IfSome result (λ item. IsTrue (begins_class item class)) }
{
    match class {
        Class::Name => Some(Item::One(Terminal::Name)),
        Class::Int | Class::Long => Some(Item::One(Terminal::Number)),
        Class::Chars => Some(Item::One(Terminal::Chars)),
        Class::Symbol(symbol) => bracketed(symbol),
        Class::Reserved(reserved) => worded(reserved),
        _ => None,
    }
}

fn bracketed(symbol: Symbol) -> Option<Item>
    ensures is { result ≡ primary_of (classes.Symbol symbol) }
    ensures begins { IfSome result (λ item. IsTrue (begins_class item (classes.Symbol symbol))) }
{
    match symbol {
        Symbol::LeftParen => Some(Item::Part(Rule::Paren)),
        Symbol::LeftBracket => Some(Item::Part(Rule::MakeVec)),
        Symbol::LeftBrace => Some(Item::Part(Rule::MakeStruct)),
        _ => None,
    }
}

fn worded(reserved: Reserved) -> Option<Item>
    ensures is { result ≡ primary_of (classes.Reserved reserved) }
    ensures begins { IfSome result (λ item. IsTrue (begins_class item
        (classes.Reserved reserved))) }
{
    match reserved {
        Reserved::True | Reserved::False => Some(Item::One(Terminal::Fixed(reserved))),
        Reserved::If => Some(Item::Part(Rule::If)),
        Reserved::Select => Some(Item::Part(Rule::Select)),
        Reserved::Lookup => Some(Item::Part(Rule::LookUp)),
        Reserved::Keyexists => Some(Item::Part(Rule::KeyExists)),
        Reserved::Len => Some(Item::Part(Rule::Len)),
        Reserved::Slice => Some(Item::Part(Rule::Slice)),
        Reserved::Merge => Some(Item::Part(Rule::Merge)),
        Reserved::Result => Some(Item::Part(Rule::Finish)),
        Reserved::For => Some(Item::Part(Rule::For)),
        Reserved::Iterate => Some(Item::Part(Rule::Iterate)),
        Reserved::I8
        | Reserved::I16
        | Reserved::I32
        | Reserved::I64
        | Reserved::U8
        | Reserved::U16
        | Reserved::U32
        | Reserved::U64 => Some(Item::Part(Rule::Cast)),
        Reserved::Vecbuilder
        | Reserved::Appender
        | Reserved::Merger
        | Reserved::Dictmerger
        | Reserved::Vecmerger
        | Reserved::Groupbuilder
        | Reserved::Groupmerger => Some(Item::Part(Rule::Build)),
        _ => None,
    }
}
