//! What may begin a rule, as a test.
ghost use Rattle.std.specs.Prelude.{◌≡◌, ◌||◌};
ghost use Rattle.weld_grammar.specs.declared.rule.Rule.TheVariants as rules;
ghost use Rattle.weld_grammar.specs.Begins.{starts as starts_class, is_sign as is_sign_class, is_fixed as is_fixed_class, begins as begins_class, starts_int_kind as int_kind_class, starts_build as build_class, starts_form as form_class, starts_primary as primary_class, starts_unary as unary_class, starts_expr as expr_class, starts_type as type_class};

use crate::lead::{is_fixed, is_of, is_sign};
use weld_grammar::terminals::{Class, Reserved, Symbol};
use weld_grammar::{Item, Rule, Terminal};

fn starts_int_kind(class: Class) -> bool
    ensures { result ≡ int_kind_class class }
{
    match class {
        Class::Reserved(
            Reserved::I8
            | Reserved::I16
            | Reserved::I32
            | Reserved::I64
            | Reserved::U8
            | Reserved::U16
            | Reserved::U32
            | Reserved::U64,
        ) => true,
        _ => false,
    }
}

fn starts_build(class: Class) -> bool
    ensures { result ≡ build_class class }
{
    match class {
        Class::Reserved(
            Reserved::Vecbuilder
            | Reserved::Appender
            | Reserved::Merger
            | Reserved::Dictmerger
            | Reserved::Vecmerger
            | Reserved::Groupbuilder
            | Reserved::Groupmerger,
        ) => true,
        _ => false,
    }
}

fn starts_form(class: Class) -> bool
    ensures { result ≡ form_class class }
{
    match class {
        Class::Name | Class::Int | Class::Long | Class::Chars => true,
        Class::Symbol(Symbol::LeftParen | Symbol::LeftBracket | Symbol::LeftBrace) => true,
        Class::Reserved(
            Reserved::True
            | Reserved::False
            | Reserved::If
            | Reserved::Select
            | Reserved::Lookup
            | Reserved::Keyexists
            | Reserved::Len
            | Reserved::Slice
            | Reserved::Merge
            | Reserved::Result
            | Reserved::For
            | Reserved::Iterate,
        ) => true,
        _ => false,
    }
}

fn starts_primary(class: Class) -> bool
    ensures { result ≡ primary_class class }
{
    starts_form(class) || starts_int_kind(class) || starts_build(class)
}

fn starts_unary(class: Class) -> bool
    ensures { result ≡ unary_class class }
{
    is_sign(Symbol::Minus, class) || is_sign(Symbol::Bang, class) || starts_primary(class)
}

fn starts_expr(class: Class) -> bool
    ensures { result ≡ expr_class class }
{
    is_fixed(Reserved::Let, class) || starts_unary(class)
}

fn starts_type(class: Class) -> bool
    ensures { result ≡ type_class class }
{
    is_fixed(Reserved::Bool, class)
        || starts_int_kind(class)
        || is_fixed(Reserved::Vec, class)
        || is_sign(Symbol::LeftBrace, class)
        || is_fixed(Reserved::Dict, class)
        || starts_build(class)
}

fn is_either(first: Symbol, second: Symbol, class: Class) -> bool
    ensures { result ≡ (is_sign_class first class || is_sign_class second class) }
{
    is_sign(first, class) || is_sign(second, class)
}

fn is_either_word(first: Reserved, second: Reserved, class: Class) -> bool
    ensures { result ≡ (is_fixed_class first class || is_fixed_class second class) }
{
    is_fixed(first, class) || is_fixed(second, class)
}

fn compares(class: Class) -> bool
    ensures { result ≡ starts_class rules.RelationOp class }
{
    is_sign(Symbol::Less, class)
        || is_sign(Symbol::LessEquals, class)
        || is_sign(Symbol::Greater, class)
        || is_sign(Symbol::GreaterEquals, class)
}

fn multiplies(class: Class) -> bool
    ensures { result ≡ starts_class rules.ProductOp class }
{
    is_sign(Symbol::Star, class) || is_sign(Symbol::Slash, class) || is_sign(Symbol::Percent, class)
}

fn combines(class: Class) -> bool
    ensures { result ≡ starts_class rules.MergeOp class }
{
    is_sign(Symbol::Plus, class)
        || is_sign(Symbol::Star, class)
        || is_fixed(Reserved::Min, class)
        || is_fixed(Reserved::Max, class)
}

fn starts_program(class: Class) -> bool
    ensures { result ≡ starts_class rules.Program class }
{
    is_sign(Symbol::BarBar, class) || is_sign(Symbol::Bar, class) || starts_expr(class)
}

fn starts_rows(class: Class) -> bool
    ensures { result ≡ starts_class rules.Rows class }
{
    is_fixed(Reserved::Zip, class) || is_fixed(Reserved::Iter, class) || starts_expr(class)
}

fn starts_leg(class: Class) -> bool
    ensures { result ≡ starts_class rules.Leg class }
{
    is_fixed(Reserved::Iter, class) || starts_expr(class)
}

fn starts_kind(class: Class) -> bool
    ensures { result ≡ starts_class rules.Kind class }
{
    is_fixed(Reserved::Bool, class) || starts_int_kind(class)
}

/// Whether a token of the class may begin the rule.
pub fn starts(rule: Rule, class: Class) -> bool
    ensures { result ≡ starts_class rule class }
{
    match rule {
        Rule::Program => starts_program(class),
        Rule::WithoutParams => is_sign(Symbol::BarBar, class),
        Rule::WithParams => is_sign(Symbol::Bar, class),
        Rule::NextParam => is_sign(Symbol::Comma, class),
        Rule::Param => is_of(Terminal::Word, class),
        Rule::Expr => starts_expr(class),
        Rule::Let => is_fixed(Reserved::Let, class),
        Rule::Note => is_sign(Symbol::Colon, class),
        Rule::Or => starts_unary(class),
        Rule::OrPart => is_sign(Symbol::BarBar, class),
        Rule::And => starts_unary(class),
        Rule::AndPart => is_sign(Symbol::AndAnd, class),
        Rule::Equality => starts_unary(class),
        Rule::EqualityPart => is_either(Symbol::EqualsEquals, Symbol::BangEquals, class),
        Rule::EqualityOp => is_either(Symbol::EqualsEquals, Symbol::BangEquals, class),
        Rule::Relation => starts_unary(class),
        Rule::RelationPart => compares(class),
        Rule::RelationOp => compares(class),
        Rule::Sum => starts_unary(class),
        Rule::SumPart => is_either(Symbol::Plus, Symbol::Minus, class),
        Rule::SumOp => is_either(Symbol::Plus, Symbol::Minus, class),
        Rule::Product => starts_unary(class),
        Rule::ProductPart => multiplies(class),
        Rule::ProductOp => multiplies(class),
        Rule::Unary => starts_unary(class),
        Rule::Minus => is_sign(Symbol::Minus, class),
        Rule::Minused => starts_unary(class),
        Rule::Not => is_sign(Symbol::Bang, class),
        Rule::Post => starts_primary(class),
        Rule::FieldPart => is_sign(Symbol::Dot, class),
        Rule::Primary => starts_primary(class),
        Rule::Paren => is_sign(Symbol::LeftParen, class),
        Rule::MakeVec => is_sign(Symbol::LeftBracket, class),
        Rule::MakeStruct => is_sign(Symbol::LeftBrace, class),
        Rule::NextExpr => is_sign(Symbol::Comma, class),
        Rule::If => is_fixed(Reserved::If, class),
        Rule::Select => is_fixed(Reserved::Select, class),
        Rule::LookUp => is_fixed(Reserved::Lookup, class),
        Rule::KeyExists => is_fixed(Reserved::Keyexists, class),
        Rule::Len => is_fixed(Reserved::Len, class),
        Rule::Slice => is_fixed(Reserved::Slice, class),
        Rule::Merge => is_fixed(Reserved::Merge, class),
        Rule::Finish => is_fixed(Reserved::Result, class),
        Rule::For => is_fixed(Reserved::For, class),
        Rule::Iterate => is_fixed(Reserved::Iterate, class),
        Rule::Cast => starts_int_kind(class),
        Rule::Rows => starts_rows(class),
        Rule::Zip => is_fixed(Reserved::Zip, class),
        Rule::NextLeg => is_sign(Symbol::Comma, class),
        Rule::Leg => starts_leg(class),
        Rule::Iter => is_fixed(Reserved::Iter, class),
        Rule::Bind => is_of(Terminal::Word, class),
        Rule::Build => starts_build(class),
        Rule::ListBuild => is_either_word(Reserved::Vecbuilder, Reserved::Appender, class),
        Rule::TotalBuild => is_fixed(Reserved::Merger, class),
        Rule::KeyedBuild => is_fixed(Reserved::Dictmerger, class),
        Rule::CellsBuild => is_fixed(Reserved::Vecmerger, class),
        Rule::GroupsBuild => is_either_word(Reserved::Groupbuilder, Reserved::Groupmerger, class),
        Rule::Start => is_sign(Symbol::LeftParen, class),
        Rule::AnyType => starts_type(class),
        Rule::VecType => is_fixed(Reserved::Vec, class),
        Rule::StructType => is_sign(Symbol::LeftBrace, class),
        Rule::NextType => is_sign(Symbol::Comma, class),
        Rule::DictType => is_fixed(Reserved::Dict, class),
        Rule::ListType => is_either_word(Reserved::Vecbuilder, Reserved::Appender, class),
        Rule::TotalType => is_fixed(Reserved::Merger, class),
        Rule::KeyedType => is_fixed(Reserved::Dictmerger, class),
        Rule::CellsType => is_fixed(Reserved::Vecmerger, class),
        Rule::GroupsType => is_either_word(Reserved::Groupbuilder, Reserved::Groupmerger, class),
        Rule::ListWord => is_either_word(Reserved::Vecbuilder, Reserved::Appender, class),
        Rule::GroupsWord => is_either_word(Reserved::Groupbuilder, Reserved::Groupmerger, class),
        Rule::MergeOp => combines(class),
        Rule::Kind => starts_kind(class),
        Rule::IntKind => starts_int_kind(class),
    }
}

/// Whether a token of the class may begin the item.
#[inline(always)]
pub fn begins(item: Item, class: Class) -> bool
    ensures { result ≡ begins_class item class }
{
    match item {
        Item::One(terminal) => is_of(terminal, class),
        Item::Part(rule) => starts(rule, class),
        Item::Optional(rule) => starts(rule, class),
        Item::Repeated(rule) => starts(rule, class),
    }
}
