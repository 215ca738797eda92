//! The table of the grammar as data of the program.
ghost use Rattle.std.specs.Prelude.{◌≡◌};
ghost use Rattle.weld_grammar.specs.Grammar.{body as body_of};
ghost use Rattle.weld_accept.specs.Table.{view_body};

use weld_grammar::terminals::{Reserved, Symbol};
use weld_grammar::{Item, Rule, Terminal};

/// What a rule stands for: items one after another, or one of these items.
#[derive(Clone, Copy)]
pub enum Production {
    All(&'static [Item]),
    OneOf(&'static [Item]),
}

static PROGRAM: [Item; 3] = [
    Item::Part(Rule::WithoutParams),
    Item::Part(Rule::WithParams),
    Item::Part(Rule::Expr),
];

static WITHOUT_PARAMS: [Item; 2] = [
    Item::One(Terminal::Sign(Symbol::BarBar)),
    Item::Part(Rule::Expr),
];

static WITH_PARAMS: [Item; 5] = [
    Item::One(Terminal::Sign(Symbol::Bar)),
    Item::Part(Rule::Param),
    Item::Repeated(Rule::NextParam),
    Item::One(Terminal::Sign(Symbol::Bar)),
    Item::Part(Rule::Expr),
];

static NEXT_PARAM: [Item; 2] = [
    Item::One(Terminal::Sign(Symbol::Comma)),
    Item::Part(Rule::Param),
];

static PARAM: [Item; 3] = [
    Item::One(Terminal::Word),
    Item::One(Terminal::Sign(Symbol::Colon)),
    Item::Part(Rule::AnyType),
];

static EXPR: [Item; 2] = [Item::Part(Rule::Let), Item::Part(Rule::Or)];

static LET: [Item; 7] = [
    Item::One(Terminal::Fixed(Reserved::Let)),
    Item::One(Terminal::Word),
    Item::Optional(Rule::Note),
    Item::One(Terminal::Sign(Symbol::Equals)),
    Item::Part(Rule::Or),
    Item::One(Terminal::Sign(Symbol::Semicolon)),
    Item::Part(Rule::Expr),
];

static NOTE: [Item; 2] = [
    Item::One(Terminal::Sign(Symbol::Colon)),
    Item::Part(Rule::AnyType),
];

static OR: [Item; 2] = [Item::Part(Rule::And), Item::Repeated(Rule::OrPart)];

static OR_PART: [Item; 2] = [
    Item::One(Terminal::Sign(Symbol::BarBar)),
    Item::Part(Rule::And),
];

static AND: [Item; 2] = [Item::Part(Rule::Equality), Item::Repeated(Rule::AndPart)];

static AND_PART: [Item; 2] = [
    Item::One(Terminal::Sign(Symbol::AndAnd)),
    Item::Part(Rule::Equality),
];

static EQUALITY: [Item; 2] = [
    Item::Part(Rule::Relation),
    Item::Repeated(Rule::EqualityPart),
];

static EQUALITY_PART: [Item; 2] = [Item::Part(Rule::EqualityOp), Item::Part(Rule::Relation)];

static EQUALITY_OP: [Item; 2] = [
    Item::One(Terminal::Sign(Symbol::EqualsEquals)),
    Item::One(Terminal::Sign(Symbol::BangEquals)),
];

static RELATION: [Item; 2] = [Item::Part(Rule::Sum), Item::Repeated(Rule::RelationPart)];

static RELATION_PART: [Item; 2] = [Item::Part(Rule::RelationOp), Item::Part(Rule::Sum)];

static RELATION_OP: [Item; 4] = [
    Item::One(Terminal::Sign(Symbol::Less)),
    Item::One(Terminal::Sign(Symbol::LessEquals)),
    Item::One(Terminal::Sign(Symbol::Greater)),
    Item::One(Terminal::Sign(Symbol::GreaterEquals)),
];

static SUM: [Item; 2] = [Item::Part(Rule::Product), Item::Repeated(Rule::SumPart)];

static SUM_PART: [Item; 2] = [Item::Part(Rule::SumOp), Item::Part(Rule::Product)];

static SUM_OP: [Item; 2] = [
    Item::One(Terminal::Sign(Symbol::Plus)),
    Item::One(Terminal::Sign(Symbol::Minus)),
];

static PRODUCT: [Item; 2] = [Item::Part(Rule::Unary), Item::Repeated(Rule::ProductPart)];

static PRODUCT_PART: [Item; 2] = [Item::Part(Rule::ProductOp), Item::Part(Rule::Unary)];

static PRODUCT_OP: [Item; 3] = [
    Item::One(Terminal::Sign(Symbol::Star)),
    Item::One(Terminal::Sign(Symbol::Slash)),
    Item::One(Terminal::Sign(Symbol::Percent)),
];

static UNARY: [Item; 3] = [
    Item::Part(Rule::Minus),
    Item::Part(Rule::Not),
    Item::Part(Rule::Post),
];

static MINUS: [Item; 2] = [
    Item::One(Terminal::Sign(Symbol::Minus)),
    Item::Part(Rule::Minused),
];

static MINUSED: [Item; 2] = [Item::One(Terminal::Number), Item::Part(Rule::Unary)];

static NOT: [Item; 2] = [
    Item::One(Terminal::Sign(Symbol::Bang)),
    Item::Part(Rule::Unary),
];

static POST: [Item; 2] = [Item::Part(Rule::Primary), Item::Repeated(Rule::FieldPart)];

static FIELD_PART: [Item; 2] = [
    Item::One(Terminal::Sign(Symbol::Dot)),
    Item::One(Terminal::Field),
];

static PRIMARY: [Item; 20] = [
    Item::One(Terminal::Number),
    Item::One(Terminal::Chars),
    Item::One(Terminal::Fixed(Reserved::True)),
    Item::One(Terminal::Fixed(Reserved::False)),
    Item::One(Terminal::Name),
    Item::Part(Rule::Paren),
    Item::Part(Rule::MakeVec),
    Item::Part(Rule::MakeStruct),
    Item::Part(Rule::If),
    Item::Part(Rule::Select),
    Item::Part(Rule::LookUp),
    Item::Part(Rule::KeyExists),
    Item::Part(Rule::Len),
    Item::Part(Rule::Slice),
    Item::Part(Rule::Merge),
    Item::Part(Rule::Finish),
    Item::Part(Rule::For),
    Item::Part(Rule::Iterate),
    Item::Part(Rule::Cast),
    Item::Part(Rule::Build),
];

static PAREN: [Item; 3] = [
    Item::One(Terminal::Sign(Symbol::LeftParen)),
    Item::Part(Rule::Expr),
    Item::One(Terminal::Sign(Symbol::RightParen)),
];

static MAKE_VEC: [Item; 4] = [
    Item::One(Terminal::Sign(Symbol::LeftBracket)),
    Item::Part(Rule::Expr),
    Item::Repeated(Rule::NextExpr),
    Item::One(Terminal::Sign(Symbol::RightBracket)),
];

static MAKE_STRUCT: [Item; 4] = [
    Item::One(Terminal::Sign(Symbol::LeftBrace)),
    Item::Part(Rule::Expr),
    Item::Repeated(Rule::NextExpr),
    Item::One(Terminal::Sign(Symbol::RightBrace)),
];

static NEXT_EXPR: [Item; 2] = [
    Item::One(Terminal::Sign(Symbol::Comma)),
    Item::Part(Rule::Expr),
];

static IF: [Item; 8] = [
    Item::One(Terminal::Fixed(Reserved::If)),
    Item::One(Terminal::Sign(Symbol::LeftParen)),
    Item::Part(Rule::Expr),
    Item::One(Terminal::Sign(Symbol::Comma)),
    Item::Part(Rule::Expr),
    Item::One(Terminal::Sign(Symbol::Comma)),
    Item::Part(Rule::Expr),
    Item::One(Terminal::Sign(Symbol::RightParen)),
];

static SELECT: [Item; 8] = [
    Item::One(Terminal::Fixed(Reserved::Select)),
    Item::One(Terminal::Sign(Symbol::LeftParen)),
    Item::Part(Rule::Expr),
    Item::One(Terminal::Sign(Symbol::Comma)),
    Item::Part(Rule::Expr),
    Item::One(Terminal::Sign(Symbol::Comma)),
    Item::Part(Rule::Expr),
    Item::One(Terminal::Sign(Symbol::RightParen)),
];

static LOOK_UP: [Item; 6] = [
    Item::One(Terminal::Fixed(Reserved::Lookup)),
    Item::One(Terminal::Sign(Symbol::LeftParen)),
    Item::Part(Rule::Expr),
    Item::One(Terminal::Sign(Symbol::Comma)),
    Item::Part(Rule::Expr),
    Item::One(Terminal::Sign(Symbol::RightParen)),
];

static KEY_EXISTS: [Item; 6] = [
    Item::One(Terminal::Fixed(Reserved::Keyexists)),
    Item::One(Terminal::Sign(Symbol::LeftParen)),
    Item::Part(Rule::Expr),
    Item::One(Terminal::Sign(Symbol::Comma)),
    Item::Part(Rule::Expr),
    Item::One(Terminal::Sign(Symbol::RightParen)),
];

static LEN: [Item; 4] = [
    Item::One(Terminal::Fixed(Reserved::Len)),
    Item::One(Terminal::Sign(Symbol::LeftParen)),
    Item::Part(Rule::Expr),
    Item::One(Terminal::Sign(Symbol::RightParen)),
];

static SLICE: [Item; 8] = [
    Item::One(Terminal::Fixed(Reserved::Slice)),
    Item::One(Terminal::Sign(Symbol::LeftParen)),
    Item::Part(Rule::Expr),
    Item::One(Terminal::Sign(Symbol::Comma)),
    Item::Part(Rule::Expr),
    Item::One(Terminal::Sign(Symbol::Comma)),
    Item::Part(Rule::Expr),
    Item::One(Terminal::Sign(Symbol::RightParen)),
];

static MERGE: [Item; 6] = [
    Item::One(Terminal::Fixed(Reserved::Merge)),
    Item::One(Terminal::Sign(Symbol::LeftParen)),
    Item::Part(Rule::Expr),
    Item::One(Terminal::Sign(Symbol::Comma)),
    Item::Part(Rule::Expr),
    Item::One(Terminal::Sign(Symbol::RightParen)),
];

static FINISH: [Item; 4] = [
    Item::One(Terminal::Fixed(Reserved::Result)),
    Item::One(Terminal::Sign(Symbol::LeftParen)),
    Item::Part(Rule::Expr),
    Item::One(Terminal::Sign(Symbol::RightParen)),
];

static FOR: [Item; 15] = [
    Item::One(Terminal::Fixed(Reserved::For)),
    Item::One(Terminal::Sign(Symbol::LeftParen)),
    Item::Part(Rule::Rows),
    Item::One(Terminal::Sign(Symbol::Comma)),
    Item::Part(Rule::Expr),
    Item::One(Terminal::Sign(Symbol::Comma)),
    Item::One(Terminal::Sign(Symbol::Bar)),
    Item::Part(Rule::Bind),
    Item::One(Terminal::Sign(Symbol::Comma)),
    Item::Part(Rule::Bind),
    Item::One(Terminal::Sign(Symbol::Comma)),
    Item::Part(Rule::Bind),
    Item::One(Terminal::Sign(Symbol::Bar)),
    Item::Part(Rule::Expr),
    Item::One(Terminal::Sign(Symbol::RightParen)),
];

static ITERATE: [Item; 9] = [
    Item::One(Terminal::Fixed(Reserved::Iterate)),
    Item::One(Terminal::Sign(Symbol::LeftParen)),
    Item::Part(Rule::Expr),
    Item::One(Terminal::Sign(Symbol::Comma)),
    Item::One(Terminal::Sign(Symbol::Bar)),
    Item::Part(Rule::Bind),
    Item::One(Terminal::Sign(Symbol::Bar)),
    Item::Part(Rule::Expr),
    Item::One(Terminal::Sign(Symbol::RightParen)),
];

static CAST: [Item; 4] = [
    Item::Part(Rule::IntKind),
    Item::One(Terminal::Sign(Symbol::LeftParen)),
    Item::Part(Rule::Expr),
    Item::One(Terminal::Sign(Symbol::RightParen)),
];

static ROWS: [Item; 2] = [Item::Part(Rule::Zip), Item::Part(Rule::Leg)];

static ZIP: [Item; 7] = [
    Item::One(Terminal::Fixed(Reserved::Zip)),
    Item::One(Terminal::Sign(Symbol::LeftParen)),
    Item::Part(Rule::Leg),
    Item::One(Terminal::Sign(Symbol::Comma)),
    Item::Part(Rule::Leg),
    Item::Repeated(Rule::NextLeg),
    Item::One(Terminal::Sign(Symbol::RightParen)),
];

static NEXT_LEG: [Item; 2] = [
    Item::One(Terminal::Sign(Symbol::Comma)),
    Item::Part(Rule::Leg),
];

static LEG: [Item; 2] = [Item::Part(Rule::Iter), Item::Part(Rule::Expr)];

static ITER: [Item; 10] = [
    Item::One(Terminal::Fixed(Reserved::Iter)),
    Item::One(Terminal::Sign(Symbol::LeftParen)),
    Item::Part(Rule::Expr),
    Item::One(Terminal::Sign(Symbol::Comma)),
    Item::Part(Rule::Expr),
    Item::One(Terminal::Sign(Symbol::Comma)),
    Item::Part(Rule::Expr),
    Item::One(Terminal::Sign(Symbol::Comma)),
    Item::Part(Rule::Expr),
    Item::One(Terminal::Sign(Symbol::RightParen)),
];

static BIND: [Item; 2] = [Item::One(Terminal::Word), Item::Optional(Rule::Note)];

static BUILD: [Item; 5] = [
    Item::Part(Rule::ListBuild),
    Item::Part(Rule::TotalBuild),
    Item::Part(Rule::KeyedBuild),
    Item::Part(Rule::CellsBuild),
    Item::Part(Rule::GroupsBuild),
];

static LIST_BUILD: [Item; 4] = [
    Item::Part(Rule::ListWord),
    Item::One(Terminal::Sign(Symbol::LeftBracket)),
    Item::Part(Rule::AnyType),
    Item::One(Terminal::Sign(Symbol::RightBracket)),
];

static TOTAL_BUILD: [Item; 7] = [
    Item::One(Terminal::Fixed(Reserved::Merger)),
    Item::One(Terminal::Sign(Symbol::LeftBracket)),
    Item::Part(Rule::AnyType),
    Item::One(Terminal::Sign(Symbol::Comma)),
    Item::Part(Rule::MergeOp),
    Item::One(Terminal::Sign(Symbol::RightBracket)),
    Item::Optional(Rule::Start),
];

static KEYED_BUILD: [Item; 8] = [
    Item::One(Terminal::Fixed(Reserved::Dictmerger)),
    Item::One(Terminal::Sign(Symbol::LeftBracket)),
    Item::Part(Rule::AnyType),
    Item::One(Terminal::Sign(Symbol::Comma)),
    Item::Part(Rule::AnyType),
    Item::One(Terminal::Sign(Symbol::Comma)),
    Item::Part(Rule::MergeOp),
    Item::One(Terminal::Sign(Symbol::RightBracket)),
];

static CELLS_BUILD: [Item; 7] = [
    Item::One(Terminal::Fixed(Reserved::Vecmerger)),
    Item::One(Terminal::Sign(Symbol::LeftBracket)),
    Item::Part(Rule::AnyType),
    Item::One(Terminal::Sign(Symbol::Comma)),
    Item::Part(Rule::MergeOp),
    Item::One(Terminal::Sign(Symbol::RightBracket)),
    Item::Part(Rule::Start),
];

static GROUPS_BUILD: [Item; 6] = [
    Item::Part(Rule::GroupsWord),
    Item::One(Terminal::Sign(Symbol::LeftBracket)),
    Item::Part(Rule::AnyType),
    Item::One(Terminal::Sign(Symbol::Comma)),
    Item::Part(Rule::AnyType),
    Item::One(Terminal::Sign(Symbol::RightBracket)),
];

static START: [Item; 3] = [
    Item::One(Terminal::Sign(Symbol::LeftParen)),
    Item::Part(Rule::Expr),
    Item::One(Terminal::Sign(Symbol::RightParen)),
];

static ANY_TYPE: [Item; 9] = [
    Item::Part(Rule::Kind),
    Item::Part(Rule::VecType),
    Item::Part(Rule::StructType),
    Item::Part(Rule::DictType),
    Item::Part(Rule::ListType),
    Item::Part(Rule::TotalType),
    Item::Part(Rule::KeyedType),
    Item::Part(Rule::CellsType),
    Item::Part(Rule::GroupsType),
];

static VEC_TYPE: [Item; 4] = [
    Item::One(Terminal::Fixed(Reserved::Vec)),
    Item::One(Terminal::Sign(Symbol::LeftBracket)),
    Item::Part(Rule::AnyType),
    Item::One(Terminal::Sign(Symbol::RightBracket)),
];

static STRUCT_TYPE: [Item; 4] = [
    Item::One(Terminal::Sign(Symbol::LeftBrace)),
    Item::Part(Rule::AnyType),
    Item::Repeated(Rule::NextType),
    Item::One(Terminal::Sign(Symbol::RightBrace)),
];

static NEXT_TYPE: [Item; 2] = [
    Item::One(Terminal::Sign(Symbol::Comma)),
    Item::Part(Rule::AnyType),
];

static DICT_TYPE: [Item; 6] = [
    Item::One(Terminal::Fixed(Reserved::Dict)),
    Item::One(Terminal::Sign(Symbol::LeftBracket)),
    Item::Part(Rule::AnyType),
    Item::One(Terminal::Sign(Symbol::Comma)),
    Item::Part(Rule::AnyType),
    Item::One(Terminal::Sign(Symbol::RightBracket)),
];

static LIST_TYPE: [Item; 4] = [
    Item::Part(Rule::ListWord),
    Item::One(Terminal::Sign(Symbol::LeftBracket)),
    Item::Part(Rule::AnyType),
    Item::One(Terminal::Sign(Symbol::RightBracket)),
];

static TOTAL_TYPE: [Item; 6] = [
    Item::One(Terminal::Fixed(Reserved::Merger)),
    Item::One(Terminal::Sign(Symbol::LeftBracket)),
    Item::Part(Rule::AnyType),
    Item::One(Terminal::Sign(Symbol::Comma)),
    Item::Part(Rule::MergeOp),
    Item::One(Terminal::Sign(Symbol::RightBracket)),
];

static KEYED_TYPE: [Item; 8] = [
    Item::One(Terminal::Fixed(Reserved::Dictmerger)),
    Item::One(Terminal::Sign(Symbol::LeftBracket)),
    Item::Part(Rule::AnyType),
    Item::One(Terminal::Sign(Symbol::Comma)),
    Item::Part(Rule::AnyType),
    Item::One(Terminal::Sign(Symbol::Comma)),
    Item::Part(Rule::MergeOp),
    Item::One(Terminal::Sign(Symbol::RightBracket)),
];

static CELLS_TYPE: [Item; 6] = [
    Item::One(Terminal::Fixed(Reserved::Vecmerger)),
    Item::One(Terminal::Sign(Symbol::LeftBracket)),
    Item::Part(Rule::AnyType),
    Item::One(Terminal::Sign(Symbol::Comma)),
    Item::Part(Rule::MergeOp),
    Item::One(Terminal::Sign(Symbol::RightBracket)),
];

static GROUPS_TYPE: [Item; 6] = [
    Item::Part(Rule::GroupsWord),
    Item::One(Terminal::Sign(Symbol::LeftBracket)),
    Item::Part(Rule::AnyType),
    Item::One(Terminal::Sign(Symbol::Comma)),
    Item::Part(Rule::AnyType),
    Item::One(Terminal::Sign(Symbol::RightBracket)),
];

static LIST_WORD: [Item; 2] = [
    Item::One(Terminal::Fixed(Reserved::Vecbuilder)),
    Item::One(Terminal::Fixed(Reserved::Appender)),
];

static GROUPS_WORD: [Item; 2] = [
    Item::One(Terminal::Fixed(Reserved::Groupbuilder)),
    Item::One(Terminal::Fixed(Reserved::Groupmerger)),
];

static MERGE_OP: [Item; 4] = [
    Item::One(Terminal::Sign(Symbol::Plus)),
    Item::One(Terminal::Sign(Symbol::Star)),
    Item::One(Terminal::Fixed(Reserved::Min)),
    Item::One(Terminal::Fixed(Reserved::Max)),
];

static KIND: [Item; 2] = [
    Item::One(Terminal::Fixed(Reserved::Bool)),
    Item::Part(Rule::IntKind),
];

static INT_KIND: [Item; 8] = [
    Item::One(Terminal::Fixed(Reserved::I8)),
    Item::One(Terminal::Fixed(Reserved::I16)),
    Item::One(Terminal::Fixed(Reserved::I32)),
    Item::One(Terminal::Fixed(Reserved::I64)),
    Item::One(Terminal::Fixed(Reserved::U8)),
    Item::One(Terminal::Fixed(Reserved::U16)),
    Item::One(Terminal::Fixed(Reserved::U32)),
    Item::One(Terminal::Fixed(Reserved::U64)),
];

/// What the rule stands for.
pub fn body(rule: Rule) -> Production
    ensures { view_body result ≡ body_of rule }
{
    match rule {
        Rule::Program => Production::OneOf(&PROGRAM),
        Rule::WithoutParams => Production::All(&WITHOUT_PARAMS),
        Rule::WithParams => Production::All(&WITH_PARAMS),
        Rule::NextParam => Production::All(&NEXT_PARAM),
        Rule::Param => Production::All(&PARAM),
        Rule::Expr => Production::OneOf(&EXPR),
        Rule::Let => Production::All(&LET),
        Rule::Note => Production::All(&NOTE),
        Rule::Or => Production::All(&OR),
        Rule::OrPart => Production::All(&OR_PART),
        Rule::And => Production::All(&AND),
        Rule::AndPart => Production::All(&AND_PART),
        Rule::Equality => Production::All(&EQUALITY),
        Rule::EqualityPart => Production::All(&EQUALITY_PART),
        Rule::EqualityOp => Production::OneOf(&EQUALITY_OP),
        Rule::Relation => Production::All(&RELATION),
        Rule::RelationPart => Production::All(&RELATION_PART),
        Rule::RelationOp => Production::OneOf(&RELATION_OP),
        Rule::Sum => Production::All(&SUM),
        Rule::SumPart => Production::All(&SUM_PART),
        Rule::SumOp => Production::OneOf(&SUM_OP),
        Rule::Product => Production::All(&PRODUCT),
        Rule::ProductPart => Production::All(&PRODUCT_PART),
        Rule::ProductOp => Production::OneOf(&PRODUCT_OP),
        Rule::Unary => Production::OneOf(&UNARY),
        Rule::Minus => Production::All(&MINUS),
        Rule::Minused => Production::OneOf(&MINUSED),
        Rule::Not => Production::All(&NOT),
        Rule::Post => Production::All(&POST),
        Rule::FieldPart => Production::All(&FIELD_PART),
        Rule::Primary => Production::OneOf(&PRIMARY),
        Rule::Paren => Production::All(&PAREN),
        Rule::MakeVec => Production::All(&MAKE_VEC),
        Rule::MakeStruct => Production::All(&MAKE_STRUCT),
        Rule::NextExpr => Production::All(&NEXT_EXPR),
        Rule::If => Production::All(&IF),
        Rule::Select => Production::All(&SELECT),
        Rule::LookUp => Production::All(&LOOK_UP),
        Rule::KeyExists => Production::All(&KEY_EXISTS),
        Rule::Len => Production::All(&LEN),
        Rule::Slice => Production::All(&SLICE),
        Rule::Merge => Production::All(&MERGE),
        Rule::Finish => Production::All(&FINISH),
        Rule::For => Production::All(&FOR),
        Rule::Iterate => Production::All(&ITERATE),
        Rule::Cast => Production::All(&CAST),
        Rule::Rows => Production::OneOf(&ROWS),
        Rule::Zip => Production::All(&ZIP),
        Rule::NextLeg => Production::All(&NEXT_LEG),
        Rule::Leg => Production::OneOf(&LEG),
        Rule::Iter => Production::All(&ITER),
        Rule::Bind => Production::All(&BIND),
        Rule::Build => Production::OneOf(&BUILD),
        Rule::ListBuild => Production::All(&LIST_BUILD),
        Rule::TotalBuild => Production::All(&TOTAL_BUILD),
        Rule::KeyedBuild => Production::All(&KEYED_BUILD),
        Rule::CellsBuild => Production::All(&CELLS_BUILD),
        Rule::GroupsBuild => Production::All(&GROUPS_BUILD),
        Rule::Start => Production::All(&START),
        Rule::AnyType => Production::OneOf(&ANY_TYPE),
        Rule::VecType => Production::All(&VEC_TYPE),
        Rule::StructType => Production::All(&STRUCT_TYPE),
        Rule::NextType => Production::All(&NEXT_TYPE),
        Rule::DictType => Production::All(&DICT_TYPE),
        Rule::ListType => Production::All(&LIST_TYPE),
        Rule::TotalType => Production::All(&TOTAL_TYPE),
        Rule::KeyedType => Production::All(&KEYED_TYPE),
        Rule::CellsType => Production::All(&CELLS_TYPE),
        Rule::GroupsType => Production::All(&GROUPS_TYPE),
        Rule::ListWord => Production::OneOf(&LIST_WORD),
        Rule::GroupsWord => Production::OneOf(&GROUPS_WORD),
        Rule::MergeOp => Production::OneOf(&MERGE_OP),
        Rule::Kind => Production::OneOf(&KIND),
        Rule::IntKind => Production::OneOf(&INT_KIND),
    }
}
